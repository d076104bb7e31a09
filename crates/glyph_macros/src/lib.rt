//! Letters as macros that send rasters (docs/GLYPHS.md): the macros that a job brings along, and the lines that run them. Nothing is
//! promised of either.
#![tactic(auto)]

mod blanks;
mod definitions;
mod following;
mod lines;
mod macro_layout;
mod macros;
mod marks;
mod permanence;
mod phrases;

pub use definitions::append_definitions;
pub use lines::append_lines;
pub use macro_layout::{MacroLayout, lay_out_macros};
pub use marks::Line;
pub use permanence::{append_deletion, append_permanent, append_settings};
