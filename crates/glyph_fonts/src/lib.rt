//! Letters as characters of soft fonts (docs/GLYPHS.md): the fonts that a job brings along, and its text. Nothing is promised of either.
#![tactic(auto)]

mod codes;
mod feeds;
mod fonts;
mod gaps;
mod layout;
mod pen;
mod permanence;
mod rests;
mod spacing;

pub use fonts::{append_fonts, append_unit};
pub use layout::{FontLayout, lay_out};
pub use pen::{Pen, append_text};
pub use permanence::{append_deletion, append_permanent};
