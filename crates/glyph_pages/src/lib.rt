//! Pages written with letters, the shapes that pages print again and again, as soft fonts or as macros, and with rules as rectangles
//! (docs/GLYPHS.md).
//!
//! A [`Lettering`] chooses which shapes of a collection are letters, and a [`PageWriter`] takes the pages of the collection again and
//! writes each as a raster of what is left, rectangles, and text, where that takes fewer bytes than another text of the page. [`Repeats`]
//! sends once, as macros, what stands in several pages. Nothing is promised of what is chosen or written: whoever takes it compares it
//! with the pages first.
#![tactic(auto)]

mod character_writing;
mod corners;
mod lettering;
mod macro_writing;
mod passages;
mod remains;
mod repeat_writing;
mod repeats;
mod rule_writing;
mod segments;
mod series;
mod shortening;
mod sparing;

pub use lettering::{Lettering, PageWriter};
pub use macro_writing::END_RASTER;
pub use remains::WholePage;
pub use repeats::{Repeats, text_hash};
pub use rule_writing::FIRST_ID;
