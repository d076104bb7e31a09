//! Soft fonts: headers and characters that a job sends, by font ID and character code (docs/LANGUAGE.md, "Soft fonts";
//! PCL 5 Printer Language Technical Reference Manual, "Soft Font Creation").
#![tactic(auto)]

mod compressed;
mod fields;
mod fonts;
mod glyph;
mod header;
mod sent_rows;

pub use fonts::{FontControl, Fonts};
pub use glyph::Glyph;
pub use header::FontInfo;
pub use sent_rows::{GlyphRows, SentRows};
