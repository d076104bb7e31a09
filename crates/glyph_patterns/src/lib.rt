//! Patterns of dots, and letters: the words of what finds shapes and of what prints some of them as text (docs/GLYPHS.md).
//!
//! A [`Pattern`] is what a shape looks like, wherever it stands; [`Patterns`] keeps each once. Nothing is promised of what is kept.
#![tactic(auto)]

mod compression;
mod font_uses;
mod forms;
mod letters;
mod lists;
mod metrics;
mod numbers;
mod parts;
mod pattern_set;
mod patterns;
mod stamping;

pub use compression::append_compressed;
pub use font_uses::{FONT_CODES, FontUses, SELECTION_BYTES};
pub use forms::{FontKind, Form};
pub use letters::{Letter, LetterGlyph, Letters};
pub use lists::{add, number_of, quotient};
pub use metrics::{Metrics, find_metrics};
pub use numbers::{
    append_labelled, append_signed, append_word, digit_count, number_of_place, short_number,
};
pub use parts::{FINE, ROW_BYTES, Row, RowParts, in_fine_parts, sum_parts, sum_saved};
pub use pattern_set::Patterns;
pub use patterns::{Drawing, Pattern, PatternRows, row_bytes_of, rows_len};
pub use stamping::{Dot, StampInk, stamp};
