//! The rules and the shapes of pages, and where the ink of a row changes (docs/GLYPHS.md).
//!
//! A [`Collection`] takes pages and keeps their rules, and the shapes of what is left, each pattern once. Nothing is promised of what
//! is kept.
#![tactic(auto)]

mod bands;
mod baselines;
mod collecting;
mod dots;
mod drawing;
mod edges;
mod inked_pages;
mod level_rules;
mod page_rows;
mod pictures;
mod row_rules;
mod rows;
mod rules;
mod runs;
mod screening;
mod seen_pictures;
mod shapes;
mod tile_characters;
mod tile_counts;
mod tile_grids;
mod tiles;
mod upright_rules;
mod words;

pub use collecting::{Collection, PlacedShape};
pub use dots::{are_equal, ink_dots, row_at};
pub use edges::append_edges;
pub use row_rules::RowRules;
pub use rows::row_bytes;
pub use rules::{Rule, Rules, count_beside, ink_rules};
