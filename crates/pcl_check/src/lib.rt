//! The tests of which a checker's yes is made: what a text is beside a page, whether a table bounds every page text that
//! prints the page, and whether a row table bounds all data of a row (docs/CERTIFICATE.md).
#![tactic(auto)]

mod costs;
mod edges;
mod places;
mod reading;

pub use edges::{
    LeastByCoders, RowLengths, first_bad_number, good_numbers_are_feasible,
    numbers_by_bounds_are_feasible,
};
pub use places::first_bad_place;
pub use reading::{TextVerdict, read_page_text};
