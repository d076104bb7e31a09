//! Where printers may read a job otherwise than docs/LANGUAGE.md (docs/PRINTERS.md). Nothing is promised
//! of what is found: it costs caution, never dots.
#![tactic(auto)]

mod asking;
mod calls;
mod cursor;
mod doubts;
mod edges;
mod fonts;
mod job_lines;
mod margins;
mod marks;
mod papers;
mod places;
mod printers;
mod rasters;
mod row_data;
mod widths;

pub use doubts::{Doubt, Readers};
pub use printers::Printers;
