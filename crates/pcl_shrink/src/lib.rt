//! The smallest job that is found with the same pages (docs/SHRINK.md).
//!
//! A proposal is made by code of which nothing is promised but that it returns. It is performed and compared with the input, dot for
//! dot and in what it asks of the printer, before it is taken.
#![tactic(auto)]

mod asking;
mod candidate;
mod keeping;
mod laws;
mod letter_jobs;
mod looking;
mod proposals;
mod raster_jobs;
mod rasters;
mod reading;
mod shifts;
mod shrinking;
mod squares;
mod texts;
mod watching;

pub use candidate::{Candidate, Shrunk};
pub use laws::shrunk_jobs_have_the_same_pages;
pub use pcl_printers::{Doubt, Readers};
pub use reading::Terms;
pub use shrinking::{
    shrink, shrink_by, shrink_everywhere, shrink_everywhere_by, shrink_everywhere_watched,
    shrink_watched,
};
pub use watching::{NoWatcher, Pass, ShrinkWatcher};
