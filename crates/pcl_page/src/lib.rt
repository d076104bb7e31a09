//! Performing a job: its commands become pages of dots, which are handed over one at a time.
#![tactic(auto)]

mod accepting;
mod asks;
mod fonts;
mod interpreter;
mod job;
mod laws;
mod macros;
mod observing;
mod performer;
mod raster;
mod text;

pub use accepting::{first_accepted, is_accepted, page_count};
pub use asks::{AskedPage, Asks, Exit, PageStart};
pub use job::{
    one_meaning, perform, perform_asked, perform_by, perform_observed, read_pages, run, run_asked,
};
pub use laws::{accepted_by_drivers, some_meaning};
pub use observing::{
    Event, MarkShape, NoObserver, Observer, SeenCommand, SeenEnd, SeenMark, SeenRaster,
};
pub use pcl_bitmap::{Page, PageSink};
pub use pcl_env::Asked;
