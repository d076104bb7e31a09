//! What runs read and write, over any reader and writer: whole inputs, faults, watchers of pages that are done, and reporters.
#![tactic(auto)]

mod fault;
mod reading;
mod reporting;
mod watching;
mod writing;

pub use fault::Fault;
pub use reading::read_all;
pub use reporting::Reporter;
pub use watching::{Unwatched, Watcher, perform_watched};
pub use writing::{write_all, write_bytes};
