//! Many jobs, one after the other: each is written again, beside the digests of both, and a report says what came of it
//! (docs/BATCH.md). What writes one again is given. Nothing is promised of the report's text.
#![tactic(auto)]

mod batch;
mod job;
mod names;
mod paths;
mod reasons;
mod report;
mod rewriter;
mod sums;
mod writing;

pub use names::run_named;
pub use rewriter::Rewriter;
