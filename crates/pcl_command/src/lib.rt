//! What `pclmin` is asked for, done over any files, reader and writer; and jobs in memory compared and written again.
#![tactic(auto)]

mod certifying;
mod checks;
mod clashes;
mod comparisons;
mod difference_images;
mod passes;
mod profiles;
mod reporting;
mod rewriting;
mod running;

pub use comparisons::{compare_jobs, compared_at};
pub use rewriting::rewrite;
pub use running::carry_out;
