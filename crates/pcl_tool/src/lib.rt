//! Whole runs: a job is read, performed, and written again or checked, over any reader and writer.
#![tactic(auto)]

mod checking;
mod image_checks;
mod job_verdict;
mod laws;
mod minimizing;
mod page_checks;
mod written_job;

pub use checking::{check_job, check_job_watched};
pub use image_checks::check_images;
pub use job_verdict::{CheckAnswer, JobVerdict};
pub use laws::{
    certified_jobs_are_proved, proved_jobs_are_least, the_headline, written_jobs_are_least,
};
pub use minimizing::{
    Output, filter, filter_cert, least_job, minimize, minimize_watched, write_output,
};
pub use pcl_base::INPUT_LIMIT;
pub use pcl_meaning::{page_texts_mean_their_pages, written_jobs_say_copies_and_sizes};
pub use pcl_preview::{PageChoice, page_dots, preview, preview_pages, write_image};
pub use pcl_streams::{
    Fault, Unwatched, Watcher, perform_watched, read_all, write_all, write_bytes,
};
