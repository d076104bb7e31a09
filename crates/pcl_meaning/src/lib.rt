//! What page texts, and jobs of them, mean to who reads and performs them.
#![tactic(auto)]

mod laws;

pub use laws::{page_texts_mean_their_pages, written_jobs_say_copies_and_sizes};
