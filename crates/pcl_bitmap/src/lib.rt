//! The dots of a page, one bit each: rows of whole bytes, the left dot in the highest bit, 1 black. A page has its size and
//! copies beside them, and a sink takes the pages of a job.
#![tactic(auto)]

mod area;
mod bitmap;
mod bits;
mod filled;
mod fills;
mod ink;
mod kernels;
mod laws;
mod page;
mod patterns;
mod squares;

pub use bitmap::Bitmap;
pub use ink::Ink;
pub use kernels::{bits_of, first_difference, run_end, trimmed_len};
pub use laws::same_dots_same_bitmap;
pub use page::{Page, PageSink};
