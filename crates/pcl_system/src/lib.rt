//! The system that a process runs on: its files, its standard streams, and what is reported on standard error.
#![tactic(auto)]

mod files;
mod input;
mod kept;
mod leftovers;
mod named_file;
mod new_file;
mod output_stream;
mod parts;
mod places;
mod placing;
mod troubles;
mod voice;

pub use files::{Replacing, SystemFiles};
pub use input::{Input, Typed};
pub use named_file::NamedFile;
pub use new_file::NewFile;
pub use output_stream::OutputStream;
pub use troubles::{Access, Cause, START_LENGTH, Trouble, Troubles};
pub use voice::Voice;
