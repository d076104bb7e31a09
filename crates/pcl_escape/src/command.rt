//! The commands of a job.

use pcl_base::{Name, Value};

/// A command of a job, as it is spelled there.
#[derive(Clone, Copy, Debug)]
pub struct Command<'a> {
    /// Where the command stands, in bytes from the job's start: the place of ESC for the first command of
    /// a sequence, the place after the parameter before it for a later one, its own place for a control
    /// code, and that of its first byte for a run of text.
    pub at: usize,
    /// The name.
    pub name: Name,
    /// The value of its field, 0 with no sign where it has none.
    pub value: Value,
    /// The data that follow it, the run of text, or the lines after a universal exit: a slice of the job.
    pub bytes: &'a [u8],
}
