//! Tables of named cases in text files: the notation of bytes, the lines of a table, and what is wrong with one.
#![tactic(auto)]

mod faults;
mod notation;
mod tables;

pub use faults::{TableFault, number, resolution};
pub use notation::{ESC, NotationFault, bracketed_bytes_of, bytes_of};
pub use tables::{CasesOfLines, RunFault, check_lines, read_text};
