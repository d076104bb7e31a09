//! The program `pclmin`: a run by the words of a command line, over any files, reader and writer, and its status; and the process.
#![tactic(auto)]

mod faults;
mod manner;
mod process;
mod rewriting;
mod running;

pub use process::run_process;
pub use running::{exit_status, run, run_request};
