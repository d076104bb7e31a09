//! Reading a job: the bytes become a list of commands, or the first fault.
#![tactic(auto)]

mod command;
mod exit;
mod field;
mod item;
mod job;
mod list;
mod step;
mod store;

pub use command::Command;
pub use job::{one_outcome, read_by_drivers, read_commands, read_job, some_outcome};
pub use list::{CommandList, Commands};
