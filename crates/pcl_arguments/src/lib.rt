//! The command line of `pclmin`: its subcommands and their arguments, what help says of them, and what words ask for by them.
#![tactic(auto)]

mod command_line;
mod parsing;

pub use parsing::{AskedBatch, parse_batch, parse_request};
