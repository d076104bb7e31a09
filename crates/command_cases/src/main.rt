//! Command lines and what a run of the program does for each: a table in a text file, which `commands` tells how to write. The command
//! lines find and make files in a folder in memory.
//!
//! It prints how many do what is wanted; `stdout` has how many there are. One that doesn't is printed with what came instead, and the
//! status is then 1. The table lies in the folder that its argument names, or where it runs: the gate runs it in `data/`, and beside
//! `src/` it is `rt run -- data`.
#![tactic(auto)]

mod commands;
mod folder;

use case_tables::{RunFault, check_lines};
use commands::CommandCases;

/// The table.
const COMMANDS: &str = "commands.txt";

fn main(rt: HostRuntime) -> Result<(), RunFault> {
    let folder = std::env::args(&rt)?.nth(1);
    let folder = folder.as_ref().map_or(".", |folder| folder.as_str());
    let (count, failed) = check_lines(
        &rt,
        rt.alloc(),
        folder,
        COMMANDS,
        CommandCases::new(rt.alloc()),
    )?;
    if failed > 0 {
        return Err(RunFault::Fails { failed, count });
    }
    println!(rt; "{count} command lines do so")?;
    Ok(())
}
