//! `pclmin` again, for the gate: a check whose answer isn't yes prints its line, and ends with status 1.
#![tactic(auto)]

use pcl_program::run_process;
use std::process::ExitCode;

fn main(rt: HostRuntime) -> ExitCode {
    run_process(&rt)
}
