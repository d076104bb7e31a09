//! `pclmin`: a print filter for HP PCL 5. `pcl_program` is the whole of it.
#![tactic(auto)]

use pcl_program::run_process;
use std::process::ExitCode;

fn main(rt: HostRuntime) -> ExitCode {
    run_process(&rt)
}
