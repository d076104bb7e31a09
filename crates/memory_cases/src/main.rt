//! Calls that take memory, each made once more where memory ran out: it prints what they then gave, and `stdout` has what has to
//! come. Under `make test-memory` each allocation of this program fails in turn, and what it prints has to stay the same: so an
//! answer before the last is out of memory, the arguments are as they were, and the same call then succeeds.
#![tactic(auto)]

mod certified;
mod jobs;
mod parts;
mod runs;

use certified::print_jobs;
use parts::print_parts;
use runs::print_runs;
use std::io;

fn main(rt: HostRuntime) -> io::Result<()> {
    print_jobs(&rt)?;
    print_runs(&rt)?;
    print_parts(&rt)
}
