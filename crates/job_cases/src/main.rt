//! Whole jobs and what becomes of them: a table of named cases in text files, which `table` tells how to write.
//! Each case is performed, and its pages are compared dot for dot, or its refusal word for word; then the job
//! is written again, and what was written has to have the same pages. The jobs of `drivers.txt` are read by the drivers'
//! profile, and not written. One more table has certificates that are changed and the verdicts on them (`certificates`).
//!
//! It prints how many cases hold; `stdout` has how many there are. A case that doesn't is printed with its job and
//! with what came instead, and the status is then 1. The tables lie in the folder that its argument names, or
//! where it runs: the gate runs it in `data/`, and beside `src/` it is `rt run -- data`. `oracle/reference.py`
//! checks the tables of jobs without a line of this repository's code.
#![tactic(auto)]

mod case;
mod certificates;
mod check;
mod shown;
mod table;

use case::Case;
use case_tables::{RunFault, check_lines, read_text};
use certificates::Certificates;
use check::fault_of;
use pcl_base::Profile;
use std::alloc::Global;
use std::io;
use std::rt::Files;
use table::cases_of;

/// The tables, each a file of `data/`, by the stated profile.
const TABLES: [&str; 20] = [
    "bytes.txt",
    "sequences.txt",
    "cut.txt",
    "samples.txt",
    "values.txt",
    "names.txt",
    "exits.txt",
    "environment.txt",
    "cursor.txt",
    "control_codes.txt",
    "pages.txt",
    "sizes.txt",
    "rasters.txt",
    "rows.txt",
    "rectangles.txt",
    "fonts.txt",
    "macros.txt",
    "mixtures.txt",
    "written.txt",
    "least.txt",
];

/// The table of jobs that are read by the drivers' profile, and not written.
const DRIVERS_TABLE: &str = "drivers.txt";

/// The table of certificates that are changed.
const CERTIFICATES: &str = "certificates.txt";

fn main(rt: HostRuntime) -> Result<(), RunFault> {
    let folder = std::env::args(&rt)?.nth(1);
    let folder = folder.as_ref().map_or(".", |folder| folder.as_str());
    let mut count = 0usize;
    let mut failed = 0usize;
    let tables = TABLES
        .into_iter()
        .map(|name| (name, Profile::Stated))
        .chain([(DRIVERS_TABLE, Profile::Drivers)]);
    for (name, profile) in tables {
        for case in read_table(&rt, rt.alloc(), folder, name)?.iter() {
            count = count.saturating_add(1);
            if !holds(&rt, rt.alloc(), name, case, profile)? {
                failed = failed.saturating_add(1);
            }
        }
    }
    let changed = Certificates::new(rt.alloc());
    let (certificates, wrong) = check_lines(&rt, rt.alloc(), folder, CERTIFICATES, changed)?;
    let failed = failed.saturating_add(wrong);
    if failed > 0 {
        let count = count.saturating_add(certificates);
        return Err(RunFault::Fails { failed, count });
    }
    println!(rt; "{count} cases hold")?;
    println!(rt; "{certificates} certificates are answered so")?;
    Ok(())
}

/// The cases of a table of a folder.
fn read_table(
    rt: &(impl Files + AllocGlobal),
    alloc: Global,
    folder: &str,
    name: &'static str,
) -> Result<Vec<Case>, RunFault> {
    let text = read_text(rt, alloc, folder, name)?;
    cases_of(alloc, text.as_str()).map_err(|(line, fault)| RunFault::Table { name, line, fault })
}

/// Whether a case holds by a profile. One that doesn't is printed.
fn holds(
    rt: &impl Print,
    alloc: Global,
    table: &str,
    case: &Case,
    profile: Profile,
) -> io::Result<bool> {
    let fault = fault_of(alloc, case, profile)?;
    if let Some(came) = &fault {
        println!(rt; "{table}: {}\n  job {}\n{came}", case.name, case.notation)?;
    }
    Ok(fault.is_none())
}
