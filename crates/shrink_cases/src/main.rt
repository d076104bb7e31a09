//! Whole jobs, two of which compare, or one of which is shrunk: tables of cases in text files. Comments there say how the bytes that are
//! expected were worked out.
//!
//! | Table | A case | How to write one |
//! |---|---|---|
//! | `pairs.txt` | two jobs, and how they compare | `pairs` |
//! | `doubts.txt` | a job, and whether it goes as it came since printers may read it otherwise | `doubts` |
//! | `jobs.txt` | a job, and what it is shrunk to for printers | `jobs` |
//! | `glyphs.txt` | pages of letters and rules, and what they are shrunk to for those that read as the language says | `jobs`, `pages` |
//!
//! It prints how many cases of each table hold; `stdout` has how many there are. A case that doesn't is printed with what came instead,
//! and the status is then 1. The tables lie in the folder that the program's argument names, or where it runs: the gate runs it in
//! `data/`, and beside `src/` it is `rt run -- data`.
#![tactic(auto)]

mod answers;
mod doubts;
mod jobs;
mod letters;
mod pages;
mod pairs;
mod shrinking;

use case_tables::{CasesOfLines, RunFault, check_lines};
use doubts::DoubtCases;
use jobs::ShrunkCases;
use pairs::PairCases;
use pcl_shrink::Readers;
use std::rt::Files;

/// A table.
#[derive(Clone, Copy)]
struct Table {
    name: &'static str,
    /// What is printed after the number of its cases that hold.
    words: &'static str,
}

const PAIRS: Table = Table {
    name: "pairs.txt",
    words: "pairs compare so",
};

const DOUBTS: Table = Table {
    name: "doubts.txt",
    words: "jobs are read otherwise, or aren't",
};

const JOBS: Table = Table {
    name: "jobs.txt",
    words: "jobs are shrunk so",
};

const GLYPHS: Table = Table {
    name: "glyphs.txt",
    words: "jobs of letters and rules are shrunk so",
};

/// How many cases there are, and how many of them don't hold.
#[derive(Clone, Copy)]
struct Tally {
    count: usize,
    failed: usize,
}

impl Tally {
    /// Checks a table, counts its cases, and prints how many of them hold.
    fn check<C: CasesOfLines + Drop>(
        &mut self,
        rt: &(impl Files + AllocGlobal + Print),
        folder: &str,
        table: Table,
        cases: C,
    ) -> Result<(), RunFault> {
        let (count, failed) = check_lines(rt, rt.alloc(), folder, table.name, cases)?;
        self.count = self.count.saturating_add(count);
        self.failed = self.failed.saturating_add(failed);
        println!(rt; "{} {}", count.saturating_sub(failed), table.words)?;
        Ok(())
    }
}

fn main(rt: HostRuntime) -> Result<(), RunFault> {
    let folder = std::env::args(&rt)?.nth(1);
    let folder = folder.as_ref().map_or(".", |folder| folder.as_str());
    let alloc = rt.alloc();
    let mut tally = Tally {
        count: 0,
        failed: 0,
    };
    tally.check(&rt, folder, PAIRS, PairCases::new(alloc))?;
    tally.check(&rt, folder, DOUBTS, DoubtCases::new(alloc))?;
    let for_printers = ShrunkCases::new(alloc, Readers::Printers);
    tally.check(&rt, folder, JOBS, for_printers)?;
    let for_the_profile = ShrunkCases::new(alloc, Readers::Profile);
    tally.check(&rt, folder, GLYPHS, for_the_profile)?;
    if tally.failed > 0 {
        return Err(RunFault::Fails {
            failed: tally.failed,
            count: tally.count,
        });
    }
    Ok(())
}
