//! Tables that lie in a folder, and cases that are lines of one.

use crate::faults::TableFault;
use std::alloc::Global;
use std::rt::Files;
use std::{fs, io};
use thiserror::Error;

/// Why the program ends with a status other than 0.
#[derive(Debug, Drop, Error)]
pub enum RunFault {
    #[error("{failed} of {count} cases fail")]
    Fails {
        failed: usize,
        count: usize,
    },
    #[error("{name}, line {line}: {fault}")]
    Table {
        name: &'static str,
        line: usize,
        fault: TableFault,
    },
    #[error(transparent)]
    Io(#[from] io::Error),
}

/// Cases of a table that hold or don't, one line after the other.
pub trait CasesOfLines {
    /// The name of the last case.
    fn name(&self) -> &str;

    /// Takes a line. Where it ends a case, what came, if it isn't what is expected.
    fn take_line(
        &mut self,
        alloc: Global,
        line: &str,
    ) -> Result<Option<Option<String>>, TableFault>;
}

/// How many cases a table of lines has, and how many of them don't hold: these are printed.
pub fn check_lines<C: CasesOfLines + Drop>(
    rt: &(impl Files + AllocGlobal + Print),
    alloc: Global,
    folder: &str,
    name: &'static str,
    mut cases: C,
) -> Result<(usize, usize), RunFault> {
    let text = read_text(rt, alloc, folder, name)?;
    let mut line = 0usize;
    let (mut count, mut wrong) = (0usize, 0usize);
    for words in text.lines() {
        line = line.saturating_add(1);
        let taken = cases.take_line(alloc, words.trim());
        let ended = taken.map_err(|fault| RunFault::Table { name, line, fault })?;
        if let Some(came) = ended {
            count = count.saturating_add(1);
            if let Some(came) = came {
                wrong = wrong.saturating_add(1);
                println!(rt; "{name}: {}\n  {came}", cases.name())?;
            }
        }
    }
    Ok((count, wrong))
}

/// The text of a table of a folder.
pub fn read_text(
    rt: &(impl Files + AllocGlobal),
    alloc: Global,
    folder: &str,
    name: &str,
) -> Result<String, RunFault> {
    let path = format!(in alloc; "{folder}/{name}").map_err(io::Error::from)?;
    Ok(fs::read_to_string(rt, path.as_str())?)
}
