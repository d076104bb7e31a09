//! Jobs that printers may read otherwise than docs/LANGUAGE.md, and others that are close to them: the table `data/doubts.txt`.
//!
//! A line of it is a word and what belongs to it; empty lines, and lines that begin with `#`, say nothing.
//!
//! ```text
//! start ESC*c1D                      what stands before each job from here on
//! case an offset of 0                the name of a case
//!   dpi auto                         the resolution, 300 where none is said; auto is both
//!   job ESC*b0Y                      the job, in the notation of `case_tables`
//!   doubt SeedRow                    why it goes as it came, or none; this ends the case
//! ```
//!
//! For those that read it as the language says no job goes as it came for that.

use crate::shrinking::{resolutions, shrunk_at, words_of_fault};
use case_tables::{CasesOfLines, TableFault, bytes_of};
use pcl_base::{Dpi, JobFault};
use pcl_shrink::{Readers, Shrunk};
use std::alloc::{AllocError, Global};

/// What the lines of the table say up to one of them.
#[derive(Drop)]
pub struct DoubtCases {
    name: String,
    start: Vec<u8>,
    job: Vec<u8>,
    /// None is both.
    dpi: Option<Dpi>,
}

impl DoubtCases {
    /// Before the first line.
    pub fn new(alloc: Global) -> DoubtCases {
        DoubtCases {
            name: String::new(alloc),
            start: Vec::new(alloc),
            job: Vec::new(alloc),
            dpi: Some(Dpi::Dpi300),
        }
    }

    /// Begins a case of this name.
    fn begin(&mut self, alloc: Global, name: &str) -> Result<(), AllocError> {
        self.name = String::from_str(alloc, name)?;
        self.job = Vec::new(alloc);
        self.dpi = Some(Dpi::Dpi300);
        Ok(())
    }

    /// Takes the notation of the job.
    fn take_job(&mut self, alloc: Global, notation: &str) -> Result<(), TableFault> {
        let mut job = Vec::from_slice(alloc, &self.start)?;
        job.extend_from_slice(&bytes_of(alloc, notation)?)?;
        self.job = job;
        Ok(())
    }

    /// What comes of the job, if that isn't this.
    fn look(&self, alloc: Global, doubt: &str) -> Result<Option<String>, TableFault> {
        let came = self.came(alloc, Readers::Printers)?;
        if came.as_str() != doubt {
            return Ok(Some(came));
        }
        let came = self.came(alloc, Readers::Profile)?;
        if came.as_str() != "none" {
            return Ok(Some(came));
        }
        Ok(None)
    }

    /// Why the job goes as it came, in a word.
    fn came(&self, alloc: Global, readers: Readers) -> Result<String, AllocError> {
        let shrunk = shrunk_at(alloc, &self.job, self.dpi, readers);
        word_of(alloc, &self.job, shrunk)
    }
}

impl CasesOfLines for DoubtCases {
    fn name(&self) -> &str {
        self.name.as_str()
    }

    fn take_line(
        &mut self,
        alloc: Global,
        line: &str,
    ) -> Result<Option<Option<String>>, TableFault> {
        if line.is_empty() || line.starts_with('#') {
            return Ok(None);
        }
        let (word, rest) = line.split_once(' ').unwrap_or((line, ""));
        match word {
            "start" => self.start = bytes_of(alloc, rest)?,
            "case" => self.begin(alloc, rest)?,
            "dpi" => self.dpi = resolutions(rest)?,
            "job" => self.take_job(alloc, rest)?,
            "doubt" => return Ok(Some(self.look(alloc, rest)?)),
            _ => return Err(TableFault::Unknown),
        }
        Ok(None)
    }
}

/// What comes of a job, in a word.
fn word_of(
    alloc: Global,
    job: &[u8],
    shrunk: Result<Shrunk, JobFault>,
) -> Result<String, AllocError> {
    match shrunk {
        Ok(shrunk) => match shrunk.doubt {
            Some(doubt) if shrunk.job.as_slice() == job => format!(in alloc; "{doubt:?}"),
            Some(doubt) => format!(in alloc; "{doubt:?}, and other bytes"),
            None => String::from_str(alloc, "none"),
        },
        Err(fault) => words_of_fault(alloc, fault),
    }
}
