//! Pairs of jobs, and how they compare in their pages and in what they ask of the printer: the table `data/pairs.txt`. What it expects was
//! worked out by hand.
//!
//! A line of it is a word and what belongs to it; empty lines, and lines that begin with `#`, say nothing.
//!
//! ```text
//! case sides                         the name of a pair
//!   dpi 600                          the resolution; 300 where none is said
//!   first ESC&l1S ESC*cP             the first job, in the notation of `case_tables`
//!   second ESC&l2S ESC*cP            the second
//!   answer page 1: Sides Some(1) Some(2)     how they compare, as `answers` says it; this ends the pair
//! ```

use crate::answers::words_of;
use case_tables::{CasesOfLines, TableFault, bytes_of, resolution};
use pcl_base::{Dpi, Profile};
use pcl_same::{AskedComparison, PageComparison, SameFault, same, same_asked};
use std::alloc::{AllocError, Global};

/// What the lines of the table say up to one of them.
#[derive(Drop)]
pub struct PairCases {
    name: String,
    dpi: Dpi,
    first: Vec<u8>,
    second: Vec<u8>,
}

impl PairCases {
    /// Before the first line.
    pub fn new(alloc: Global) -> PairCases {
        PairCases {
            name: String::new(alloc),
            dpi: Dpi::Dpi300,
            first: Vec::new(alloc),
            second: Vec::new(alloc),
        }
    }

    /// Begins a pair.
    fn begin(&mut self, alloc: Global, name: &str) -> Result<(), AllocError> {
        self.name = String::from_str(alloc, name)?;
        self.dpi = Dpi::Dpi300;
        self.first.clear();
        self.second.clear();
        Ok(())
    }

    /// Compares the pair, with what it asks of the printer and without: how, if that isn't what is expected.
    fn compare(&self, alloc: Global, expected: &str) -> Result<Option<String>, AllocError> {
        let answer = same_asked(alloc, &self.first, &self.second, Profile::Drivers, self.dpi);
        let pages = same(alloc, &self.first, &self.second, Profile::Drivers, self.dpi);
        let came = words_of(alloc, answer)?;
        if came.as_str() != expected || pages != of_pages(answer) {
            return Ok(Some(came));
        }
        Ok(None)
    }
}

impl CasesOfLines for PairCases {
    fn name(&self) -> &str {
        self.name.as_str()
    }

    fn take_line(
        &mut self,
        alloc: Global,
        line: &str,
    ) -> Result<Option<Option<String>>, TableFault> {
        if line.is_empty() || line.starts_with('#') {
            return Ok(None);
        }
        let (word, rest) = line.split_once(' ').unwrap_or((line, ""));
        match word {
            "case" => self.begin(alloc, rest)?,
            "dpi" => self.dpi = resolution(rest)?,
            "first" => self.first = bytes_of(alloc, rest)?,
            "second" => self.second = bytes_of(alloc, rest)?,
            "answer" => return Ok(Some(self.compare(alloc, rest)?)),
            _ => return Err(TableFault::Unknown),
        }
        Ok(None)
    }
}

/// The part of an answer that is about pages.
fn of_pages(answer: Result<AskedComparison, SameFault>) -> Result<PageComparison, SameFault> {
    match answer {
        Ok(comparison) => Ok(comparison.of_pages()),
        Err(fault) => Err(fault),
    }
}
