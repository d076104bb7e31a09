//! Certificates that are changed, and what the checker of a job answers of them.
//!
//! A table of them is lines of a word and what belongs to it; empty lines, and lines that begin with `#`, say nothing.
//!
//! ```text
//! job ESC&l0E ESC*p0x0Y              the input of the cases below, in the notation that `notation` tells
//! more ESC*c1a1b0P                   more of it
//! other [0C]                         the job that is written with a certificate, where it isn't the input
//! dpi 600                            the resolution; 300 where none is said
//! made 600                           the resolution at which jobs are written, where it is another one
//! format 2                           the format of the certificate; 1 where none is said
//! output ESC E ESC E                 what is checked, where it isn't what the input is written as
//! output other                       the same: what the other job is written as
//! case the last byte is missing      a case. Its changes, in order:
//!   put 21: 05                       other bytes, in hexadecimal, from a place of the certificate on
//!   insert 18: 00 00                 bytes more before a place
//!   remove 18 4800                   bytes fewer from a place on: how many
//!   cut 105649                       a prefix of this many bytes
//!   cut 8-105649 by 997              the same, of each of these lengths: 8, 1005 and so on
//!   answer Certificate(Short)        what `check_job` answers; this ends the case
//! ```
//!
//! A line of the first kind holds for all cases below it, up to the next such line; `job` begins anew.

use case_tables::{CasesOfLines, TableFault, bracketed_bytes_of, bytes_of, number, resolution};
use pcl_base::Dpi;
use pcl_cert::Format;
use pcl_tool::{Fault, Output, check_job, minimize};
use std::alloc::{AllocError, Global};

/// Lengths to which a certificate is cut.
#[derive(Clone, Copy)]
struct Cuts {
    first: usize,
    last: usize,
    step: usize,
}

impl Cuts {
    /// Whether a length is one of these, from the first to the last.
    fn has(self, len: usize) -> bool {
        len.checked_sub(self.first)
            .and_then(|more| more.checked_rem(self.step))
            == Some(0)
    }
}

/// What the lines of a table say up to one of them.
#[derive(Drop)]
pub struct Certificates {
    dpi: Dpi,
    /// The resolution at which jobs are written, where it isn't that of the check.
    made: Option<Dpi>,
    format: Format,
    /// The input.
    job: Vec<u8>,
    /// The job that is written with a certificate, where it isn't the input.
    other: Option<Vec<u8>>,
    /// What is checked, where it isn't what the input is written as.
    output: Option<Vec<u8>>,
    /// What the input and the other job are written as.
    written: Option<Output>,
    /// The certificate, as it is changed.
    certificate: Vec<u8>,
    cuts: Option<Cuts>,
    /// The name of the case.
    name: String,
}

impl Certificates {
    /// Before the first line.
    pub(crate) fn new(alloc: Global) -> Certificates {
        Certificates {
            dpi: Dpi::Dpi300,
            made: None,
            format: Format::One,
            job: Vec::new(alloc),
            other: None,
            output: None,
            written: None,
            certificate: Vec::new(alloc),
            cuts: None,
            name: String::new(alloc),
        }
    }

    /// Takes a line that holds for all cases below it.
    fn set(&mut self, alloc: Global, word: &str, rest: &str) -> Result<(), TableFault> {
        match (word, rest) {
            ("job", _) => {
                self.job = bytes_of(alloc, rest)?;
                self.made = None;
                self.other = None;
                self.output = None;
            }
            ("more", _) => self.job.extend_from_slice(&bytes_of(alloc, rest)?)?,
            ("other", _) => {
                if self.output.is_none() {
                    self.output = Some(self.write(alloc)?.job);
                }
                self.other = Some(bytes_of(alloc, rest)?);
            }
            ("dpi", _) => self.dpi = resolution(rest)?,
            ("made", _) => self.made = Some(resolution(rest)?),
            ("format", "1") => self.format = Format::One,
            ("format", "2") => self.format = Format::Two,
            ("output", "other") => {
                let written = self.write(alloc)?;
                self.output = Some(written.job);
            }
            ("output", _) => self.output = Some(bytes_of(alloc, rest)?),
            _ => return Err(TableFault::Unknown),
        }
        self.written = None;
        Ok(())
    }

    /// What the other job is written as, or the input where there is no other.
    fn write(&self, alloc: Global) -> Result<Output, TableFault> {
        let job = self.other.as_ref().unwrap_or(&self.job);
        let dpi = self.made.unwrap_or(self.dpi);
        minimize(alloc, job, dpi, self.format).map_err(|_| TableFault::Unknown)
    }

    /// Begins a case with the certificate as it is made.
    fn begin_case(&mut self, alloc: Global, name: &str) -> Result<(), TableFault> {
        let written = match self.written.take() {
            Some(written) => written,
            None => self.write(alloc)?,
        };
        self.certificate = written.certificate.clone()?;
        self.written = Some(written);
        self.name = String::from_str(alloc, name)?;
        self.cuts = None;
        Ok(())
    }

    /// Changes the certificate.
    fn change(&mut self, alloc: Global, word: &str, rest: &str) -> Result<(), TableFault> {
        if word == "cut" {
            self.cuts = Some(cuts_of(rest)?);
            return Ok(());
        }
        let separator = if word == "remove" { " " } else { ": " };
        let (place, what) = rest.split_once(separator).ok_or(TableFault::Unknown)?;
        let (before, after) = self
            .certificate
            .split_at_checked(number(place)?)
            .ok_or(TableFault::Number)?;
        let mut changed = Vec::from_slice(alloc, before)?;
        let skipped = match word {
            "remove" => number(what)?,
            _ => {
                let bytes = bracketed_bytes_of(alloc, what)?;
                changed.extend_from_slice(&bytes)?;
                if word == "put" { bytes.len() } else { 0 }
            }
        };
        changed.extend_from_slice(after.get(skipped..).ok_or(TableFault::Number)?)?;
        self.certificate = changed;
        Ok(())
    }

    /// What came in place of an answer; none where the case holds.
    fn fault_of(&self, alloc: Global, expected: &str) -> Result<Option<String>, TableFault> {
        let whole = self.certificate.len();
        let cuts = self.cuts.unwrap_or(Cuts {
            first: whole,
            last: whole,
            step: 1,
        });
        let output = match (&self.output, &self.written) {
            (Some(output), _) => output,
            (None, Some(written)) => &written.job,
            (None, None) => return Err(TableFault::NoCase),
        };
        for len in cuts.first..=cuts.last {
            if !cuts.has(len) {
                continue;
            }
            let certificate = self.certificate.get(..len).ok_or(TableFault::Number)?;
            let came = answer(alloc, &self.job, output, certificate, self.dpi)?;
            if came.as_str() != expected {
                return Ok(Some(came));
            }
        }
        Ok(None)
    }
}

impl CasesOfLines for Certificates {
    fn name(&self) -> &str {
        self.name.as_str()
    }

    fn take_line(
        &mut self,
        alloc: Global,
        line: &str,
    ) -> Result<Option<Option<String>>, TableFault> {
        let (word, rest) = line.split_once(' ').unwrap_or((line, ""));
        match word {
            "" | "#" => {}
            "case" => self.begin_case(alloc, rest)?,
            "answer" => return Ok(Some(self.fault_of(alloc, rest)?)),
            "put" | "insert" | "remove" | "cut" => self.change(alloc, word, rest)?,
            _ => self.set(alloc, word, rest)?,
        }
        Ok(None)
    }
}

/// What `check_job` answers.
fn answer(
    alloc: Global,
    input: &[u8],
    output: &[u8],
    certificate: &[u8],
    dpi: Dpi,
) -> Result<String, AllocError> {
    match check_job(alloc, input, output, certificate, dpi) {
        Ok(verdict) => format!(in alloc; "{verdict:?}"),
        Err(Fault::Memory) => Err(AllocError),
        Err(_) => String::from_str(alloc, "refused"),
    }
}

/// Lengths, as `8-105649 by 997`, or one.
fn cuts_of(text: &str) -> Result<Cuts, TableFault> {
    let (span, step) = text.split_once(" by ").unwrap_or((text, "1"));
    let (first, last) = span.split_once('-').unwrap_or((span, span));
    Ok(Cuts {
        first: number(first)?,
        last: number(last)?,
        step: number(step)?,
    })
}
