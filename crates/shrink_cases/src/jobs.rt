//! Jobs, and what they are shrunk to: the tables `data/jobs.txt` and `data/glyphs.txt`.
//!
//! A line of them is a word and what belongs to it; empty lines, and lines that begin with `#`, say nothing.
//!
//! ```text
//! name DOT ESC*p0x0Y ESC*c1a1b0P     from here on the word DOT of a job stands for this notation
//! usual dpi 600                      what each case below has that doesn't say otherwise: any line of a case but `job` and `answer`
//! usual                              begins that anew
//! case two dots                      the name of a case
//!   dpi auto                         the resolution, 300 where none is said; auto is both
//!   job ESC&l0E DOT [0C] DOT         the job, in the notation of `case_tables`; several such lines are one job
//!   letters 20                       where there is none the job is pages of letters and rules, given by such lines: see `pages`
//!   raster 300                       the resolution of their dots, where it isn't that of the job
//!   again                            what the job is shrunk to is shrunk once more, and the answer is about that
//!   answer Raster, 67 to 48          which candidate wins, the bytes that come in, and those that go out; this ends the case
//! ```
//!
//! Where a job is refused its answer is as `refused at 4`.

use crate::pages::LetterPages;
use crate::shrinking::{resolutions, shrunk_at, words_of_fault};
use case_tables::{CasesOfLines, TableFault, bytes_of, resolution};
use pcl_base::{Dpi, JobFault};
use pcl_shrink::{Readers, Shrunk};
use std::alloc::{AllocError, Global};

/// What a case says.
#[derive(Clone, Drop)]
struct Case {
    /// None is both.
    dpi: Option<Dpi>,
    /// None is that of the job.
    raster: Option<Dpi>,
    /// None where the job is of pages.
    job: Option<Vec<u8>>,
    pages: LetterPages,
    is_again: bool,
}

/// A word that stands for a notation.
#[derive(Drop)]
struct Name {
    word: String,
    notation: String,
}

/// What the lines of a table say up to one of them.
#[derive(Drop)]
pub struct ShrunkCases {
    readers: Readers,
    names: Vec<Name>,
    usual: Case,
    name: String,
    /// None before the first case, and between cases.
    case: Option<Case>,
}

impl Case {
    /// A case that says nothing.
    fn new(alloc: Global) -> Case {
        Case {
            dpi: Some(Dpi::Dpi300),
            raster: None,
            job: None,
            pages: LetterPages::new(alloc),
            is_again: false,
        }
    }

    /// Takes a line that isn't of the job's bytes.
    fn set(&mut self, alloc: Global, word: &str, rest: &str) -> Result<(), TableFault> {
        match word {
            "dpi" => self.dpi = resolutions(rest)?,
            "raster" => self.raster = Some(resolution(rest)?),
            "again" => self.is_again = true,
            _ => self.pages.set(alloc, word, rest)?,
        }
        Ok(())
    }

    /// Takes more bytes of the job.
    fn take_bytes(&mut self, alloc: Global, bytes: &[u8]) -> Result<(), AllocError> {
        let job = self.job.get_or_insert_with(|| Vec::new(alloc));
        job.extend_from_slice(bytes)
    }

    /// The job.
    fn whole_job(&self, alloc: Global) -> Result<Vec<u8>, AllocError> {
        match &self.job {
            Some(job) => job.clone(),
            None => {
                let dpi = self.raster.or(self.dpi).unwrap_or(Dpi::Dpi300);
                self.pages.job(alloc, dpi)
            }
        }
    }

    /// What the job is shrunk to, in words.
    fn came(&self, alloc: Global, readers: Readers) -> Result<String, AllocError> {
        let job = self.whole_job(alloc)?;
        let shrunk = shrunk_at(alloc, &job, self.dpi, readers);
        match shrunk {
            Ok(first) if self.is_again => {
                let second = shrunk_at(alloc, &first.job, self.dpi, readers);
                words_of(alloc, &first.job, second)
            }
            shrunk => words_of(alloc, &job, shrunk),
        }
    }
}

impl ShrunkCases {
    /// Before the first line of a table whose jobs these read.
    pub fn new(alloc: Global, readers: Readers) -> ShrunkCases {
        ShrunkCases {
            readers,
            names: Vec::new(alloc),
            usual: Case::new(alloc),
            name: String::new(alloc),
            case: None,
        }
    }

    /// Begins a case of this name.
    fn begin(&mut self, alloc: Global, name: &str) -> Result<(), AllocError> {
        self.name = String::from_str(alloc, name)?;
        self.case = Some(self.usual.clone()?);
        Ok(())
    }

    /// Takes a line of what is usual.
    fn take_usual(&mut self, alloc: Global, line: &str) -> Result<(), TableFault> {
        if line.is_empty() {
            self.usual = Case::new(alloc);
            return Ok(());
        }
        let (word, rest) = line.split_once(' ').unwrap_or((line, ""));
        self.usual.set(alloc, word, rest)
    }

    /// Takes a word and the notation that it stands for.
    fn take_name(&mut self, alloc: Global, line: &str) -> Result<(), AllocError> {
        let (word, notation) = line.split_once(' ').unwrap_or((line, ""));
        let notation = self.without_names(alloc, notation)?;
        let word = String::from_str(alloc, word)?;
        self.names.push(Name { word, notation })?;
        Ok(())
    }

    /// A notation with what names in it stand for.
    fn without_names(&self, alloc: Global, notation: &str) -> Result<String, AllocError> {
        let mut plain = String::new(alloc);
        for word in notation.split(' ') {
            let named = self.names.iter().find(|name| name.word.as_str() == word);
            plain.push_str(named.map_or(word, |name| name.notation.as_str()))?;
            plain.push(' ')?;
        }
        Ok(plain)
    }

    /// Takes the notation of more bytes of the job.
    fn take_job(&mut self, alloc: Global, notation: &str) -> Result<(), TableFault> {
        let bytes = bytes_of(alloc, self.without_names(alloc, notation)?.as_str())?;
        let case = self.case.as_mut().ok_or(TableFault::NoCase)?;
        case.take_bytes(alloc, &bytes)?;
        Ok(())
    }

    /// Ends the case: what came, if that isn't what is expected.
    fn end(&mut self, alloc: Global, expected: &str) -> Result<Option<String>, TableFault> {
        let case = self.case.take().ok_or(TableFault::NoCase)?;
        let came = case.came(alloc, self.readers)?;
        if came.as_str() == expected {
            return Ok(None);
        }
        Ok(Some(came))
    }
}

impl CasesOfLines for ShrunkCases {
    fn name(&self) -> &str {
        self.name.as_str()
    }

    fn take_line(
        &mut self,
        alloc: Global,
        line: &str,
    ) -> Result<Option<Option<String>>, TableFault> {
        if line.is_empty() || line.starts_with('#') {
            return Ok(None);
        }
        let (word, rest) = line.split_once(' ').unwrap_or((line, ""));
        match word {
            "name" => self.take_name(alloc, rest)?,
            "usual" => self.take_usual(alloc, rest)?,
            "case" => self.begin(alloc, rest)?,
            "job" => self.take_job(alloc, rest)?,
            "answer" => return Ok(Some(self.end(alloc, rest)?)),
            _ => {
                let case = self.case.as_mut().ok_or(TableFault::NoCase)?;
                case.set(alloc, word, rest)?;
            }
        }
        Ok(None)
    }
}

/// What comes of a job, in words.
fn words_of(
    alloc: Global,
    job: &[u8],
    shrunk: Result<Shrunk, JobFault>,
) -> Result<String, AllocError> {
    match shrunk {
        Ok(shrunk) => {
            let by = shrunk.by;
            format!(in alloc; "{by:?}, {} to {}", job.len(), shrunk.job.len())
        }
        Err(fault) => words_of_fault(alloc, fault),
    }
}
