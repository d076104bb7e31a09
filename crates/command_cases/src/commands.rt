//! Command lines, and what a run of the program does for each.
//!
//! A table of them is lines of a word and what belongs to it; empty lines, and lines that begin with `#`, say nothing.
//!
//! ```text
//! job ESC&l0E ESC*p0x0Y              what standard input gives in the cases below, in the notation of `case_tables`
//! more ESC*c1a1b0P                   more of it
//! reader fails                       it can't be read, up to the next job
//! writer fails                       standard output can't be written, up to the line `writer holds`
//! writer types                       it is a terminal, up to the line `writer holds`
//! file page.pcl ESCE                 a file with these bytes is made, in a folder in memory; the runs below find it
//! remove page.pcl                    a file is removed
//! case a page that isn't there       a case. What is wanted of it, in any order:
//!   writes 48: ESCE                  how many bytes are written and flushed, and how they begin; none where it isn't said
//!   says pclmin: no page 2           the whole line on standard error; none where nothing is said
//!   shows Usage: pclmin <COMMAND>    in its place a line of the text of help or of a usage fault, of which none is left out
//!   mentions --page <N>              in its place a part of that text
//!   tells 2 pages, 1 end             how many pages are reported, and how often the end; none where it isn't said
//!   passes pages read: 1, pages to compare: 1,
//!                                    how far passes over the pages have come, each time that it is reported
//!   makes page.cert 12: {PCLCERT1}   the length of a file that was made, and how it begins
//!   run pclmin pbm --page 2          the words
//!   status 1                         the status; this ends the case
//! ```

use crate::folder::{Folder, Held};
use case_tables::{CasesOfLines, TableFault, bytes_of, number};
use clap::Error;
use pcl_messages::Ending;
use pcl_program::{exit_status, run};
use pcl_streams::Reporter;
use pcl_tool::Watcher;
use std::alloc::{AllocError, Global};
use std::cell::Cell;
use std::io::{self, ErrorKind, Read, Write};
use std::mem;

/// Standard input: the bytes that are left of it, or none where it can't be read.
#[derive(Drop)]
struct Given<'a>(Option<&'a [u8]>);

impl Read for Given<'_> {
    fn read(&mut self, buf: &mut [u8]) -> io::Result<usize> {
        match &mut self.0 {
            Some(bytes) => bytes.read(buf),
            None => Err(io::Error::from(ErrorKind::BrokenPipe)),
        }
    }
}

/// Standard output: what was written to it, or none where it can't be written.
#[derive(Drop)]
struct Taken(Option<Held>);

impl Write for Taken {
    fn write(&mut self, buf: &[u8]) -> io::Result<usize> {
        match &mut self.0 {
            Some(held) => held.write(buf),
            None => Err(io::Error::from(ErrorKind::BrokenPipe)),
        }
    }

    fn flush(&mut self) -> io::Result<()> {
        match &mut self.0 {
            Some(held) => held.flush(),
            None => Err(io::Error::from(ErrorKind::BrokenPipe)),
        }
    }
}

/// Counts what is reported to it.
#[derive(Drop)]
struct Reports {
    /// The number of pages that was reported last.
    pages: Cell<u32>,
    /// How often pages were reported.
    times: Cell<u32>,
    /// How often the end was.
    ends: Cell<u32>,
    /// What was reported.
    said: Cell<Vec<u8>>,
    /// How far passes over the pages of a job have come, as it was reported.
    passed: Cell<Vec<u8>>,
    alloc: Global,
}

impl Reports {
    /// Before the run.
    fn new(alloc: Global) -> Reports {
        Reports {
            pages: Cell::new(0),
            times: Cell::new(0),
            ends: Cell::new(0),
            said: Cell::new(Vec::new(alloc)),
            passed: Cell::new(Vec::new(alloc)),
            alloc,
        }
    }
}

impl Reporter for &Reports {
    fn report(&self, line: &[u8]) {
        let mut said = self.said.replace(Vec::new(self.alloc));
        let _ = said.extend_from_slice(line);
        self.said.set(said);
    }

    fn jobs_done(&self, _done: usize, _jobs: usize) {}

    fn pages_passed(&self, done: &str, pages: usize) {
        let mut passed = self.passed.replace(Vec::new(self.alloc));
        if let Ok(text) = format!(in self.alloc; "{done}: {pages},") {
            if !passed.is_empty() {
                let _ = passed.push(b' ');
            }
            let _ = passed.extend_from_slice(text.as_bytes());
        }
        self.passed.set(passed);
    }
}

impl Watcher for &Reports {
    fn pages_done(&self, pages: u32) {
        self.pages.set(pages);
        self.times.set(self.times.get().saturating_add(1));
    }

    fn ended(&self) {
        self.ends.set(self.ends.get().saturating_add(1));
    }
}

/// A length, and the first bytes of what is so long.
#[derive(Drop)]
struct Begin {
    len: usize,
    bytes: Vec<u8>,
}

impl Begin {
    /// As `48: ESCE` says.
    fn parse(alloc: Global, text: &str) -> Result<Begin, TableFault> {
        let (len, notation) = text.split_once(':').ok_or(TableFault::Unknown)?;
        Ok(Begin {
            len: number(len)?,
            bytes: bytes_of(alloc, notation)?,
        })
    }

    /// Whether bytes are this many and begin so.
    fn is_of(&self, bytes: &[u8]) -> bool {
        bytes.len() == self.len && bytes.starts_with(&self.bytes)
    }
}

/// What the lines of a table say up to one of them.
#[derive(Drop)]
pub struct CommandCases {
    /// The files that are there.
    folder: Folder,
    /// What standard input gives, where it can be read.
    job: Option<Vec<u8>>,
    /// Whether standard output can be written.
    is_held: bool,
    /// Whether it is a terminal.
    is_terminal: bool,
    /// The name of the case.
    name: String,
    /// The words of its command line.
    line: String,
    written: Begin,
    /// What is said, and whether that is all.
    said: String,
    is_whole: bool,
    /// The pages that are reported, and how often the end is.
    reported: (usize, usize),
    /// How far passes come, where that is wanted.
    passed: Option<String>,
    /// The file that is made, and what it begins with.
    made: Option<(String, Begin)>,
}

impl CommandCases {
    /// Before the first line.
    pub(crate) fn new(alloc: Global) -> CommandCases {
        CommandCases {
            folder: Folder::new(alloc),
            job: None,
            is_held: true,
            is_terminal: false,
            name: String::new(alloc),
            line: String::new(alloc),
            written: nothing(alloc),
            said: String::new(alloc),
            is_whole: true,
            reported: (0, 0),
            passed: None,
            made: None,
        }
    }

    /// Begins a case, of which nothing is wanted so far.
    fn begin_case(&mut self, alloc: Global, name: &str) -> Result<(), TableFault> {
        self.name = String::from_str(alloc, name)?;
        self.written = nothing(alloc);
        self.said = String::new(alloc);
        self.is_whole = true;
        self.reported = (0, 0);
        self.passed = None;
        self.made = None;
        Ok(())
    }

    /// Takes a line that says something of a case.
    fn want(&mut self, alloc: Global, word: &str, rest: &str) -> Result<(), TableFault> {
        match word {
            "run" => self.line = String::from_str(alloc, rest)?,
            "writes" => self.written = Begin::parse(alloc, rest)?,
            "says" => self.said = format!(in alloc; "{rest}\n")?,
            "shows" => {
                self.said.push_str(rest)?;
                self.said.push('\n')?;
            }
            "mentions" => {
                self.said = String::from_str(alloc, rest)?;
                self.is_whole = false;
            }
            "tells" => self.reported = counts_of(rest)?,
            "passes" => self.passed = Some(String::from_str(alloc, rest)?),
            "makes" => {
                let (file, begin) = rest.split_once(' ').ok_or(TableFault::Unknown)?;
                self.made = Some((String::from_str(alloc, file)?, Begin::parse(alloc, begin)?));
            }
            _ => return Err(TableFault::Unknown),
        }
        Ok(())
    }

    /// Takes a line that holds for all cases below it.
    fn set(&mut self, alloc: Global, word: &str, rest: &str) -> Result<(), TableFault> {
        match (word, rest) {
            ("job", _) => self.job = Some(bytes_of(alloc, rest)?),
            ("more", _) => {
                let more = bytes_of(alloc, rest)?;
                let job = self.job.as_mut().ok_or(TableFault::Unknown)?;
                job.extend_from_slice(&more)?;
            }
            ("reader", "fails") => self.job = None,
            ("writer", "fails") => self.is_held = false,
            ("writer", "types") => self.is_terminal = true,
            ("writer", "holds") => {
                self.is_held = true;
                self.is_terminal = false;
            }
            ("file", _) => {
                let (file, notation) = rest.split_once(' ').unwrap_or((rest, ""));
                self.folder.put(file, bytes_of(alloc, notation)?)?;
            }
            ("remove", _) => self.folder.remove(rest),
            _ => return self.want(alloc, word, rest),
        }
        Ok(())
    }

    /// Runs the case over the folder, and answers as `fault_of` does.
    fn end_case(&mut self, alloc: Global, status: usize) -> Result<Option<String>, TableFault> {
        let mut folder = mem::replace(&mut self.folder, Folder::new(alloc));
        let fault = self.fault_of(alloc, &mut folder, status);
        self.folder = folder;
        fault
    }

    /// What came in place of what is wanted; none where the case holds.
    fn fault_of(
        &self,
        alloc: Global,
        folder: &mut Folder,
        status: usize,
    ) -> Result<Option<String>, TableFault> {
        let words = self.line.as_str().split(' ').map(word_of);
        let words = words.collect::<Vec<&str>>(alloc)?;
        let mut given = Given(self.job.as_deref());
        let mut taken = Taken(self.is_held.then_some(Held::new(alloc)));
        let reports = Reports::new(alloc);
        let ended = run(
            folder,
            alloc,
            &words,
            &mut given,
            &mut taken,
            self.is_terminal,
            &reports,
        );
        let lines = reports.said.replace(Vec::new(alloc));
        let passed = reports.passed.replace(Vec::new(alloc));
        let passed = String::from_utf8_lossy(alloc, &passed)?;
        let mut said = String::from_utf8_lossy(alloc, &lines)?;
        said.push_str(text_of(alloc, &ended)?.as_str())?;
        let held = taken.0.unwrap_or(Held::new(alloc));
        let written = held.bytes();
        let is_right = usize::from(exit_status(&ended)) == status
            && self.written.is_of(written)
            && held.is_flushed()
            && self.is_said(&said)
            && self.is_reported(&reports)
            && self.is_passed(&passed)
            && self.is_made(folder);
        if is_right {
            return Ok(None);
        }
        let came = format!(in alloc;
            "status {}, {} bytes written, pages reported {} in {} times, {} ends, {passed} {said}",
            exit_status(&ended),
            written.len(),
            reports.pages.get(),
            reports.times.get(),
            reports.ends.get()
        )?;
        Ok(Some(came))
    }

    /// Whether what is said is what is wanted.
    fn is_said(&self, said: &str) -> bool {
        if self.is_whole {
            said == self.said.as_str()
        } else {
            said.contains(self.said.as_str())
        }
    }

    /// Whether as much was reported as is wanted, each page once.
    fn is_reported(&self, reports: &Reports) -> bool {
        let (pages, ends) = self.reported;
        reports.pages.get() as usize == pages
            && reports.times.get() as usize == pages
            && reports.ends.get() as usize == ends
    }

    /// Whether passes came as far as is wanted.
    fn is_passed(&self, passed: &str) -> bool {
        match &self.passed {
            Some(wanted) => passed == wanted.as_str(),
            None => true,
        }
    }

    /// Whether the file that is wanted was made.
    fn is_made(&self, folder: &Folder) -> bool {
        match &self.made {
            Some((file, begin)) => match folder.bytes_of(file.as_str()) {
                Some(bytes) => begin.is_of(bytes),
                None => false,
            },
            None => true,
        }
    }
}

impl CasesOfLines for CommandCases {
    fn name(&self) -> &str {
        self.name.as_str()
    }

    fn take_line(
        &mut self,
        alloc: Global,
        line: &str,
    ) -> Result<Option<Option<String>>, TableFault> {
        let (word, rest) = line.split_once(' ').unwrap_or((line, ""));
        match word {
            "" | "#" => {}
            "case" => self.begin_case(alloc, rest)?,
            "status" => return Ok(Some(self.end_case(alloc, number(rest)?)?)),
            _ => self.set(alloc, word, rest)?,
        }
        Ok(None)
    }
}

/// A word of a command line: an empty one stands between quotes.
fn word_of(word: &str) -> &str {
    if word == "''" { "" } else { word }
}

/// No byte.
fn nothing(alloc: Global) -> Begin {
    Begin {
        len: 0,
        bytes: Vec::new(alloc),
    }
}

/// Numbers of pages and ends, as `2 pages, 1 end`.
fn counts_of(text: &str) -> Result<(usize, usize), TableFault> {
    let (pages, ends) = text.split_once(" pages, ").ok_or(TableFault::Unknown)?;
    let (ends, _) = ends.split_once(' ').ok_or(TableFault::Unknown)?;
    Ok((number(pages)?, number(ends)?))
}

/// What the program prints at its end, help and the version too.
fn text_of(alloc: Global, ended: &Result<Ending, Error>) -> Result<String, AllocError> {
    Ok(match ended {
        Ok(Ending::Done | Ending::Checked(_) | Ending::Compared(_)) => String::new(alloc),
        Ok(Ending::Failed(failure)) => String::from_utf8_lossy(alloc, failure.line())?,
        Err(error) => format!(in alloc; "{error}")?,
    })
}
