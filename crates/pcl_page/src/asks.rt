//! What a job asks of the printer besides dots.

ghost use Rattle.std.specs.Prelude.{◌≡◌, OnOk};
ghost use Rattle.pcl_page.specs.Asks.{no_asks, with_page, with_exit, with_reset, restarted, with_side, with_said_size, with_said_sides, with_said_source, with_separation, lasting_if, of_job, asks_of};

use pcl_env::Asked;
use std::alloc::{AllocError, Global};

/// How a page begins (docs/LANGUAGE.md, "What a page is asked with").
#[derive(Clone, Copy, Debug, PartialEq, Eq)]
pub struct PageStart {
    /// Whether it is the first page of the job, or the first since a reset or a universal exit: it begins a sheet.
    pub is_first: bool,
    /// The side of the sheet that was asked for since the page before it, `&aG`, if one was: the last one.
    pub sheet_side: Option<i64>,
    /// The number of the page size that was said since the page before it, `&lA`; nothing for a first page.
    pub size: Option<i64>,
    /// The sides that were said since then, `&lS`; nothing for a first page.
    pub sides: Option<i64>,
    /// The paper source that was said since then, `&lH` but 0; nothing for a first page.
    pub source: Option<i64>,
}

impl PageStart {
    /// The start of a job, and what a reset leaves.
    pub const FIRST: PageStart = PageStart {
        is_first: true,
        sheet_side: None,
        size: None,
        sides: None,
        source: None,
    };

    /// What an ejected page leaves.
    pub const NEXT: PageStart = PageStart {
        is_first: false,
        sheet_side: None,
        size: None,
        sides: None,
        source: None,
    };
}

/// What a page was asked with.
#[derive(Clone, Copy, Debug, PartialEq, Eq)]
pub struct AskedPage {
    /// What was said since the last reset, before the command that ejected the page.
    pub said: Asked,
    /// How it began.
    pub start: PageStart,
}

/// A universal exit that was performed (docs/LANGUAGE.md, "What a page is asked with").
#[derive(Clone, Copy, Debug)]
pub struct Exit<'a> {
    /// How many pages were ejected before it, among them the one that it ejects itself.
    pub pages: u32,
    /// Whether a reset was performed between the page or the exit before it and itself.
    pub is_reset: bool,
    /// The lines of the printer's job language after it: a slice of the job.
    pub lines: &'a [u8],
}

/// What a job asks of the printer besides dots.
#[derive(Debug, Drop)]
pub struct Asks<'a> {
    /// What each page was asked with, in the order of the pages.
    pub pages: Vec<AskedPage>,
    /// The universal exits, in order.
    pub exits: Vec<Exit<'a>>,
    /// How the next page would begin.
    pub next: PageStart,
    /// Whether a reset was performed since the last page or universal exit.
    pub is_reset: bool,
    /// How the job is separated from the next, `&lT`, where that is said once, after the last page and before a reset.
    pub separation: Option<i64>,
    /// Whether a command counts on fonts or macros that stay in the printer, or changes these, ejects a page on some printers, or
    /// separates jobs elsewhere (docs/LANGUAGE.md, "What stays in the printer").
    pub lasts: bool,
    /// Where it does, the bytes of the job, as far as these are known; else none.
    pub whole: &'a [u8],
}

impl<'a> Asks<'a> {
    /// What is asked before the first command: nothing.
    pub(crate) fn new(alloc: Global) -> Asks<'a>
        ensures { asks_of result ≡ no_asks }
    {
        Asks {
            pages: Vec::new(alloc),
            exits: Vec::new(alloc),
            next: PageStart::FIRST,
            is_reset: false,
            separation: None,
            lasts: false,
            whole: &[],
        }
    }

    /// One page more was asked with this.
    pub(crate) fn push_page(&mut self, said: Asked) -> Result<(), AllocError>
        ensures { OnOk result (asks_of self.new ≡ with_page said (asks_of self.old)) }
    {
        self.pages.push(AskedPage {
            said,
            start: self.next,
        })?;
        self.next = PageStart::NEXT;
        self.is_reset = false;
        let is_separated = self.separation.is_some();
        self.last_if(is_separated);
        Ok(())
    }

    /// One universal exit more was performed.
    pub(crate) fn push_exit(&mut self, pages: u32, lines: &'a [u8]) -> Result<(), AllocError>
        ensures { OnOk result (asks_of self.new ≡ with_exit pages lines.now (asks_of self.old)) }
    {
        self.exits.push(Exit {
            pages,
            is_reset: self.is_reset,
            lines,
        })?;
        self.is_reset = false;
        Ok(())
    }

    /// A reset was performed.
    pub(crate) fn reset(&mut self)
        ensures { asks_of self.new ≡ with_reset (asks_of self.old) }
    {
        self.is_reset = true;
    }

    /// The printer was put back to its defaults.
    pub(crate) fn restart(&mut self)
        ensures { asks_of self.new ≡ restarted (asks_of self.old) }
    {
        self.next = PageStart::FIRST;
    }

    /// The next page is asked for on this side of a sheet.
    pub(crate) fn ask_side(&mut self, side: i64)
        ensures { asks_of self.new ≡ with_side side (asks_of self.old) }
    {
        self.next.sheet_side = Some(side);
    }

    /// The size with this number was said.
    pub(crate) fn say_size(&mut self, size: i64)
        ensures { asks_of self.new ≡ with_said_size size (asks_of self.old) }
    {
        if !self.next.is_first {
            self.next.size = Some(size);
        }
    }

    /// These sides were said.
    pub(crate) fn say_sides(&mut self, sides: i64)
        ensures { asks_of self.new ≡ with_said_sides sides (asks_of self.old) }
    {
        if !self.next.is_first {
            self.next.sides = Some(sides);
        }
    }

    /// This paper source was said; 0 is none.
    pub(crate) fn say_source(&mut self, source: i64)
        ensures { asks_of self.new ≡ with_said_source source (asks_of self.old) }
    {
        if source != 0 && !self.next.is_first {
            self.next.source = Some(source);
        }
    }

    /// Jobs are separated by this value. That is kept where it is said once, before the printer is put back after a page.
    pub(crate) fn separate(&mut self, value: i64)
        ensures { asks_of self.new ≡ with_separation value (asks_of self.old) }
    {
        let is_elsewhere = self.next.is_first || self.separation.is_some();
        self.last_if(is_elsewhere);
        self.separation = Some(value);
    }

    /// Where the test holds, a command counts on what stays in the printer, or changes it, ejects a page on some printers, or separates
    /// jobs elsewhere.
    pub(crate) fn last_if(&mut self, test: bool)
        ensures { asks_of self.new ≡ lasting_if test (asks_of self.old) }
    {
        self.lasts = self.lasts || test;
    }

    /// The same of a job of these bytes, at its end.
    pub(crate) fn of_job(self, job: &'a [u8]) -> Asks<'a>
        ensures { asks_of result ≡ of_job job.now (asks_of self.entry) }
    {
        let whole: &'a [u8] = if self.lasts { job } else { &[] };
        Asks {
            next: PageStart::FIRST,
            is_reset: false,
            whole,
            ..self
        }
    }
}
