//! The pages of jobs, and runs over readers and writers.

use crate::jobs::{DOT, REFUSED, TWO_SIZES};
use pcl_base::{Dpi, JobFault};
use pcl_page::read_pages;
use pcl_tool::{Fault, filter, preview, read_all};
use std::alloc::Global;
use std::io::{self, Write};

/// Counts the bytes that it takes, and needs no memory.
#[derive(Drop)]
struct Counted(usize);

impl Write for Counted {
    fn write(&mut self, buf: &[u8]) -> io::Result<usize> {
        self.0 = self.0.saturating_add(buf.len());
        Ok(buf.len())
    }

    fn flush(&mut self) -> io::Result<()> {
        Ok(())
    }
}

/// Prints what each run gives.
pub(crate) fn print_runs<R: Print + AllocGlobal>(rt: &R) -> io::Result<()> {
    print_page_count(rt, "a dot", DOT)?;
    print_page_count(rt, "pages of two sizes", TWO_SIZES)?;
    print_preview(rt, "a page", DOT, 1)?;
    print_preview(rt, "a missing page", DOT, 2)?;
    print_preview(rt, "a refused job", REFUSED, 1)?;
    print_input(rt)?;
    print_filter(rt)
}

/// Prints how many pages a job has.
fn print_page_count<R: Print + AllocGlobal>(rt: &R, name: &str, job: &[u8]) -> io::Result<()> {
    let count = page_count(rt.alloc(), job);
    println!(rt; "{name}, its pages: {count:?}")
}

/// How many pages a job has, tried twice.
fn page_count(alloc: Global, job: &[u8]) -> Result<usize, JobFault> {
    let pages = match read_pages(alloc, job, Dpi::Dpi300) {
        Err(JobFault::Memory) => read_pages(alloc, job, Dpi::Dpi300),
        answer => answer,
    };
    pages.map(|pages| pages.len())
}

/// Prints what a preview of a page answers, and how many bytes it writes.
fn print_preview<R: Print + AllocGlobal>(
    rt: &R,
    name: &str,
    job: &[u8],
    page: usize,
) -> io::Result<()> {
    let (answer, len) = previewed(rt.alloc(), job, page);
    println!(rt; "a preview of {name}: {answer:?}, {len} bytes")
}

/// What a preview of a page answers, and how many bytes it writes, tried twice unless it wrote some before memory ran out.
fn previewed(alloc: Global, job: &[u8], page: usize) -> (Result<(), Fault>, usize) {
    let mut out = Counted(0);
    match preview(alloc, job, page, Dpi::Dpi300, &mut out) {
        Err(Fault::Memory) if out.0 == 0 => {
            let answer = preview(alloc, job, page, Dpi::Dpi300, &mut out);
            (answer, out.0)
        }
        answer => (answer, out.0),
    }
}

/// Prints whether an input is read as it is.
fn print_input<R: Print + AllocGlobal>(rt: &R) -> io::Result<()> {
    let is_read = input_again(rt.alloc());
    println!(rt; "an input, read as it is: {is_read:?}")
}

/// Whether an input is read as it is, tried twice.
fn input_again(alloc: Global) -> Result<bool, Fault> {
    let input = match read_all(alloc, &mut &*DOT, 100) {
        Err(Fault::Memory) => read_all(alloc, &mut &*DOT, 100),
        answer => answer,
    };
    input.map(|input| input.as_slice() == DOT)
}

/// Prints what a filter answers, and how many bytes it writes.
fn print_filter<R: Print + AllocGlobal>(rt: &R) -> io::Result<()> {
    let (answer, len) = filtered(rt.alloc());
    println!(rt; "a filter: {answer:?}, {len} bytes")
}

/// What a filter answers, and how many bytes it writes, tried twice unless it wrote some before memory ran out.
fn filtered(alloc: Global) -> (Result<(), Fault>, usize) {
    let mut out = Counted(0);
    match filter(alloc, &mut &*DOT, Dpi::Dpi300, &mut out) {
        Err(Fault::Memory) if out.0 == 0 => {
            let answer = filter(alloc, &mut &*DOT, Dpi::Dpi300, &mut out);
            (answer, out.0)
        }
        answer => (answer, out.0),
    }
}
