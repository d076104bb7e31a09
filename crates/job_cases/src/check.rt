//! Whether a case holds.

use crate::case::{Case, Pages};
use crate::shown::{show_job, show_pages};
use case_tables::{NotationFault, bytes_of};
use pcl_base::{JobFault, Profile, Refusal};
use pcl_cert::Format;
use pcl_page::{Page, PageSink, perform, perform_by};
use pcl_tool::{Fault, Output, minimize};
use std::alloc::{AllocError, Global};

/// Compares the pages that come with those that a case expects.
#[derive(Drop)]
struct Comparison<'a> {
    case: &'a Case,
    /// How many came.
    count: usize,
    /// Whether each was the expected one.
    is_same: bool,
}

impl<'a> Comparison<'a> {
    fn new(case: &'a Case) -> Self {
        Comparison {
            case,
            count: 0,
            is_same: true,
        }
    }

    /// Whether all pages came that are expected, and no other.
    fn holds(&self) -> bool {
        self.is_same && self.count == self.case.page_count()
    }
}

impl PageSink for Comparison<'_> {
    ghost takes = { λ old page new. Unit {0} };

    fn page(&mut self, page: &Page) -> Result<(), AllocError> {
        let is_expected = match self.case.page(self.count) {
            Some(pages) => pages.has(page),
            None => false,
        };
        self.is_same = self.is_same && is_expected;
        self.count = self.count.saturating_add(1);
        Ok(())
    }
}

/// What came in place of what a case expects by a profile; none where it holds.
pub(crate) fn fault_of(
    alloc: Global,
    case: &Case,
    profile: Profile,
) -> Result<Option<String>, AllocError> {
    let job = match bytes_of(alloc, case.notation.as_str()) {
        Ok(job) => job,
        Err(NotationFault::Memory(error)) => return Err(error),
        Err(fault) => return Ok(Some(format!(in alloc; "  {fault}")?)),
    };
    let mut comparison = Comparison::new(case);
    match perform_by(alloc, &job, profile, case.dpi, &mut comparison) {
        Err(JobFault::Refused(refusal)) => refusal_fault(alloc, case, &job, refusal, profile),
        Err(JobFault::Memory) => Err(AllocError),
        Ok(()) if comparison.holds() && is_accepted(case) => match profile {
            Profile::Stated => written_fault(alloc, case, &job),
            Profile::Drivers => Ok(None),
        },
        Ok(()) => Ok(Some(show_pages(alloc, &job, profile, case.dpi)?)),
    }
}

/// Whether a case expects pages, or none, and no refusal.
fn is_accepted(case: &Case) -> bool {
    case.refusal.is_none() && case.no_page == case.pages.is_empty()
}

/// What is wrong with a refusal: it isn't the expected one, or by the stated profile the job isn't refused so when it is written.
fn refusal_fault(
    alloc: Global,
    case: &Case,
    job: &[u8],
    refusal: Refusal,
    profile: Profile,
) -> Result<Option<String>, AllocError> {
    let mut line = Vec::new(alloc);
    refusal.write_text(&mut line)?;
    let line = std::str::from_utf8(&line).unwrap_or("a name that is no text");
    if case
        .refusal
        .as_ref()
        .is_none_or(|expected| expected.as_str() != line)
    {
        return Ok(Some(format!(in alloc; "  refused {line}")?));
    }
    if profile == Profile::Drivers {
        return Ok(None);
    }
    match minimize(alloc, job, case.dpi, Format::One) {
        Err(Fault::Refused(same)) if same == refusal => Ok(None),
        Err(Fault::Memory) => Err(AllocError),
        _ => Ok(Some(String::from_str(alloc, "  not refused where it is written")?)),
    }
}

/// What is wrong with the job that an accepted job is written as: other pages, another length or another text.
fn written_fault(alloc: Global, case: &Case, job: &[u8]) -> Result<Option<String>, AllocError> {
    let output = match minimize(alloc, job, case.dpi, Format::One) {
        Ok(output) => output,
        Err(Fault::Memory) => return Err(AllocError),
        Err(_) => return Ok(Some(String::from_str(alloc, "  not written")?)),
    };
    let mut comparison = Comparison::new(case);
    let read = perform(alloc, &output.job, case.dpi, &mut comparison);
    if read.is_err() || !comparison.holds() {
        let pages = show_pages(alloc, &output.job, Profile::Stated, case.dpi)?;
        return Ok(Some(format!(in alloc; "  the written job has\n{pages}")?));
    }
    let len = output.job.len();
    if case.length.is_some_and(|expected| expected != len) {
        return Ok(Some(format!(in alloc; "  the written job has {len} bytes")?));
    }
    text_fault(alloc, case, &output)
}

/// What is wrong with the text of a written job, where a case tells its bodies.
fn text_fault(alloc: Global, case: &Case, output: &Output) -> Result<Option<String>, AllocError> {
    let Some(expected) = written_text(alloc, case)? else {
        return Ok(None);
    };
    if output.job.as_slice() != expected.as_slice() {
        let text = show_job(alloc, &output.job)?;
        return Ok(Some(format!(in alloc; "  written as{text}")?));
    }
    match minimize(alloc, &output.job, case.dpi, Format::One) {
        Ok(again) if again.job.as_slice() == expected.as_slice() => Ok(None),
        _ => Ok(Some(String::from_str(alloc, "  the written job is written in another way")?)),
    }
}

/// The job text (docs/OUTPUT.md) of the bodies that a case tells; none where it doesn't.
fn written_text(alloc: Global, case: &Case) -> Result<Option<Vec<u8>>, AllocError> {
    let mut job = Vec::from_slice(alloc, b"\x1bE")?;
    for pages in case.pages.iter() {
        let Some(body) = &pages.body else {
            return Ok(None);
        };
        let text = page_text(alloc, case, pages, body)?;
        for _ in 0..pages.times {
            job.extend_from_slice(&text)?;
        }
    }
    job.extend_from_slice(b"\x1bE")?;
    Ok(Some(job))
}

/// The page text of a body.
fn page_text(alloc: Global, case: &Case, page: &Pages, body: &[u8]) -> Result<Vec<u8>, AllocError> {
    let copies = page.copies;
    let code = page.size.code();
    let dots = case.dpi.dots();
    let width = page.size.width(case.dpi);
    let head = format!(in alloc;
        "\x1b&l{copies}x{code}a0E\x1b*p0x0Y\x1b*t{dots}R\x1b*r{width}s0A"
    )?;
    let mut text = Vec::from_slice(alloc, head.as_bytes())?;
    text.extend_from_slice(body)?;
    text.extend_from_slice(b"\x1b*rC\x0c")?;
    Ok(text)
}
