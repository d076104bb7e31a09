//! Reports of a run besides what it writes.

ghost use Rattle.std.specs.Prelude.{◌≡◌, IfOk};
ghost use Rattle.pcl_command.specs.Reporting.{IsCountUnlessRefused, says_no_page};

use pcl_base::{Dpi, JobFault, Profile};
use pcl_messages::{NO_PAGE, shrunk_report};
use pcl_page::page_count;
use pcl_request::Layout;
use pcl_shrink::Shrunk;
use pcl_streams::Reporter;
use std::alloc::{AllocError, Global};

/// Reports that a job has no page by a profile, if that is so.
pub fn report_no_page<P: Reporter>(
    alloc: Global,
    job: &[u8],
    profile: Profile,
    dpi: Dpi,
    reporter: P,
) -> Result<(), AllocError> {
    if count_pages(alloc, job, profile, dpi)? == Some(0) {
        reporter.report(NO_PAGE);
    }
    Ok(())
}

/// Reports that a job has no page, if that is so, and where it is asked for, in a layout, the bytes of the job and of the one that it
/// was shrunk to, its pages, and how they are written.
pub fn report_shrunk<P: Reporter>(
    alloc: Global,
    len: usize,
    shrunk: &Shrunk,
    asked_for: Option<Layout>,
    reporter: P,
) -> Result<(), AllocError> {
    if says_no_page(shrunk.pages, asked_for) {
        reporter.report(NO_PAGE);
    }
    if let Some(layout) = asked_for {
        reporter.report(&shrunk_report(alloc, layout, len, shrunk)?);
    }
    Ok(())
}

/// How many pages a job has; none where it is refused.
fn count_pages(
    alloc: Global,
    job: &[u8],
    profile: Profile,
    dpi: Dpi,
) -> Result<Option<usize>, AllocError>
    ensures { IfOk result (λ counted. IsCountUnlessRefused profile dpi job.now counted) }
{
    match page_count(alloc, job, profile, dpi) {
        Ok(pages) => Ok(Some(pages)),
        Err(JobFault::Refused(_)) => Ok(None),
        Err(JobFault::Memory) => Err(AllocError),
    }
}

/// Whether a line says that a shrunk job has no page: an object of JSON says how many there are.
fn says_no_page(pages: usize, asked_for: Option<Layout>) -> bool
    ensures { result ≡ says_no_page pages asked_for }
{
    match asked_for {
        Some(Layout::Json) => false,
        _ => pages == 0,
    }
}
