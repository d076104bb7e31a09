//! Whether a job is accepted by a profile, at which resolution, and how many pages it has.

ghost use Rattle.std.specs.Prelude.{IfOk};
ghost use Rattle.pcl_page.specs.Accepting.{IsPageCount, IsFirstAccepted, SaysIfAccepted};

use crate::{Page, PageSink, perform_by};
use pcl_base::{Dpi, JobFault, Profile};
use std::alloc::{AllocError, Global};

/// How many pages a job has. A refusal is the job's.
pub fn page_count(alloc: Global, job: &[u8], profile: Profile, dpi: Dpi) -> Result<usize, JobFault>
    ensures { IsPageCount profile dpi job.now result }
{
    let mut counted = Counted { pages: 0 };
    perform_by(alloc, job, profile, dpi, &mut counted)?;
    Ok(counted.pages)
}

/// The first of 300 and 600 dots per inch at which a job is accepted; 300 where it is refused at both.
pub fn first_accepted(alloc: Global, job: &[u8], profile: Profile) -> Result<Dpi, AllocError>
    ensures { IfOk result (λ dpi. IsFirstAccepted profile job.now dpi) }
{
    if is_accepted(alloc, job, profile, Dpi::Dpi300)? {
        return Ok(Dpi::Dpi300);
    }
    if is_accepted(alloc, job, profile, Dpi::Dpi600)? {
        return Ok(Dpi::Dpi600);
    }
    Ok(Dpi::Dpi300)
}

/// Whether the rules accept a job.
pub fn is_accepted(
    alloc: Global,
    job: &[u8],
    profile: Profile,
    dpi: Dpi,
) -> Result<bool, AllocError>
    ensures { IfOk result (λ accepted. SaysIfAccepted profile dpi job.now accepted) }
{
    match page_count(alloc, job, profile, dpi) {
        Ok(_) => Ok(true),
        Err(JobFault::Refused(_)) => Ok(false),
        Err(JobFault::Memory) => Err(AllocError),
    }
}

/// Counts pages.
#[derive(Drop)]
struct Counted {
    pages: usize,
}

impl PageSink for Counted {
    ghost use Rattle.std.specs.Prelude.{◌≡◌, ◌+◌};

    ghost takes = { λ old page new. new.pages ≡ old.pages + 1 };

    fn page(&mut self, _page: &Page) -> Result<(), AllocError> {
        match self.pages.checked_add(1) {
            Some(pages) => {
                self.pages = pages;
                Ok(())
            }
            None => Err(AllocError),
        }
    }
}
