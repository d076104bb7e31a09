//! A job that is kept at each resolution at which it counts.

ghost use Rattle.pcl_same.specs.Keeping.{KeepsJob};
ghost use Rattle.pcl_shrink.specs.inner.Kept.{AreKeptSoFar, IsAcceptedAlso, IsKeptIfAny, KeepsJobs};

use crate::reading::ReadJob;
use pcl_base::{Dpi, JobFault, Profile, Size};
use pcl_page::one_meaning;
use pcl_same::{KeptJob, keep_job};
use std::alloc::Global;

/// A job that is kept at each resolution at which it counts.
#[derive(Drop)]
pub struct KeptJobs<'a> {
    pub first: KeptJob<'a>,
    pub also: Option<KeptJob<'a>>,
}

/// How many bytes pages may take that are kept while a job is read: half as many as the dots of one have. A job whose pages take more is
/// kept where it is compared, once what proposes has gone.
pub fn room_of(dpi: Dpi) -> usize {
    let rows = Size::Letter.height(dpi) as usize;
    Size::Letter.row_bytes(dpi).saturating_mul(rows) / 2
}

/// A job at each resolution at which it counts, where it is kept already.
#[derive(Drop)]
pub struct KeptSoFar<'a> {
    pub first: Option<KeptJob<'a>>,
    pub also: Option<KeptJob<'a>>,
}

/// Keeps a job at each of these resolutions at which it isn't kept already.
pub fn keep_jobs<'a>(source: ReadJob<'a>, kept: KeptSoFar<'a>) -> Result<KeptJobs<'a>, JobFault>
    ensures { let at = source.entry.at in let job = source.entry.job.now in
        IsAcceptedAlso at.profile at.also job → AreKeptSoFar at.profile at.first at.also job kept.entry
        → KeepsJobs at.profile at.first at.also job result }
{
    one_meaning();
    let ReadJob { alloc, job, at } = source;
    let KeptSoFar { first, also } = kept;
    let first = kept_at(alloc, job, at.profile, at.first, first)?;
    match at.also {
        Some(dpi) => match kept_at(alloc, job, at.profile, dpi, also) {
            Ok(also) => Ok(KeptJobs {
                first,
                also: Some(also),
            }),
            Err(fault) => Err(fault),
        },
        None => Ok(KeptJobs { first, also: None }),
    }
}

/// Keeps a job at a resolution, unless it is kept.
fn kept_at<'a>(
    alloc: Global,
    job: &'a [u8],
    profile: Profile,
    dpi: Dpi,
    kept: Option<KeptJob<'a>>,
) -> Result<KeptJob<'a>, JobFault>
    ensures { IsKeptIfAny profile dpi job.now kept.entry → KeepsJob profile dpi job.now result }
{
    match kept {
        Some(kept) => Ok(kept),
        None => keep_job(alloc, job, profile, dpi),
    }
}
