//! The comparison that each candidate gets.

ghost use Rattle.std.specs.Prelude.{ℕ, List, IfOk};
ghost use Rattle.pcl_same.specs.Keeping.{IsKept};
ghost use Rattle.pcl_shrink.specs.Looking.{SaysIfSame, SaysIfSameAt};
ghost use Rattle.pcl_shrink.specs.inner.Kept.{AreKept};

use crate::keeping::KeptJobs;
use crate::reading::Reading;
use pcl_base::{Dpi, JobFault, Profile};
use pcl_same::{KeptJob, compare_kept, one_asked_answer};
use std::alloc::{AllocError, Global};

/// Whether a candidate has the pages of a job at each resolution at which that counts, as many, in order, of the same sizes, with as many
/// copies, dot for dot, and asks the printer for the same. One that the rules refuse doesn't.
pub fn is_same(
    alloc: Global,
    kept: &KeptJobs<'_>,
    candidate: &[u8],
    at: Reading,
) -> Result<bool, AllocError>
    ensures { (job : List ℕ) → AreKept at.profile at.first at.also job kept.now
        → IfOk result (λ same. SaysIfSameAt at.profile at.first at.also job candidate.now same) }
{
    if !is_same_at(alloc, &kept.first, candidate, at.profile, at.first)? {
        return Ok(false);
    }
    match (&kept.also, at.also) {
        (Some(also), Some(dpi)) => is_same_at(alloc, also, candidate, at.profile, dpi),
        _ => Ok(true),
    }
}

/// The same at one resolution.
fn is_same_at(
    alloc: Global,
    kept: &KeptJob<'_>,
    candidate: &[u8],
    profile: Profile,
    dpi: Dpi,
) -> Result<bool, AllocError>
    ensures { (job : List ℕ) → IsKept profile dpi job kept.now → IfOk result (λ same. SaysIfSame profile dpi job candidate.now same) }
{
    one_asked_answer();
    match compare_kept(alloc, kept, candidate, profile, dpi) {
        Ok(comparison) => Ok(comparison.is_same()),
        Err(JobFault::Refused(_)) => Ok(false),
        Err(JobFault::Memory) => Err(AllocError),
    }
}
