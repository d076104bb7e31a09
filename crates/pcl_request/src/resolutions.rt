//! The resolution at which jobs are seen.

ghost use Rattle.std.specs.Prelude.{IfOk};
ghost use Rattle.pcl_request.specs.Resolutions.{AreSeenAt, IsFirstCommon, IsSeenAt, SayIfAccepted};

use crate::request::Resolution;
use pcl_base::{Dpi, Profile};
use pcl_page::{first_accepted, is_accepted};
use std::alloc::{AllocError, Global};

/// The resolution at which a job is seen that is read by a profile.
pub fn resolve(
    alloc: Global,
    resolution: Resolution,
    profile: Profile,
    job: &[u8],
) -> Result<Dpi, AllocError>
    ensures { IfOk result (λ dpi. IsSeenAt resolution profile job.now dpi) }
{
    match resolution {
        Resolution::Given(dpi) => Ok(dpi),
        Resolution::FirstAccepted => first_accepted(alloc, job, profile),
    }
}

/// The resolution at which two jobs are seen that are read by a profile.
pub fn resolve_both(
    alloc: Global,
    resolution: Resolution,
    profile: Profile,
    first: &[u8],
    second: &[u8],
) -> Result<Dpi, AllocError>
    ensures { IfOk result (λ dpi. AreSeenAt resolution profile first.now second.now dpi) }
{
    match resolution {
        Resolution::Given(dpi) => Ok(dpi),
        Resolution::FirstAccepted => first_common(alloc, profile, first, second),
    }
}

/// The first of 300 and 600 dots per inch at which two jobs are accepted; 300 where there is none.
fn first_common(
    alloc: Global,
    profile: Profile,
    first: &[u8],
    second: &[u8],
) -> Result<Dpi, AllocError>
    ensures { IfOk result (λ dpi. IsFirstCommon profile first.now second.now dpi) }
{
    if are_accepted(alloc, first, second, profile, Dpi::Dpi300)? {
        return Ok(Dpi::Dpi300);
    }
    if are_accepted(alloc, first, second, profile, Dpi::Dpi600)? {
        return Ok(Dpi::Dpi600);
    }
    Ok(Dpi::Dpi300)
}

/// Whether a profile accepts two jobs.
pub fn are_accepted(
    alloc: Global,
    first: &[u8],
    second: &[u8],
    profile: Profile,
    dpi: Dpi,
) -> Result<bool, AllocError>
    ensures { IfOk result (λ accepted. SayIfAccepted profile dpi first.now second.now accepted) }
{
    if is_accepted(alloc, first, profile, dpi)? {
        is_accepted(alloc, second, profile, dpi)
    } else {
        Ok(false)
    }
}
