//! Arguments that come as numbers, and jobs that are too long.

ghost use Rattle.std.specs.Prelude.{◌⊎◌, IfOk, IfErr};
ghost use Rattle.pcl_library.specs.Arguments.{IsSeen, AreSeen, IsNoResolution, IsTooLong, FailsBy, outcome_in};
ghost use Rattle.pcl_library.specs.Arguments.{IsWithinLimit, IsResolutionOf, IsChoiceOf, IsScaleOf, IsFormatOf};
ghost use Rattle.pcl_library.specs.Failures.{IsUnperformed};

use crate::failure::{Argument, CallFailure};
use pcl_base::{Dpi, PAGE_LIMIT, Profile};
use pcl_cert::Format;
use pcl_command::compared_at;
use pcl_preview::{PageSet, Scale};
use pcl_request::{Resolution, resolve};
use pcl_tool::{Fault, INPUT_LIMIT, PageChoice};
use std::alloc::Global;

/// The number that leaves the resolution to the jobs.
pub const FIRST_ACCEPTED: u32 = 0;

/// The resolution at which a job that is read by a profile is seen by the number of one: 300 or 600 dots per inch, or 0 for the first
/// of these at which the job is accepted.
pub fn seen_at(
    alloc: Global,
    job: &[u8],
    profile: Profile,
    resolution: u32,
) -> Result<Dpi, CallFailure>
    ensures seen { IfOk result (IsSeen profile resolution job.now) }
    ensures unperformed { IfErr result IsUnperformed }
    ensures arguments { FailsBy (IsNoResolution resolution) (IsTooLong job.now) (outcome_in result) }
{
    let asked = resolution_numbered(resolution)?;
    within_limit(job)?;
    Ok(resolve(alloc, asked, profile, job)?)
}

/// The resolution at which two jobs are compared by the number of one, with what they ask where that is wanted; by 0 it is the first at
/// which both are accepted, and 600 dots per inch where they are the same at 300 and both are accepted there too.
pub fn both_seen_at(
    alloc: Global,
    asks: bool,
    first: &[u8],
    second: &[u8],
    resolution: u32,
) -> Result<Dpi, CallFailure>
    ensures seen { IfOk result (AreSeen asks resolution first.now second.now) }
    ensures unperformed { IfErr result IsUnperformed }
    ensures arguments { FailsBy (IsNoResolution resolution) (IsTooLong first.now ⊎ IsTooLong second.now) (outcome_in result) }
{
    let asked = resolution_numbered(resolution)?;
    within_limit(first)?;
    within_limit(second)?;
    Ok(compared_at(alloc, asks, first, second, Profile::Drivers, asked)?)
}

/// Fails where there are more bytes than the program reads as one input.
pub fn within_limit(bytes: &[u8]) -> Result<(), CallFailure>
    ensures { IsWithinLimit bytes.now result }
{
    if bytes.len() > INPUT_LIMIT {
        Err(CallFailure::Run(Fault::TooLong))
    } else {
        Ok(())
    }
}

/// The resolution that a number asks for.
pub fn resolution_numbered(number: u32) -> Result<Resolution, CallFailure>
    ensures { IsResolutionOf number result }
{
    match number {
        FIRST_ACCEPTED => Ok(Resolution::FirstAccepted),
        300 => Ok(Resolution::Given(Dpi::Dpi300)),
        600 => Ok(Resolution::Given(Dpi::Dpi600)),
        _ => Err(CallFailure::Wrong(Argument::Resolution)),
    }
}

/// The pages from one number to another, counted from 1, or all of them by 0 and 0.
pub fn pages_between(first: u32, last: u32) -> Result<PageChoice, CallFailure>
    ensures { IsChoiceOf first last result }
{
    if first == 0 && last == 0 {
        return Ok(PageChoice::All);
    }
    if first == 0 || last < first || last > PAGE_LIMIT {
        return Err(CallFailure::Wrong(Argument::Pages));
    }
    let pages = PageSet::none().with(first as usize, last as usize);
    Ok(PageChoice::Listed(pages))
}

/// The scale that a number asks for: as many dots across and down make a pixel.
pub fn scale_numbered(number: u32) -> Result<Scale, CallFailure>
    ensures { IsScaleOf number result }
{
    Scale::new(number).ok_or(CallFailure::Wrong(Argument::Scale))
}

/// The format of certificates that a number asks for; none by 0.
pub fn format_numbered(number: u32) -> Result<Option<Format>, CallFailure>
    ensures { IsFormatOf number result }
{
    match number {
        0 => Ok(None),
        1 => Ok(Some(Format::One)),
        2 => Ok(Some(Format::Two)),
        _ => Err(CallFailure::Wrong(Argument::Format)),
    }
}
