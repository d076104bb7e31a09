//! Two jobs, compared.

ghost use Rattle.std.specs.Prelude.{IfOk};
ghost use Rattle.pcl_base.specs.declared.profile.Profile.TheVariants.{Drivers};
ghost use Rattle.pcl_same.specs.Comparing.{AreReadBy, IsCompared, IsComparedAsked, IsComparedAskedBy};
ghost use Rattle.pcl_same.specs.declared.asking.LastExit.TheVariants.{Ends};

use crate::asking::LastExit;
use crate::comparing::compare_by_last_exit;
use crate::keeping::keep_job;
use crate::{AskedComparison, PageComparison, SameFault, Which};
use pcl_base::{Dpi, Profile};
use pcl_page::is_accepted;
use std::alloc::{AllocError, Global};

/// Whether two jobs print the same pages at a resolution, and where not: a different number of pages is reported
/// first, else the first page that differs, and how. They are read by the widest profile that is given, but by the stated one where that
/// accepts both. A refusal is the first job's, else the second's. While it runs one page is held as dots, and the first job's pages as
/// row data.
pub fn same(
    alloc: Global,
    first: &[u8],
    second: &[u8],
    widest: Profile,
    dpi: Dpi,
) -> Result<PageComparison, SameFault>
    ensures { IsCompared widest dpi first.now second.now result }
{
    match same_asked(alloc, first, second, widest, dpi) {
        Ok(comparison) => Ok(comparison.of_pages()),
        Err(fault) => Err(fault),
    }
}

/// Whether two jobs print the same pages at a resolution and ask the same of the printer besides dots, and where not: how the pages
/// differ is reported first, as by `same`, else the first page that is asked with another value of a setting, else a different
/// number of universal exits, else the first of these that differs, and how. A last exit after all pages and without lines is the end of
/// the job, as none at all. By which profile they are read, refusals, and what is held are those of `same`.
pub fn same_asked(
    alloc: Global,
    first: &[u8],
    second: &[u8],
    widest: Profile,
    dpi: Dpi,
) -> Result<AskedComparison, SameFault>
    ensures { IsComparedAsked widest dpi first.now second.now result }
{
    match widest {
        Profile::Stated => same_by(alloc, first, second, Profile::Stated, dpi),
        Profile::Drivers => same_by_either(alloc, first, second, dpi),
    }
}

/// The same by the stated profile where that accepts both jobs, else by the drivers'.
fn same_by_either(
    alloc: Global,
    first: &[u8],
    second: &[u8],
    dpi: Dpi,
) -> Result<AskedComparison, SameFault>
    ensures { IsComparedAsked Drivers dpi first.now second.now result }
{
    match same_by(alloc, first, second, Profile::Stated, dpi) {
        Err(SameFault::Refused { .. }) => same_by(alloc, first, second, Profile::Drivers, dpi),
        answer => answer,
    }
}

/// The same by a profile.
fn same_by(
    alloc: Global,
    first: &[u8],
    second: &[u8],
    profile: Profile,
    dpi: Dpi,
) -> Result<AskedComparison, SameFault>
    ensures { IsComparedAskedBy Ends profile dpi first.now second.now result }
{
    let kept = match keep_job(alloc, first, profile, dpi) {
        Ok(kept) => kept,
        Err(fault) => return Err(SameFault::of(Which::First, fault)),
    };
    match compare_by_last_exit(alloc, &kept, second, profile, dpi, LastExit::Ends) {
        Ok(comparison) => Ok(comparison),
        Err(fault) => Err(SameFault::of(Which::Second, fault)),
    }
}

/// By which profile two jobs are read: the widest that is given, but the stated one where that accepts both.
pub fn read_by(
    alloc: Global,
    first: &[u8],
    second: &[u8],
    widest: Profile,
    dpi: Dpi,
) -> Result<Profile, AllocError>
    ensures { IfOk result (λ profile. AreReadBy widest profile dpi first.now second.now) }
{
    match widest {
        Profile::Stated => Ok(Profile::Stated),
        Profile::Drivers => read_by_either(alloc, first, second, dpi),
    }
}

/// The same where the drivers' profile is the widest.
fn read_by_either(
    alloc: Global,
    first: &[u8],
    second: &[u8],
    dpi: Dpi,
) -> Result<Profile, AllocError>
    ensures { IfOk result (λ profile. AreReadBy Drivers profile dpi first.now second.now) }
{
    if !is_accepted(alloc, first, Profile::Stated, dpi)? {
        return Ok(Profile::Drivers);
    }
    if is_accepted(alloc, second, Profile::Stated, dpi)? {
        Ok(Profile::Stated)
    } else {
        Ok(Profile::Drivers)
    }
}
