//! A comparison of two jobs, each from a file.

ghost use Rattle.std.specs.Prelude.{IfOk};
ghost use Rattle.pcl_base.specs.declared.dpi.Dpi.TheVariants.{Dpi300};
ghost use Rattle.pcl_request.specs.Resolutions.{IsFirstCommon};
ghost use Rattle.pcl_request.specs.declared.request.Resolution.TheVariants.{FirstAccepted};
ghost use Rattle.pcl_command.specs.Comparisons.{AreComparedAt, IsComparedFor, IsCompareRun, IsFiner};

use crate::difference_images::{ComparedJobs, draw_difference};
use pcl_base::{Dpi, Profile};
use pcl_files::{JobFiles, read_file};
use pcl_messages::{CompareFault, comparison_line};
use pcl_request::{ComparedFiles, Resolution, are_accepted, resolve_both};
use pcl_same::{AskedComparison, SameFault, same_asked};
use pcl_streams::write_all;
use std::alloc::{AllocError, Global};
use std::io::Write;

/// Reads the files, compares the jobs, draws the image if one is asked for, and writes the line. Nothing is written after
/// any fault but of a write, and then a prefix of the line, or nothing where the image failed.
pub fn compare<F: JobFiles, W: Write>(
    files: &mut F,
    alloc: Global,
    asked: ComparedFiles<'_>,
    out: &mut W,
) -> Result<AskedComparison, CompareFault>
    ensures { IsCompareRun F.acts asked.entry files.old files.new (W.contents out.old) (W.contents out.new) result }
{
    let first = read_file(files, alloc, asked.first)?;
    let second = read_file(files, alloc, asked.second)?;
    let dpi = compared_at(
        alloc,
        asked.asks,
        &first,
        &second,
        asked.profile,
        asked.resolution,
    )?;
    let comparison = compare_jobs(alloc, asked.asks, &first, &second, asked.profile, dpi)?;
    let line = comparison_line(alloc, asked.layout, &comparison)?;
    let pages = comparison.of_pages();
    let jobs = ComparedJobs {
        first: &first,
        second: &second,
        widest: asked.profile,
        dpi,
    };
    draw_difference(files, alloc, asked.image, jobs, &pages)?;
    write_all(out, &line)?;
    Ok(comparison)
}

/// The resolution at which two jobs are compared: the one that is asked for; or where that is left to the jobs, the first at which both are
/// accepted, and 600 dots per inch where they are the same at 300 and both are accepted there too.
pub fn compared_at(
    alloc: Global,
    asks: bool,
    first: &[u8],
    second: &[u8],
    widest: Profile,
    resolution: Resolution,
) -> Result<Dpi, AllocError>
    ensures { IfOk result (λ dpi. AreComparedAt resolution asks widest first.now second.now dpi) }
{
    let dpi = resolve_both(alloc, resolution, widest, first, second)?;
    match (resolution, dpi) {
        (Resolution::FirstAccepted, Dpi::Dpi300) => finest(alloc, asks, first, second, widest),
        _ => Ok(dpi),
    }
}

/// The same of jobs that are accepted at 300 dots per inch, or at neither.
fn finest(
    alloc: Global,
    asks: bool,
    first: &[u8],
    second: &[u8],
    widest: Profile,
) -> Result<Dpi, AllocError>
    ensures { IfOk result (λ dpi. IsFirstCommon widest first.now second.now Dpi300
        → AreComparedAt FirstAccepted asks widest first.now second.now dpi) }
{
    match compare_jobs(alloc, asks, first, second, widest, Dpi::Dpi300) {
        Ok(AskedComparison::Same) => finer(alloc, first, second, widest),
        Ok(AskedComparison::Pages(_)) => Ok(Dpi::Dpi300),
        Ok(AskedComparison::Asks(_)) => Ok(Dpi::Dpi300),
        Err(SameFault::Refused { .. }) => Ok(Dpi::Dpi300),
        Err(SameFault::Memory) => Err(AllocError),
    }
}

/// 600 dots per inch where both jobs are accepted there, else 300.
fn finer(alloc: Global, first: &[u8], second: &[u8], widest: Profile) -> Result<Dpi, AllocError>
    ensures { IfOk result (λ dpi. IsFiner widest first.now second.now dpi) }
{
    if are_accepted(alloc, first, second, widest, Dpi::Dpi600)? {
        Ok(Dpi::Dpi600)
    } else {
        Ok(Dpi::Dpi300)
    }
}

/// How two jobs compare. They are read by the widest profile that is given, but by the stated one where that accepts both; what they ask
/// of the printer counts only where that is wanted.
pub fn compare_jobs(
    alloc: Global,
    asks: bool,
    first: &[u8],
    second: &[u8],
    widest: Profile,
    dpi: Dpi,
) -> Result<AskedComparison, SameFault>
    ensures { IsComparedFor asks widest dpi first.now second.now result }
{
    match same_asked(alloc, first, second, widest, dpi) {
        Ok(AskedComparison::Asks(_)) if !asks => Ok(AskedComparison::Same),
        Ok(comparison) => Ok(comparison),
        Err(fault) => Err(fault),
    }
}
