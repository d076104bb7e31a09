//! Jobs written again.

ghost use Rattle.std.specs.Prelude.{◌≡◌, ◌≢◌, ◌⊎◌, Some, None};
ghost use Rattle.pcl_base.specs.declared.profile.Profile.TheVariants.{Stated, Drivers};
ghost use Rattle.pcl_library.specs.Arguments.{IsNoResolution, IsNoFormat, IsTooLong, FailsBy};
ghost use Rattle.pcl_library.specs.Answers.{Answers, AnswersAt, HasLeastJob, HasWrittenJob, HasSmallerJob, Shrinks, ShrinksAt};

use crate::answer::Answer;
use crate::arguments::{FIRST_ACCEPTED, format_numbered, seen_at};
use crate::failure::CallFailure;
use pcl_base::{Dpi, Profile};
use pcl_cert::Format;
use pcl_shrink::{Readers, Terms, shrink, shrink_everywhere};
use pcl_tool::{Fault, INPUT_LIMIT, Unwatched, least_job, minimize};
use std::alloc::Global;

/// `pclmin_min`: a least raster job of the job's pages. It has a certificate of format 1 or 2, or by 0 none.
#[unsafe(no_mangle)]
pub extern "C" fn pcl_library_min(
    alloc: Global,
    job: &[u8],
    resolution: u32,
    format: u32,
    answer: &mut Answer,
)
    ensures says { Answers Stated resolution job.now (HasWrittenJob job.now format) answer.new }
    ensures arguments { FailsBy (IsNoResolution resolution ⊎ IsNoFormat format) (IsTooLong job.now) answer.new.outcome }
{
    *answer = match format_numbered(format) {
        Ok(format) => min_answer(alloc, job, resolution, format),
        Err(failure) => Answer::of_failure(alloc, &failure, 0),
    };
}

/// A least raster job, with a certificate where a format is given.
fn min_answer(alloc: Global, job: &[u8], resolution: u32, format: Option<Format>) -> Answer
    ensures says { Answers Stated resolution job.now (HasLeastJob job.now format) result }
    ensures arguments { FailsBy (IsNoResolution resolution) (IsTooLong job.now) result.outcome }
{
    match seen_at(alloc, job, Profile::Stated, resolution) {
        Ok(dpi) => written_answer(alloc, job, format, dpi),
        Err(failure) => Answer::of_failure(alloc, &failure, 0),
    }
}

/// The same at a resolution.
fn written_answer(alloc: Global, job: &[u8], format: Option<Format>, dpi: Dpi) -> Answer
    ensures { AnswersAt Stated dpi job.now (HasLeastJob job.now format dpi) result }
{
    match format {
        Some(format) => certified_answer(alloc, job, format, dpi),
        None => least_answer(alloc, job, dpi),
    }
}

/// A least raster job.
fn least_answer(alloc: Global, job: &[u8], dpi: Dpi) -> Answer
    ensures { AnswersAt Stated dpi job.now (HasLeastJob job.now None dpi) result }
{
    match least_job(alloc, job, dpi, Unwatched) {
        Ok(least) => Answer::of_bytes(least, dpi),
        Err(fault) => Answer::of_failure(alloc, &CallFailure::Run(fault), 0),
    }
}

/// A least raster job and its certificate, where that has no more bytes than a check reads.
fn certified_answer(alloc: Global, job: &[u8], format: Format, dpi: Dpi) -> Answer
    ensures { AnswersAt Stated dpi job.now (HasLeastJob job.now (Some format) dpi) result }
{
    match minimize(alloc, job, dpi, format) {
        Ok(output) => {
            if output.certificate.len() > INPUT_LIMIT {
                return Answer::of_failure(alloc, &CallFailure::Run(Fault::CertificateTooLong), 0);
            }
            Answer::of_output(output, dpi)
        }
        Err(fault) => Answer::of_failure(alloc, &CallFailure::Run(fault), 0),
    }
}

/// `pclmin_shrink`: the smallest job that is found with the same pages, which asks the printer for the same; the job as it came where
/// printers may read that otherwise. Where the resolution is left to the job, that is so at each at which it is accepted.
#[unsafe(no_mangle)]
pub extern "C" fn pcl_library_shrink(
    alloc: Global,
    job: &[u8],
    resolution: u32,
    answer: &mut Answer,
)
    ensures at_one { resolution ≢ 0 → Answers Drivers resolution job.now (HasSmallerJob job.now) answer.new }
    ensures at_each { resolution ≡ 0 → Shrinks job.now answer.new }
    ensures arguments { FailsBy (IsNoResolution resolution) (IsTooLong job.now) answer.new.outcome }
{
    *answer = match seen_at(alloc, job, Profile::Drivers, resolution) {
        Ok(dpi) if resolution == FIRST_ACCEPTED => everywhere_answer(alloc, job, dpi),
        Ok(dpi) => shrink_answer(alloc, job, dpi),
        Err(failure) => Answer::of_failure(alloc, &failure, 0),
    };
}

/// For printers, by the drivers' profile where the stated one refuses the job.
const FOR_PRINTERS: Terms = Terms {
    profile: Profile::Drivers,
    readers: Readers::Printers,
};

/// The smallest job that is found, for printers, at a resolution.
fn shrink_answer(alloc: Global, job: &[u8], dpi: Dpi) -> Answer
    ensures { AnswersAt Drivers dpi job.now (HasSmallerJob job.now dpi) result }
{
    match shrink(alloc, job, FOR_PRINTERS, dpi) {
        Ok(shrunk) => Answer::of_bytes(shrunk.job, dpi),
        Err(fault) => Answer::of_failure(alloc, &CallFailure::from(fault), 0),
    }
}

/// The same at each resolution at which the job is accepted, of which this is the first.
fn everywhere_answer(alloc: Global, job: &[u8], dpi: Dpi) -> Answer
    ensures { ShrinksAt dpi job.now result }
{
    match shrink_everywhere(alloc, job, FOR_PRINTERS) {
        Ok(shrunk) => Answer::of_bytes(shrunk.job, dpi),
        Err(fault) => Answer::of_failure(alloc, &CallFailure::from(fault), 0),
    }
}
