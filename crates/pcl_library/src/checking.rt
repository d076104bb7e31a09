//! A written job checked beside its input, or beside images of its pages, by a certificate from anybody.

ghost use Rattle.std.specs.Prelude.{◌≡◌, ◌⊎◌, ◌↔◌, IsTrue, IfOk, IfErr};
ghost use Rattle.pcl_base.specs.Dpi.{dots_per_inch};
ghost use Rattle.pcl_base.specs.declared.profile.Profile.TheVariants.{Stated};
ghost use Rattle.pcl_tool.specs.declared.job_verdict.JobVerdict.TheVariants.{Proved};
ghost use Rattle.pcl_tool.specs.declared.job_verdict.CheckAnswer.TheVariants.{Job};
ghost use Rattle.pcl_request.specs.declared.request.Beside.TheVariants.{Input, Images};
ghost use Rattle.pcl_request.specs.declared.request.Layout.TheVariants.{Text};
ghost use Rattle.pcl_messages.specs.Verdicts.{answer_line_of};
ghost use Rattle.pcl_library.specs.Arguments.{IsSeen, IsNoResolution, IsTooLong, FailsBy, outcome_in};
ghost use Rattle.pcl_library.specs.Failures.{IsUnperformed};
ghost use Rattle.pcl_library.specs.Answers.{Answers, AnswersAt, HasVerdict, IsOutOfMemory};
ghost use Rattle.pcl_library.specs.Lines.{c_string};

use crate::answer::Answer;
use crate::arguments::{resolution_numbered, within_limit};
use crate::failure::CallFailure;
use pcl_base::{Dpi, Profile};
use pcl_messages::answer_line;
use pcl_request::{Layout, resolve};
use pcl_tool::{CheckAnswer, JobVerdict, Unwatched, check_images, check_job};
use std::alloc::Global;

/// `pclmin_check`: whether a certificate shows that an output has an input's pages and is a shortest such job text. The
/// line says which test fails first.
#[unsafe(no_mangle)]
pub extern "C" fn pcl_library_check(
    alloc: Global,
    input: &[u8],
    output: &[u8],
    certificate: &[u8],
    resolution: u32,
    answer: &mut Answer,
)
    ensures says { Answers Stated resolution input.now (HasVerdict Input input.now output.now certificate.now) answer.new }
    ensures arguments { FailsBy
        (IsNoResolution resolution)
        (IsTooLong input.now ⊎ IsTooLong output.now ⊎ IsTooLong certificate.now)
        answer.new.outcome }
{
    *answer = match checked_at(alloc, input, output, certificate, resolution) {
        Ok(dpi) => check_answer(alloc, input, output, certificate, dpi),
        Err(failure) => Answer::of_failure(alloc, &failure, 0),
    };
}

/// `pclmin_check_pages`: whether an output prints images, one after the other, and a certificate shows that no job text with these
/// pages is shorter. The line says which test fails first.
#[unsafe(no_mangle)]
pub extern "C" fn pcl_library_check_pages(
    alloc: Global,
    images: &[u8],
    output: &[u8],
    certificate: &[u8],
    resolution: u32,
    answer: &mut Answer,
)
    ensures says { Answers Stated resolution output.now (HasVerdict Images images.now output.now certificate.now) answer.new }
    ensures arguments { FailsBy
        (IsNoResolution resolution)
        (IsTooLong output.now ⊎ IsTooLong images.now ⊎ IsTooLong certificate.now)
        answer.new.outcome }
{
    *answer = match checked_at(alloc, output, images, certificate, resolution) {
        Ok(dpi) => images_answer(alloc, images, output, certificate, dpi),
        Err(failure) => Answer::of_failure(alloc, &failure, 0),
    };
}

/// The resolution at which the job is seen that a check performs, beside two other inputs.
fn checked_at(
    alloc: Global,
    performed: &[u8],
    other: &[u8],
    certificate: &[u8],
    resolution: u32,
) -> Result<Dpi, CallFailure>
    ensures seen { IfOk result (IsSeen Stated resolution performed.now) }
    ensures unperformed { IfErr result IsUnperformed }
    ensures arguments { FailsBy
        (IsNoResolution resolution)
        (IsTooLong performed.now ⊎ IsTooLong other.now ⊎ IsTooLong certificate.now)
        (outcome_in result) }
{
    let asked = resolution_numbered(resolution)?;
    within_limit(performed)?;
    within_limit(other)?;
    within_limit(certificate)?;
    Ok(resolve(alloc, asked, Profile::Stated, performed)?)
}

/// What the checker answers of an output beside its input.
fn check_answer(alloc: Global, input: &[u8], output: &[u8], certificate: &[u8], dpi: Dpi) -> Answer
    ensures { AnswersAt Stated dpi input.now (HasVerdict Input input.now output.now certificate.now dpi) result }
{
    match check_job(alloc, input, output, certificate, dpi) {
        Ok(verdict) => verdict_answer(alloc, CheckAnswer::Job(verdict), dpi),
        Err(fault) => Answer::of_failure(alloc, &CallFailure::Run(fault), 0),
    }
}

/// What it answers of an output beside images of its pages.
fn images_answer(
    alloc: Global,
    images: &[u8],
    output: &[u8],
    certificate: &[u8],
    dpi: Dpi,
) -> Answer
    ensures { AnswersAt Stated dpi output.now (HasVerdict Images images.now output.now certificate.now dpi) result }
{
    match check_images(alloc, images, output, certificate, dpi, Unwatched) {
        Ok(given) => verdict_answer(alloc, given, dpi),
        Err(fault) => Answer::of_failure(alloc, &CallFailure::Run(fault), 0),
    }
}

/// The answer of a check that gives this, or that memory ran out for its line.
fn verdict_answer(alloc: Global, given: CheckAnswer, dpi: Dpi) -> Answer
    ensures ended { (result.outcome ≡ 0) ⊎ IsOutOfMemory result }
    ensures resolution { result.outcome ≡ 0 → result.resolution ≡ dots_per_inch dpi }
    ensures line { result.outcome ≡ 0 → result.line.now ≡ c_string (answer_line_of Text given) }
    ensures holds { result.outcome ≡ 0 → (IsTrue result.holds ↔ (given ≡ Job Proved)) }
{
    let holds = matches!(given, CheckAnswer::Job(JobVerdict::Proved));
    Answer::of_line(answer_line(alloc, Layout::Text, &given), holds, dpi)
}
