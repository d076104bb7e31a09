//! What there is to say of a job.

ghost use Rattle.pcl_base.specs.declared.profile.Profile.TheVariants.{Drivers};
ghost use Rattle.pcl_library.specs.Arguments.{IsNoResolution, IsTooLong, FailsBy};
ghost use Rattle.pcl_library.specs.Answers.{Answers, AnswersAt, HasPageCount, IsOfAccepted, HasExplanation};

use crate::answer::Answer;
use crate::arguments::seen_at;
use crate::failure::CallFailure;
use pcl_base::{Dpi, Profile};
use pcl_explain::explanation;
use pcl_page::page_count;
use pcl_pages::describe_pages;
use pcl_request::Layout;
use std::alloc::Global;

/// `pclmin_page_count`: how many pages the job has.
#[unsafe(no_mangle)]
pub extern "C" fn pcl_library_page_count(
    alloc: Global,
    job: &[u8],
    resolution: u32,
    answer: &mut Answer,
)
    ensures says { Answers Drivers resolution job.now (HasPageCount job.now) answer.new }
    ensures arguments { FailsBy (IsNoResolution resolution) (IsTooLong job.now) answer.new.outcome }
{
    *answer = match seen_at(alloc, job, Profile::Drivers, resolution) {
        Ok(dpi) => page_count_answer(alloc, job, dpi),
        Err(failure) => Answer::of_failure(alloc, &failure, 0),
    };
}

/// How many pages the job has.
fn page_count_answer(alloc: Global, job: &[u8], dpi: Dpi) -> Answer
    ensures { AnswersAt Drivers dpi job.now (HasPageCount job.now dpi) result }
{
    match page_count(alloc, job, Profile::Drivers, dpi) {
        Ok(pages) => Answer::of_page_count(pages, dpi),
        Err(fault) => Answer::of_failure(alloc, &CallFailure::from(fault), 0),
    }
}

/// `pclmin_pages`: what the pages are, as the command `pages --json` writes it.
#[unsafe(no_mangle)]
pub extern "C" fn pcl_library_pages(alloc: Global, job: &[u8], resolution: u32, answer: &mut Answer)
    ensures says { Answers Drivers resolution job.now (IsOfAccepted job.now) answer.new }
    ensures arguments { FailsBy (IsNoResolution resolution) (IsTooLong job.now) answer.new.outcome }
{
    *answer = match seen_at(alloc, job, Profile::Drivers, resolution) {
        Ok(dpi) => pages_answer(alloc, job, dpi),
        Err(failure) => Answer::of_failure(alloc, &failure, 0),
    };
}

/// What the pages are.
fn pages_answer(alloc: Global, job: &[u8], dpi: Dpi) -> Answer
    ensures { AnswersAt Drivers dpi job.now (IsOfAccepted job.now dpi) result }
{
    match describe_pages(alloc, job, Profile::Drivers, dpi, Layout::Json) {
        Ok(text) => Answer::of_bytes(text, dpi),
        Err(fault) => Answer::of_failure(alloc, &CallFailure::from(fault), 0),
    }
}

/// `pclmin_explain`: all that is refused in the job, and what can be done, as the command `explain` writes it.
#[unsafe(no_mangle)]
pub extern "C" fn pcl_library_explain(
    alloc: Global,
    job: &[u8],
    resolution: u32,
    answer: &mut Answer,
)
    ensures says { Answers Drivers resolution job.now (HasExplanation job.now) answer.new }
    ensures arguments { FailsBy (IsNoResolution resolution) (IsTooLong job.now) answer.new.outcome }
{
    *answer = match seen_at(alloc, job, Profile::Drivers, resolution) {
        Ok(dpi) => explain_answer(alloc, job, dpi),
        Err(failure) => Answer::of_failure(alloc, &failure, 0),
    };
}

/// All that is refused in the job.
fn explain_answer(alloc: Global, job: &[u8], dpi: Dpi) -> Answer
    ensures { AnswersAt Drivers dpi job.now (HasExplanation job.now dpi) result }
{
    match explanation(alloc, job, Profile::Drivers, dpi) {
        Ok(text) => Answer::of_bytes(text, dpi),
        Err(e) => Answer::of_failure(alloc, &CallFailure::from(e), 0),
    }
}
