//! Two jobs compared.

ghost use Rattle.std.specs.Prelude.{◌⊎◌, false, true};
ghost use Rattle.pcl_library.specs.Arguments.{IsNoResolution, IsTooLong, FailsBy};
ghost use Rattle.pcl_library.specs.Answers.{Compares, ComparesAt};

use crate::answer::Answer;
use crate::arguments::both_seen_at;
use crate::failure::CallFailure;
use pcl_base::{Dpi, Profile};
use pcl_command::compare_jobs;
use pcl_messages::comparison_line;
use pcl_request::Layout;
use std::alloc::Global;

/// `pclmin_same`: whether two jobs have the same pages. The line says what differs first.
#[unsafe(no_mangle)]
pub extern "C" fn pcl_library_same(
    alloc: Global,
    first: &[u8],
    second: &[u8],
    resolution: u32,
    answer: &mut Answer,
)
    ensures says { Compares false resolution first.now second.now answer.new }
    ensures arguments { FailsBy (IsNoResolution resolution) (IsTooLong first.now ⊎ IsTooLong second.now) answer.new.outcome }
{
    *answer = seen_answer(alloc, false, first, second, resolution);
}

/// `pclmin_same_asked`: whether two jobs have the same pages and ask the printer for the same. The line says what differs first.
#[unsafe(no_mangle)]
pub extern "C" fn pcl_library_same_asked(
    alloc: Global,
    first: &[u8],
    second: &[u8],
    resolution: u32,
    answer: &mut Answer,
)
    ensures says { Compares true resolution first.now second.now answer.new }
    ensures arguments { FailsBy (IsNoResolution resolution) (IsTooLong first.now ⊎ IsTooLong second.now) answer.new.outcome }
{
    *answer = seen_answer(alloc, true, first, second, resolution);
}

/// Whether two jobs are the same at the resolution at which they are compared by a number; what they ask counts where that is wanted.
fn seen_answer(alloc: Global, asks: bool, first: &[u8], second: &[u8], resolution: u32) -> Answer
    ensures says { Compares asks resolution first.now second.now result }
    ensures arguments { FailsBy (IsNoResolution resolution) (IsTooLong first.now ⊎ IsTooLong second.now) result.outcome }
{
    match both_seen_at(alloc, asks, first, second, resolution) {
        Ok(dpi) => same_answer(alloc, asks, first, second, dpi),
        Err(failure) => Answer::of_failure(alloc, &failure, 0),
    }
}

/// The same at a resolution.
fn same_answer(alloc: Global, asks: bool, first: &[u8], second: &[u8], dpi: Dpi) -> Answer
    ensures { ComparesAt asks dpi first.now second.now result }
{
    match compare_jobs(alloc, asks, first, second, Profile::Drivers, dpi) {
        Ok(comparison) => {
            let line = comparison_line(alloc, Layout::Text, &comparison);
            Answer::of_line(line, comparison.is_same(), dpi)
        }
        Err(fault) => Answer::of_failure(alloc, &CallFailure::from(fault), 0),
    }
}
