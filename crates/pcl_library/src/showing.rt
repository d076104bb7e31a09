//! Images of pages.

ghost use Rattle.std.specs.Prelude.{◌⊎◌};
ghost use Rattle.pcl_base.specs.declared.profile.Profile.TheVariants.{Drivers};
ghost use Rattle.pcl_preview.specs.PageImages.{ArePageImages};
ghost use Rattle.pcl_preview.specs.declared.form.ImageForm.TheVariants.{Bitmap};
ghost use Rattle.pcl_library.specs.Arguments.{IsNoResolution, AreNoPages, IsNoScale, IsTooLong, FailsBy};
ghost use Rattle.pcl_library.specs.Answers.{ShowsBy, ShowsAt, HasImages, HasGreys, HasChosenImages, LacksPages, LacksChosen};

use crate::answer::Answer;
use crate::arguments::{pages_between, scale_numbered, seen_at};
use crate::failure::CallFailure;
use pcl_base::{Dpi, Profile};
use pcl_preview::{ImageForm, preview_pages};
use pcl_tool::{Fault, PageChoice};
use std::alloc::Global;

/// `pclmin_preview`: the pages from `first` to `last` as PBM images. Pages are counted from 1, and stand one after the other; 0
/// and 0 are all pages.
#[unsafe(no_mangle)]
pub extern "C" fn pcl_library_preview(
    alloc: Global,
    job: &[u8],
    resolution: u32,
    first: u32,
    last: u32,
    answer: &mut Answer,
)
    ensures says { ShowsBy resolution job.now (HasImages Bitmap job.now first last) (LacksPages resolution job.now first last) answer.new }
    ensures arguments { FailsBy (IsNoResolution resolution ⊎ AreNoPages first last) (IsTooLong job.now) answer.new.outcome }
{
    *answer = image_answer(alloc, job, resolution, first, last, ImageForm::Bitmap);
}

/// `pclmin_grey`: the same pages as PGM images, of which each pixel is the mean of `scale` by `scale` dots.
#[unsafe(no_mangle)]
pub extern "C" fn pcl_library_grey(
    alloc: Global,
    job: &[u8],
    resolution: u32,
    first: u32,
    last: u32,
    scale: u32,
    answer: &mut Answer,
)
    ensures says { ShowsBy resolution job.now (HasGreys job.now first last scale) (LacksPages resolution job.now first last) answer.new }
    ensures arguments { FailsBy
        (IsNoResolution resolution ⊎ AreNoPages first last ⊎ IsNoScale scale)
        (IsTooLong job.now)
        answer.new.outcome }
{
    *answer = match scale_numbered(scale) {
        Ok(scale) => image_answer(
            alloc,
            job,
            resolution,
            first,
            last,
            ImageForm::Greymap(scale),
        ),
        Err(failure) => Answer::of_failure(alloc, &failure, 0),
    };
}

/// The images in a form of the pages from one number to another.
fn image_answer(
    alloc: Global,
    job: &[u8],
    resolution: u32,
    first: u32,
    last: u32,
    form: ImageForm,
) -> Answer
    ensures says { ShowsBy resolution job.now (HasImages form job.now first last) (LacksPages resolution job.now first last) result }
    ensures arguments { FailsBy (IsNoResolution resolution ⊎ AreNoPages first last) (IsTooLong job.now) result.outcome }
{
    match pages_between(first, last) {
        Ok(choice) => preview_answer(alloc, job, resolution, choice, last, form),
        Err(failure) => Answer::of_failure(alloc, &failure, 0),
    }
}

/// The images of the pages that are asked for, of which this is the last, if they are asked for by their numbers.
fn preview_answer(
    alloc: Global,
    job: &[u8],
    resolution: u32,
    choice: PageChoice,
    last: u32,
    form: ImageForm,
) -> Answer
    ensures says { ShowsBy resolution job.now (HasChosenImages form job.now choice) (LacksChosen resolution job.now choice last) result }
    ensures arguments { FailsBy (IsNoResolution resolution) (IsTooLong job.now) result.outcome }
{
    match seen_at(alloc, job, Profile::Drivers, resolution) {
        Ok(dpi) => chosen_answer(alloc, job, choice, last, form, dpi),
        Err(failure) => Answer::of_failure(alloc, &failure, 0),
    }
}

/// The same at a resolution.
fn chosen_answer(
    alloc: Global,
    job: &[u8],
    choice: PageChoice,
    last: u32,
    form: ImageForm,
    dpi: Dpi,
) -> Answer
    ensures { ShowsAt form dpi job.now choice last result }
{
    match images(alloc, job, choice, form, dpi) {
        Ok(images) => Answer::of_bytes(images, dpi),
        Err(fault) => Answer::of_failure(alloc, &CallFailure::Run(fault), last as usize),
    }
}

/// The same in memory, where a write fails for want of it.
fn images(
    alloc: Global,
    job: &[u8],
    choice: PageChoice,
    form: ImageForm,
    dpi: Dpi,
) -> Result<Vec<u8>, Fault>
    ensures { ArePageImages form Drivers dpi job.now choice result }
{
    let mut images = Vec::new(alloc);
    match preview_pages(alloc, job, choice, form, Profile::Drivers, dpi, &mut images) {
        Ok(()) => Ok(images),
        Err(Fault::WriteFault) => Err(Fault::Memory),
        Err(fault) => Err(fault),
    }
}
