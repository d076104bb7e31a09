//! Greymaps of the pages of a job, each written as its page is made.

ghost use Rattle.pcl_preview.specs.declared.form.ImageForm.TheVariants.{Greymap};
ghost use Rattle.pcl_preview.specs.StreamedImages.{IsPagesStreamed};
ghost use Rattle.pcl_preview.specs.inner.Streaming.{HasChosenPages, ArePagesFound, AreImagesWritten};

use crate::form::Scale;
use crate::greymap::make_greymap;
use crate::page_images::{PageChoice, asks_next, is_met, later, others};
use pcl_base::{Dpi, Profile};
use pcl_page::{Page, PageSink, one_meaning, perform_by};
use pcl_streams::{Fault, write_bytes};
use std::alloc::{AllocError, Global};
use std::io::Write;

/// Writes the pages of a job that are asked for, by a profile, as greymaps, one after the other, and flushes. The job is performed once
/// before anything is written. Then it is performed again, and each image is written as its page is made: one alone is held. NoSuchPage
/// comes only for an accepted job without one of the pages. After it and after a refusal nothing was written. After a write fault and
/// out of memory a prefix of the images was.
pub fn stream_pages<W: Write>(
    alloc: Global,
    job: &[u8],
    choice: PageChoice,
    scale: Scale,
    profile: Profile,
    dpi: Dpi,
    out: &mut W,
) -> Result<(), Fault>
    ensures { IsPagesStreamed (Greymap scale) profile dpi job.now choice (W.contents out.old) (W.contents out.new) result }
{
    find_pages(alloc, job, choice, profile, dpi)?;
    write_pages(alloc, job, choice, scale, profile, dpi, out)
}

/// Finds the pages of a job that are asked for. A refusal is the job's; NoSuchPage comes where it is accepted without one of them.
fn find_pages(
    alloc: Global,
    job: &[u8],
    choice: PageChoice,
    profile: Profile,
    dpi: Dpi,
) -> Result<(), Fault>
    ensures { ArePagesFound profile dpi job.now choice result }
{
    let mut awaited = Awaited {
        left: choice.flags(),
    };
    perform_by(alloc, job, profile, dpi, &mut awaited)?;
    if is_met(awaited.left) {
        Ok(())
    } else {
        Err(Fault::NoSuchPage)
    }
}

/// Writes the pages of a job that are asked for, which are there, and flushes. After a fault, which is WriteFault or Memory, a prefix of
/// the images was written.
fn write_pages<W: Write>(
    alloc: Global,
    job: &[u8],
    choice: PageChoice,
    scale: Scale,
    profile: Profile,
    dpi: Dpi,
    out: &mut W,
) -> Result<(), Fault>
    requires { HasChosenPages profile dpi job.now choice }
    ensures { AreImagesWritten (Greymap scale) profile dpi job.now choice (W.contents out.old) (W.contents out.new) result }
{
    one_meaning();
    let mut streamed = Streamed {
        alloc,
        is_all: choice.is_all(),
        flags: choice.listed(),
        scale,
        out,
        has_failed: false,
    };
    perform_by(alloc, job, profile, dpi, &mut streamed)?;
    if streamed.has_failed {
        return Err(Fault::WriteFault);
    }
    match streamed.out.flush() {
        Ok(()) => Ok(()),
        Err(_) => Err(Fault::WriteFault),
    }
}

/// Takes pages until none is asked for any more.
#[derive(Drop)]
struct Awaited<'a> {
    /// Of each page that is to come whether it is listed; none where all are asked for.
    left: Option<&'a [bool]>,
}

impl<'a> PageSink for Awaited<'a> {
    ghost use Rattle.std.specs.Prelude.{◌≡◌};
    ghost use Rattle.pcl_preview.specs.inner.Showing.{later, left_of};

    ghost takes = { λ old _ new. left_of new.left ≡ later (left_of old.left) };

    fn page(&mut self, _page: &Page) -> Result<(), AllocError> {
        self.left = later(self.left);
        Ok(())
    }
}

/// Writes images of the pages that are asked for, and none after a write that failed.
#[derive(Drop)]
struct Streamed<'a, 'w, W> {
    alloc: Global,
    /// Whether all pages are asked for.
    is_all: bool,
    /// Otherwise of each page that is to come whether it is listed. No option holds them, since the checker doesn't follow a writer
    /// that is lent beside a reference in an enum.
    flags: &'a [bool],
    /// The scale of the images.
    scale: Scale,
    /// What they are written to.
    out: &'w mut W,
    /// Whether a write failed.
    has_failed: bool,
}

impl<'a, 'w, W: Write> PageSink for Streamed<'a, 'w, W> {
    ghost use Rattle.pcl_preview.specs.inner.Streaming.{StreamsNext, streaming};

    ghost takes = { λ old page new. StreamsNext (streaming W.contents old) page (streaming W.contents new) };

    fn page(&mut self, page: &Page) -> Result<(), AllocError> {
        if !self.has_failed && (self.is_all || asks_next(Some(self.flags))) {
            let image = make_greymap(self.alloc, &page.bitmap, self.scale)?;
            self.has_failed = write_bytes(self.out, &image).is_err();
        }
        self.flags = others(self.flags);
        Ok(())
    }
}
