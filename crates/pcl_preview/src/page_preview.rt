//! The preview of one page of a job.

ghost use Rattle.pcl_preview.specs.Preview.{IsPageDots, IsPreview};

use crate::image::write_image;
use pcl_base::{Dpi, Profile};
use pcl_bitmap::Bitmap;
use pcl_page::{Page, PageSink, perform_by};
use pcl_streams::Fault;
use std::alloc::{AllocError, Global};
use std::io::Write;

/// Writes page number `page` of a job, counted from 1, by the stated profile, as a PBM image, and flushes. NoSuchPage comes only
/// for an accepted job without that page. After a write fault a prefix of the image was written, after any
/// other fault nothing.
pub fn preview<W: Write>(
    alloc: Global,
    job: &[u8],
    page: usize,
    dpi: Dpi,
    out: &mut W,
) -> Result<(), Fault>
    ensures { IsPreview dpi job.now page (W.contents out.old) (W.contents out.new) result }
{
    let bitmap = page_dots(alloc, job, page, Profile::Stated, dpi)?;
    write_image(alloc, &bitmap, out)
}

/// The dots of page number `page` of a job, counted from 1, by a profile. NoSuchPage comes only for an accepted job without that
/// page.
pub fn page_dots(
    alloc: Global,
    job: &[u8],
    page: usize,
    profile: Profile,
    dpi: Dpi,
) -> Result<Bitmap, Fault>
    ensures { IsPageDots profile dpi job.now page result }
{
    let mut chosen = Chosen {
        skip: page.checked_sub(1),
        kept: None,
    };
    perform_by(alloc, job, profile, dpi, &mut chosen)?;
    chosen.kept.ok_or(Fault::NoSuchPage)
}

/// Keeps one page of those that come.
#[derive(Drop)]
pub struct Chosen {
    /// How many pages come before the one that is kept; none where no further page is kept.
    pub skip: Option<usize>,
    /// The page that is kept.
    pub kept: Option<Bitmap>,
}

impl PageSink for Chosen {
    ghost use Rattle.std.specs.Prelude.{◌≡◌};
    ghost use Rattle.pcl_preview.specs.inner.Choice.{chosen_after};

    ghost takes = { λ old page new. new ≡ chosen_after old.skip old page.bitmap };

    fn page(&mut self, page: &Page) -> Result<(), AllocError> {
        match self.skip {
            None => {}
            Some(0) => {
                self.kept = Some(page.bitmap.clone()?);
                self.skip = None;
            }
            Some(more) => self.skip = Some(more - 1),
        }
        Ok(())
    }
}
