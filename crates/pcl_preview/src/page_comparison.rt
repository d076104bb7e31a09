//! Images compared with those of the pages of a job, as the pages are made.

ghost use Rattle.std.specs.Prelude.{◌≡◌, ◌↔◌, [], IsTrue};
ghost use Rattle.pcl_preview.specs.PageImages.{SaysIfImages};
ghost use Rattle.pcl_preview.specs.inner.Comparing.{left_bytes, IsLeftAfter};

use crate::image::header;
use pcl_base::{Dpi, Profile};
use pcl_page::{Page, PageSink, perform_by};
use pcl_streams::Fault;
use std::alloc::{AllocError, Global};
use std::marker::Model;

/// Whether bytes are the PBM images of all pages of a job, by a profile: those that [`preview_pages`](crate::preview_pages) writes of them.
/// Each image is compared as its page is made, so none of them is held. A refusal is the job's.
pub fn are_images_of(
    alloc: Global,
    images: &[u8],
    job: &[u8],
    profile: Profile,
    dpi: Dpi,
) -> Result<bool, Fault>
    ensures { SaysIfImages profile dpi job.now images.now result }
{
    let mut compared = Compared {
        alloc,
        left: Some(images),
    };
    perform_by(alloc, job, profile, dpi, &mut compared)?;
    Ok(is_used_up(compared.left))
}

/// What is left of bytes after those that they are to begin with; none where they begin otherwise, or nothing was left before.
fn left_after<'a>(left: Option<&'a [u8]>, first: &[u8]) -> Option<&'a [u8]>
    ensures { IsLeftAfter first.now (left_bytes left.entry) (left_bytes result) }
{
    match left {
        None => None,
        Some(bytes) => bytes.strip_prefix(first),
    }
}

/// Whether all bytes were compared and are the same.
fn is_used_up(left: Option<&[u8]>) -> bool
    ensures { IsTrue result ↔ (left_bytes left.entry ≡ Some []) }
{
    match left {
        None => false,
        Some(bytes) => bytes.is_empty(),
    }
}

/// Compares the image of each page with the first bytes that are left, and takes these off.
#[derive(Drop)]
struct Compared<'a> {
    alloc: Global,
    /// What is to be the images of the pages to come; none once an image was another.
    left: Option<&'a [u8]>,
}

impl<'a> Model for Compared<'a> {
    ghost use Rattle.std.specs.Prelude.{ℕ, List, Option};
    ghost use Rattle.pcl_preview.specs.inner.Comparing.{comparing};

    ghost Value = { Option (List ℕ) };

    ghost view = { comparing };
}

impl<'a> PageSink for Compared<'a> {
    ghost use Rattle.pcl_preview.specs.inner.Comparing.{TakesImageOff};

    ghost takes = { TakesImageOff };

    fn page(&mut self, page: &Page) -> Result<(), AllocError> {
        let bitmap = &page.bitmap;
        let header = header(self.alloc, bitmap.size(), bitmap.dpi())?;
        self.left = left_after(left_after(self.left, &header), bitmap.bytes());
        Ok(())
    }
}
