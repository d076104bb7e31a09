//! The preview of pages of a job, one image after the other.

ghost use Rattle.std.specs.Prelude.{◌≡◌, ℕ, drop, false};
ghost use Rattle.pcl_preview.specs.PageImages.{is_listed, last_listed, last_page, HasWith, ArePageImages, IsPagesPreview};
ghost use Rattle.pcl_preview.specs.inner.Showing.{asks_next, flags_of, is_all, later, left_among, left_of, IsMetBy};

use crate::form::ImageForm;
use crate::image::append_image_in;
use pcl_base::{Dpi, PAGE_LIMIT, Profile};
use pcl_page::{Page, PageSink, perform_by};
use pcl_streams::{Fault, write_all};
use std::alloc::{AllocError, Global};
use std::io::Write;
use std::marker::Model;

/// How many pages a job has at most.
const PAGES: usize = PAGE_LIMIT as usize;

/// Some pages of a job, by their numbers.
#[derive(Clone, Copy, Debug, PartialEq, Eq)]
pub struct PageSet {
    /// Whether each page is one of them, from the first on.
    flags: [bool; PAGES],
}

impl PageSet {
    /// No page.
    pub fn none() -> PageSet
        ensures { (before : ℕ) → is_listed before result ≡ false }
    {
        PageSet {
            flags: [false; PAGES],
        }
    }

    /// These pages, and those from one number to another, counted from 1.
    pub fn with(self, first: usize, last: usize) -> PageSet
        ensures { HasWith first last self result }
    {
        let mut flags = self.flags;
        for before in 0..PAGES {
            if first <= before + 1 && before < last {
                flags[before] = true;
            }
        }
        PageSet { flags }
    }
}

/// Which pages of a job are asked for.
#[derive(Clone, Copy, Debug, PartialEq, Eq)]
pub enum PageChoice {
    /// All of them.
    All,
    /// These, each of which has to be there.
    Listed(PageSet),
}

impl PageChoice {
    /// The number of the last page that is asked for, from 1. It is 0 where none is by its number.
    pub fn last(self) -> usize
        ensures { result ≡ last_page self }
    {
        match self {
            PageChoice::All => 0,
            PageChoice::Listed(set) => last_listed(&set.flags),
        }
    }

    /// Of each page whether it is listed, from the first on; none where all are asked for.
    pub(crate) fn flags(&self) -> Option<&[bool]>
        ensures { left_of result ≡ flags_of self.now }
    {
        match self {
            PageChoice::All => None,
            PageChoice::Listed(set) => Some(&set.flags),
        }
    }

    /// Whether all pages are asked for.
    pub(crate) fn is_all(&self) -> bool
        ensures { result ≡ is_all self.now }
    {
        matches!(self, PageChoice::All)
    }

    /// Of each page whether it is listed, from the first on; nothing where all are asked for.
    pub(crate) fn listed(&self) -> &[bool]
        ensures { left_among (is_all self.now) result.now ≡ flags_of self.now }
    {
        match self {
            PageChoice::All => &[],
            PageChoice::Listed(set) => &set.flags,
        }
    }
}

/// How many pages there are up to the last that is listed.
fn last_listed(flags: &[bool]) -> usize
    ensures { result ≡ last_listed flags.now }
{
    let mut last = 0;
    for (before, flag) in flags.iter().enumerate() {
        if *flag {
            last = before + 1;
        }
    }
    last
}

/// Whether the first of the pages that are to come is asked for, by which of them are listed.
pub(crate) fn asks_next(left: Option<&[bool]>) -> bool
    ensures { result ≡ asks_next (left_of left.entry) }
{
    match left {
        None => true,
        Some(flags) => match flags.first() {
            Some(flag) => *flag,
            None => false,
        },
    }
}

/// Which are listed of the pages after the first of those that are to come.
pub(crate) fn later(left: Option<&[bool]>) -> Option<&[bool]>
    ensures { left_of result ≡ later (left_of left.entry) }
{
    match left {
        None => None,
        Some(flags) => Some(others(flags)),
    }
}

/// All flags but the first.
pub(crate) fn others(flags: &[bool]) -> &[bool]
    ensures { result.now ≡ drop 1 flags.now }
{
    match flags.split_first() {
        Some((_, others)) => others,
        None => flags,
    }
}

/// Whether no further page is asked for by its number.
pub(crate) fn is_met(left: Option<&[bool]>) -> bool
    ensures { IsMetBy (left_of left.entry) result }
{
    match left {
        None => true,
        Some(flags) => last_listed(flags) == 0,
    }
}

/// Writes the pages of a job that are asked for, by a profile, as images in a form, one after the other, and flushes. NoSuchPage comes
/// only for an accepted job without one of them. After a write fault a prefix of the images was written, after any other fault nothing.
pub fn preview_pages<W: Write>(
    alloc: Global,
    job: &[u8],
    choice: PageChoice,
    form: ImageForm,
    profile: Profile,
    dpi: Dpi,
    out: &mut W,
) -> Result<(), Fault>
    ensures { IsPagesPreview form profile dpi job.now choice (W.contents out.old) (W.contents out.new) result }
{
    let images = chosen_images(alloc, job, choice, form, profile, dpi)?;
    write_all(out, &images)
}

/// The images in a form of the pages of a job that are asked for.
fn chosen_images(
    alloc: Global,
    job: &[u8],
    choice: PageChoice,
    form: ImageForm,
    profile: Profile,
    dpi: Dpi,
) -> Result<Vec<u8>, Fault>
    ensures { ArePageImages form profile dpi job.now choice result }
{
    let mut shown = Shown {
        left: choice.flags(),
        form,
        images: Vec::new(alloc),
    };
    perform_by(alloc, job, profile, dpi, &mut shown)?;
    if is_met(shown.left) {
        Ok(shown.images)
    } else {
        Err(Fault::NoSuchPage)
    }
}

/// Makes images of the pages that are asked for.
#[derive(Drop)]
struct Shown<'a> {
    /// Of each page that is to come whether it is listed; none where all are asked for.
    left: Option<&'a [bool]>,
    /// The form of the images.
    form: ImageForm,
    /// The images so far.
    images: Vec<u8>,
}

impl<'a> Model for Shown<'a> {
    ghost use Rattle.pcl_preview.specs.inner.Showing.{Showing, showing};

    ghost Value = { Showing };

    ghost view = { showing };
}

impl<'a> PageSink for Shown<'a> {
    ghost use Rattle.std.specs.Prelude.{◌≡◌};
    ghost use Rattle.pcl_preview.specs.inner.Showing.{shown_after};

    ghost takes = { λ old page new. new ≡ shown_after old page };

    fn page(&mut self, page: &Page) -> Result<(), AllocError> {
        if asks_next(self.left) {
            append_image_in(self.form, &page.bitmap, &mut self.images)?;
        }
        self.left = later(self.left);
        Ok(())
    }
}
