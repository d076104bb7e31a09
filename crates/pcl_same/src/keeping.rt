//! A job that was performed once, kept.

ghost use Rattle.pcl_same.specs.Keeping.{KeepsJob};

use crate::kept_bitmap::KeptBitmap;
use pcl_base::{Dpi, JobFault, Profile};
use pcl_page::{Asks, Page, PageSink, perform_asked};
use std::alloc::{AllocError, Global};
use std::marker::Model;

/// A job that was performed once, to be compared with others: its pages as row data, and what it asks of the printer.
#[derive(Drop)]
pub struct KeptJob<'a> {
    pub(crate) pages: Vec<KeptPage>,
    pub(crate) asks: Asks<'a>,
}

impl<'a> KeptJob<'a> {
    ghost use Rattle.std.specs.Prelude.{◌≡◌};

    /// What the job asks of the printer besides dots.
    pub fn asks(&self) -> &Asks<'a>
        ensures { result.now ≡ self.now.asks }
    {
        &self.asks
    }
}

/// A page that is kept.
#[derive(Drop)]
pub struct KeptPage {
    /// How many copies are printed.
    pub copies: u8,
    /// The size, the resolution and the dots.
    pub bitmap: KeptBitmap,
}

impl KeptPage {
    ghost use Rattle.std.specs.Prelude.{IfOk};
    ghost use Rattle.pcl_same.specs.Kept.{KeepsPage};

    /// Keeps a page. It fails where memory runs out.
    pub fn new(alloc: Global, page: &Page) -> Result<KeptPage, AllocError>
        ensures { IfOk result (KeepsPage page.now) }
    {
        Ok(KeptPage {
            copies: page.copies,
            bitmap: KeptBitmap::new(alloc, &page.bitmap)?,
        })
    }
}

/// Keeps the pages of a job as they come, as long as they take few bytes.
#[derive(Drop)]
pub struct PageKeeper {
    /// The pages that came: none once they took too many bytes, or memory ran out.
    pub(crate) pages: Option<Vec<KeptPage>>,
    /// How many bytes more they may take.
    pub(crate) room: usize,
}

impl PageKeeper {
    ghost use Rattle.std.specs.Prelude.{◌≡◌, [], Some, IfSome};
    ghost use Rattle.std.specs.Option.{option_map};
    ghost use Rattle.pcl_same.specs.Kept.{KeepsWithin, kept_pages};

    /// Before the first page. The pages may take this many bytes.
    pub fn new(alloc: Global, room: usize) -> PageKeeper
        ensures { kept_pages result ≡ Some [] }
    {
        PageKeeper {
            pages: Some(Vec::new(alloc)),
            room,
        }
    }

    /// Keeps the next page. Where the pages take too many bytes with it, or memory runs out, none is kept.
    pub fn keep(&mut self, page: &Page)
        ensures { KeepsWithin (kept_pages self.old) page.now (kept_pages self.new) }
    {
        let Some(pages) = self.pages.take() else {
            return;
        };
        let mut pages = pages;
        let Ok(kept) = KeptPage::new(*pages.allocator(), page) else {
            return;
        };
        let Some(room) = self.room.checked_sub(kept.bitmap.bytes()) else {
            return;
        };
        if pages.push(kept).is_ok() {
            self.room = room;
            self.pages = Some(pages);
        }
    }

    /// The job whose pages came, and which asks for this: none where they aren't kept.
    pub fn finish<'a>(self, asks: Asks<'a>) -> Option<KeptJob<'a>>
        ensures pages { option_map (λ job. job.pages.items) result ≡ kept_pages self }
        ensures asks { IfSome result (λ job. job.asks ≡ asks.entry) }
    {
        let pages = self.pages?;
        Some(KeptJob { pages, asks })
    }
}

/// Performs a job by a profile, and keeps its pages and what it asks of the printer. One page at a time is held as dots.
pub fn keep_job<'a>(
    alloc: Global,
    job: &'a [u8],
    profile: Profile,
    dpi: Dpi,
) -> Result<KeptJob<'a>, JobFault>
    ensures { KeepsJob profile dpi job.now result }
{
    let mut keeper = Keeper {
        pages: Vec::new(alloc),
    };
    let asks = perform_asked(alloc, job, profile, dpi, &mut keeper)?;
    let pages = keeper.pages;
    Ok(KeptJob { pages, asks })
}

/// Keeps each page that comes.
#[derive(Drop)]
struct Keeper {
    pages: Vec<KeptPage>,
}

impl Model for Keeper {
    ghost use Rattle.std.specs.Prelude.{List};
    ghost use Rattle.pcl_same.specs.declared.keeping.KeptPage.{KeptPage};

    ghost Value = { List KeptPage };

    ghost view = { λ a. a.pages.items };
}

impl PageSink for Keeper {
    ghost use Rattle.pcl_same.specs.Kept.{KeepsMore};

    ghost takes = { KeepsMore };

    fn page(&mut self, page: &Page) -> Result<(), AllocError> {
        let alloc = *self.pages.allocator();
        self.pages.push(KeptPage::new(alloc, page)?)?;
        Ok(())
    }
}
