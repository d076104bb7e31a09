//! Pages, and what takes them.

ghost use Rattle.std.specs.Prelude.{◌≡◌, ◌≤◌, OnOk, OnErr};
ghost use Rattle.pcl_base.specs.Limits.{copies_limit};
ghost use Rattle.pcl_bitmap.specs.Bitmap.{IsPicture};

use crate::bitmap::Bitmap;
use pcl_base::{Dpi, Size};
use std::alloc::AllocError;

/// A page that a job ejected.
#[derive(Debug, Drop)]
pub struct Page {
    /// The size of the page.
    pub size: Size,
    /// How many copies are printed, 1 to 99.
    pub copies: u8,
    /// The resolution of the page.
    pub dpi: Dpi,
    /// The dots, which have the page's size and resolution.
    pub bitmap: Bitmap,
    ghost copies_in_range: { (1 ≤ copies) × (copies ≤ copies_limit) },
    ghost size_is: { bitmap.size ≡ size },
    ghost dpi_is: { bitmap.dpi ≡ dpi },
    ghost picture: { IsPicture bitmap },
}

impl Page {
    ghost use Rattle.std.specs.Prelude.{IfOk};
    ghost use Rattle.pcl_bitmap.specs.Page.{IsSamePage};

    /// The same page once more.
    pub fn try_clone(&self) -> Result<Page, AllocError>
        ensures { IfOk result (λ page. IsSamePage self.now page) }
    {
        Ok(Page {
            size: self.size,
            copies: self.copies,
            dpi: self.dpi,
            bitmap: self.bitmap.clone()?,
        })
    }
}

/// What takes the pages of a job, one at a time.
pub trait PageSink {
    ghost use Rattle.pcl_bitmap.specs.declared.page.Page.{Page};

    /// What taking a page does to the sink.
    ghost takes: { Self → Page → Self → Type 0 };

    /// Takes the next page. Where memory runs out the sink stays as it was.
    fn page(&mut self, page: &Page) -> Result<(), AllocError>
        ensures taken { OnOk result (takes self.old page.now self.new) }
        ensures kept { OnErr result (self.new ≡ self.old) };
}
