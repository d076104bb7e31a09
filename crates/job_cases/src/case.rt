//! A case: a job, and what is expected of it.

use pcl_base::{Dpi, Size};
use pcl_page::Page;

/// A job, and what is expected of it.
#[derive(Drop)]
pub struct Case {
    /// Its name.
    pub name: String,
    /// The resolution of its pages.
    pub dpi: Dpi,
    /// The job, in the notation of `case_tables`.
    pub notation: String,
    /// The refusal that is expected.
    pub refusal: Option<String>,
    /// Whether no page is expected.
    pub no_page: bool,
    /// The pages that are expected.
    pub pages: Vec<Pages>,
    /// How many bytes the job has that is written.
    pub length: Option<usize>,
}

/// A page, this many times.
#[derive(Drop)]
pub struct Pages {
    /// How many pages there are up to the last of these.
    pub end: usize,
    /// How many these are.
    pub times: usize,
    /// The size of the page.
    pub size: Size,
    /// How many copies are printed.
    pub copies: u8,
    /// The rows that aren't white.
    pub rows: Vec<RepeatedRows>,
    /// The body of its page text (docs/OUTPUT.md), where one is expected.
    pub body: Option<Vec<u8>>,
}

/// Rows with the same dots: the first, and each this many rows below it, up to the last.
#[derive(Drop)]
pub struct RepeatedRows {
    /// The first row.
    pub first: u32,
    /// The last row, or one after it.
    pub last: u32,
    /// From one to the next.
    pub step: u32,
    /// The bytes of each; those that are missing at its end are 0.
    pub bytes: Vec<u8>,
}

impl Case {
    /// How many pages are expected.
    pub(crate) fn page_count(&self) -> usize {
        self.pages.last().map_or(0, |pages| pages.end)
    }

    /// The page that is expected at a place, from 0.
    pub(crate) fn page(&self, number: usize) -> Option<&Pages> {
        self.pages.iter().find(|pages| number < pages.end)
    }
}

impl Pages {
    /// Whether a page is one of these: its size, its copies and each of its dots.
    pub(crate) fn has(&self, page: &Page) -> bool {
        if page.copies != self.copies || page.bitmap.size() != self.size {
            return false;
        }
        for y in 0..page.bitmap.size().height(page.bitmap.dpi()) {
            let is_expected = match self.rows.iter().find(|rows| rows.has(y)) {
                Some(rows) => is_row(page.bitmap.row(y), &rows.bytes),
                None => page.bitmap.is_blank(y),
            };
            if !is_expected {
                return false;
            }
        }
        true
    }
}

impl RepeatedRows {
    /// Whether a row is one of these.
    fn has(&self, y: u32) -> bool {
        y <= self.last
            && y.checked_sub(self.first)
                .and_then(|below| below.checked_rem(self.step))
                == Some(0)
    }
}

/// Whether a row begins with some bytes and is white after them.
fn is_row(row: &[u8], bytes: &[u8]) -> bool {
    row.strip_prefix(bytes)
        .is_some_and(|after| after.iter().all(|byte| *byte == 0))
}
