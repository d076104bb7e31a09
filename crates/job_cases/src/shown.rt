//! What came of a job, as a table would have it.

use case_tables::ESC;
use pcl_base::{Dpi, Profile};
use pcl_page::{Page, PageSink, perform_by};
use std::alloc::{AllocError, Global};
use std::marker::Model;

/// How many rows of a page are shown.
const MOST_ROWS: usize = 20;

/// How many bytes of a row are shown.
const MOST_BYTES: usize = 40;

/// How many bytes of a job are shown.
const MOST_JOB_BYTES: usize = 400;

/// The pages that came.
#[derive(Drop)]
struct Shown {
    pages: Vec<Page>,
}

impl Model for Shown {
    ghost use Rattle.std.specs.Prelude.{List};
    ghost use Rattle.pcl_bitmap.specs.declared.page.Page.{Page};

    ghost Value = { List Page };

    ghost view = { λ a. a.pages.items };
}

impl PageSink for Shown {
    ghost takes = { λ old page new. Unit {0} };

    fn page(&mut self, page: &Page) -> Result<(), AllocError> {
        self.pages.push(page.try_clone()?)?;
        Ok(())
    }
}

/// The pages of a job by a profile, each with its first rows that aren't white.
pub(crate) fn show_pages(
    alloc: Global,
    job: &[u8],
    profile: Profile,
    dpi: Dpi,
) -> Result<String, AllocError> {
    let mut text = String::new(alloc);
    let mut shown = Shown {
        pages: Vec::new(alloc),
    };
    match perform_by(alloc, job, profile, dpi, &mut shown) {
        Ok(()) if shown.pages.is_empty() => text.push_str("  no page")?,
        Ok(()) => {
            for page in shown.pages.iter() {
                show_page(&mut text, page)?;
            }
        }
        Err(_) => text.push_str("  a refusal")?,
    }
    Ok(text)
}

fn show_page(text: &mut String, page: &Page) -> Result<(), AllocError> {
    let name = page.size.name();
    match page.copies {
        1 => write!(text, "  page {name}\n")?,
        copies => write!(text, "  page {name}, {copies} copies\n")?,
    }
    let mut shown = 0usize;
    for y in 0..page.bitmap.size().height(page.bitmap.dpi()) {
        if !page.bitmap.is_blank(y) && shown < MOST_ROWS {
            show_row(text, y, page.bitmap.row(y))?;
            shown = shown.saturating_add(1);
        }
    }
    Ok(())
}

fn show_row(text: &mut String, y: u32, row: &[u8]) -> Result<(), AllocError> {
    write!(text, "    {y}:")?;
    let black = row.iter().rposition(|byte| *byte != 0);
    let len = black.map_or(0, |place| place.saturating_add(1));
    for byte in row.iter().take(len.min(MOST_BYTES)) {
        write!(text, " {byte:02X}")?;
    }
    if len > MOST_BYTES {
        text.push_str(" ..")?;
    }
    text.push_str("\n")
}

/// The first bytes of a job, in the notation of `case_tables`.
pub(crate) fn show_job(alloc: Global, job: &[u8]) -> Result<String, AllocError> {
    let mut text = String::new(alloc);
    for byte in job.iter().take(MOST_JOB_BYTES) {
        match *byte {
            ESC => text.push_str(" ESC")?,
            b'!'..=b'~' => text.push(char::from(*byte))?,
            other => write!(text, "[{other:02X}]")?,
        }
    }
    Ok(text)
}
