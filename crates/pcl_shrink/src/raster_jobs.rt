//! A job written again as rasters, with what it asks for.

ghost use Rattle.std.specs.Prelude.{◌≡◌, ◌≤◌, length, IfOk};
ghost use Rattle.pcl_page.specs.Asks.{asks_of};
ghost use Rattle.pcl_shrink.specs.Asking.{asked_job};
ghost use Rattle.pcl_shrink.specs.Texts.{least_of};

use crate::asking::{append_end, append_page_start, append_page_text};
use crate::rasters::Text;
use glyph_pages::{FIRST_ID, Repeats};
use pcl_page::Asks;
use std::alloc::{AllocError, Global};

/// The least page texts of a job's pages, with what it asks for around them.
pub fn asked_job(alloc: Global, asks: &Asks<'_>, texts: &[Text]) -> Result<Vec<u8>, AllocError>
    ensures { IfOk result (λ job. job.items ≡ asked_job (asks_of asks.now) (least_of texts.now)) }
{
    let mut out = Vec::new(alloc);
    for (number, text) in texts.iter().enumerate() {
        append_page_start(asks, number, &mut out)?;
        append_page_text(asks, number, &text.least, &mut out)?;
    }
    append_end(asks, texts.len(), &mut out)?;
    Ok(out)
}

/// How many bytes `asked_job` makes, without making them.
pub fn asked_len(alloc: Global, asks: &Asks<'_>, texts: &[Text]) -> Result<usize, AllocError>
    ensures { IfOk result (λ len. len ≤ length (asked_job (asks_of asks.now) (least_of texts.now))) }
{
    let mut len: usize = 0;
    let mut around = Vec::new(alloc);
    for (number, text) in texts.iter().enumerate() {
        around.clear();
        append_page_start(asks, number, &mut around)?;
        append_page_text(asks, number, &text.least, &mut around)?;
        len = len.saturating_add(around.len());
    }
    around.clear();
    append_end(asks, texts.len(), &mut around)?;
    Ok(len.saturating_add(around.len()))
}

/// A proposal may have this many bytes more than the job before what repeats in it goes as macros: with more, hostile jobs take long.
pub const REPEATED_BYTES: usize = 512;

/// The same as `asked_job` with any texts of the pages, each of which is dropped once it is appended, and with what repeats as macros:
/// none where that has this many bytes, or where the texts have far more.
pub fn plain_job(
    alloc: Global,
    asks: &Asks<'_>,
    texts: Vec<Vec<u8>>,
    limit: usize,
) -> Result<Option<Vec<u8>>, AllocError> {
    if total_len(&texts) >= limit.saturating_add(REPEATED_BYTES) {
        return Ok(None);
    }
    let pages = texts.len();
    let mut out = Vec::new(alloc);
    let mut repeats = Repeats::new(alloc, FIRST_ID, false);
    for (number, text) in texts.into_iter().enumerate() {
        if append_page_start(asks, number, &mut out)? {
            repeats.end(&mut out)?;
        }
        let place = out.len();
        append_page_text(asks, number, &text, &mut out)?;
        repeats.add_page(&out, place)?;
    }
    repeats.end(&mut out)?;
    append_end(asks, pages, &mut out)?;
    Ok((out.len() < limit).then_some(out))
}

/// How many bytes some texts have together.
fn total_len(texts: &[Vec<u8>]) -> usize {
    let mut len: usize = 0;
    for text in texts {
        len = len.saturating_add(text.len());
    }
    len
}
