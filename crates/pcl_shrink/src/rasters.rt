//! Pages written as rasters of some resolution.

ghost use Rattle.std.specs.Prelude.{IfOk};
ghost use Rattle.pcl_writer.specs.Appending.{IsWrittenPage};

use crate::shifts::{Shift, shift_at};
use crate::squares::{coarse_page, common_side};
use glyph_patterns::append_labelled;
use pcl_base::Dpi;
use pcl_page::Page;
use pcl_plan::plan;
use pcl_writer::write_page;
use std::alloc::{AllocError, Global};

/// The texts of a page as a raster.
#[derive(Drop)]
pub struct Text {
    /// The least page text (docs/OUTPUT.md).
    pub least: Vec<u8>,
    /// That with a raster of the coarsest resolution that the page has, where that is shorter.
    pub coarse: Option<Vec<u8>>,
}

impl Text {
    /// How many bytes the shortest of them has.
    pub fn shortest_len(&self) -> usize {
        match &self.coarse {
            Some(coarse) => coarse.len(),
            None => self.least.len(),
        }
    }

    /// The shortest of them.
    fn into_shortest(self) -> Vec<u8> {
        let Text { least, coarse } = self;
        match coarse {
            Some(coarse) => coarse,
            None => least,
        }
    }
}

/// The shortest text of each page, half a dot lower where the page is.
pub fn shortest_texts(
    alloc: Global,
    texts: Vec<Text>,
    shifts: &[Shift],
) -> Result<Vec<Vec<u8>>, AllocError> {
    let mut shortest = Vec::new(alloc);
    for (number, text) in texts.into_iter().enumerate() {
        let text = text.into_shortest();
        let text = match shift_at(shifts, number) {
            Shift::HalfLower => half_lower(alloc, &text)?,
            Shift::Whole | Shift::Other => text,
        };
        shortest.push(text)?;
    }
    Ok(shortest)
}

/// What puts the cursor to the page's corner, in a page text.
const CORNER: &[u8] = b"\x1b*p0x0Y";

/// The same half a dot lower, in decipoints: a part of a PCL unit isn't read by all.
const BELOW_CORNER: &[u8] = b"\x1b&a0h1.2V";

/// A page text whose raster starts half a dot lower: the first `Y` ends what puts the cursor to the page's corner.
fn half_lower(alloc: Global, text: &[u8]) -> Result<Vec<u8>, AllocError> {
    let place = text.iter().position(|byte| *byte == b'Y').unwrap_or(0);
    let (start, rest) = text.split_at(place.saturating_add(1).min(text.len()));
    let (start, _) = start.split_at(start.len().saturating_sub(CORNER.len()));
    let mut lower = Vec::new(alloc);
    lower.extend_from_slice(start)?;
    lower.extend_from_slice(BELOW_CORNER)?;
    lower.extend_from_slice(rest)?;
    Ok(lower)
}

/// The texts of a page as a raster.
pub fn page_text(alloc: Global, page: &Page) -> Result<Text, AllocError>
    ensures { IfOk result (λ text. IsWrittenPage page.now text.least.items) }
{
    let least = least_text(alloc, page)?;
    let coarse = coarsest_text(alloc, page, least.len())?;
    Ok(Text { least, coarse })
}

/// The text with a raster of the coarsest resolution that the page has: none where that isn't shorter than this many bytes.
fn coarsest_text(alloc: Global, page: &Page, limit: usize) -> Result<Option<Vec<u8>>, AllocError> {
    let common = common_side(alloc, &page.bitmap)?;
    let mut coarsest = None;
    for side in sides(page.dpi) {
        if common.checked_rem(*side) == Some(0) {
            coarsest = Some(*side);
        }
    }
    let Some(side) = coarsest else {
        return Ok(None);
    };
    let text = coarse_text(alloc, page, side)?;
    Ok((text.len() < limit).then_some(text))
}

/// How many dots wide and high the squares of coarser rasters are: 150, 100 and 75 dots per inch, and before these at 600 dots per
/// inch 300 and 200.
fn sides(dpi: Dpi) -> &'static [u32] {
    match dpi {
        Dpi::Dpi300 => &[2, 3, 4],
        Dpi::Dpi600 => &[2, 3, 4, 6, 8],
    }
}

/// The least page text of a page.
fn least_text(alloc: Global, page: &Page) -> Result<Vec<u8>, AllocError>
    ensures { IfOk result (λ text. IsWrittenPage page.now text.items) }
{
    let least = plan(alloc, page)?;
    let mut text = Vec::new(alloc);
    write_page(page, &least, &mut text)?;
    text.shrink_to_fit();
    Ok(text)
}

/// The text of a page with a raster whose dots stand for squares of this many dots.
fn coarse_text(alloc: Global, page: &Page, side: u32) -> Result<Vec<u8>, AllocError> {
    let side = side.max(1);
    let least = least_text(alloc, &coarse_page(alloc, page, side)?)?;
    let mut text = Vec::new(alloc);
    append_labelled(b"\x1b&l", u32::from(page.copies), &mut text)?;
    append_labelled(b"x", page.size.code(), &mut text)?;
    append_labelled(b"a0E\x1b*p0x0Y\x1b*t", page.dpi.dots() / side, &mut text)?;
    let columns = page.size.width(page.dpi).div_ceil(side);
    append_labelled(b"R\x1b*r", columns, &mut text)?;
    text.extend_from_slice(b"s0A")?;
    text.extend_from_slice(rows_of_text(&least))?;
    text.shrink_to_fit();
    Ok(text)
}

/// What stands in a page text after the start of its raster, which ends with the first `A`.
fn rows_of_text(text: &[u8]) -> &[u8] {
    let start = match text.iter().position(|byte| *byte == b'A') {
        Some(place) => place.saturating_add(1).min(text.len()),
        None => 0,
    };
    &text[start..]
}
