//! Rasters of what of a page isn't printed as text.

use crate::corners::{corner_of, move_to_corner};
use crate::rule_writing::{RulePen, append_rules, sparse_rules};
use crate::shortening::shortened;
use crate::sparing::{Saving, may_be_shorter, saving_of};
use glyph_patterns::{Dot, Letter, Letters, Patterns, StampInk, stamp};
use glyph_shapes::{Rule, ink_rules};
use pcl_bitmap::{Bitmap, Ink, Page, bits_of, trimmed_len};
use pcl_plan::plan;
use pcl_writer::write_page;
use std::alloc::{AllocError, Global};

/// This many rows of a page are without their letters at a time.
const BAND_ROWS: u32 = 512;

/// The dots of a page are kept for the next one where its text without letters has no more bytes than this: of a longer one the text takes
/// the memory.
const SHEET_BYTES: usize = 65_536;

/// The form feed that ends a page.
pub const FORM_FEED: u8 = 12;

/// What of a page isn't sent as a raster.
#[derive(Clone, Copy)]
pub struct Taken<'a> {
    /// The patterns of the job, and its letters.
    pub patterns: &'a Patterns,
    pub found: &'a Letters,
    /// The letters of the page.
    pub letters: &'a [Letter],
    /// The rules of the page.
    pub rules: &'a [Rule],
    /// The ID of a macro that no letter has.
    pub free_id: u32,
}

impl<'a> Taken<'a> {
    /// Whether all of the page is sent as a raster.
    pub fn is_empty(self) -> bool {
        self.letters.is_empty() && self.rules.is_empty()
    }
}

/// A page that is written, in its text without letters or in a shorter one.
#[derive(Clone, Copy)]
pub struct WholePage<'a> {
    pub page: &'a Page,
    /// Its text without letters.
    pub plain: &'a [u8],
    /// A text of it is useless with this many bytes, if that counts.
    pub room: Option<usize>,
}

/// What of a page is neither a letter nor, as a rectangle, a rule: a page text without its form feed, and the rectangles.
#[derive(Drop)]
struct Rest {
    text: Vec<u8>,
    /// The size of rectangles that the printer holds after it.
    pen: RulePen,
}

/// Writes what is left of pages without their letters, one page after the other.
#[derive(Drop)]
pub struct RestWriter {
    /// The size of rectangles that the printer holds.
    pen: RulePen,
    /// Dots that nobody needs any more: the next page is painted over them.
    sheet: Option<Bitmap>,
}

impl RestWriter {
    /// At the first page.
    pub fn new() -> RestWriter {
        RestWriter {
            pen: RulePen::new(),
            sheet: None,
        }
    }

    /// Goes on after a reset.
    pub fn restart(&mut self) {
        self.pen = RulePen::new();
    }

    /// Forgets the dots that nobody needs any more, which take as much memory as a page.
    pub fn forget_sheet(&mut self) {
        self.sheet = None;
    }

    /// Appends the shortest rest of a page and what prints its letters, or its text without any where that has no more bytes. Says whether
    /// it has the letters.
    pub fn append_shorter(
        &mut self,
        taken: Taken<'_>,
        whole: WholePage<'_>,
        printed: &[u8],
        out: &mut Vec<u8>,
    ) -> Result<bool, AllocError> {
        let room = whole.room.map(|room| room.saturating_sub(printed.len()));
        let rest = self.shortest_rest(*out.allocator(), taken, whole.page, room)?;
        if whole.plain.len() > SHEET_BYTES {
            self.forget_sheet();
        }
        if let Some(rest) = rest {
            if rest.text.len().saturating_add(printed.len()) < whole.plain.len() {
                self.pen = rest.pen;
                out.extend_from_slice(&rest.text)?;
                out.extend_from_slice(printed)?;
                return Ok(true);
            }
        }
        out.extend_from_slice(whole.plain)?;
        Ok(false)
    }

    /// The shortest rest of a page that was found. Where a room is given, none is made that surely takes as many bytes.
    fn shortest_rest(
        &mut self,
        alloc: Global,
        taken: Taken<'_>,
        page: &Page,
        room: Option<usize>,
    ) -> Result<Option<Rest>, AllocError> {
        let mut rests = Rests {
            alloc,
            taken,
            page,
            pen: self.pen,
            room,
            sheet: self.sheet.take(),
            shortest: None,
            is_sure: false,
        };
        rests.add_all()?;
        let Rests {
            sheet,
            shortest,
            ..
        } = rests;
        self.sheet = sheet;
        Ok(shortest)
    }
}

/// The rests of a page, of which the shortest is kept.
#[derive(Drop)]
struct Rests<'a> {
    alloc: Global,
    taken: Taken<'a>,
    page: &'a Page,
    /// The size of rectangles that the printer holds before them.
    pen: RulePen,
    /// A rest may have fewer bytes than this, if that counts.
    room: Option<usize>,
    /// Dots that nobody needs any more.
    sheet: Option<Bitmap>,
    /// The shortest so far.
    shortest: Option<Rest>,
    /// Whether a raster with all rules is surely longer.
    is_sure: bool,
}

impl<'a> Rests<'a> {
    /// Adds those with all rules as rectangles, with those alone that share their rows with few, and with none.
    fn add_all(&mut self) -> Result<(), AllocError> {
        let rules = self.taken.rules;
        self.add_ruled(rules)?;
        let sparse = sparse_rules(self.alloc, rules)?;
        if sparse.len() < rules.len() {
            self.add_ruled(&sparse)?;
        }
        if !self.is_sure {
            self.add_unruled()?;
        }
        Ok(())
    }

    /// Adds the rest with all rules in the raster, if it has room.
    fn add_unruled(&mut self) -> Result<(), AllocError> {
        let mut others = self.dots_without_letters()?;
        if self.has_room(0, &others) {
            let (text, moved) = raster_text(self.alloc, self.page, others)?;
            let pen = self.pen;
            self.keep(Rest { text, pen }, false);
            others = moved;
        }
        self.sheet = Some(others);
        Ok(())
    }

    /// Adds the rest with these rules as rectangles, if there are any, and if it has room, unless they surely take more bytes than in the
    /// raster.
    fn add_ruled(&mut self, rules: &[Rule]) -> Result<(), AllocError> {
        if rules.is_empty() {
            return Ok(());
        }
        let mut rectangles = Vec::new(self.alloc);
        let pen = append_rules(
            self.alloc,
            rules,
            self.pen,
            self.taken.free_id,
            &mut rectangles,
        )?;
        let mut others = self.dots_without_letters()?;
        ink_rules(rules, Ink::White, &mut others);
        if self.has_room(rectangles.len(), &others) {
            let saving = saving_of_rules(self.alloc, &others, rules, rectangles.len())?;
            if saving != Saving::SurelyLonger {
                let (text, moved) = raster_text(self.alloc, self.page, others)?;
                let mut text = text;
                text.extend_from_slice(&rectangles)?;
                self.keep(Rest { text, pen }, saving == Saving::SurelyShorter);
                others = moved;
            }
        }
        self.sheet = Some(others);
        Ok(())
    }

    /// Whether there may be room for a page as a raster, beside rectangles of this many bytes.
    fn has_room(&self, rectangles: usize, bitmap: &Bitmap) -> bool {
        match self.room {
            Some(room) => may_be_shorter(bitmap, room.saturating_sub(rectangles)),
            None => true,
        }
    }

    /// Keeps a rest if it is the shortest so far.
    fn keep(&mut self, rest: Rest, is_sure: bool) {
        let is_shortest = match &self.shortest {
            Some(shortest) => rest.text.len() < shortest.text.len(),
            None => true,
        };
        if is_shortest {
            self.shortest = Some(rest);
            self.is_sure = is_sure;
        }
    }

    /// The dots of the page without those of its letters.
    fn dots_without_letters(&mut self) -> Result<Bitmap, AllocError> {
        let page = self.page;
        let mut bitmap = white_bitmap(self.alloc, page, self.sheet.take())?;
        paint_without(self.alloc, self.taken, &page.bitmap, &mut bitmap)?;
        Ok(bitmap)
    }
}

/// The white dots of a page like this one, in place of others where these are as many.
fn white_bitmap(alloc: Global, page: &Page, sheet: Option<Bitmap>) -> Result<Bitmap, AllocError> {
    if let Some(sheet) = sheet {
        if sheet.size() == page.size && sheet.dpi() == page.dpi {
            let mut bitmap = sheet;
            bitmap.clear();
            return Ok(bitmap);
        }
    }
    Bitmap::new(alloc, page.size, page.dpi)
}

/// How rectangles of this many bytes compare with the dots of their rules in the raster of a page, which has no dots of these here.
fn saving_of_rules(
    alloc: Global,
    bitmap: &Bitmap,
    rules: &[Rule],
    rectangles: usize,
) -> Result<Saving, AllocError> {
    if rectangles <= white_rows(bitmap, rules) {
        Ok(Saving::SurelyShorter)
    } else {
        saving_of(alloc, bitmap, rules, rectangles)
    }
}

/// How many rows of the highest of some rules are white on a page without them: each would take a byte at least in a raster with it.
fn white_rows(bitmap: &Bitmap, rules: &[Rule]) -> usize {
    let mut count: usize = 0;
    if let Some(highest) = rules.iter().max_by_key(|rule| rule.height) {
        let bottom = highest.bottom();
        for y in highest.top..bottom.min(bitmap.size().height(bitmap.dpi())) {
            if bitmap.is_blank(y) {
                count = count.saturating_add(1);
            }
        }
    }
    count
}

/// The page text of a page with these dots as it is sent beside letters and rectangles, without its form feed; and the dots, which are
/// moved where the raster starts further right: so no more than two pages are held at once.
fn raster_text(
    alloc: Global,
    page: &Page,
    others: Bitmap,
) -> Result<(Vec<u8>, Bitmap), AllocError> {
    let corner = corner_of(&others);
    let mut bitmap = others;
    if !corner.is_of_page() {
        move_to_corner(alloc, corner, &mut bitmap)?;
    }
    let moved = Page {
        size: bitmap.size(),
        copies: page.copies,
        dpi: bitmap.dpi(),
        bitmap,
    };
    let text = least_text(alloc, &moved)?;
    let text = shortened(alloc, &text, &moved, corner)?;
    Ok((text, moved.bitmap))
}

/// The least page text of a page, without its form feed.
fn least_text(alloc: Global, page: &Page) -> Result<Vec<u8>, AllocError> {
    let least = plan(alloc, page)?;
    let mut text = Vec::new(alloc);
    write_page(page, &least, &mut text)?;
    text.pop();
    Ok(text)
}

/// Paints a page without the dots of some letters, a band of rows at a time.
fn paint_without(
    alloc: Global,
    taken: Taken<'_>,
    whole: &Bitmap,
    bitmap: &mut Bitmap,
) -> Result<(), AllocError> {
    let row_bytes = bitmap.size().row_bytes(bitmap.dpi());
    let band_bytes = row_bytes.saturating_mul(BAND_ROWS as usize).max(1);
    let reach = reach_of(taken);
    let mut bytes = Vec::new(alloc);
    let mut top: u32 = 0;
    for band in whole.bytes().chunks(band_bytes) {
        bytes.clear();
        bytes.extend_from_slice(band)?;
        whiten(&mut bytes, row_bytes, top, taken, reach);
        paint(&bytes, row_bytes, top, bitmap);
        top = top.saturating_add(BAND_ROWS);
    }
    Ok(())
}

/// How many rows the letters of a page reach above or below the lines that they stand on, at most.
fn reach_of(taken: Taken<'_>) -> u32 {
    let mut reach: u32 = 0;
    for letter in taken.letters {
        if let Some(pattern) = taken.found.pattern_of(taken.patterns, letter.glyph) {
            let first = taken.found.first_row_of(letter);
            let end = first.saturating_add(pattern.height);
            let row = u32::from(letter.baseline);
            reach = reach.max(row.abs_diff(first)).max(row.abs_diff(end));
        }
    }
    reach
}

/// Makes the dots of some letters white in a band of a page, rows of this many bytes from row `top` on. The letters reach this many rows
/// from their lines.
fn whiten(bytes: &mut [u8], row_bytes: usize, top: u32, taken: Taken<'_>, reach: u32) {
    let end = top.saturating_add(BAND_ROWS);
    for letter in letters_near(taken.letters, top, end, reach) {
        let first = taken.found.first_row_of(letter);
        if first < end {
            if let Some(pattern) = taken.found.pattern_of(taken.patterns, letter.glyph) {
                let rows = pattern.rows_from(top.saturating_sub(first));
                let corner = Dot {
                    x: u32::from(letter.x),
                    y: first.saturating_sub(top),
                };
                stamp(bytes, row_bytes, corner, rows, StampInk::White);
            }
        }
    }
}

/// Those of the letters of a page, from the topmost line down, whose lines are within reach of these rows: of others no dot is in them.
fn letters_near(letters: &[Letter], top: u32, end: u32, reach: u32) -> &[Letter] {
    let first = top.saturating_sub(reach);
    let last = end.saturating_add(reach);
    let start = letters.partition_point(|letter| u32::from(letter.baseline) < first);
    let letters = letters.get(start..).unwrap_or(&[]);
    let count = letters.partition_point(|letter| u32::from(letter.baseline) <= last);
    letters.get(..count).unwrap_or(&[])
}

/// Paints rows of this many bytes from row `top` on. White ones are passed over.
fn paint(bytes: &[u8], row_bytes: usize, top: u32, bitmap: &mut Bitmap) {
    let page_width = bitmap.size().width(bitmap.dpi());
    let mut y = u64::from(top);
    for row in bytes.chunks(row_bytes.max(1)) {
        if trimmed_len(row) != 0 {
            bitmap.paint_row(0, y, 1, page_width.min(bits_of(row)), row);
        }
        y = y.saturating_add(1);
    }
}
