//! What the raster of a page takes at least, and what it saves where its rules are sent as rectangles.

use glyph_patterns::ROW_BYTES;
use glyph_shapes::{RowRules, Rule, are_equal, ink_dots, row_at, row_bytes};
use pcl_bitmap::{Bitmap, Ink, trimmed_len};
use std::alloc::{AllocError, Global};
use std::mem::swap;

/// Rectangles are surely shorter where the raster is shorter without their dots by five quarters of their bytes, and surely longer where
/// it is so by less than two: what rows take is known about.
const SHORTER_QUARTERS: usize = 5;

const LONGER_QUARTERS: usize = 2;

/// Whether the raster of a page may take fewer bytes than this: it does so unless its rows take as many at least.
pub fn may_be_shorter(bitmap: &Bitmap, limit: usize) -> bool {
    let mut bytes: usize = 0;
    let mut above: &[u8] = &[];
    for y in 0..bitmap.size().height(bitmap.dpi()) {
        let row = row_at(bitmap, y);
        bytes = bytes.saturating_add(least_bytes_of_row(above, row));
        if bytes >= limit {
            return false;
        }
        above = row;
    }
    true
}

/// How the bytes of rectangles compare with those that the raster of their page is shorter by without them.
#[derive(Clone, Copy, PartialEq, Eq)]
pub enum Saving {
    SurelyShorter,
    SurelyLonger,
    Unsure,
}

impl Saving {
    /// That of rectangles of this many bytes, which spare the raster this many.
    fn of(rectangles: usize, spared: usize) -> Saving {
        let quarters = spared.saturating_mul(4);
        if quarters >= rectangles.saturating_mul(SHORTER_QUARTERS) {
            Saving::SurelyShorter
        } else if quarters < rectangles.saturating_mul(LONGER_QUARTERS) {
            Saving::SurelyLonger
        } else {
            Saving::Unsure
        }
    }
}

/// How rectangles of this many bytes compare with the dots of their rules in the raster of a page, which has no dots of these here.
pub fn saving_of(
    alloc: Global,
    bitmap: &Bitmap,
    rules: &[Rule],
    rectangles: usize,
) -> Result<Saving, AllocError> {
    let mut raster = RasterBytes {
        ruled: 0,
        unruled: 0,
    };
    let mut ruled = RuledRows {
        rules: RowRules::new(alloc, rules),
        row: Vec::new(alloc),
        above: Vec::new(alloc),
    };
    let mut above: &[u8] = &[];
    for y in 0..bitmap.size().height(bitmap.dpi()) {
        let row = bitmap.row(y);
        if ruled.read(y, row, above)? {
            raster.add_row(&ruled, above, row);
        }
        above = row;
    }
    let spared = raster.ruled.saturating_sub(raster.unruled);
    Ok(Saving::of(rectangles, spared))
}

/// The rows of a page with its rules, where they have dots.
#[derive(Drop)]
struct RuledRows<'a> {
    rules: RowRules<'a>,
    /// The row that was read last.
    row: Vec<u8>,
    /// The row above it: empty above the topmost one.
    above: Vec<u8>,
}

impl<'a> RuledRows<'a> {
    /// Reads row `y`, the next one, which has these dots without the rules, as the row above it has those. Says whether rules have dots in
    /// one of them: else the row isn't kept.
    fn read(&mut self, y: u32, row: &[u8], above: &[u8]) -> Result<bool, AllocError> {
        let is_above_ruled = !self.rules.in_row.is_empty();
        let has_others = self.rules.step(y)?;
        let is_ruled = !self.rules.in_row.is_empty();
        if !is_ruled && !is_above_ruled {
            return Ok(false);
        }
        swap(&mut self.above, &mut self.row);
        if !is_above_ruled {
            self.above.clear();
            self.above.extend_from_slice(above)?;
        }
        self.row.clear();
        if !has_others && are_equal(row, above) {
            self.row.extend_from_slice(&self.above)?;
        } else {
            self.row.extend_from_slice(row)?;
            for rule in self.rules.in_row.iter() {
                ink_dots(&mut self.row, rule.left, rule.width, Ink::Black);
            }
        }
        Ok(true)
    }
}

/// About how many bytes the rows of a page that rules change take as a raster, with these and without them.
#[derive(Clone, Copy)]
struct RasterBytes {
    ruled: usize,
    unruled: usize,
}

impl RasterBytes {
    /// Adds a row, which has these dots without the rules, and those of the row above.
    fn add_row(&mut self, ruled: &RuledRows<'_>, above: &[u8], row: &[u8]) {
        let with_rules = bytes_of_row(&ruled.above, &ruled.row);
        self.ruled = self.ruled.saturating_add(with_rules);
        self.unruled = self.unruled.saturating_add(bytes_of_row(above, row));
    }
}

/// How many bytes a row takes at least: white bytes at its end, and at its start where the raster starts further right, may count as a
/// stretch each and aren't sent. A row like the one above is a `w`, and a white one may be skipped.
fn least_bytes_of_row(above: &[u8], row: &[u8]) -> usize {
    match bytes_of_row(above, row) {
        0 => usize::from(trimmed_len(row) != 0),
        bytes => bytes.saturating_sub(2),
    }
}

/// About how many bytes a row takes: its data and those around them, or none where it is the row above once more.
fn bytes_of_row(above: &[u8], row: &[u8]) -> usize {
    match row_bytes(above, row) as usize {
        0 => 0,
        data => data.saturating_add(ROW_BYTES),
    }
}
