//! The dots of the shapes of a page.

use crate::dots::ink_dots;
use crate::runs::BlackRun;
use crate::shapes::{Extent, Shapes};
use glyph_patterns::{Pattern, number_of_place, row_bytes_of, rows_len};
use pcl_bitmap::Ink;
use std::alloc::{AllocError, Global};

/// How many bytes drawings may have together that are held at once.
const HELD_BYTES_LIMIT: usize = 2_097_152;

/// The dots of shapes of a page, in the smallest box around each, rows of whole bytes. Those are drawn that aren't too large for letters
/// and don't stay in the raster. Rows of the page are drawn in turn, and what is drawn is held until it is forgotten; a shape for which
/// there is no room isn't drawn.
#[derive(Drop)]
pub struct Drawings<'a> {
    shapes: &'a Shapes,
    /// For each shape, whether it stays in the raster.
    stay: &'a [bool],
    /// How many dots are one at 300 dots per inch.
    scale: u32,
    /// Where the rows of each shape that began begin in those of all shapes in turn, and where those of the last one end.
    starts: Vec<u32>,
    /// The rows of shapes that are held.
    bytes: Vec<u8>,
    /// How many bytes of the rows of all shapes come before those.
    before: usize,
    /// How many shapes began above or in the last row.
    begun: usize,
    /// How many shapes were forgotten.
    forgotten: usize,
}

impl<'a> Drawings<'a> {
    /// Above the topmost row. `stay` says of each shape whether it stays in the raster.
    pub fn new(
        alloc: Global,
        shapes: &'a Shapes,
        stay: &'a [bool],
        scale: u32,
    ) -> Result<Drawings<'a>, AllocError> {
        let mut starts = Vec::new(alloc);
        starts.push(0)?;
        Ok(Drawings {
            shapes,
            stay,
            scale,
            starts,
            bytes: Vec::new(alloc),
            before: 0,
            begun: 0,
            forgotten: 0,
        })
    }

    /// Draws row `y`, the next one, which has these runs, and counts the runs of shapes that aren't drawn and don't stay.
    pub fn draw_row(&mut self, y: u16, runs: &[BlackRun]) -> Result<u16, AllocError> {
        self.begin(y)?;
        let mut others: u16 = 0;
        for run in runs {
            if !self.draw_run(y, *run) {
                others = others.saturating_add(1);
            }
        }
        Ok(others)
    }

    /// Draws a run of row `y`, unless its shape stays in the raster. Says whether that stays or is drawn.
    fn draw_run(&mut self, y: u16, run: BlackRun) -> bool {
        let number = self.shapes.number_of(run);
        if self.stay.get(number) == Some(&true) {
            return true;
        }
        match self.shapes.extents.get(number) {
            Some(extent) if self.has(number) => {
                self.blacken(number, *extent, y, run);
                true
            }
            _ => false,
        }
    }

    /// Begins the shapes whose topmost row is `y`, with white boxes.
    fn begin(&mut self, y: u16) -> Result<(), AllocError> {
        let begun = self.begun;
        let count = count_down_to(&self.shapes.extents, begun, y);
        let mut len = self.bytes.len();
        for number in begun..begun.saturating_add(count) {
            let all = len.saturating_add(self.len_of(number));
            if all <= HELD_BYTES_LIMIT {
                len = all;
            }
            let end = self.before.saturating_add(len);
            self.starts.push(number_of_place(end))?;
        }
        self.begun = begun.saturating_add(count);
        self.bytes.resize(len, 0)
    }

    /// How many bytes the rows of a shape have: none where it stays in the raster or is too large.
    fn len_of(&self, number: usize) -> usize {
        if self.stay.get(number) == Some(&true) {
            return 0;
        }
        match self.shapes.extents.get(number) {
            Some(extent) => rows_len(extent.width(), extent.height(), self.scale),
            None => 0,
        }
    }

    /// The first shape that isn't forgotten.
    pub fn first(&self) -> usize {
        self.forgotten
    }

    /// The first shape that isn't forgotten and isn't whole once row `y` is drawn.
    pub fn end_of_whole(&self, y: u16) -> usize {
        let mut number = self.forgotten;
        for extent in self.shapes.extents.get(number..).unwrap_or(&[]) {
            let goes_on = extent.bottom > y.saturating_add(1) && self.has(number);
            if extent.top > y || goes_on {
                break;
            }
            number = number.saturating_add(1);
        }
        number
    }

    /// A shape that is held: none where it isn't drawn.
    pub fn shape(&self, number: usize) -> Option<(Extent, Pattern<'_>)> {
        let extent = *self.shapes.extents.get(number)?;
        let pattern = Pattern {
            width: extent.width(),
            height: extent.height(),
            rows: self.rows_of(number)?,
        };
        Some((extent, pattern))
    }

    /// The rows of a shape that is held: none where it isn't drawn.
    fn rows_of(&self, number: usize) -> Option<&[u8]> {
        let end = self.place_of(number.saturating_add(1));
        let rows = self.bytes.get(..end)?.get(self.place_of(number)..)?;
        (!rows.is_empty()).then_some(rows)
    }

    /// Forgets the shapes before this one. Their bytes go once they are half of those that are held.
    pub fn forget(&mut self, number: usize) {
        self.forgotten = number;
        let count = self.place_of(number);
        if count > self.bytes.len() / 2 && count <= self.bytes.len() {
            self.bytes.copy_within(count.., 0);
            self.bytes.truncate(self.bytes.len().saturating_sub(count));
            self.before = self.before.saturating_add(count);
        }
    }

    /// Whether a shape is drawn.
    fn has(&self, number: usize) -> bool {
        self.start_of(number) < self.start_of(number.saturating_add(1))
    }

    /// Where the rows of a shape begin in those of all shapes.
    fn start_of(&self, number: usize) -> usize {
        self.starts.get(number).copied().unwrap_or(0) as usize
    }

    /// Where the rows of a shape begin in those that are held.
    fn place_of(&self, number: usize) -> usize {
        self.start_of(number).saturating_sub(self.before)
    }

    /// Makes the dots of a run of row `y` black, in the box of the shape with this extent.
    fn blacken(&mut self, number: usize, extent: Extent, y: u16, run: BlackRun) {
        let row = usize::from(y.saturating_sub(extent.top));
        let start = row.saturating_mul(row_bytes_of(extent.width()));
        let start = self.place_of(number).saturating_add(start);
        let start = start.min(self.bytes.len());
        let (_, row) = self.bytes.split_at_mut(start);
        let left = u32::from(run.start.saturating_sub(extent.left));
        let width = u32::from(run.end.saturating_sub(run.start));
        ink_dots(row, left, width, Ink::Black);
    }
}

/// How many boxes from a place on begin no further down than row `y`, before the first one that does.
fn count_down_to(extents: &[Extent], from: usize, y: u16) -> usize {
    let later = extents.get(from..).unwrap_or(&[]);
    match later.iter().position(|extent| extent.top > y) {
        Some(count) => count,
        None => later.len(),
    }
}
