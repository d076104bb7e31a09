//! Rows of a page, eight at a time, and the tiles in them.

use crate::edges::count_runs;
use crate::page_rows::{PageRows, Unpainted};
use crate::shapes::Extent;
use crate::words::{EACH_BYTE, LEFTMOST, first_bytes, inked_bytes, padded_word};
use glyph_patterns::{ROW_BYTES, short_number};
use std::alloc::{AllocError, Global};

/// How many rows a tile has. It is as many dots wide: a byte.
pub const TILE_SIDE: u16 = 8;

/// Where the tiles of a page lie: how many dots right of its bytes, and how many below each eighth row.
#[derive(Clone, Copy, PartialEq, Eq)]
pub struct Grid {
    pub right: u16,
    pub down: u16,
}

impl Grid {
    /// From the corner of the page on.
    pub const CORNER: Grid = Grid { right: 0, down: 0 };

    /// The topmost row of the tiles of this number below each other.
    pub fn top_of(self, number: u16) -> u32 {
        u32::from(number.saturating_mul(TILE_SIDE).saturating_add(self.down))
    }

    /// How many tiles are below each other on a page of this height, those that are whole.
    pub fn count_down_to(self, height: u16) -> u16 {
        height.saturating_sub(self.down) / TILE_SIDE
    }
}

/// Tiles side by side, with a white one here and there: from the one in the place `start` up to the one before `end`.
#[derive(Clone, Copy)]
pub struct Stretch {
    pub start: usize,
    pub end: usize,
}

impl Stretch {
    /// How many places it has.
    pub fn len(self) -> usize {
        self.end.saturating_sub(self.start)
    }

    /// What is in its places, as far as they are there.
    pub fn of<T>(self, all: &[T]) -> &[T] {
        let front = all.get(..self.end).unwrap_or(all);
        front.get(self.start..).unwrap_or(&[])
    }
}

/// Eight rows of a part of a page, and their tiles.
#[derive(Drop)]
pub struct Band<'a> {
    page: Unpainted<'a>,
    rows: PageRows<'a>,
    grid: Grid,
    /// The tiles of the part, of all that are side by side on the page.
    columns: Stretch,
    /// The topmost row.
    pub top: u16,
    /// A byte for each tile of the row that was read last.
    row: Vec<u8>,
    /// Those of the row above the topmost one, and of the rows.
    bytes: Vec<u8>,
    /// The dots of each tile, its topmost row in the highest byte.
    pub tiles: Vec<u64>,
}

impl<'a> Band<'a> {
    /// Above the rows of a part of a page, whose tiles lie so. Those that aren't whole are left out.
    pub fn new(alloc: Global, page: Unpainted<'a>, grid: Grid, area: Extent) -> Band<'a> {
        let width = page.area().right.saturating_sub(grid.right);
        let end = (width / TILE_SIDE).min(area.right / TILE_SIDE);
        Band {
            page,
            rows: PageRows::new(alloc, page),
            grid,
            columns: Stretch {
                start: usize::from(area.left / TILE_SIDE),
                end: usize::from(end),
            },
            top: 0,
            row: Vec::new(alloc),
            bytes: Vec::new(alloc),
            tiles: Vec::new(alloc),
        }
    }

    /// Reads eight rows from row `top` on, which come after those that were read. White ones have no tiles. Nor have those that are each
    /// the row above once more: they take next to nothing in a raster.
    pub fn read(&mut self, top: u32) -> Result<(), AllocError> {
        let bottom = top.saturating_add(u32::from(TILE_SIDE));
        self.top = short_number(top);
        self.tiles.clear();
        if (top..bottom).all(|y| self.page.inked.row(y).is_empty()) {
            self.row.clear();
            return Ok(());
        }
        if (top..bottom).all(|y| self.page.inked.is_again(y)) {
            return Ok(());
        }
        let count = self.columns.len();
        self.bytes.clear();
        self.bytes.extend_from_slice(&self.row)?;
        self.bytes.resize(count, 0)?;
        self.tiles.resize(count, 0)?;
        for y in top..bottom {
            self.read_row(y)?;
        }
        Ok(())
    }

    /// Reads row `y`, the next one.
    fn read_row(&mut self, y: u32) -> Result<(), AllocError> {
        self.rows.read(y)?;
        self.row.clear();
        append_shifted(&self.rows.row, self.columns, self.grid.right, &mut self.row)?;
        self.row.resize(self.columns.len(), 0)?;
        for (dots, byte) in self.tiles.iter_mut().zip(self.row.iter()) {
            *dots = *dots << 8 | u64::from(*byte);
        }
        self.bytes.extend_from_slice(&self.row)
    }

    /// The first stretch from a place on.
    pub fn stretch_from(&self, place: usize) -> Option<Stretch> {
        let later = self.tiles.get(place..)?;
        let start = place.saturating_add(later.iter().position(|dots| *dots != 0)?);
        let mut end = start;
        for (count, dots) in self.tiles.get(start..)?.iter().enumerate() {
            let place = start.saturating_add(count);
            if *dots != 0 {
                end = place.saturating_add(1);
            } else if place > end {
                break;
            }
        }
        Some(Stretch { start, end })
    }

    /// How many runs of black dots the rows of a stretch have.
    pub fn runs(&self, stretch: Stretch) -> usize {
        let mut runs: u32 = 0;
        for row in self.bytes.chunks(self.columns.len().max(1)).skip(1) {
            runs = runs.saturating_add(count_runs(stretch.of(row)));
        }
        runs as usize
    }

    /// About how many bytes the tiles of a stretch take in the raster: what is around the data of its rows is theirs where no other
    /// tile is beside them.
    pub fn raster_bytes(&self, stretch: Stretch) -> usize {
        let mut bytes: usize = 0;
        let mut above: &[u8] = &[];
        for row in self.bytes.chunks(self.columns.len().max(1)) {
            let row = stretch.of(row);
            if !above.is_empty() {
                bytes = bytes.saturating_add(data_bytes(above, row));
            }
            above = row;
        }
        if self.is_alone(stretch) {
            bytes = bytes.saturating_add(usize::from(TILE_SIDE).saturating_mul(ROW_BYTES));
        }
        bytes
    }

    /// Whether all tiles but those of a stretch are white.
    fn is_alone(&self, stretch: Stretch) -> bool {
        let left = self.tiles.get(..stretch.start).unwrap_or(&[]);
        let right = self.tiles.get(stretch.end..).unwrap_or(&[]);
        left.iter().all(|dots| *dots == 0) && right.iter().all(|dots| *dots == 0)
    }

    /// The left edge of the tile in a place.
    pub fn left_of(&self, place: usize) -> u16 {
        let left = u16::try_from(self.columns.start.saturating_add(place)).unwrap_or(u16::MAX);
        left.saturating_mul(TILE_SIDE)
            .saturating_add(self.grid.right)
    }
}

/// Appends the bytes of a part of a row, whose dots lie by this many further left, fewer than eight.
fn append_shifted(
    row: &[u8],
    columns: Stretch,
    dots: u16,
    shifted: &mut Vec<u8>,
) -> Result<(), AllocError> {
    shifted.extend_from_slice(columns.of(row))?;
    if dots != 0 {
        let nexts = row.get(columns.start.saturating_add(1)..).unwrap_or(&[]);
        shift_left(shifted, nexts, 8 - dots % 8);
    }
    Ok(())
}

/// Moves the dots of bytes left, so that as many as this stay. `nexts` are the bytes right of them.
fn shift_left(bytes: &mut [u8], nexts: &[u8], stay: u16) {
    for (byte, next) in bytes.iter_mut().zip(nexts.iter()) {
        let both = u16::from(*byte) << 8 | u16::from(*next);
        let [_, shifted] = (both >> stay.min(8)).to_be_bytes();
        *byte = shifted;
    }
}

/// About how many bytes the data of a part of a row take, by method 2 or 3.
fn data_bytes(above: &[u8], row: &[u8]) -> usize {
    packed_bytes(row).min(delta_bytes(above, row))
}

/// About how many bytes a part of a row takes by method 2: one each, and two where one comes again and again.
fn packed_bytes(row: &[u8]) -> usize {
    let (words, rest) = row.as_chunks::<8>();
    let mut spared = SparedBytes::at(row.first().copied().unwrap_or(0));
    for bytes in words {
        spared.add(u64::from_be_bytes(*bytes), EACH_BYTE);
    }
    spared.add(padded_word(rest), first_bytes(rest.len()));
    row.len().saturating_sub(spared.count as usize)
}

/// The bytes of a row that are each the same as the two left of them.
#[derive(Clone, Copy)]
struct SparedBytes {
    count: u32,
    /// The last eight bytes.
    last: u64,
    /// The highest bit of each of them that is the byte left of it.
    again: u64,
}

impl SparedBytes {
    /// Left of a row that begins with this byte: another one stands there.
    fn at(first: u8) -> SparedBytes {
        SparedBytes {
            count: 0,
            last: u64::from(!first),
            again: 0,
        }
    }

    /// Counts eight bytes more, those of them of which these bits have the highest.
    fn add(&mut self, word: u64, counted: u64) {
        let others = inked_bytes(word ^ (word >> 8 | self.last << 56));
        let again = counted & EACH_BYTE & !others;
        let spared = again & (again >> 8 | self.again << 56);
        self.count = self.count.saturating_add(spared.count_ones());
        self.last = word;
        self.again = again;
    }
}

/// About how many bytes a part of a row takes by method 3: those that aren't the ones above, and one more for up to eight side by side.
fn delta_bytes(above: &[u8], row: &[u8]) -> usize {
    let (uppers, upper_rest) = above.as_chunks::<8>();
    let (words, rest) = row.as_chunks::<8>();
    let mut delta = DeltaElements { bytes: 0, run: 0 };
    for (upper, word) in uppers.iter().zip(words.iter()) {
        delta.add(u64::from_be_bytes(*upper) ^ u64::from_be_bytes(*word));
    }
    delta.add(padded_word(upper_rest) ^ padded_word(rest));
    delta.bytes
}

/// What bytes take that aren't the ones above.
#[derive(Clone, Copy)]
struct DeltaElements {
    bytes: usize,
    /// How many such bytes are the last ones.
    run: u32,
}

impl DeltaElements {
    /// Adds eight bytes more, whose bits are set where they differ. Where all do, one of them is the first of eight side by side.
    fn add(&mut self, differing: u64) {
        let changed = inked_bytes(differing);
        if changed == 0 {
            self.run = 0;
        } else if changed == EACH_BYTE {
            self.bytes = self.bytes.saturating_add(9);
        } else {
            self.add_each(changed);
        }
    }

    /// The same of those that have their highest bit set.
    fn add_each(&mut self, changed: u64) {
        let mut rest = changed;
        for _ in 0..8u32 {
            if rest & LEFTMOST == 0 {
                self.run = 0;
            } else {
                let starts = usize::from(self.run % 8 == 0);
                self.bytes = self.bytes.saturating_add(1).saturating_add(starts);
                self.run = self.run.saturating_add(1);
            }
            rest <<= 8;
        }
    }
}
