//! The patterns of shapes.

ghost use Rattle.std.specs.Prelude.{◌≤◌};

use crate::stamping::{Dot, StampInk, stamp};
use std::alloc::{AllocError, Global};

/// The largest width and height of a shape that may become a glyph, in dots at 300 per inch.
const SIDE_LIMIT: u32 = 400;

/// The dots of a shape.
#[derive(Clone, Copy)]
pub struct Pattern<'a> {
    /// In dots.
    pub width: u32,
    /// In dots.
    pub height: u32,
    /// The rows from the uppermost down, each of whole bytes, the left dot the highest bit.
    pub rows: &'a [u8],
}

/// Some rows of a pattern.
#[derive(Clone, Copy)]
pub struct PatternRows<'a> {
    /// How many bytes a row has.
    pub row_bytes: usize,
    pub bytes: &'a [u8],
}

impl<'a> Pattern<'a> {
    /// How many bytes a row has: one at least.
    pub fn row_bytes(self) -> usize
        ensures { 1 ≤ result }
    {
        row_bytes_of(self.width)
    }

    /// Its rows but this many of the uppermost ones.
    pub fn rows_from(self, first: u32) -> PatternRows<'a> {
        let row_bytes = self.row_bytes();
        let start = (first as usize).saturating_mul(row_bytes);
        PatternRows {
            row_bytes,
            bytes: self.rows.get(start..).unwrap_or(&[]),
        }
    }

    /// The rows and bytes that aren't those of the row above.
    pub fn changes(self) -> Changes {
        let mut changes = Changes { rows: 0, bytes: 0 };
        let mut above: &[u8] = &[];
        for row in self.rows.chunks(self.row_bytes()) {
            changes = changes.with(changed_bytes(above, row));
            above = row;
        }
        changes
    }

    /// The bytes of the last row that aren't white.
    pub fn last_bytes(self) -> usize {
        let start = self.rows.len().saturating_sub(self.row_bytes());
        changed_bytes(&[], self.rows.get(start..).unwrap_or(&[]))
    }
}

/// A pattern that is drawn.
#[derive(Drop)]
pub struct Drawing {
    /// In dots.
    width: u32,
    /// In dots.
    height: u32,
    rows: Vec<u8>,
}

impl Drawing {
    /// A white pattern of these sides, in dots: none where one of them is longer than a shape's may be.
    pub fn white(
        alloc: Global,
        width: u32,
        height: u32,
        scale: u32,
    ) -> Result<Option<Drawing>, AllocError> {
        let len = rows_len(width, height, scale);
        if len == 0 {
            return Ok(None);
        }
        Ok(Some(Drawing {
            width,
            height,
            rows: vec![in alloc; 0; len]?,
        }))
    }

    /// Makes the dots of a pattern black, whose left upper dot is so far right and down in this one.
    pub fn blacken_with(&mut self, other: Pattern<'_>, right: u32, down: u32) {
        let row_bytes = row_bytes_of(self.width);
        let corner = Dot { x: right, y: down };
        stamp(
            &mut self.rows,
            row_bytes,
            corner,
            other.rows_from(0),
            StampInk::Black,
        );
    }

    /// The pattern as it is drawn.
    pub fn pattern(&self) -> Pattern<'_> {
        Pattern {
            width: self.width,
            height: self.height,
            rows: &self.rows,
        }
    }
}

/// How much of a pattern differs from the row above, where a white row stands above the uppermost one.
#[derive(Clone, Copy)]
pub struct Changes {
    /// The rows that differ.
    pub rows: usize,
    /// The bytes of these that differ.
    pub bytes: usize,
}

impl Changes {
    /// With a row of which this many bytes differ.
    pub fn with(self, bytes: usize) -> Changes {
        if bytes == 0 {
            return self;
        }
        Changes {
            rows: self.rows.saturating_add(1),
            bytes: self.bytes.saturating_add(bytes),
        }
    }
}

/// How many bytes of a row aren't those of the row above.
pub fn changed_bytes(above: &[u8], row: &[u8]) -> usize {
    let mut changed: usize = 0;
    for (place, byte) in row.iter().enumerate() {
        if *byte != above.get(place).copied().unwrap_or(0) {
            changed = changed.saturating_add(1);
        }
    }
    changed
}

/// How many bytes a row of this many dots has: one at least.
pub fn row_bytes_of(width: u32) -> usize
    ensures { 1 ≤ result }
{
    (width as usize).div_ceil(8).max(1)
}

/// How many bytes the rows of a pattern of these sides have, in dots: none where one of them is longer than a shape's may be. `scale` dots
/// are one at 300 dots per inch.
pub fn rows_len(width: u32, height: u32, scale: u32) -> usize {
    let limit = SIDE_LIMIT.saturating_mul(scale);
    if width <= limit && height <= limit {
        (width as usize).div_ceil(8).saturating_mul(height as usize)
    } else {
        0
    }
}
