//! The dots of a pattern in rows of bytes.

ghost use Rattle.std.specs.Prelude.{◌<◌};

use crate::patterns::PatternRows;

/// What the dots of a pattern become.
#[derive(Clone, Copy)]
pub enum StampInk {
    Black,
    White,
}

/// A dot, so far right and down.
#[derive(Clone, Copy)]
pub struct Dot {
    pub x: u32,
    pub y: u32,
}

/// Inks the dots of rows of a pattern in rows of this many bytes, whose left upper dot is this one.
pub fn stamp(
    bytes: &mut [u8],
    row_bytes: usize,
    corner: Dot,
    rows: PatternRows<'_>,
    ink: StampInk,
) {
    let mut start = (corner.y as usize).saturating_mul(row_bytes);
    for row in rows.bytes.chunks(rows.row_bytes.max(1)) {
        let first = start.saturating_add(corner.x as usize / 8);
        stamp_row(bytes, first, corner.x % 8, row, ink);
        start = start.saturating_add(row_bytes);
    }
}

/// Inks the dots of a row of a pattern, from a bit of the byte in this place on.
fn stamp_row(bytes: &mut [u8], place: usize, bit: u32, row: &[u8], ink: StampInk)
    requires { bit < 8 }
{
    let mut place = place;
    let mut before: u8 = 0;
    for dots in row {
        let [left, right] = (u16::from(*dots) << (8 - bit)).to_be_bytes();
        stamp_byte(bytes, place, before | left, ink);
        place = place.saturating_add(1);
        before = right;
    }
    if before != 0 {
        stamp_byte(bytes, place, before, ink);
    }
}

/// Inks these bits of the byte in a place.
fn stamp_byte(bytes: &mut [u8], place: usize, bits: u8, ink: StampInk) {
    if let Some(byte) = bytes.get_mut(place) {
        match ink {
            StampInk::Black => *byte |= bits,
            StampInk::White => *byte &= !bits,
        }
    }
}
