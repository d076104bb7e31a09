//! Letters, dots and rectangles as rasters.

use itoa::Buffer;
use std::alloc::AllocError;

/// A black rectangle, in dots: the place of its left upper dot, its width and its height.
#[derive(Clone, Copy)]
pub struct Rectangle {
    pub x: u32,
    pub y: u32,
    pub width: u32,
    pub height: u32,
}

/// Appends a rectangle as a raster, each row by itself.
pub fn append_rectangle(rectangle: Rectangle, job: &mut Vec<u8>) -> Result<(), AllocError> {
    append_start(rectangle.x, rectangle.y, job)?;
    for _ in 0..rectangle.height {
        append_black_row(rectangle.width, job)?;
    }
    job.extend_from_slice(b"\x1b*rB")
}

/// Appends a row of this many black dots.
fn append_black_row(width: u32, job: &mut Vec<u8>) -> Result<(), AllocError> {
    let bytes = width.div_ceil(8);
    job.extend_from_slice(b"\x1b*b")?;
    job.extend_from_slice(Buffer::new().format(bytes).as_bytes())?;
    job.extend_from_slice(b"W")?;
    for place in 0..bytes {
        let left = width.saturating_sub(place.saturating_mul(8));
        let [_, _, high, _] = (0xFF_0000u32 >> left.min(8)).to_be_bytes();
        job.push(high)?;
    }
    Ok(())
}

/// Appends a letter of this many rows, whose raster starts at `(x, y)`: a stroke of four dots in each row, which goes to the right
/// after a bit of its number that is 1, the lowest first, and to the left after one that is 0.
pub fn append_letter(
    number: u32,
    rows: u32,
    x: u32,
    y: u32,
    job: &mut Vec<u8>,
) -> Result<(), AllocError> {
    append_start(x, y, job)?;
    let mut bits = number;
    let mut place: u32 = 8;
    for _ in 0..rows {
        let [_, left, middle, right] = (0xF0_0000u32 >> place.min(20)).to_be_bytes();
        job.extend_from_slice(&[b'\x1b', b'*', b'b', b'3', b'W', left, middle, right])?;
        place = if bits % 2 == 1 {
            place.saturating_add(1)
        } else {
            place.saturating_sub(1)
        };
        bits /= 2;
    }
    job.extend_from_slice(b"\x1b*rB")
}

/// Appends a dot of four by three dots above a letter.
pub fn append_dot(x: u32, y: u32, job: &mut Vec<u8>) -> Result<(), AllocError> {
    append_start(x, y, job)?;
    job.extend_from_slice(b"\x1b*b2W\x00\xf0\x1b*b2W\x00\xf0\x1b*b2W\x00\xf0\x1b*rB")
}

/// Appends the start of a raster at `(x, y)`.
fn append_start(x: u32, y: u32, job: &mut Vec<u8>) -> Result<(), AllocError> {
    job.extend_from_slice(b"\x1b*p")?;
    job.extend_from_slice(Buffer::new().format(x).as_bytes())?;
    job.extend_from_slice(b"x")?;
    job.extend_from_slice(Buffer::new().format(y).as_bytes())?;
    job.extend_from_slice(b"Y\x1b*r1A")
}
