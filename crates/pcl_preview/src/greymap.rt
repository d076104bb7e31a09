//! Images in Netpbm's raw greymap form, P5: a pixel for each square of dots.

ghost use Rattle.std.specs.Prelude.{◌≡◌, ◌+◌, ◌-◌, ◌*◌, ◌/◌, ◌%◌, ◌^◌, ◌<◌, ◌≤◌, ◌++◌, slice_index, IfOk, OnOk};
ghost use Rattle.pcl_base.specs.Size.{page_width, page_height};
ghost use Rattle.pcl_bitmap.specs.Bitmap.{row_of};
ghost use Rattle.pcl_preview.specs.Greymap.{black_in, black_in_row, grey, greymap_header, greymap_of, pixel, pixels_of, pixels_of_row, squares_for};
ghost use Rattle.pcl_preview.specs.inner.Counting.{black_in_byte};

use crate::form::Scale;
use itoa::Buffer;
use pcl_base::{Dpi, Size};
use pcl_bitmap::Bitmap;
use std::alloc::{AllocError, Global};

/// A page as a greymap, the header and then all pixels.
pub fn make_greymap(alloc: Global, bitmap: &Bitmap, scale: Scale) -> Result<Vec<u8>, AllocError>
    ensures { IfOk result (λ image. image.items ≡ greymap_of scale bitmap.now) }
{
    let side = scale.side();
    let mut image = header(alloc, side, bitmap.size(), bitmap.dpi())?;
    append_pixels(bitmap, side, &mut image)?;
    Ok(image)
}

/// The header: the form, the width and the height in pixels, and the number of white.
fn header(alloc: Global, side: u32, size: Size, dpi: Dpi) -> Result<Vec<u8>, AllocError>
    requires { (1 ≤ side) × (side ≤ 32) }
    ensures { IfOk result (λ header. header.items ≡ greymap_header side size dpi) }
{
    let mut digits = Buffer::new();
    let mut header = Vec::from_slice(alloc, b"P5\n")?;
    header.extend_from_slice(digits.format(squares(size.width(dpi), side)).as_bytes())?;
    header.extend_from_slice(b" ")?;
    header.extend_from_slice(digits.format(squares(size.height(dpi), side)).as_bytes())?;
    header.extend_from_slice(b"\n255\n")?;
    Ok(header)
}

/// How many squares this many dots need, the last of which may be cut.
fn squares(dots: u32, side: u32) -> u32
    requires side { (1 ≤ side) × (side ≤ 32) }
    requires dots { dots ≤ 8400 }
    ensures { result ≡ squares_for dots side }
{
    (dots + side - 1) / side
}

/// Appends all pixels.
fn append_pixels(bitmap: &Bitmap, side: u32, image: &mut Vec<u8>) -> Result<(), AllocError>
    requires { (1 ≤ side) × (side ≤ 32) }
    ensures { OnOk result (image.new.items ≡ image.old.items
        ++ pixels_of bitmap.now side (squares_for (page_width bitmap.now.size bitmap.now.dpi) side)
        (squares_for (page_height bitmap.now.size bitmap.now.dpi) side)) }
{
    let height = squares(bitmap.size().height(bitmap.dpi()), side);
    for row in 0..height {
        append_row(bitmap, side, row, image)?;
    }
    Ok(())
}

/// Appends the pixels of a row.
fn append_row(bitmap: &Bitmap, side: u32, row: u32, image: &mut Vec<u8>) -> Result<(), AllocError>
    requires side { (1 ≤ side) × (side ≤ 32) }
    requires row { row ≤ 8400 }
    ensures { OnOk result (image.new.items ≡ image.old.items
        ++ pixels_of_row bitmap.now side row (squares_for (page_width bitmap.now.size bitmap.now.dpi) side)) }
{
    let width = squares(bitmap.size().width(bitmap.dpi()), side);
    for column in 0..width {
        image.push(mean(bitmap, side, column, row))?;
    }
    Ok(())
}

/// The mean of the square of a column and a row.
fn mean(bitmap: &Bitmap, side: u32, column: u32, row: u32) -> u8
    requires side { (1 ≤ side) × (side ≤ 32) }
    requires place { (column ≤ 8400) × (row ≤ 8400) }
    ensures { result ≡ pixel bitmap.now side column row }
{
    grey(
        side * side,
        black_in_square(bitmap, column * side, row * side, side),
    )
}

/// The mean of this many dots of which some are black: black is 0 and white 255.
fn grey(dots: u32, black: u32) -> u8
    requires dots { (1 ≤ dots) × (dots ≤ 1024) }
    requires black { black ≤ dots }
    ensures { result ≡ grey dots black }
{
    ((255 * (dots - black) + dots / 2) / dots) as u8
}

/// How many dots of a square are black whose upper left corner is a dot of this place.
fn black_in_square(bitmap: &Bitmap, x: u32, y: u32, side: u32) -> u32
    requires side { (1 ≤ side) × (side ≤ 32) }
    requires place { (x ≤ 300000) × (y ≤ 300000) }
    ensures count { result ≡ black_in bitmap.now x y side side }
    ensures bound { result ≤ side * side }
{
    let mut black = 0;
    for row in 0..side {
        black += black_of_row(bitmap, y + row, x as usize, side as usize);
    }
    black
}

/// How many of the dots of row `y` are black, from dot `x` on; below the page there is none.
fn black_of_row(bitmap: &Bitmap, y: u32, x: usize, width: usize) -> u32
    requires { (x ≤ 300000) × (width ≤ 32) }
    ensures count { result ≡ black_in_row (row_of bitmap.now y) x width }
    ensures bound { result ≤ width }
{
    if y < bitmap.size().height(bitmap.dpi()) {
        black_dots(bitmap.row(y), x, width)
    } else {
        0
    }
}

/// How many of the dots of a row are black, from dot `x` on.
fn black_dots(row: &[u8], x: usize, width: usize) -> u32
    requires { (x ≤ 300000) × (width ≤ 32) }
    ensures count { result ≡ black_in_row row.now x width }
    ensures bound { result ≤ width }
{
    let end = x + width;
    let mut black = 0;
    let mut from = x;
    while from < end {
        let to = end.min((from / 8 + 1) * 8);
        black += black_bits(byte_at(row, from / 8), from % 8, to - from);
        from = to;
    }
    black
}

/// The byte at a place, 0 past the end.
fn byte_at(row: &[u8], place: usize) -> u8
    ensures { result ≡ slice_index row.now place }
{
    row.get(place).copied().unwrap_or(0)
}

/// How many of the bits of a byte are set, after this many from the left.
fn black_bits(byte: u8, skip: usize, count: usize) -> u32
    requires { skip + count ≤ 8 }
    ensures count { result ≡ black_in_byte byte skip count }
    ensures bound { result ≤ count }
{
    let kept = u32::from(byte) % (1 << (8 - skip));
    (kept >> (8 - skip - count)).count_ones()
}
