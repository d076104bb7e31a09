//! Pages whose dots come in squares.

ghost use Rattle.std.specs.Prelude.{◌≡◌, length};
ghost use Rattle.pcl_bitmap.specs.Bitmap.{IsPicture};

use glyph_shapes::{append_edges, are_equal};
use pcl_base::{Dpi, ROW_LIMIT};
use pcl_bitmap::Bitmap;
use pcl_page::Page;
use std::alloc::{AllocError, Global};

/// The number that all sides divide of squares of one ink each, from the upper left corner on, of which a page consists: 0 where it is
/// of one ink. Squares are cut by the right and the lower edge.
pub fn common_side(alloc: Global, bitmap: &Bitmap) -> Result<u32, AllocError> {
    let width = bitmap.size().width(bitmap.dpi());
    let mut edges = Vec::new(alloc);
    let mut above: &[u8] = &[];
    let mut side = 0;
    for y in 0..bitmap.size().height(bitmap.dpi()) {
        let row = bitmap.row(y);
        if !are_equal(row, above) {
            edges.clear();
            append_edges(row, &mut edges)?;
            side = common_side_of_row(greatest_divisor(side, y), &edges, width);
        }
        if side == 1 {
            break;
        }
        above = row;
    }
    Ok(side)
}

/// The number that all sides divide of squares where so long ones are possible, with a row of these edges more.
fn common_side_of_row(side: u32, edges: &[u16], width: u32) -> u32 {
    let mut side = side;
    for edge in edges {
        let edge = u32::from(*edge);
        if edge < width {
            side = greatest_divisor(edge, side);
        }
    }
    side
}

/// The greatest common divisor of two numbers, where 0 is divided by each.
fn greatest_divisor(one: u32, other: u32) -> u32 {
    let mut one = one;
    let mut other = other;
    for _ in 0..64u32 {
        if other == 0 {
            return one;
        }
        let rest = one % other;
        one = other;
        other = rest;
    }
    1
}

/// A page at 300 dots per inch with a dot for each square of this many dots of this one, in its upper left corner. Squares are cut by the
/// right and the lower edge, and are two dots wide at least, so they have room there.
pub fn coarse_page(alloc: Global, page: &Page, side: u32) -> Result<Page, AllocError> {
    let dpi = Dpi::Dpi300;
    let mut bitmap = Bitmap::new(alloc, page.size, dpi)?;
    paint_squares(&page.bitmap, side, &mut bitmap);
    Ok(Page {
        size: page.size,
        copies: page.copies,
        dpi,
        bitmap,
    })
}

/// Paints a dot for each square, which has the ink of its upper left dot.
fn paint_squares(fine: &Bitmap, side: u32, coarse: &mut Bitmap)
    requires { IsPicture coarse.old }
    ensures size { coarse.new.size ≡ coarse.old.size }
    ensures dpi { coarse.new.dpi ≡ coarse.old.dpi }
    ensures picture { IsPicture coarse.new }
{
    let side = side.max(1);
    let width = fine.size().width(fine.dpi());
    let mut dots = [0; ROW_LIMIT];
    for y in 0..fine.size().height(fine.dpi()) {
        if y % side == 0 && !fine.is_blank(y) {
            coarsen(fine.row(y), side, &mut dots);
            coarse.paint_row(0, u64::from(y / side), 1, width, &dots);
        }
    }
}

/// Writes a bit for each group of this many dots of a row, as far as it goes.
fn coarsen(row: &[u8], side: u32, dots: &mut [u8])
    ensures { length dots.new ≡ length dots.old }
{
    for (byte, fine) in dots.iter_mut().zip(row.chunks(side.max(1) as usize)) {
        *byte = coarse_byte(fine, side);
    }
}

/// The bits for eight times this many dots, which stand in this many bytes.
fn coarse_byte(fine: &[u8], side: u32) -> u8 {
    if fine.iter().all(|byte| *byte == 0) {
        return 0;
    }
    let mut bits: u8 = 0;
    for number in 0..8u32 {
        bits = (bits << 1) | u8::from(is_black(fine, side.saturating_mul(number)));
    }
    bits
}

/// Whether a dot of a row is black. Dots past the row are white.
fn is_black(row: &[u8], x: u32) -> bool {
    match row.get(x as usize / 8) {
        Some(byte) => byte & (0x80 >> (x % 8)) != 0,
        None => false,
    }
}
