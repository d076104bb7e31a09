//! Dots of rows.

use pcl_bitmap::{Bitmap, Ink, first_difference};

/// Row `y` of a page: nothing past the lowest one.
pub fn row_at(bitmap: &Bitmap, y: u32) -> &[u8] {
    if y < bitmap.size().height(bitmap.dpi()) {
        bitmap.row(y)
    } else {
        &[]
    }
}

/// Whether two rows are the same.
pub fn are_equal(row: &[u8], other: &[u8]) -> bool {
    row.len() == other.len() && first_difference(row, other) == row.len()
}

/// Whether row `y` of a page is the row above once more.
pub fn is_again(bitmap: &Bitmap, y: u32) -> bool {
    y > 0 && are_equal(row_at(bitmap, y), row_at(bitmap, y.saturating_sub(1)))
}

/// Inks this many dots of a row, from `left` on.
pub fn ink_dots(row: &mut [u8], left: u32, width: u32, ink: Ink) {
    let end = left.saturating_add(width);
    for place in left / 8..end.div_ceil(8) {
        if let Some(byte) = row.get_mut(place as usize) {
            let dots = dots_of_byte(place, left, end);
            match ink {
                Ink::Black => *byte |= dots,
                Ink::White => *byte &= !dots,
            }
        }
    }
}

/// How many dots of a row are black, from the dot `start` up to the one before `end`. Dots past the row are white.
pub fn black_dots(row: &[u8], start: u32, end: u32) -> u32 {
    let mut count: u32 = 0;
    for place in start / 8..end.div_ceil(8) {
        if let Some(byte) = row.get(place as usize) {
            let dots = *byte & dots_of_byte(place, start, end);
            count = count.saturating_add(dots.count_ones());
        }
    }
    count
}

/// The bits of the byte in a place of a row whose dots are those from `left` up to the one before `right`.
fn dots_of_byte(place: u32, left: u32, right: u32) -> u8 {
    let mut bits: u8 = 0xFF;
    if place == left / 8 {
        bits &= 0xFF >> (left % 8);
    }
    if place == right / 8 {
        bits &= !(0xFF >> (right % 8));
    }
    bits
}
