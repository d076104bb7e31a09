//! Where on a page its ink begins.

use glyph_shapes::row_at;
use pcl_bitmap::{Bitmap, Ink, bits_of, trimmed_len};
use std::alloc::{AllocError, Global};

/// A raster starts further right than the page where that leaves out this many bytes of each row: fewer are in the first byte of data of
/// method 3 anyway.
const LEAST_LEFT: usize = 16;

/// A place on a page where a raster starts: this many bytes of dots from the left, and this many rows from the top.
#[derive(Clone, Copy)]
pub struct Corner {
    pub left: usize,
    pub top: u32,
}

impl Corner {
    /// The upper left corner of the page.
    const OF_PAGE: Corner = Corner { left: 0, top: 0 };

    /// Whether it is the upper left corner of the page.
    pub fn is_of_page(self) -> bool {
        self.left == 0
    }
}

/// The upper left corner of all ink of a page: that of the page where the ink begins near its left edge, or where there is none.
pub fn corner_of(bitmap: &Bitmap) -> Corner {
    let mut left = bitmap.size().row_bytes(bitmap.dpi());
    let mut top = None;
    for y in 0..bitmap.size().height(bitmap.dpi()) {
        if !bitmap.is_blank(y) {
            left = white_bytes(bitmap.row(y), left);
            top = top.or(Some(y));
        }
    }
    match top {
        Some(top) if left >= LEAST_LEFT => Corner { left, top },
        _ => Corner::OF_PAGE,
    }
}

/// How many bytes a row has before its first ink, up to as many as this.
fn white_bytes(row: &[u8], most: usize) -> usize {
    let front = row.get(..most).unwrap_or(row);
    front.iter().position(|byte| *byte != 0).unwrap_or(most)
}

/// Moves the dots of a page so that this corner becomes its upper left one. Left of it and above it the page is white.
pub fn move_to_corner(
    alloc: Global,
    corner: Corner,
    bitmap: &mut Bitmap,
) -> Result<(), AllocError> {
    let mut row = Vec::new(alloc);
    let height = bitmap.size().height(bitmap.dpi());
    for y in corner.top..height {
        row.clear();
        row.extend_from_slice(row_from(bitmap, y, corner.left))?;
        set_row(&row, y.saturating_sub(corner.top), bitmap);
    }
    for y in height.saturating_sub(corner.top)..height {
        set_row(&[], y, bitmap);
    }
    Ok(())
}

/// Row `y` of a page from this byte on.
fn row_from(bitmap: &Bitmap, y: u32, left: usize) -> &[u8] {
    row_at(bitmap, y).get(left..).unwrap_or(&[])
}

/// Has row `y` of a page have these dots, and white ones right of them.
fn set_row(row: &[u8], y: u32, bitmap: &mut Bitmap) {
    let page_width = bitmap.size().width(bitmap.dpi());
    if trimmed_len(row_at(bitmap, y)) != 0 {
        bitmap.fill(0, y, u64::from(page_width), 1, Ink::White);
    }
    if trimmed_len(row) != 0 {
        bitmap.paint_row(0, u64::from(y), 1, page_width.min(bits_of(row)), row);
    }
}
