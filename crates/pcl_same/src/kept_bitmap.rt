//! The dots of a page, kept as row data.

ghost use Rattle.std.specs.Prelude.{◌≡◌, ◌+◌, ℕ, ◌<◌, length, IfOk};
ghost use Rattle.pcl_base.specs.Size.{page_height};
ghost use Rattle.pcl_bitmap.specs.Bitmap.{Picture, IsPicture};
ghost use Rattle.pcl_same.specs.inner.Rows.{IsKeptPiece};

use crate::bits::first_dot_of_row;
use crate::row_data::append_row;
use pcl_base::{Dpi, Method, ROW_LIMIT, Size};
use pcl_bitmap::Bitmap;
use pcl_rows::decode;
use std::alloc::{AllocError, Global};

/// The dots of a page as row data, by method 3 over the row above, which is nothing for a row like the one above.
#[derive(Drop)]
pub struct KeptBitmap {
    /// The size of the page.
    pub size: Size,
    /// The resolution of the page.
    pub dpi: Dpi,
    /// The data of all rows, one after the other.
    pub data: Vec<u8>,
    /// Where the data of each row begins, and where that of the last one ends. Most rows have no data, so that these take more memory.
    pub starts: Vec<u32>,
    ghost count: { length starts.items ≡ page_height size dpi + 1 },
    ghost pieces: { (y : ℕ) → y < page_height size dpi → IsKeptPiece data.items starts.items y },
}

impl KeptBitmap {
    ghost use Rattle.pcl_same.specs.Kept.{data_of, KeepsPicture};
    ghost use Rattle.pcl_same.specs.inner.Rows.{IsFirstDotOf};

    /// Keeps the dots of a bitmap. It fails where memory runs out, or a place has more than 32 bits.
    pub fn new(alloc: Global, bitmap: &Bitmap) -> Result<KeptBitmap, AllocError>
        ensures { IfOk result (KeepsPicture bitmap.now) }
    {
        let size = bitmap.size();
        let dpi = bitmap.dpi();
        let mut data = Vec::new(alloc);
        let mut starts = Vec::new(alloc);
        starts.push(0)?;
        let mut above = [0; ROW_LIMIT];
        for y in 0..size.height(dpi) {
            let row = bitmap.row(y);
            append_row(row, &above[..row.len()], &mut data)?;
            let Ok(end) = u32::try_from(data.len()) else {
                return Err(AllocError);
            };
            starts.push(end)?;
            above[..row.len()].copy_from_slice(row);
        }
        Ok(KeptBitmap {
            size,
            dpi,
            data,
            starts,
        })
    }

    /// How many bytes it takes.
    pub fn bytes(&self) -> usize {
        let starts = self.starts.len().saturating_mul(size_of::<u32>());
        self.data.len().saturating_add(starts)
    }

    /// The data of row `y`, the topmost row 0.
    fn row_data(&self, y: u32) -> &[u8]
        requires { y < page_height self.now.size self.now.dpi }
        ensures { result.now ≡ data_of self.now y }
    {
        let y = y as usize;
        &self.data[self.starts[y] as usize..self.starts[y + 1] as usize]
    }

    /// The place `(x, y)` of the first dot, in row order, at which another bitmap of the same size and resolution
    /// differs.
    pub fn first_dot(&self, other: &Bitmap) -> Option<(u32, u32)>
        requires size { self.now.size ≡ other.now.size }
        requires dpi { self.now.dpi ≡ other.now.dpi }
        ensures { (kept : Picture) → IsPicture kept → KeepsPicture kept self.now → IsFirstDotOf kept other.now result }
    {
        let mut above = [0; ROW_LIMIT];
        let mut buffer = [0; ROW_LIMIT];
        for y in 0..other.size().height(other.dpi()) {
            let row = other.row(y);
            let kept = &mut buffer[..row.len()];
            decode(Method::Delta, &above[..row.len()], self.row_data(y), kept);
            if let Some(x) = first_dot_of_row(kept, row) {
                return Some((x, y));
            }
            above[..row.len()].copy_from_slice(row);
        }
        None
    }
}
