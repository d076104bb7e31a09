//! The bitmap of a page.

ghost use Rattle.std.specs.Prelude.{◌≡◌, ℕ, ◌+◌, ◌*◌, ◌/◌, ◌<◌, ◌≤◌, ◌↔◌, ◌||◌, false, length, All, IsTrue, IfOk, if◌then◌else◌};
ghost use Rattle.pcl_base.specs.Size.{page_width, page_height, page_row_bytes};
ghost use Rattle.pcl_bitmap.specs.Bitmap.{IsPicture, row_of, dot_of_row, dot, blank_picture};
ghost use Rattle.pcl_bitmap.specs.Dots.{is_black_ink, raster_dot, rectangle_dot, pattern_dot};

use crate::area::Area;
use crate::filled::Filled;
use crate::patterns::{self, Clip};
use crate::{Ink, bits, fills, kernels, squares};
use pcl_base::{Dpi, Size};
use std::alloc::{AllocError, Global};
use std::marker::Model;

/// The dots of a page: rows of whole bytes, the left dot of each eight in the highest bit, 1 black.
/// Bits past the width of the page are always clear.
#[derive(Clone, Debug, Drop)]
pub struct Bitmap {
    size: Size,
    dpi: Dpi,
    bytes: Vec<u8>,
    // What was filled last, as far as its dots are known to have the ink still.
    filled: Filled,
}

impl Model for Bitmap {
    ghost use Rattle.pcl_bitmap.specs.Bitmap.{Picture};
    ghost use Rattle.pcl_bitmap.specs.Filled.{IsBitmap};

    ghost Value = { Picture };

    ghost view = { λ a. record { size = a.size; dpi = a.dpi; bytes = a.bytes.items } };

    ghost invariant = { λ a. IsBitmap record { size = a.size; dpi = a.dpi; bytes = a.bytes.items } a.filled };
}

impl Bitmap {
    /// A white page. It fails where memory runs out.
    pub fn new(alloc: Global, size: Size, dpi: Dpi) -> Result<Bitmap, AllocError>
        ensures blank { IfOk result (λ page. page ≡ blank_picture size dpi) }
        ensures dots { IfOk result (λ page. (x y : ℕ) → dot page x y ≡ false) }
        ensures picture { IfOk result (λ page. IsPicture page) }
    {
        let count = size.height(dpi) as usize * size.row_bytes(dpi);
        Ok(Bitmap {
            size,
            dpi,
            bytes: vec![in alloc; 0; count]?,
            filled: Filled::nothing(),
        })
    }

    /// The size of the page.
    pub fn size(&self) -> Size
        ensures value { result ≡ self.now.size }
        ensures picture { IsPicture self.now }
    {
        self.size
    }

    /// The resolution of the page.
    pub fn dpi(&self) -> Dpi
        ensures value { result ≡ self.now.dpi }
        ensures picture { IsPicture self.now }
    {
        self.dpi
    }

    /// The bytes of row `y`, the topmost row 0.
    pub fn row(&self, y: u32) -> &[u8]
        requires { y < page_height self.now.size self.now.dpi }
        ensures bytes { result.now ≡ row_of self.now y }
        ensures len { length result.now ≡ page_row_bytes self.now.size self.now.dpi }
        ensures in_bytes { All (λ byte. byte < 256) result.now }
        ensures clear_pads { (x : ℕ) → page_width self.now.size self.now.dpi ≤ x → dot_of_row result.now x ≡ false }
    {
        let len = self.size.row_bytes(self.dpi);
        let start = y as usize * len;
        &self.bytes[start..start + len]
    }

    /// The bytes of all rows, one row after the other.
    pub fn bytes(&self) -> &[u8]
        ensures bytes { result.now ≡ self.now.bytes }
        ensures picture { IsPicture self.now }
    {
        &self.bytes
    }

    /// Whether row `y` has no black dot, the topmost row 0.
    pub fn is_blank(&self, y: u32) -> bool
        requires { y < page_height self.now.size self.now.dpi }
        ensures bytes { IsTrue result ↔ All (λ byte. byte ≡ 0) (row_of self.now y) }
        ensures dots { IsTrue result ↔ ((x : ℕ) → x < page_width self.now.size self.now.dpi → dot self.now x y ≡ false) }
    {
        kernels::is_zero(self.row(y))
    }

    /// Makes the page white. It takes no memory.
    pub fn clear(&mut self)
        ensures blank { self.new ≡ blank_picture self.old.size self.old.dpi }
        ensures dots { (x y : ℕ) → dot self.new x y ≡ false }
        ensures picture { IsPicture self.new }
    {
        self.filled = Filled::nothing();
        self.bytes.fill(0);
    }

    /// Paints a row of raster data from the dot `x` of row `y` on to the right. The first `width`
    /// bits of `row`, high bits first, are raster dots, each a square of `scale` dots, and each set
    /// bit inks its square (docs/LANGUAGE.md, "Raster graphics"). What lies past the right or the
    /// lower edge of the page is left out, and a clear bit changes nothing.
    pub fn paint_row(&mut self, x: u32, y: u64, scale: u32, width: u32, row: &[u8])
        requires scale { (1 ≤ scale) × (scale ≤ 8) }
        requires bits { width ≤ 8 * length row.now }
        ensures size { self.new.size ≡ self.old.size }
        ensures dpi { self.new.dpi ≡ self.old.dpi }
        ensures dots { (px py : ℕ) → px < page_width self.old.size self.old.dpi → py < page_height self.old.size self.old.dpi
            → dot self.new px py ≡ (raster_dot x y scale width row.now px py || dot self.old px py) }
        ensures picture { IsPicture self.new }
    {
        let page_width = self.size.width(self.dpi);
        let page_height = u64::from(self.size.height(self.dpi));
        if x >= page_width || y >= page_height {
            return;
        }
        let columns = u64::from(width) * u64::from(scale);
        let area = Area {
            x: x as usize,
            y: y as usize,
            width: columns.min(u64::from(page_width - x)) as usize,
            height: u64::from(scale).min(page_height - y) as usize,
        };
        let row_bytes = self.size.row_bytes(self.dpi);
        self.filled = self.filled.under_black();
        squares::paint_squares(&mut self.bytes, row_bytes, area, scale as usize, row);
    }

    /// Inks a rectangle of `w` by `h` dots whose upper left corner is the dot `(x, y)`. What lies
    /// past the right or the lower edge of the page is left out (docs/LANGUAGE.md, "Rectangles").
    pub fn fill(&mut self, x: u32, y: u32, w: u64, h: u64, ink: Ink)
        ensures size { self.new.size ≡ self.old.size }
        ensures dpi { self.new.dpi ≡ self.old.dpi }
        ensures dots { (px py : ℕ) → px < page_width self.old.size self.old.dpi → py < page_height self.old.size self.old.dpi
            → dot self.new px py ≡ (if rectangle_dot x y w h px py then is_black_ink ink else dot self.old px py) }
        ensures picture { IsPicture self.new }
    {
        let page_width = self.size.width(self.dpi);
        let page_height = self.size.height(self.dpi);
        if x >= page_width || y >= page_height {
            return;
        }
        let area = Area {
            x: x as usize,
            y: y as usize,
            width: w.min(u64::from(page_width - x)) as usize,
            height: h.min(u64::from(page_height - y)) as usize,
        };
        if self.filled.has(area, ink) {
            return;
        }
        let row_bytes = self.size.row_bytes(self.dpi);
        self.filled = Filled { area, ink };
        fills::fill_rows(&mut self.bytes, row_bytes, area, ink);
    }

    /// Paints the pattern of a character, whose first bit is at the dot `(x, y)`. It has `height` rows of
    /// `width` bits in whole bytes, high bits first, each bit a square of `scale` dots; the first may lie
    /// left of or above the page (PCL 5 manual, "Soft Font Creation"). Each set bit inks its square; what
    /// lies off the page is left out, and a clear bit changes nothing.
    pub fn blit(&mut self, x: i32, y: i32, width: u16, height: u16, rows: &[u8], scale: u32)
        requires scale { (1 ≤ scale) × (scale ≤ 2) }
        requires rows { height * ((width + 7) / 8) ≤ length rows.now }
        ensures size { self.new.size ≡ self.old.size }
        ensures dpi { self.new.dpi ≡ self.old.dpi }
        ensures dots { (px py : ℕ) → px < page_width self.old.size self.old.dpi → py < page_height self.old.size self.old.dpi
            → dot self.new px py ≡ (pattern_dot x y scale width height rows.now px py || dot self.old px py) }
        ensures picture { IsPicture self.new }
    {
        let page_width = self.size.width(self.dpi) as usize;
        let page_height = self.size.height(self.dpi) as usize;
        let (left, skip_x) = patterns::start_and_skip(x);
        let (top, skip_y) = patterns::start_and_skip(y);
        if left >= page_width || top >= page_height {
            return;
        }
        let scale = scale as usize;
        let columns = usize::from(width) * scale;
        let lines = usize::from(height) * scale;
        let area = Area {
            x: left,
            y: top,
            width: columns.saturating_sub(skip_x).min(page_width - left),
            height: lines.saturating_sub(skip_y).min(page_height - top),
        };
        let clip = Clip {
            row_bytes: usize::from(width).div_ceil(8),
            scale,
            x: skip_x,
            y: skip_y,
        };
        let row_bytes = self.size.row_bytes(self.dpi);
        self.filled = self.filled.under_black();
        patterns::or_pattern(&mut self.bytes, row_bytes, area, clip, rows);
    }
}
