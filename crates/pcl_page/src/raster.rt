//! Rasters that have begun.

ghost use Rattle.std.specs.Prelude.{◌≡◌, ◌+◌, ◌*◌, ◌^◌, ◌<◌, ◌≤◌, ◌||◌, IsTrue, IfOk, ℕ, length};
ghost use Rattle.pcl_base.specs.Size.{page_width, page_height};
ghost use Rattle.pcl_base.specs.Dpi.{units_per_dot};
ghost use Rattle.pcl_rows.specs.Decoding.{decoded};
ghost use Rattle.pcl_bitmap.specs.Bitmap.{IsPicture, dot};
ghost use Rattle.pcl_page.specs.Raster.{bytes_of_width, raster_from, skipped, row_sent, with_row, row_mark, is_below_height, cleared_past, is_ignored_in_raster, ends_raster, counted_to};

use crate::observing::SeenRaster;
use pcl_base::{Dpi, Method, Operation};
use pcl_bitmap::Bitmap;
use pcl_env::Env;
use pcl_rows::decode;
use std::alloc::{AllocError, Global};
use std::marker::Model;
use std::mem;

/// A raster that has begun (PCL 5 manual, "Raster Graphics"). Its rows are painted as they come.
#[derive(Debug, Drop)]
pub struct Raster {
    /// The dot of the page where its rows begin.
    left: u32,
    /// The dot row of its first row.
    top: u32,
    /// How many dots of the page one of its dots is wide and high, 1 to 8.
    scale: u32,
    /// How many of its dots a row has.
    width: u32,
    /// How many rows are painted at most, where a height was set.
    height: Option<u32>,
    /// How many rows were sent or skipped.
    rows: u64,
    /// The row that delta rows start from.
    seed: Vec<u8>,
    /// The row that is being decoded.
    row: Vec<u8>,
}

impl Model for Raster {
    ghost use Rattle.std.specs.Prelude.{◌≡◌, ◌≤◌, vec_len};
    ghost use Rattle.pcl_page.specs.Raster.{Raster, bytes_of_width};

    ghost Value = { Raster };

    ghost view = { λ a. record {
      left = a.left;
      top = a.top;
      scale = a.scale;
      width = a.width;
      height = a.height;
      rows = a.rows;
      seed = a.seed.items;
    } };

    ghost invariant = { λ a. (1 ≤ a.scale) × (a.scale ≤ 8) × (vec_len a.seed ≡ bytes_of_width a.width)
        × (vec_len a.row ≡ bytes_of_width a.width) };
}

impl Raster {
    /// A raster that starts at a dot of the cursor's row, with a seed row of zeros.
    pub fn start(
        alloc: Global,
        left: u32,
        environment: &Env,
        dpi: Dpi,
    ) -> Result<Raster, AllocError>
        ensures { IfOk result (λ raster. raster ≡ raster_from dpi left environment.now) }
    {
        let scale = (dpi.dots() / environment.resolution()).max(1);
        let to_edge = environment.size().width(dpi).saturating_sub(left);
        let width = environment
            .raster_width()
            .unwrap_or(to_edge.div_ceil(scale));
        let len = width.div_ceil(8) as usize;
        Ok(Raster {
            left,
            top: environment.y() / dpi.unit(),
            scale,
            width,
            height: environment.raster_height(),
            rows: 0,
            seed: vec![in alloc; 0; len]?,
            row: vec![in alloc; 0; len]?,
        })
    }

    /// Skips rows, and clears the seed row.
    pub fn skip(&mut self, count: u32)
        requires { self.old.rows + count < 2 ^ 64 }
        ensures { self.new ≡ skipped count self.old }
    {
        self.rows = self.counted(self.rows + u64::from(count));
        self.seed.fill(0);
    }

    /// Decodes a row over the seed row, and paints it where it lies below the height. It is the seed row then.
    pub fn send(&mut self, method: Method, bytes: &[u8], bitmap: &mut Bitmap)
        requires few { self.old.rows + 1 < 2 ^ 60 }
        requires picture { IsPicture bitmap.old }
        ensures raster { self.new ≡ with_row (row_sent method bytes.now self.old) self.old }
        ensures size { bitmap.new.size ≡ bitmap.old.size }
        ensures dpi { bitmap.new.dpi ≡ bitmap.old.dpi }
        ensures dots { (x y : ℕ) → x < page_width bitmap.old.size bitmap.old.dpi → y < page_height bitmap.old.size bitmap.old.dpi
            → dot bitmap.new x y ≡ ((row_mark (row_sent method bytes.now self.old) self.old).covers x y || dot bitmap.old x y) }
        ensures picture { IsPicture bitmap.new }
    {
        decode_within(self.width, method, &self.seed, bytes, &mut self.row);
        if self.is_below_height() {
            let top = u64::from(self.top) + self.rows * u64::from(self.scale);
            bitmap.paint_row(self.left, top, self.scale, self.width, &self.row);
        }
        mem::swap(&mut self.seed, &mut self.row);
        self.rows = self.counted(self.rows + 1);
    }

    /// The place below the last row, at the raster's left end, in units of 1/7200 inch.
    pub fn below(&self, dpi: Dpi) -> (u64, u64)
        requires { self.now.rows < 2 ^ 50 }
        ensures { (result.0 ≡ self.now.left * units_per_dot dpi)
            × (result.1 ≡ (self.now.top + self.now.rows * self.now.scale) * units_per_dot dpi) }
    {
        let unit = u64::from(dpi.unit());
        let left = self.left;
        let row = u64::from(self.top) + self.rows * u64::from(self.scale);
        (u64::from(left) * unit, row * unit)
    }

    /// What an observer is told of it.
    pub fn seen(&self) -> SeenRaster<'_> {
        SeenRaster {
            left: self.left,
            top: self.top,
            scale: self.scale,
            height: self.height,
            rows: self.rows,
            seed: &self.seed,
        }
    }

    /// A count of rows, which stops at the height.
    fn counted(&self, rows: u64) -> u64
        ensures { result ≡ counted_to self.now.height rows }
    {
        match self.height {
            None => rows,
            Some(height) => rows.min(u64::from(height)),
        }
    }

    /// Whether the next row is painted.
    fn is_below_height(&self) -> bool
        ensures { result ≡ is_below_height self.now.height self.now.rows }
    {
        self.height
            .is_none_or(|height| self.rows < u64::from(height))
    }
}

/// Decodes row data over a seed row, and clears the bits of the row from bit `width` on.
fn decode_within(width: u32, method: Method, seed: &[u8], bytes: &[u8], row: &mut [u8])
    requires seed { length seed.now ≡ length row.old }
    requires len { length row.old ≡ bytes_of_width width }
    ensures { row.new ≡ cleared_past width (decoded method seed.now bytes.now) }
{
    decode(method, seed, bytes, row);
    clear_past(row, width);
}

/// Clears the bits of a row from bit `width` on.
fn clear_past(row: &mut [u8], width: u32)
    requires { length row.old ≡ bytes_of_width width }
    ensures { row.new ≡ cleared_past width row.old }
{
    let rest = width % 8;
    if rest > 0 {
        let last = row.len() - 1;
        let step = 1 << (8 - rest);
        row[last] -= row[last] % step;
    }
}

/// Whether a raster ignores the command, whatever its value.
pub fn is_ignored_in_raster(operation: Operation) -> bool
    ensures { result ≡ is_ignored_in_raster operation }
{
    matches!(
        operation,
        Operation::RasterResolution
            | Operation::RasterWidth
            | Operation::RasterHeight
            | Operation::RasterPresentation
            | Operation::StartRaster
    )
}

/// Whether the command ends the raster that has begun.
pub fn ends_raster(operation: Operation) -> bool
    ensures { result ≡ ends_raster operation }
{
    let goes_on = matches!(
        operation,
        Operation::RasterMethod
            | Operation::SeedRowSource
            | Operation::RasterOffset
            | Operation::RasterRow
    );
    !goes_on && !is_ignored_in_raster(operation)
}
