//! Raster rows past the page's right edge, where they are cut.

use crate::papers::shared_width;
use crate::places::offset_units;
use pcl_base::{Dpi, Method, ROW_LIMIT};
use pcl_env::Env;
use pcl_rows::decode;

/// The most bytes of a row as far as the sheet goes.
const SHEET_LIMIT: usize = ROW_LIMIT + 128;

/// How far the sheet goes past the page's right edge, where the page has no offset, in units of 1/7200 inch.
const QUARTER_INCH: i64 = 1_800;

/// The rows of a raster, as far as the sheet goes past the page's right edge.
#[derive(Drop)]
pub struct SheetRows {
    /// How many of their dots lie on the page, whole, and how many on every paper that the job may get.
    on_page: u32,
    on_shared: u32,
    /// How many bytes they have.
    len: usize,
    /// The row that delta rows start from.
    seed: [u8; SHEET_LIMIT],
}

impl SheetRows {
    /// The rows of a raster that starts at a dot, where they may go past the page's edge, or are looked at anyway.
    pub fn start(left: u32, is_wanted: bool, environment: &Env, dpi: Dpi) -> Option<SheetRows> {
        let scale = (dpi.dots() / environment.resolution().max(1)).max(1);
        let on_page = environment.size().width(dpi).saturating_sub(left) / scale;
        let on_sheet = on_page.saturating_add(dots_past_page(environment, dpi).div_ceil(scale));
        let on_shared = shared_width(environment, dpi).saturating_sub(left) / scale;
        let width = environment.raster_width().unwrap_or(on_sheet).min(on_sheet);
        if width <= on_page && !is_wanted {
            return None;
        }
        Some(SheetRows {
            on_page,
            on_shared,
            len: (width.div_ceil(8) as usize).min(SHEET_LIMIT),
            seed: [0; SHEET_LIMIT],
        })
    }

    /// Skips rows, and clears the seed row.
    pub fn skip(&mut self) {
        self.seed.fill(0);
    }

    /// Whether the row that came last has dots.
    pub fn has_dots(&self) -> bool {
        has_dots_from(&self.seed, 0)
    }

    /// Whether the row that came last has dots past the right edge of a paper that the job may get.
    pub fn is_past_shared(&self) -> bool {
        has_dots_from(&self.seed, self.on_shared)
    }

    /// Whether the next row has dots past the page's edge. It is the seed row then.
    pub fn is_cut(&mut self, method: Method, bytes: &[u8]) -> bool {
        let len = self.len.min(SHEET_LIMIT);
        let mut row = [0; SHEET_LIMIT];
        decode(method, &self.seed[..len], bytes, &mut row[..len]);
        self.seed = row;
        has_dots_from(&self.seed, self.on_page)
    }
}

/// How many dots the sheet has past the page's right edge.
fn dots_past_page(environment: &Env, dpi: Dpi) -> u32 {
    let units = QUARTER_INCH.saturating_sub(offset_units(environment.asked().left_offset));
    u32::try_from(units).unwrap_or(0).div_ceil(dpi.unit())
}

/// Whether a row has dots from one on.
fn has_dots_from(row: &[u8], dot: u32) -> bool {
    let place = (dot / 8) as usize;
    let (_, rest) = row.split_at(place.min(row.len()));
    match rest.split_first() {
        Some((first, rest)) => {
            first & (0xff >> (dot % 8)) != 0 || rest.iter().any(|byte| *byte != 0)
        }
        None => false,
    }
}
