//! Pages, and their stretches of rows that are the same.
//!
//! Most rows of most pages are white, and many others are the row above once more. That is found out once for a page, and what goes over
//! its rows passes over those.

use crate::dots::{is_again, row_at};
use glyph_patterns::number_of_place;
use pcl_base::Dpi;
use pcl_bitmap::{Bitmap, trimmed_len};
use std::alloc::{AllocError, Global};

/// Rows that are the same, from row `top` up to the one above row `bottom`.
#[derive(Clone, Copy)]
pub struct RowStretch {
    pub top: u32,
    pub bottom: u32,
    is_white: bool,
}

/// A page, and its stretches of rows that are the same.
#[derive(Drop)]
pub struct InkedPage<'a> {
    bitmap: &'a Bitmap,
    /// From the topmost rows down.
    pub stretches: Vec<RowStretch>,
    /// For each row, the place of its stretch.
    places: Vec<u32>,
}

impl<'a> InkedPage<'a> {
    /// The page with these dots.
    pub fn new(alloc: Global, bitmap: &'a Bitmap) -> Result<InkedPage<'a>, AllocError> {
        let mut page = InkedPage {
            bitmap,
            stretches: Vec::new(alloc),
            places: Vec::new(alloc),
        };
        for y in 0..page.height() {
            page.add_row(y)?;
        }
        Ok(page)
    }

    /// Adds row `y`, the next one, to the stretch above it or to one of its own.
    fn add_row(&mut self, y: u32) -> Result<(), AllocError> {
        let is_white = trimmed_len(row_at(self.bitmap, y)) == 0;
        let bottom = y.saturating_add(1);
        if self.goes_on(y, is_white) {
            if let Some(stretch) = self.stretches.last_mut() {
                stretch.bottom = bottom;
            }
        } else {
            self.stretches.push(RowStretch {
                top: y,
                bottom,
                is_white,
            })?;
        }
        let place = self.stretches.len().saturating_sub(1);
        self.places.push(number_of_place(place))?;
        Ok(())
    }

    /// Whether row `y`, the next one, is like the stretch above it.
    fn goes_on(&self, y: u32, is_white: bool) -> bool {
        match self.stretches.last() {
            Some(above) if above.is_white == is_white => is_white || is_again(self.bitmap, y),
            _ => false,
        }
    }

    /// How many rows it has.
    pub fn height(&self) -> u32 {
        self.bitmap.size().height(self.bitmap.dpi())
    }

    /// How many dots wide it is.
    pub fn width(&self) -> u32 {
        self.bitmap.size().width(self.bitmap.dpi())
    }

    /// Its resolution.
    pub fn dpi(&self) -> Dpi {
        self.bitmap.dpi()
    }

    /// The stretch of row `y`: none past the lowest row.
    fn stretch_of(&self, y: u32) -> Option<RowStretch> {
        let place = *self.places.get(y as usize)?;
        self.stretches.get(place as usize).copied()
    }

    /// Row `y`: empty where it is white, and past the lowest one.
    pub fn row(&self, y: u32) -> &[u8] {
        match self.stretch_of(y) {
            Some(stretch) if !stretch.is_white => row_at(self.bitmap, y),
            _ => &[],
        }
    }

    /// The row above row `y`: empty where it is white, and above the topmost one.
    pub fn row_above(&self, y: u32) -> &[u8] {
        match y.checked_sub(1) {
            Some(above) => self.row(above),
            None => &[],
        }
    }

    /// Whether row `y` is the row above once more.
    pub fn is_again(&self, y: u32) -> bool {
        self.start_of(y) < y
    }

    /// The first row of the stretch of row `y`.
    pub fn start_of(&self, y: u32) -> u32 {
        self.stretch_of(y).map_or(y, |stretch| stretch.top)
    }

    /// The row below the stretch of row `y`.
    pub fn end_of(&self, y: u32) -> u32 {
        let below = y.saturating_add(1);
        self.stretch_of(y).map_or(below, |stretch| stretch.bottom)
    }
}
