//! The rows of a page without its rules, and without the tiles of its pictures. White ones are empty.

use crate::bands::TILE_SIDE;
use crate::dots::{are_equal, ink_dots};
use crate::inked_pages::InkedPage;
use crate::row_rules::RowRules;
use crate::rules::Rule;
use crate::shapes::Extent;
use crate::tiles::Tile;
use glyph_patterns::short_number;
use pcl_base::Dpi;
use pcl_bitmap::{Ink, trimmed_len};
use std::alloc::{AllocError, Global};
use std::mem::swap;

/// A page without the dots of some rules and tiles.
#[derive(Clone, Copy)]
pub struct Unpainted<'a> {
    pub inked: &'a InkedPage<'a>,
    pub rules: &'a [Rule],
    /// From the topmost ones down.
    pub tiles: &'a [Tile],
}

impl<'a> Unpainted<'a> {
    /// How many rows it has.
    pub fn height(self) -> u32 {
        self.inked.height()
    }

    /// Its box.
    pub fn area(self) -> Extent {
        Extent {
            left: 0,
            top: 0,
            right: short_number(self.inked.width()),
            bottom: short_number(self.height()),
        }
    }

    /// Its resolution.
    pub fn dpi(self) -> Dpi {
        self.inked.dpi()
    }
}

/// Reads the rows of a page without the dots of its rules and tiles, from the topmost one on. Two rows are held.
#[derive(Drop)]
pub struct PageRows<'a> {
    page: &'a InkedPage<'a>,
    rules: RowRules<'a>,
    /// The tiles that begin below the row that was read last.
    tiles: &'a [Tile],
    /// The dots of those before them, in the rows that they have, and the row below these.
    tile_dots: Vec<u8>,
    tile_end: u32,
    /// The row below the one that was read last.
    next: u32,
    /// The row that was read last: empty where it is white.
    pub row: Vec<u8>,
    /// The row above it: empty where that is white, and above the topmost one.
    pub above: Vec<u8>,
}

impl<'a> PageRows<'a> {
    /// Above the topmost row.
    pub fn new(alloc: Global, page: Unpainted<'a>) -> PageRows<'a> {
        PageRows {
            page: page.inked,
            rules: RowRules::new(alloc, page.rules),
            tiles: page.tiles,
            tile_dots: Vec::new(alloc),
            tile_end: 0,
            next: 0,
            row: Vec::new(alloc),
            above: Vec::new(alloc),
        }
    }

    /// Reads row `y`, below the one that was read last.
    pub fn read(&mut self, y: u32) -> Result<(), AllocError> {
        swap(&mut self.above, &mut self.row);
        self.row.clear();
        let has_others = self.rules.step(y)?;
        let is_above_again = !has_others && self.is_above_again(y);
        self.next = y.saturating_add(1);
        if is_above_again {
            return self.row.extend_from_slice(&self.above);
        }
        self.row.extend_from_slice(self.page.row(y))?;
        for rule in self.rules.in_row.iter() {
            ink_dots(&mut self.row, rule.left, rule.width, Ink::White);
        }
        self.whiten_tiles(y)?;
        if trimmed_len(&self.row) == 0 {
            self.row.clear();
        }
        Ok(())
    }

    /// Whether row `y`, which the same rules have dots in, is the row above once more, where some do and no tile has.
    fn is_above_again(&self, y: u32) -> bool {
        !self.rules.in_row.is_empty()
            && !self.has_tiles(y)
            && y == self.next
            && self.page.is_again(y)
    }

    /// Whether tiles may have dots in row `y`, or in the row above.
    fn has_tiles(&self, y: u32) -> bool {
        let begins = match self.tiles.first() {
            Some(tile) => u32::from(tile.top) <= y,
            None => false,
        };
        begins || y <= self.tile_end
    }

    /// Makes the dots of tiles white in row `y`, which was read.
    fn whiten_tiles(&mut self, y: u32) -> Result<(), AllocError> {
        if y >= self.tile_end {
            self.find_tiles(y)?;
        }
        if y < self.tile_end {
            for (byte, dots) in self.row.iter_mut().zip(self.tile_dots.iter()) {
                *byte &= !*dots;
            }
        }
        Ok(())
    }

    /// Finds the tiles that have dots in row `y`, if any do: tiles side by side, since the rows of others are others.
    fn find_tiles(&mut self, y: u32) -> Result<(), AllocError> {
        let tiles = self.tiles;
        let Some(first) = tiles.first() else {
            return Ok(());
        };
        if u32::from(first.top) > y {
            return Ok(());
        }
        self.tile_end = u32::from(first.top.saturating_add(TILE_SIDE));
        self.tile_dots.clear();
        let row_bytes = self.page.width().div_ceil(8) as usize;
        self.tile_dots.resize(row_bytes, 0)?;
        let mut count: usize = 0;
        for tile in tiles {
            if tile.top > first.top {
                break;
            }
            ink_dots(
                &mut self.tile_dots,
                u32::from(tile.left),
                u32::from(tile.width()),
                Ink::Black,
            );
            count = count.saturating_add(1);
        }
        self.tiles = tiles.get(count..).unwrap_or(&[]);
        Ok(())
    }

    /// Whether the row that was read last is the one above once more.
    pub fn is_again(&self) -> bool {
        are_equal(&self.row, &self.above)
    }
}
