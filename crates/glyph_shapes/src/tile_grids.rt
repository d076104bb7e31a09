//! Where the tiles of a picture lie, so that few differ.

use crate::bands::{Band, Grid, TILE_SIDE};
use crate::page_rows::Unpainted;
use crate::shapes::Extent;
use crate::tile_characters::CHARACTER_BYTES;
use crate::tile_counts::Counts;
use glyph_patterns::short_number;
use std::alloc::{AllocError, Global};
use std::ops::Range;

/// Of this many tiles below each other one is looked at where the grid is chosen, and of more in a high part of a page: these rows of tiles
/// are looked at there.
const SAMPLING: u16 = 4;

const SAMPLED_ROWS: u16 = 32;

/// How far right and down tiles may lie from the corner of the page, besides not at all.
const SHIFTS: [u16; 3] = [2, 4, 6];

/// How the tiles lie that take the fewest bytes in a part of a page: first how far right, then how far down.
pub fn best_grid(alloc: Global, page: Unpainted<'_>, area: Extent) -> Result<Grid, AllocError> {
    let mut search = GridSearch {
        page,
        area,
        sampling: SAMPLING.max(short_number(area.height()) / TILE_SIDE / SAMPLED_ROWS),
        counts: Counts::new(alloc)?,
        best: Grid::CORNER,
        least: usize::MAX,
    };
    search.look_at(Grid::CORNER)?;
    for right in SHIFTS.iter() {
        search.look_at(Grid {
            right: *right,
            down: 0,
        })?;
    }
    let right = search.best.right;
    for down in SHIFTS.iter() {
        search.look_at(Grid { right, down: *down })?;
    }
    Ok(search.best)
}

/// The grid of which the tiles of a part of a page take the fewest bytes, of those that were looked at.
#[derive(Drop)]
struct GridSearch<'a> {
    page: Unpainted<'a>,
    area: Extent,
    /// Of this many tiles below each other one is looked at.
    sampling: u16,
    counts: Counts,
    best: Grid,
    least: usize,
}

impl<'a> GridSearch<'a> {
    /// Looks at one grid more.
    fn look_at(&mut self, grid: Grid) -> Result<(), AllocError> {
        self.counts.clear();
        let alloc = *self.counts.counts.allocator();
        let mut band = Band::new(alloc, self.page, grid, self.area);
        for number in numbers_of(self.page, grid, self.area) {
            if number % self.sampling.max(1) == 0 {
                band.read(grid.top_of(number))?;
                self.counts.add_tiles(&band.tiles);
            }
        }
        let bytes = bytes_of_sample(&self.counts, self.sampling);
        if bytes < self.least {
            self.best = grid;
            self.least = bytes;
        }
        Ok(())
    }
}

/// About how many bytes all tiles take, where the counts are of one tile of as many as `sampling` says: each as a character, or eight
/// where that is less.
fn bytes_of_sample(counts: &Counts, sampling: u16) -> usize {
    let mut bytes: usize = 0;
    for eight in counts.eights() {
        if *eight != [0; 8] {
            for count in eight {
                bytes = bytes.saturating_add(bytes_of_tiles(count.saturating_mul(sampling)));
            }
        }
    }
    bytes
}

/// About how many bytes as many tiles of one kind take: as characters, or in a raster where that is less.
fn bytes_of_tiles(count: u16) -> usize {
    let count = usize::from(count);
    let characters = count.saturating_add(CHARACTER_BYTES);
    characters.min(count.saturating_mul(usize::from(TILE_SIDE)))
}

/// The numbers of the tiles below each other in a part of a page.
pub fn numbers_of(page: Unpainted<'_>, grid: Grid, area: Extent) -> Range<u16> {
    let end = grid.count_down_to(page.area().bottom);
    area.top / TILE_SIDE..end.min(area.bottom / TILE_SIDE)
}
