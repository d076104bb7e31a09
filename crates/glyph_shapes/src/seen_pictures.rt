//! The pictures of a page as they are read, before it is known which of their tiles are characters.

use crate::bands::{Band, Grid, Stretch};
use crate::page_rows::Unpainted;
use crate::tile_counts::TileCounts;
use crate::tile_grids::numbers_of;
use std::alloc::{AllocError, Global};

/// A picture is as wide as this many tiles.
const LEAST_WIDTH: usize = 16;

/// A picture has this many runs of black dots for each tile: text, whose letters take fewer bytes yet, has fewer, or tiles that are rare.
const LEAST_RUNS: usize = 5;

/// The stretches of the pictures of a page, from the topmost rows down.
#[derive(Drop)]
pub struct SeenPictures {
    /// The tiles of the stretches, white ones too, those of each after the others.
    pub tiles: Vec<u64>,
    pub stretches: Vec<SeenStretch>,
}

/// A stretch of a picture.
#[derive(Clone, Copy)]
pub struct SeenStretch {
    /// The place after its last tile.
    pub end: usize,
    /// The left edge of its first tile.
    pub left: u16,
    /// Its topmost row.
    pub top: u16,
    /// About how many bytes it takes in the raster.
    pub raster_bytes: usize,
}

impl SeenPictures {
    /// Those of a page whose tiles lie so, up to about this many tiles.
    pub fn of_page(
        alloc: Global,
        page: Unpainted<'_>,
        grid: Grid,
        limit: usize,
    ) -> Result<SeenPictures, AllocError> {
        let mut pictures = SeenPictures {
            tiles: Vec::new(alloc),
            stretches: Vec::new(alloc),
        };
        let mut band = Band::new(alloc, page, grid, page.area());
        for number in numbers_of(page, grid, page.area()) {
            band.read(grid.top_of(number))?;
            if pictures.tiles.len() < limit {
                pictures.append(&band)?;
            }
        }
        Ok(pictures)
    }

    /// How often the tiles of the stretches are there.
    pub fn count_tiles(&self, alloc: Global) -> Result<TileCounts, AllocError> {
        let mut counts = TileCounts::new(alloc)?;
        let mut start: usize = 0;
        for stretch in self.stretches.iter() {
            counts.add(self.tiles.get(start..stretch.end).unwrap_or(&[]));
            start = stretch.end;
        }
        Ok(counts)
    }

    /// Appends the stretches of a band that are of pictures.
    fn append(&mut self, band: &Band<'_>) -> Result<(), AllocError> {
        let mut place: usize = 0;
        for _ in 0..band.tiles.len() {
            let Some(stretch) = band.stretch_from(place) else {
                break;
            };
            place = stretch.end;
            if is_of_picture(band, stretch) {
                self.append_stretch(band, stretch)?;
            }
        }
        Ok(())
    }

    /// Appends a stretch of a band.
    fn append_stretch(&mut self, band: &Band<'_>, stretch: Stretch) -> Result<(), AllocError> {
        let tiles = stretch.of(&band.tiles);
        self.tiles.extend_from_slice(tiles)?;
        self.stretches.push(SeenStretch {
            end: self.tiles.len(),
            left: band.left_of(stretch.start),
            top: band.top,
            raster_bytes: band.raster_bytes(stretch),
        })?;
        Ok(())
    }
}

/// Whether a stretch is of a picture.
fn is_of_picture(band: &Band<'_>, stretch: Stretch) -> bool {
    let count = stretch.len();
    count >= LEAST_WIDTH && band.runs(stretch) >= count.saturating_mul(LEAST_RUNS)
}
