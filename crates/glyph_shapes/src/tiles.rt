//! Tiles of pictures.
//!
//! A driver prints greys by patterns of dots that come again and again, and many repeat them in squares of eight by eight dots. Such a
//! *tile* takes a byte as a character, its code, and in a raster what its eight rows take. Two that are often side by side are one
//! character.

use crate::bands::{Grid, TILE_SIDE};
use crate::page_rows::Unpainted;
use crate::seen_pictures::{SeenPictures, SeenStretch};
use crate::shapes::Extent;
use crate::tile_characters::{CodeFonts, bytes_in_one_font};
use crate::tile_counts::TileCounts;
use crate::tile_grids::best_grid;
use glyph_patterns::in_fine_parts;
use std::alloc::{AllocError, Global};

/// This many tiles are read for each that is a character: white ones, and those that gain nothing, are among them.
const SEEN_TILES: usize = 2;

/// Fewer tiles than these on a page are no picture.
const LEAST_TILES: usize = 512;

/// The dots of a tile, a byte for each row from the topmost one down.
type TileDots = [u8; 8];

/// A tile of a page that isn't white, or two that are one character. A picture has them by the hundred thousand.
#[derive(Clone, Copy)]
pub struct Tile {
    /// Its left edge.
    pub left: u16,
    /// Its topmost row.
    pub top: u16,
    /// Its dots.
    pub dots: TileDots,
    /// Those of the tile on its right, if that is part of its character.
    pub next: Option<TileDots>,
}

impl Tile {
    /// In dots.
    pub fn width(self) -> u16 {
        match self.next {
            None => TILE_SIDE,
            Some(_) => TILE_SIDE.saturating_mul(2),
        }
    }

    /// How many tiles side by side it has.
    fn columns(self) -> usize {
        match self.next {
            None => 1,
            Some(_) => 2,
        }
    }

    /// Its rows, of a byte or of two: as many bytes as it is dots wide, and white ones after them.
    pub fn rows(self) -> [u8; 16] {
        let mut rows = [0; 16];
        let columns = [Some(self.dots), self.next];
        let row_bytes = self.columns();
        for (column, dots) in columns.iter().flatten().enumerate() {
            for (row, byte) in dots.iter().enumerate() {
                if let Some(place) = rows.get_mut(
                    row.saturating_mul(row_bytes).saturating_add(column),
                ) {
                    *place = *byte;
                }
            }
        }
        rows
    }
}

/// The tiles of a page that take fewer bytes as characters than in its raster, up to about this many: from the topmost rows down, and none
/// where they are few. They lie so that few differ.
pub fn find_tiles(
    alloc: Global,
    page: Unpainted<'_>,
    limit: usize,
) -> Result<Vec<Tile>, AllocError> {
    let mut pictures = Pictures::none(alloc);
    pictures.read(page, Grid::CORNER, limit)?;
    let Some(area) = pictures.area() else {
        return Ok(Vec::new(alloc));
    };
    let grid = best_grid(alloc, page, area)?;
    if grid != Grid::CORNER {
        pictures.read(page, grid, limit)?;
    }
    pictures.into_characters(alloc)
}

impl Extent {
    /// The box of a tile.
    fn of_tile(tile: Tile) -> Extent {
        Extent {
            left: tile.left,
            top: tile.top,
            right: tile.left.saturating_add(tile.width()),
            bottom: tile.top.saturating_add(TILE_SIDE),
        }
    }
}

/// The tiles of the pictures of a page, those of each stretch after the others.
#[derive(Drop)]
struct Pictures {
    tiles: Vec<Tile>,
    stretches: Vec<PictureStretch>,
}

/// A stretch of a picture.
#[derive(Clone, Copy)]
struct PictureStretch {
    /// The place after its last tile.
    end: usize,
    /// About how many bytes it takes in the raster, in fine parts.
    raster_bytes: i64,
    /// About how many bytes less it takes as characters of one font, where all tiles of the page are such, in fine parts.
    gain: i64,
}

impl Pictures {
    /// None.
    fn none(alloc: Global) -> Pictures {
        Pictures {
            tiles: Vec::new(alloc),
            stretches: Vec::new(alloc),
        }
    }

    /// Reads those that lie so, up to about this many tiles, in place of these. Stretches that would gain nothing in one font are left out.
    fn read(&mut self, page: Unpainted<'_>, grid: Grid, limit: usize) -> Result<(), AllocError> {
        let alloc = *self.tiles.allocator();
        let seen = SeenPictures::of_page(alloc, page, grid, limit.saturating_mul(SEEN_TILES))?;
        self.tiles.clear();
        self.stretches.clear();
        if seen.stretches.is_empty() {
            return Ok(());
        }
        let counts = seen.count_tiles(alloc)?;
        let mut start: usize = 0;
        for stretch in seen.stretches.iter() {
            if self.tiles.len() < limit {
                let tiles = seen.tiles.get(start..stretch.end).unwrap_or(&[]);
                self.append_stretch(&counts, *stretch, tiles)?;
            }
            start = stretch.end;
        }
        Ok(())
    }

    /// Appends the tiles of a stretch, if it gains.
    fn append_stretch(
        &mut self,
        counts: &TileCounts,
        stretch: SeenStretch,
        seen: &[u64],
    ) -> Result<(), AllocError> {
        let start = self.tiles.len();
        append_joined(counts, stretch, seen, &mut self.tiles)?;
        let bytes = bytes_in_one_font(counts, self.tiles.get(start..).unwrap_or(&[]));
        let raster_bytes = in_fine_parts(stretch.raster_bytes);
        let gain = raster_bytes.saturating_sub(bytes);
        if gain > 0 {
            self.stretches.push(PictureStretch {
                end: self.tiles.len(),
                raster_bytes,
                gain,
            })?;
        } else {
            self.tiles.truncate(start);
        }
        Ok(())
    }

    /// Whether there are few tiles.
    fn are_few(&self) -> bool {
        self.tiles.len() < LEAST_TILES
    }

    /// The smallest box around all tiles: none where they are few.
    fn area(&self) -> Option<Extent> {
        if self.are_few() {
            return None;
        }
        let mut area = Extent::of_tile(*self.tiles.first()?);
        for tile in self.tiles.iter() {
            area = area.with(Extent::of_tile(*tile));
        }
        Some(area)
    }

    /// The tiles that take fewer bytes as characters: none where they are few.
    fn into_characters(self, alloc: Global) -> Result<Vec<Tile>, AllocError> {
        if self.are_few() {
            return Ok(Vec::new(alloc));
        }
        let fonts = CodeFonts::of(alloc, &self.tiles)?;
        let mut kept = self;
        kept.keep_shorter(alloc, &fonts)?;
        if kept.are_few() || !kept.pay(alloc)? {
            return Ok(Vec::new(alloc));
        }
        let Pictures { tiles, .. } = kept;
        Ok(tiles)
    }

    /// Keeps those of the stretches that gain more than what leads from font to font takes. Their tiles move to the front.
    fn keep_shorter(&mut self, alloc: Global, fonts: &CodeFonts) -> Result<(), AllocError> {
        let mut kept = Vec::new(alloc);
        let mut count: usize = 0;
        let mut start: usize = 0;
        for stretch in self.stretches.iter() {
            let tiles = self.tiles.get(start..stretch.end).unwrap_or(&[]);
            if fonts.bytes_between(tiles) < stretch.gain {
                count = move_forward(&mut self.tiles, start, stretch.end, count);
                kept.push(PictureStretch {
                    end: count,
                    ..*stretch
                })?;
            }
            start = stretch.end;
        }
        self.tiles.truncate(count);
        self.stretches = kept;
        Ok(())
    }

    /// Whether all stretches together take fewer bytes as characters than in the raster: where others of the page are none, each of these
    /// characters is used less.
    fn pay(&self, alloc: Global) -> Result<bool, AllocError> {
        let fonts = CodeFonts::of(alloc, &self.tiles)?;
        let mut gain: i64 = 0;
        let mut start: usize = 0;
        for stretch in self.stretches.iter() {
            let tiles = self.tiles.get(start..stretch.end).unwrap_or(&[]);
            let bytes = fonts.bytes_of(tiles);
            gain = gain
                .saturating_add(stretch.raster_bytes)
                .saturating_sub(bytes);
            start = stretch.end;
        }
        Ok(gain > 0)
    }
}

/// Moves the tiles from the place `start` up to the one before `end` to an earlier place, and gives the place after them.
fn move_forward(tiles: &mut [Tile], start: usize, end: usize, place: usize) -> usize {
    let mut place = place;
    for from in start..end {
        if let Some(tile) = tiles.get(from).copied() {
            if let Some(free) = tiles.get_mut(place) {
                *free = tile;
            }
            place = place.saturating_add(1);
        }
    }
    place
}

/// Appends the tiles of a stretch that aren't white, two as one where they are often side by side. `seen` are all its tiles.
fn append_joined(
    counts: &TileCounts,
    stretch: SeenStretch,
    seen: &[u64],
    tiles: &mut Vec<Tile>,
) -> Result<(), AllocError> {
    let mut left = stretch.left;
    let mut rest = seen;
    for _ in 0..seen.len() {
        let Some(dots) = rest.first().copied() else {
            break;
        };
        let tile = Tile {
            left,
            top: stretch.top,
            dots: dots.to_be_bytes(),
            next: counts.next_of(rest).map(|next| next.to_be_bytes()),
        };
        if dots != 0 {
            tiles.push(tile)?;
        }
        left = left.saturating_add(tile.width());
        rest = rest.get(tile.columns()..).unwrap_or(&[]);
    }
    Ok(())
}
