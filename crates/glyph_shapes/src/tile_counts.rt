//! How often tiles are on a page.

use crate::tiles::Tile;
use std::alloc::{AllocError, Global};

/// How many counts of tiles there are: each is of those that have one hash.
const COUNTS: usize = 65_536;

/// Two tiles are one character where they are side by side as often as this: then it takes fewer bytes than it saves.
const PAIR_USES: u16 = 96;

/// An odd number without a pattern, by which hashes are made.
const HASH_FACTOR: u64 = 0x9E37_79B9_7F4A_7C15;

/// How often tiles are there, and two side by side.
#[derive(Drop)]
pub struct TileCounts {
    pub tiles: Counts,
    pub pairs: Counts,
}

impl TileCounts {
    /// How often those are there that are characters: two side by side, or one.
    pub fn of_characters(alloc: Global, tiles: &[Tile]) -> Result<TileCounts, AllocError> {
        let mut counts = TileCounts::new(alloc)?;
        for tile in tiles {
            match tile.next {
                None => counts.tiles.add(hash_of_tile(tile.dots)),
                Some(next) => counts.pairs.add(hash_of_tiles(tile.dots, next)),
            }
        }
        Ok(counts)
    }

    /// None are there.
    pub fn new(alloc: Global) -> Result<TileCounts, AllocError> {
        Ok(TileCounts {
            tiles: Counts::new(alloc)?,
            pairs: Counts::new(alloc)?,
        })
    }

    /// Counts those that are side by side, two and each of them.
    pub fn add(&mut self, tiles: &[u64]) {
        self.tiles.add_tiles(tiles);
        self.pairs.add_pairs(tiles);
    }

    /// The tile right of the first of some, if the two are one character.
    pub fn next_of(&self, tiles: &[u64]) -> Option<u64> {
        let first = *tiles.first()?;
        let second = *tiles.get(1)?;
        let is_joined = first != 0
            && second != 0
            && self.pairs.of(hash_of_pair(first, second)) >= PAIR_USES;
        is_joined.then_some(second)
    }

    /// How often the character of a tile is there.
    pub fn uses_of(&self, tile: Tile) -> u16 {
        match tile.next {
            None => self.tiles.of(hash_of_tile(tile.dots)),
            Some(next) => self.pairs.of(hash_of_tiles(tile.dots, next)),
        }
    }
}

/// How often what has each hash is there.
#[derive(Drop)]
pub struct Counts {
    pub counts: Vec<u16>,
}

impl Counts {
    /// Nothing is there.
    pub fn new(alloc: Global) -> Result<Counts, AllocError> {
        Ok(Counts {
            counts: vec![in alloc; 0u16; COUNTS]?,
        })
    }

    /// Forgets what was counted.
    pub fn clear(&mut self) {
        self.counts.fill(0);
    }

    /// The counts, eight at a time: most of them are of nothing.
    pub fn eights(&self) -> &[[u16; 8]] {
        let (eights, _) = self.counts.as_slice().as_chunks::<8>();
        eights
    }

    /// Counts those of some tiles that aren't white.
    pub fn add_tiles(&mut self, tiles: &[u64]) {
        for dots in tiles {
            if *dots != 0 {
                self.add(hash_of(*dots));
            }
        }
    }

    /// Counts two tiles side by side that aren't white.
    fn add_pairs(&mut self, tiles: &[u64]) {
        let mut left: u64 = 0;
        for dots in tiles {
            if left != 0 && *dots != 0 {
                self.add(hash_of_pair(left, *dots));
            }
            left = *dots;
        }
    }

    /// Counts what has a hash.
    fn add(&mut self, hash: usize) {
        if let Some(count) = self.counts.get_mut(hash) {
            *count = count.saturating_add(1);
        }
    }

    /// How often what has a hash is there.
    fn of(&self, hash: usize) -> u16 {
        self.counts.get(hash).copied().unwrap_or(0)
    }
}

/// A hash of a tile, by its rows from the topmost one down.
fn hash_of_tile(dots: [u8; 8]) -> usize {
    hash_of(u64::from_be_bytes(dots))
}

/// A hash of two tiles side by side, by their rows.
fn hash_of_tiles(left: [u8; 8], right: [u8; 8]) -> usize {
    hash_of_pair(u64::from_be_bytes(left), u64::from_be_bytes(right))
}

/// A hash of the dots of a tile, the topmost row in the highest byte, below the number of counts.
fn hash_of(dots: u64) -> usize {
    (dots.wrapping_mul(HASH_FACTOR) >> 48) as usize
}

/// A hash of two tiles side by side.
fn hash_of_pair(left: u64, right: u64) -> usize {
    hash_of(left.wrapping_mul(HASH_FACTOR) ^ right)
}
