//! What tiles take as characters.

use crate::tile_counts::{Counts, TileCounts};
use crate::tiles::Tile;
use glyph_patterns::{FINE, FontUses, SELECTION_BYTES, in_fine_parts, quotient};
use std::alloc::{AllocError, Global};

/// About how many bytes the character of a tile takes, once for the job.
pub const CHARACTER_BYTES: usize = 37;

/// The same of two tiles, where what is counted may be less often used.
const PAIR_BYTES: usize = 64;

/// About how many bytes lead to the first of some tiles side by side.
const START_BYTES: usize = 6;

/// The font in which a character has its code.
#[derive(Clone, Copy, PartialEq, Eq)]
enum CodeFont {
    First,
    Second,
    Later,
}

impl CodeFont {
    /// About how many bytes stand before a code of another font: SI or SO, or a selection.
    fn bytes_to(self, next: CodeFont) -> usize {
        if next == CodeFont::Later || self == CodeFont::Later {
            return SELECTION_BYTES;
        }
        usize::from(self != next)
    }
}

/// Which font the characters of tiles have their codes in: the more often one is used, the earlier.
#[derive(Drop)]
pub struct CodeFonts {
    /// How often the characters are used.
    counts: TileCounts,
    /// How often each of the first font is used, at least.
    first_uses: usize,
    /// The same of the first two fonts.
    second_uses: usize,
}

impl CodeFonts {
    /// Those of the characters of these tiles.
    pub fn of(alloc: Global, tiles: &[Tile]) -> Result<CodeFonts, AllocError> {
        let counts = TileCounts::of_characters(alloc, tiles)?;
        let mut uses = FontUses::new(alloc)?;
        add_counts(&counts.tiles, &mut uses);
        add_counts(&counts.pairs, &mut uses);
        Ok(CodeFonts {
            counts,
            first_uses: uses.least_of_fonts(1),
            second_uses: uses.least_of_fonts(2),
        })
    }

    /// The font of what is used as often as this.
    fn font_of(&self, uses: u16) -> CodeFont {
        let uses = usize::from(uses);
        if uses >= self.first_uses {
            CodeFont::First
        } else if uses >= self.second_uses {
            CodeFont::Second
        } else {
            CodeFont::Later
        }
    }

    /// About how many bytes tiles side by side take as characters of these fonts, in fine parts.
    pub fn bytes_of(&self, tiles: &[Tile]) -> i64 {
        bytes_in_one_font(&self.counts, tiles).saturating_add(self.bytes_between(tiles))
    }

    /// About how many bytes lead from font to font where tiles are side by side, in fine parts.
    pub fn bytes_between(&self, tiles: &[Tile]) -> i64 {
        let mut bytes: usize = 0;
        let mut last = CodeFont::First;
        for tile in tiles {
            let font = self.font_of(self.counts.uses_of(*tile));
            bytes = bytes.saturating_add(last.bytes_to(font));
            last = font;
        }
        in_fine_parts(bytes)
    }
}

/// Adds those that are used as often as the counts say.
fn add_counts(counts: &Counts, uses: &mut FontUses) {
    for eight in counts.eights() {
        if *eight != [0; 8] {
            for count in eight {
                uses.add(usize::from(*count));
            }
        }
    }
}

/// About how many bytes tiles side by side take as characters of one font, in fine parts: for each its code, and its part of what the
/// character takes.
pub fn bytes_in_one_font(counts: &TileCounts, tiles: &[Tile]) -> i64 {
    let mut bytes = in_fine_parts(START_BYTES);
    for tile in tiles {
        let uses = i64::from(counts.uses_of(*tile));
        let part = quotient(in_fine_parts(character_bytes(*tile)), uses);
        bytes = bytes.saturating_add(part).saturating_add(FINE);
    }
    bytes
}

/// About how many bytes the character of a tile takes, once for the job.
fn character_bytes(tile: Tile) -> usize {
    match tile.next {
        None => CHARACTER_BYTES,
        Some(_) => PAIR_BYTES,
    }
}
