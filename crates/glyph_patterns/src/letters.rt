//! Shapes that are printed as letters.

use crate::pattern_set::Patterns;
use crate::patterns::Pattern;
use indexmap::IndexSet;
use std::alloc::Global;

/// A pattern, and where it stands on a line.
#[derive(Clone, Copy, PartialEq, Eq, Hash)]
pub struct LetterGlyph {
    /// The number of the pattern.
    pub pattern: u32,
    /// How far its topmost row lies above the baseline, in dots; below it under 0, as that of an underscore.
    pub top: i32,
}

/// A shape that is printed as a letter. Their order is that of printing: by pages, by lines, and from left to right. A job may have
/// hundreds of thousands, so they are small.
#[derive(Clone, Copy, PartialEq, Eq, PartialOrd, Ord)]
pub struct Letter {
    /// The number of the page, from 0.
    pub page: u16,
    /// The dot row of the cursor.
    pub baseline: u16,
    /// The dot of the cursor, and of the left edge.
    pub x: u16,
    /// The number of its glyph.
    pub glyph: u32,
}

impl Letter {
    /// How far right of this letter the next one stands; none where it starts another line.
    pub fn gap_to(&self, next: &Letter) -> Option<u32> {
        if self.page == next.page && self.baseline == next.baseline {
            u32::from(next.x).checked_sub(u32::from(self.x))
        } else {
            None
        }
    }
}

/// The letters of a job.
#[derive(Drop)]
pub struct Letters {
    /// The glyphs, each once.
    pub glyphs: IndexSet<LetterGlyph>,
    /// In the order of printing.
    pub letters: Vec<Letter>,
}

impl Letters {
    /// No letters.
    pub fn new(alloc: Global) -> Letters {
        Letters {
            glyphs: IndexSet::new(alloc),
            letters: Vec::new(alloc),
        }
    }

    /// How far the topmost row of a glyph lies above the baseline, or below it under 0.
    pub fn top_of(&self, glyph: u32) -> i32 {
        self.glyphs
            .get_index(glyph as usize)
            .map_or(0, |glyph| glyph.top)
    }

    /// The topmost dot row of a letter.
    pub fn first_row_of(&self, letter: &Letter) -> u32 {
        u32::from(letter.baseline).saturating_sub_signed(self.top_of(letter.glyph))
    }

    /// The letters of a page, of those from this place on, which are of this page and later ones.
    pub fn of_page(&self, page: u32, from: usize) -> &[Letter] {
        let letters = self.letters.get(from..).unwrap_or(&[]);
        let count = letters.partition_point(|letter| u32::from(letter.page) <= page);
        letters.get(..count).unwrap_or(&[])
    }

    /// The pattern of a glyph.
    pub fn pattern_of<'a>(&self, patterns: &'a Patterns, glyph: u32) -> Option<Pattern<'a>> {
        let glyph = self.glyphs.get_index(glyph as usize)?;
        patterns.get(glyph.pattern)
    }
}
