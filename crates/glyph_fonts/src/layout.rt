//! What of a job is printed by characters, and by which.

use crate::spacing::Spacing;
use glyph_patterns::{FontKind, Letter, Letters, Pattern, Patterns};
use std::alloc::{AllocError, Global};

/// What of a job is printed as text.
#[derive(Drop)]
pub struct FontLayout {
    pub kind: FontKind,
    pub patterns: Patterns,
    pub letters: Letters,
    pub spacing: Spacing,
}

impl FontLayout {
    /// The pattern of a glyph.
    pub fn pattern_of(&self, glyph: u32) -> Option<Pattern<'_>> {
        self.letters.pattern_of(&self.patterns, glyph)
    }
}

/// The layout of these letters as characters of such fonts, on pages of these widths: those whose characters are sent.
pub fn lay_out(
    alloc: Global,
    kind: FontKind,
    widths: &[u32],
    patterns: Patterns,
    letters: Letters,
) -> Result<FontLayout, AllocError> {
    let mut letters = letters;
    let spacing = Spacing::new(alloc, widths, &patterns, &letters)?;
    letters.letters.retain(|letter: &Letter| -> bool {
        spacing.character(letter.glyph, None).is_some()
    });
    Ok(FontLayout {
        kind,
        patterns,
        letters,
        spacing,
    })
}
