//! What of a job is printed by macros.

use crate::macros::LetterMacros;
use crate::marks::find_script;
use crate::phrases::{PhrasedText, find_phrases};
use glyph_patterns::{Letters, Metrics, Patterns, find_metrics};
use std::alloc::{AllocError, Global};

/// How many glyphs have macros, at most: there are twice as many IDs.
const GLYPH_LIMIT: u32 = 16_384;

/// What of a job is printed by macros.
#[derive(Drop)]
pub struct MacroLayout {
    /// How many dots are one at 300 dots per inch: 1 or 2.
    pub scale: u32,
    pub patterns: Patterns,
    pub letters: Letters,
    pub plan: MacroPlan,
}

/// How letters are printed by macros.
#[derive(Drop)]
pub struct MacroPlan {
    pub metrics: Metrics,
    pub text: PhrasedText,
    pub macros: LetterMacros,
}

/// The layout of these letters, on pages of these widths, of which `scale` dots are one at 300 dots per inch.
pub fn lay_out_macros(
    alloc: Global,
    scale: u32,
    widths: &[u32],
    patterns: Patterns,
    letters: Letters,
) -> Result<MacroLayout, AllocError> {
    let mut letters = letters;
    letters.letters.retain(|letter| letter.glyph < GLYPH_LIMIT);
    let plan = MacroPlan::new(alloc, scale, widths, &letters)?;
    Ok(MacroLayout {
        scale,
        patterns,
        letters,
        plan,
    })
}

impl MacroPlan {
    /// The macros of these letters, on pages of these widths.
    fn new(
        alloc: Global,
        scale: u32,
        widths: &[u32],
        letters: &Letters,
    ) -> Result<MacroPlan, AllocError> {
        let metrics = find_metrics(alloc, widths, &letters.letters, letters.glyphs.len())?;
        let script = find_script(alloc, widths, &letters.letters, &metrics)?;
        let text = find_phrases(alloc, script)?;
        let macros = LetterMacros::new(alloc, &text, scale)?;
        Ok(MacroPlan {
            metrics,
            text,
            macros,
        })
    }
}
