//! Fonts that a reset leaves.

use crate::codes::font_id;
use crate::layout::FontLayout;
use glyph_patterns::append_labelled;
use std::alloc::AllocError;

/// Appends what makes the fonts permanent (`ESC*c5F`), so that a reset leaves them.
pub fn append_permanent(layout: &FontLayout, out: &mut Vec<u8>) -> Result<(), AllocError> {
    append_controls(layout, b"d5F", out)
}

/// Appends what deletes the fonts (`ESC*c2F`).
pub fn append_deletion(layout: &FontLayout, out: &mut Vec<u8>) -> Result<(), AllocError> {
    append_controls(layout, b"d2F", out)
}

/// Appends a control of each font, with the letter of its ID and its number.
fn append_controls(
    layout: &FontLayout,
    control: &[u8],
    out: &mut Vec<u8>,
) -> Result<(), AllocError> {
    for font in 0..font_count(layout) {
        append_labelled(b"\x1b*c", font_id(font), out)?;
        out.extend_from_slice(control)?;
    }
    Ok(())
}

/// How many fonts there are.
fn font_count(layout: &FontLayout) -> usize {
    let mut count = 0;
    for rank in 0..layout.spacing.characters.len() {
        if let Some(code) = layout.spacing.code_of_rank(rank) {
            count = code.font.saturating_add(1).max(count);
        }
    }
    count
}
