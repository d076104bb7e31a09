//! Macros that a reset leaves.

use crate::definitions::append_unit;
use crate::macro_layout::MacroLayout;
use glyph_patterns::append_labelled;
use std::alloc::AllocError;

/// Appends what makes the macros and the font of blanks permanent (`ESC&f10X`, `ESC*c5F`), so that a reset leaves them.
pub fn append_permanent(layout: &MacroLayout, out: &mut Vec<u8>) -> Result<(), AllocError> {
    append_controls(layout, b"y10x", out)?;
    layout.plan.macros.blanks.append_control(b"d5F", out)
}

/// Appends what deletes the macros and the font of blanks (`ESC&f8X`, `ESC*c2F`).
pub fn append_deletion(layout: &MacroLayout, out: &mut Vec<u8>) -> Result<(), AllocError> {
    append_controls(layout, b"y8x", out)?;
    layout.plan.macros.blanks.append_control(b"d2F", out)
}

/// Appends what is set anew after a reset that left the macros: the unit of measure and the font of blanks.
pub fn append_settings(layout: &MacroLayout, out: &mut Vec<u8>) -> Result<(), AllocError> {
    append_unit(layout, out)?;
    layout.plan.macros.blanks.append_selection(out)
}

/// Appends a control of each macro in one sequence.
fn append_controls(
    layout: &MacroLayout,
    control: &[u8],
    out: &mut Vec<u8>,
) -> Result<(), AllocError> {
    let macros = &layout.plan.macros;
    if macros.uses.is_empty() {
        return Ok(());
    }
    out.extend_from_slice(b"\x1b&f")?;
    for mark in macros.uses.keys() {
        append_labelled(b"", macros.id(*mark).unwrap_or(0), out)?;
        out.extend_from_slice(control)?;
    }
    // The last letter ends the sequence.
    out.pop();
    out.extend_from_slice(b"X")
}
