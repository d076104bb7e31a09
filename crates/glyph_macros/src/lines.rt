//! Lines of letters as macros that are run.

use crate::macro_layout::MacroLayout;
use crate::macros::append_marks;
use crate::marks::Line;
use glyph_patterns::{append_labelled, digit_count};
use std::alloc::AllocError;

/// Appends the lines of a page, whose marks begin at this place, and says where they end.
pub fn append_lines(
    layout: &MacroLayout,
    lines: &[Line],
    start: usize,
    out: &mut Vec<u8>,
) -> Result<usize, AllocError> {
    if lines.is_empty() {
        return Ok(start);
    }
    // The method of the rows that macros send.
    out.extend_from_slice(b"\x1b*b3M")?;
    let mut start = start;
    let mut above = None;
    let mut set = None;
    for line in lines {
        append_line_start(line, above, out)?;
        let marks = layout.plan.text.script.marks_of(line, start);
        set = append_marks(&layout.plan.macros, marks, set, false, out)?.set;
        start = line.end;
        above = Some(line.row);
    }
    Ok(start)
}

/// Appends the move to the start of a line. It is counted from the line above where that takes fewer bytes.
fn append_line_start(line: &Line, above: Option<u32>, out: &mut Vec<u8>) -> Result<(), AllocError> {
    let below = above
        .and_then(|above| line.row.checked_sub(above))
        .unwrap_or(u32::MAX);
    append_labelled(b"\x1b*p", line.start.unsigned_abs(), out)?;
    if digit_count(below).saturating_add(1) < digit_count(line.row) {
        append_labelled(b"x+", below, out)?;
    } else {
        append_labelled(b"x", line.row, out)?;
    }
    out.extend_from_slice(b"Y")
}
