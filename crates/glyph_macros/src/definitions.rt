//! Defining macros (PCL 5 manual, "Macros").

ghost use Rattle.std.specs.Prelude.{◌≤◌};

use crate::macro_layout::MacroLayout;
use crate::macros::{LetterMacros, append_marks, append_move, append_set};
use crate::marks::Mark;
use glyph_patterns::{Pattern, append_labelled, append_signed};
use pcl_base::ROW_LIMIT;
use pcl_coders::{Delta, RowCoder};
use std::alloc::{AllocError, Global};

/// Appends the unit in which macros move the cursor, a dot, the characters that make gaps, and the definitions.
pub fn append_definitions(
    alloc: Global,
    layout: &MacroLayout,
    out: &mut Vec<u8>,
) -> Result<(), AllocError> {
    append_unit(layout, out)?;
    layout.plan.macros.blanks.append_font(out)?;
    for mark in layout.plan.macros.uses.keys() {
        append_definition(alloc, layout, *mark, out)?;
    }
    Ok(())
}

/// Appends the unit in which macros move the cursor, a dot, where it isn't the one that a reset sets.
pub fn append_unit(layout: &MacroLayout, out: &mut Vec<u8>) -> Result<(), AllocError> {
    match layout.scale {
        1 => Ok(()),
        _ => out.extend_from_slice(b"\x1b&u600D"),
    }
}

/// Appends the definition of the macro of a mark.
fn append_definition(
    alloc: Global,
    layout: &MacroLayout,
    mark: Mark,
    out: &mut Vec<u8>,
) -> Result<(), AllocError> {
    let id = layout.plan.macros.id(mark).unwrap_or(0);
    append_labelled(b"\x1b&f", id, out)?;
    out.extend_from_slice(b"y0X")?;
    append_content(alloc, layout, mark, out)?;
    out.extend_from_slice(b"\x1b&f1X")
}

/// Appends what the macro of a mark does.
fn append_content(
    alloc: Global,
    layout: &MacroLayout,
    mark: Mark,
    out: &mut Vec<u8>,
) -> Result<(), AllocError> {
    match mark {
        Mark::Glyph(glyph) => append_glyph(alloc, layout, glyph, out),
        Mark::Phrase(number) => match layout.plan.text.phrases.get(number as usize) {
            Some(phrase) => append_phrase(&layout.plan.macros, mark, &phrase.marks, out),
            None => Ok(()),
        },
        Mark::Gap(_) => Ok(()),
    }
}

/// Appends what the macro of a phrase does: it runs those of its marks, and leaves the ID set that mostly comes next.
fn append_phrase(
    macros: &LetterMacros,
    mark: Mark,
    marks: &[Mark],
    out: &mut Vec<u8>,
) -> Result<(), AllocError> {
    let goes_on = macros.left_by(mark, marks) != macros.left(mark);
    let setting = append_marks(macros, marks, Some(mark), goes_on, out)?;
    if goes_on {
        append_set(macros, macros.left(mark), setting.is_open, out)?;
    }
    Ok(())
}

/// Appends what the macro of a glyph does: the raster, the advance from where its end puts the cursor, and the ID that mostly comes
/// next.
fn append_glyph(
    alloc: Global,
    layout: &MacroLayout,
    glyph: u32,
    out: &mut Vec<u8>,
) -> Result<(), AllocError> {
    let Some(pattern) = layout.letters.pattern_of(&layout.patterns, glyph) else {
        return Ok(());
    };
    append_raster(alloc, layout, glyph, pattern, out)?;
    append_advance(layout, glyph, pattern.height, out)?;
    append_next(&layout.plan.macros, Mark::Glyph(glyph), out)
}

/// Appends the raster of a glyph, from where the cursor is before it.
fn append_raster(
    alloc: Global,
    layout: &MacroLayout,
    glyph: u32,
    pattern: Pattern<'_>,
    out: &mut Vec<u8>,
) -> Result<(), AllocError> {
    let up = layout.letters.top_of(glyph);
    append_way(layout.plan.metrics.bearing(glyph), up.saturating_neg(), out)?;
    append_labelled(b"\x1b*r", pattern.width, out)?;
    out.extend_from_slice(b"s1A")?;
    append_rows(alloc, pattern, out)
}

/// Appends the advance of a glyph of this many rows. The end of its raster puts the cursor at its left edge, on the row below it.
fn append_advance(
    layout: &MacroLayout,
    glyph: u32,
    rows: u32,
    out: &mut Vec<u8>,
) -> Result<(), AllocError> {
    let metrics = &layout.plan.metrics;
    let blanks = &layout.plan.macros.blanks;
    let right = metrics
        .advance(glyph)
        .saturating_sub(metrics.bearing(glyph));
    let rows = i32::try_from(rows).unwrap_or(0);
    let down = layout.letters.top_of(glyph).saturating_sub(rows);
    match blanks.code(right) {
        Some(code) => {
            append_way(0, down, out)?;
            out.push(code)?;
            Ok(())
        }
        None => append_way(right, down, out),
    }
}

/// Appends the ID that the macro of a glyph leaves set, where that isn't its own.
fn append_next(macros: &LetterMacros, mark: Mark, out: &mut Vec<u8>) -> Result<(), AllocError> {
    let left = macros.left(mark);
    if left == mark {
        Ok(())
    } else {
        append_set(macros, left, false, out)
    }
}

/// Appends a move of the cursor by this many dots to the right and down.
fn append_way(right: i32, down: i32, out: &mut Vec<u8>) -> Result<(), AllocError> {
    if down == 0 {
        return append_move(right, out);
    }
    out.extend_from_slice(b"\x1b*p")?;
    if right != 0 {
        append_signed(right, out)?;
        out.extend_from_slice(b"x")?;
    }
    append_signed(down, out)?;
    out.extend_from_slice(b"Y")
}

/// Appends the rows of a pattern, by method 3. Rows without data, which are like the row above, stand in one sequence with
/// the next one that has some.
fn append_rows(alloc: Global, pattern: Pattern<'_>, out: &mut Vec<u8>) -> Result<(), AllocError> {
    let size = pattern.row_bytes();
    let mut above: &[u8] = &[];
    let mut is_open = false;
    let mut left = pattern.rows.len().div_ceil(size);
    for row in pattern.rows.chunks(size) {
        left = left.saturating_sub(1);
        is_open = append_row(alloc, row, above, is_open, left == 0, out)?;
        above = row;
    }
    Ok(())
}

/// Appends a row, in a sequence that may be open, and says whether one is open after it.
fn append_row(
    alloc: Global,
    row: &[u8],
    above: &[u8],
    is_open: bool,
    is_last: bool,
    out: &mut Vec<u8>,
) -> Result<bool, AllocError> {
    let mut data = Vec::new(alloc);
    append_data(row, above, &mut data)?;
    append_transfer(&data, is_open, is_last, out)
}

/// Appends the data of a row, in a sequence that may be open, and says whether one is open after it.
fn append_transfer(
    data: &[u8],
    is_open: bool,
    is_last: bool,
    out: &mut Vec<u8>,
) -> Result<bool, AllocError> {
    if !is_open {
        out.extend_from_slice(b"\x1b*b")?;
    }
    if data.is_empty() && !is_last {
        out.extend_from_slice(b"w")?;
        return Ok(true);
    }
    append_labelled(b"", u32::try_from(data.len()).unwrap_or(0), out)?;
    out.extend_from_slice(b"W")?;
    out.extend_from_slice(data)?;
    Ok(false)
}

/// Appends the data of a row by method 3, over the row above, which is empty above the uppermost one.
fn append_data(row: &[u8], above: &[u8], out: &mut Vec<u8>) -> Result<(), AllocError> {
    let zeros = [0; ROW_LIMIT];
    let seed = if above.is_empty() {
        zeros.get(..row.len()).unwrap_or(&[])
    } else {
        above
    };
    if row.len() == seed.len() && row.len() <= ROW_LIMIT {
        Delta.write(row, seed, out)
    } else {
        Ok(())
    }
}
