//! Shapes that are no letters, whatever becomes of the others.
//!
//! In a picture hundreds of small shapes share the few bytes of a row. A shape that takes less than a byte there is no letter, however
//! often its pattern is there: so its dots needn't be looked at.

use crate::shapes::Extent;
use glyph_patterns::{FINE, Row, RowParts, add, in_fine_parts, number_of, quotient, sum_parts};
use std::alloc::{AllocError, Global};

/// How often the shapes of a page are looked at, at most.
const ROUNDS: u32 = 8;

/// No less than this does a shape weigh in all its rows together, four bytes in fine parts: in the topmost one and in the one below it a
/// byte that differs from the row above, and one more.
const LEAST_PARTS: u32 = 4 * 256;

/// For each shape of a page, whether it stays in the raster, since it takes less than a byte there even where all shapes are letters but
/// those that stay: a letter takes a byte at least, its code. The weight of these becomes one of the others in the rows of the page.
pub fn screen_shapes(
    alloc: Global,
    extents: &[Extent],
    rows: &mut [Row],
) -> Result<Vec<bool>, AllocError> {
    let mut stay = vec![in alloc; true; extents.len()]?;
    let mut changes = weight_changes(alloc, extents, rows.len())?;
    for _ in 0..ROUNDS {
        let sums = sum_parts(alloc, rows, &changes)?;
        if !release(extents, &sums, &mut stay, &mut changes) {
            add_others(rows, &changes);
            return Ok(stay);
        }
    }
    vec![in alloc; false; extents.len()]
}

/// By how much the weights of all shapes are more in a row together than in the row before it, if they are the least that shapes of their
/// heights have.
fn weight_changes(alloc: Global, extents: &[Extent], rows: usize) -> Result<Vec<i64>, AllocError> {
    let mut changes = vec![in alloc; 0i64; rows.saturating_add(1)]?;
    for extent in extents {
        let weight = least_weight(extent);
        add(&mut changes, usize::from(extent.top), weight);
        add(&mut changes, row_past(extent), 0i64.saturating_sub(weight));
    }
    Ok(changes)
}

/// What a shape weighs at least in each of its rows, in fine parts.
fn least_weight(extent: &Extent) -> i64 {
    i64::from(LEAST_PARTS / extent.height().saturating_add(1).max(1))
}

/// The row past the white one below a shape.
fn row_past(extent: &Extent) -> usize {
    usize::from(extent.bottom).saturating_add(1)
}

/// Shapes that may take a byte stay no longer, and weigh nothing in the rows. Says whether there are some.
fn release(extents: &[Extent], sums: &[RowParts], stay: &mut [bool], changes: &mut [i64]) -> bool {
    let mut is_any = false;
    for (extent, stays) in extents.iter().zip(stay.iter_mut()) {
        if *stays && most_bytes(extent, sums) >= FINE {
            let weight = least_weight(extent);
            add(
                changes,
                usize::from(extent.top),
                0i64.saturating_sub(weight),
            );
            add(changes, row_past(extent), weight);
            *stays = false;
            is_any = true;
        }
    }
    is_any
}

/// No more bytes than these, in fine parts, does a shape take in its rows: all bytes of each differ from those of the row above.
fn most_bytes(extent: &Extent, sums: &[RowParts]) -> i64 {
    let weight = (extent.width().div_ceil(8) as usize).saturating_add(1);
    RowParts::between(
        sums,
        usize::from(extent.top),
        row_past(extent),
        in_fine_parts(weight),
    )
}

/// Adds the weight of shapes to that of the others in each row.
fn add_others(rows: &mut [Row], changes: &[i64]) {
    let mut weight: i64 = 0;
    for (place, row) in rows.iter_mut().enumerate() {
        weight = weight.saturating_add(number_of(changes, place));
        let bytes = u16::try_from(quotient(weight, FINE)).unwrap_or(u16::MAX);
        row.others = row.others.saturating_add(bytes);
    }
}
