//! The shapes that are printed as letters.

use crate::frequency::{Frequency, find_frequency};
use crate::joining::join_shapes;
use crate::standing::{LineCount, Standing};
use crate::touching::divide_shapes;
use glyph_patterns::{Letter, LetterGlyph, Letters, number_of_place, short_number};
use glyph_shapes::{Collection, PlacedShape};
use std::alloc::{AllocError, Global};

/// What shapes take is known about: no letters are looked for only where it is too much even without one part of this many.
const UNSURE_PART: usize = 5;

/// The letters of a job of this many bytes: the shapes of patterns that are so frequent that they take fewer bytes so, some of them joined.
/// None where all shapes take more bytes than the job, as those of a page that macros print again and again: then no job with letters is
/// shorter. None either where they are more than the pages may have.
pub fn find_letters(
    alloc: Global,
    collection: &mut Collection,
    job_bytes: usize,
) -> Result<Letters, AllocError> {
    let frequency = find_frequency(alloc, collection)?;
    let bytes = frequency.bytes_of_shapes(alloc, collection)?;
    if bytes.saturating_sub(bytes / UNSURE_PART) > job_bytes {
        return Ok(Letters::new(alloc));
    }
    if frequency.letter_count(alloc, collection)? > collection.letter_room {
        return Ok(Letters::new(alloc));
    }
    let is_divided = divide_shapes(alloc, collection, &frequency)?;
    let is_joined = join_shapes(alloc, collection, &frequency)?;
    let frequency = if is_divided || is_joined {
        find_frequency(alloc, collection)?
    } else {
        frequency
    };
    let standing = Standing::new(alloc, collection, &frequency)?;
    let mut found = Letters::new(alloc);
    append_letters(collection, &standing, &frequency, &mut found)?;
    append_tiles(collection, &mut found)?;
    found.letters.sort_unstable();
    Ok(found)
}

/// Appends the letters of a job, which stand so.
fn append_letters(
    collection: &Collection,
    standing: &Standing,
    frequency: &Frequency,
    found: &mut Letters,
) -> Result<(), AllocError> {
    let mut lines = LineCount::new();
    for shape in collection.placed.iter() {
        let line = lines.number_of(shape);
        if frequency.is_letter(shape.pattern) {
            let top = standing.top_of(shape, line);
            append_letter(shape, top, collection.height_of(shape.page), found)?;
        }
    }
    Ok(())
}

/// Appends the tiles of a job, each of which stands on the row below it.
fn append_tiles(collection: &Collection, found: &mut Letters) -> Result<(), AllocError> {
    found.letters.reserve_exact(collection.tiles.len())?;
    for tile in collection.tiles.iter() {
        let top = i32::from(tile.baseline.saturating_sub(tile.top));
        append_letter(tile, top, collection.height_of(tile.page), found)?;
    }
    Ok(())
}

/// Appends a shape as a letter whose topmost row lies so far above the baseline, or below it under 0, if that is on its page, which has
/// this height: a comma in the topmost rows may stand on none.
fn append_letter(
    shape: &PlacedShape,
    top: i32,
    height: u32,
    found: &mut Letters,
) -> Result<(), AllocError> {
    let pattern = shape.pattern;
    let Some(baseline) = u32::from(shape.top).checked_add_signed(top) else {
        return Ok(());
    };
    if baseline <= height {
        let (glyph, _) = found.glyphs.insert_full(LetterGlyph { pattern, top })?;
        found
            .letters
            .push(letter_of(shape, baseline, number_of_place(glyph)))?;
    }
    Ok(())
}

/// The letter that a shape becomes.
fn letter_of(shape: &PlacedShape, baseline: u32, glyph: u32) -> Letter {
    Letter {
        page: shape.page,
        baseline: short_number(baseline),
        x: shape.x,
        glyph,
    }
}
