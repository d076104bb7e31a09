//! The rows on which shapes stand.

use crate::shapes::Extent;
use std::alloc::{AllocError, Global};

/// Shapes higher than this many dots at 300 per inch don't say where a line of text is.
const TEXT_HEIGHT_LIMIT: u32 = 120;

/// How far below a shape its line may lie, in dots at 300 per inch, as that of the dot of an i does.
const REACH: u32 = 32;

/// How far above its middle the line of a shape may lie, in dots at 300 per inch, as that of a comma or an underscore does.
const HANG: u32 = 8;

/// How many shapes end above each row of a page of this height. `scale` dots are one at 300 dots per inch.
pub fn count_bottoms(
    alloc: Global,
    height: u32,
    extents: &[Extent],
    scale: u32,
) -> Result<Vec<u32>, AllocError> {
    let limit = TEXT_HEIGHT_LIMIT.saturating_mul(scale);
    let rows = (height as usize).saturating_add(1);
    let mut counts = vec![in alloc; 0u32; rows]?;
    for extent in extents {
        if extent.height() <= limit {
            if let Some(count) = counts.get_mut(usize::from(extent.bottom)) {
                *count = count.saturating_add(1);
            }
        }
    }
    Ok(counts)
}

/// The row on which a shape seems to stand: of the rows from a little above its middle to a little below it the one above which most
/// shapes end.
pub fn guess_baseline(extent: Extent, bottoms: &[u32], scale: u32) -> u32 {
    let middle = u32::from(extent.top).saturating_add(extent.height() / 2);
    let first = middle.saturating_sub(HANG.saturating_mul(scale));
    let last = u32::from(extent.bottom).saturating_add(REACH.saturating_mul(scale));
    let mut best = u32::from(extent.bottom);
    let mut most = bottoms.get(best as usize).copied().unwrap_or(0);
    for y in first..last {
        let count = bottoms.get(y as usize).copied().unwrap_or(0);
        if count > most {
            best = y;
            most = count;
        }
    }
    best
}
