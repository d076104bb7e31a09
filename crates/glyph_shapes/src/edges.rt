//! Where the ink of a row changes.

use crate::words::{LEFTMOST, padded_word};
use std::alloc::AllocError;

/// Appends the dots of a row whose ink isn't that of the dot left of them, from left to right. So black begins at the first, and white
/// at the second, and so on; a white dot stands left of the row, and another right of it.
pub fn append_edges(row: &[u8], edges: &mut Vec<u16>) -> Result<(), AllocError> {
    let (words, rest) = row.as_chunks::<8>();
    let mut x: u16 = 0;
    let mut last: u64 = 0;
    for bytes in words {
        let word = u64::from_be_bytes(*bytes);
        append_edges_of_word(x, word, last, edges)?;
        last = word;
        x = x.saturating_add(64);
    }
    append_edges_of_word(x, padded_word(rest), last, edges)
}

/// How many runs of black dots a row has.
pub fn count_runs(row: &[u8]) -> u32 {
    let (words, rest) = row.as_chunks::<8>();
    let mut count: u32 = 0;
    let mut last: u64 = 0;
    for bytes in words {
        let word = u64::from_be_bytes(*bytes);
        count = count.saturating_add(starts_of_runs(word, last).count_ones());
        last = word;
    }
    count.saturating_add(starts_of_runs(padded_word(rest), last).count_ones())
}

/// The leftmost dots of the runs that begin in 64 dots. `last` are the 64 dots left of them.
fn starts_of_runs(word: u64, last: u64) -> u64 {
    word & !(word >> 1 | last << 63)
}

/// Appends those of 64 dots from `x` on. `last` are the 64 dots left of them.
fn append_edges_of_word(
    x: u16,
    word: u64,
    last: u64,
    edges: &mut Vec<u16>,
) -> Result<(), AllocError> {
    let mut changes = word ^ (word >> 1 | last << 63);
    for _ in 0..64u32 {
        if changes == 0 {
            break;
        }
        let place = changes.leading_zeros() % 64;
        edges.push(x.saturating_add(place as u16))?;
        changes &= !(LEFTMOST >> place);
    }
    Ok(())
}
