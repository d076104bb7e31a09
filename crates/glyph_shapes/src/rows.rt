//! What the rows of pages take in rasters.

use crate::dots::are_equal;
use crate::page_rows::{PageRows, Unpainted};
use crate::words::{first_bytes, inked_bytes, padded_word};
use glyph_patterns::Row;
use pcl_base::ROW_LIMIT;
use std::alloc::{AllocError, Global};

/// Appends the rows of a page, and the white one below them.
pub fn append_rows(
    alloc: Global,
    page: Unpainted<'_>,
    rows: &mut Vec<Row>,
) -> Result<(), AllocError> {
    let mut reader = PageRows::new(alloc, page);
    for y in 0..page.height() {
        reader.read(y)?;
        rows.push(Row::of(row_bytes(&reader.above, &reader.row)))?;
    }
    rows.push(Row::of(0))?;
    Ok(())
}

/// About how many bytes the data of a row take. A white one may be empty, and so may the row above, above the topmost one too.
pub fn row_bytes(above: &[u8], row: &[u8]) -> u32 {
    if are_equal(row, above) {
        0
    } else {
        data_bytes(above, row)
    }
}

/// The same of a row that isn't the one above.
fn data_bytes(above: &[u8], row: &[u8]) -> u32 {
    if row.is_empty() {
        // One stretch of white bytes.
        return 1;
    }
    let white = [0; ROW_LIMIT];
    let above = if above.is_empty() {
        white.get(..row.len()).unwrap_or(&[])
    } else {
        above
    };
    let delta = delta_bytes(above, row);
    if delta == 0 {
        0
    } else {
        delta.min(count_stretches(row))
    }
}

/// About how many bytes the data of a row take by method 3: those that aren't the ones above, and one for each stretch of them.
fn delta_bytes(above: &[u8], row: &[u8]) -> u32 {
    let (uppers, upper_rest) = above.as_chunks::<8>();
    let (words, rest) = row.as_chunks::<8>();
    let mut delta = DeltaBytes { count: 0, last: 0 };
    for (upper, word) in uppers.iter().zip(words.iter()) {
        delta.add(u64::from_be_bytes(*upper) ^ u64::from_be_bytes(*word));
    }
    delta.add(padded_word(upper_rest) ^ padded_word(rest));
    delta.count
}

/// The bytes that differ, and one for each stretch of them.
#[derive(Clone, Copy)]
struct DeltaBytes {
    count: u32,
    /// The highest bit of each byte that differs of the last eight.
    last: u64,
}

impl DeltaBytes {
    /// Counts eight bytes more, whose bits are set where they differ.
    fn add(&mut self, differing: u64) {
        let changed = inked_bytes(differing);
        let starts = changed & !(changed >> 8 | self.last << 56);
        self.count = self
            .count
            .saturating_add(changed.count_ones())
            .saturating_add(starts.count_ones());
        self.last = changed;
    }
}

/// How many stretches of equal bytes a row has: about as many bytes its data take by method 2.
fn count_stretches(row: &[u8]) -> u32 {
    let (words, rest) = row.as_chunks::<8>();
    // The byte left of the row is white: so a stretch of white bytes at its start isn't counted below.
    let mut count = u32::from(row.first() == Some(&0));
    let mut last: u64 = 0;
    for bytes in words {
        let word = u64::from_be_bytes(*bytes);
        count = count.saturating_add(stretch_starts(word, last).count_ones());
        last = word;
    }
    let starts = stretch_starts(padded_word(rest), last) & first_bytes(rest.len());
    count.saturating_add(starts.count_ones())
}

/// The highest bit of each of eight bytes that isn't the byte left of it. `last` are the eight bytes left of them.
fn stretch_starts(word: u64, last: u64) -> u64 {
    inked_bytes(word ^ (word >> 8 | last << 56))
}
