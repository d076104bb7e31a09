//! Rows of compressed characters: groups of a row and how often it is repeated, each row as runs of bits (docs/LANGUAGE.md, "The drivers'
//! profile").

use crate::patterns::{Pattern, changed_bytes};
use std::alloc::AllocError;

/// The most bits of a run.
const RUN_LIMIT: u32 = 255;

/// The most rows of a group.
const GROUP_LIMIT: u32 = 256;

/// Appends the rows of a pattern, compressed.
pub fn append_compressed(pattern: Pattern<'_>, out: &mut Vec<u8>) -> Result<(), AllocError> {
    let mut group: &[u8] = &[];
    let mut copies: u32 = 0;
    for row in pattern.rows.chunks(pattern.row_bytes()) {
        if copies == GROUP_LIMIT || copies > 0 && changed_bytes(group, row) > 0 {
            append_group(group, copies, pattern.width, out)?;
            copies = 0;
        }
        group = row;
        copies = copies.saturating_add(1);
    }
    append_group(group, copies, pattern.width, out)
}

/// Appends a row of this many bits and how often it is repeated, where there is any copy of it.
fn append_group(row: &[u8], copies: u32, width: u32, out: &mut Vec<u8>) -> Result<(), AllocError> {
    let Some(repeats) = copies.checked_sub(1) else {
        return Ok(());
    };
    out.push(short_byte(repeats))?;
    let mut is_black = false;
    let mut run: u32 = 0;
    for column in 0..width {
        if is_black_at(row, column) != is_black {
            append_run(run, out)?;
            is_black = !is_black;
            run = 0;
        }
        run = run.saturating_add(1);
    }
    append_run(run, out)
}

/// Appends a run of bits: runs of 0 bits of the other colour join those that it takes.
fn append_run(run: u32, out: &mut Vec<u8>) -> Result<(), AllocError> {
    let full = run.saturating_sub(1) / RUN_LIMIT;
    for _ in 0..full {
        out.extend_from_slice(&[u8::MAX, 0])?;
    }
    out.push(short_byte(run.saturating_sub(full.saturating_mul(RUN_LIMIT))))?;
    Ok(())
}

/// A number of bits or rows in a byte.
fn short_byte(number: u32) -> u8 {
    u8::try_from(number).unwrap_or(u8::MAX)
}

/// Whether a bit of a row is black.
fn is_black_at(row: &[u8], column: u32) -> bool {
    let byte = row.get((column / 8) as usize).copied().unwrap_or(0);
    byte & (0x80 >> (column % 8)) != 0
}

/// About how many bytes the rows of a pattern take, compressed.
pub fn compressed_len(pattern: Pattern<'_>) -> usize {
    let mut len: usize = 0;
    let mut above: &[u8] = &[];
    for row in pattern.rows.chunks(pattern.row_bytes()) {
        if changed_bytes(above, row) > 0 {
            len = len.saturating_add(2).saturating_add(changes_of_colour(row));
        }
        above = row;
    }
    len
}

/// How often the colour changes along a row, before which it is white.
fn changes_of_colour(row: &[u8]) -> usize {
    let mut count: usize = 0;
    let mut before: u8 = 0;
    for byte in row {
        let left = (byte >> 1) | (before << 7);
        count = count.saturating_add((byte ^ left).count_ones() as usize);
        before = *byte;
    }
    count
}
