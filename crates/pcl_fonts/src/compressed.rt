//! Compressed characters: rows of a pattern that the data give as runs of bits (docs/LANGUAGE.md, "The drivers' profile").

ghost use Rattle.std.specs.Prelude.{◌≡◌, ℕ, List, Bool, ◌+◌, ◌-◌, ◌*◌, ◌/◌, ◌^◌, ◌<◌, ◌≤◌, ◌++◌, length, replicate, true, IfOk, OnOk};
ghost use Rattle.std.specs.List.{concat};
ghost use Rattle.std.specs.Option.{option_map};
ghost use Rattle.pcl_fonts.specs.Compressed.{bytes_of, expanded};
ghost use Rattle.pcl_fonts.specs.inner.Expanding.{HasRow, HasRows};

use std::alloc::{AllocError, Global};

/// The rows of a pattern of this width and height in bits, each of whole bytes, the left bit the highest. There are none where the data
/// end too early, a run goes past the width, or repetitions go past the height.
pub fn expand(
    alloc: Global,
    width: u16,
    height: u16,
    bytes: &[u8],
) -> Result<Option<Vec<u8>>, AllocError>
    ensures { IfOk result (λ rows. option_map (λ r. r.items) rows ≡ expanded width height bytes.now) }
{
    let width = usize::from(width);
    let mut row = vec![in alloc; 0; width.div_ceil(8)]?;
    let mut rows = Vec::new(alloc);
    if put_groups(&mut rows, &mut row, width, usize::from(height), bytes)? {
        Ok(Some(rows))
    } else {
        Ok(None)
    }
}

/// Appends the rows of groups until there are as many as the height says; `row` is overwritten. Says whether the data have them.
fn put_groups(
    rows: &mut Vec<u8>,
    row: &mut [u8],
    width: usize,
    height: usize,
    bytes: &[u8],
) -> Result<bool, AllocError>
    requires { length row.old ≡ (width + 7) / 8 }
    ensures { IfOk result (λ are_whole. HasRows rows.old.items rows.new.items are_whole (expanded width height bytes.now)) }
{
    let mut rest = bytes;
    let mut left = height;
    while left > 0 {
        let Some((repeats, runs)) = rest.split_first() else {
            return Ok(false);
        };
        let copies = usize::from(*repeats) + 1;
        if copies > left {
            return Ok(false);
        }
        let Some(after) = put_row(row, width, runs) else {
            return Ok(false);
        };
        put_copies(rows, row, copies)?;
        left -= copies;
        rest = after;
    }
    Ok(true)
}

/// Appends this many copies of a row.
fn put_copies(rows: &mut Vec<u8>, row: &[u8], copies: usize) -> Result<(), AllocError>
    ensures { OnOk result (rows.new.items ≡ rows.old.items ++ concat (replicate copies row.now)) }
{
    for _ in 0..copies {
        rows.extend_from_slice(row)?;
    }
    Ok(())
}

/// Writes the row whose runs stand at the front of the bytes, and gives the bytes after them.
fn put_row<'a>(row: &mut [u8], width: usize, bytes: &'a [u8]) -> Option<&'a [u8]>
    requires { length row.old ≡ (width + 7) / 8 }
    ensures { HasRow width bytes.now row.new (option_map (λ rest. rest.now) result) }
{
    row.fill(0);
    let mut rest = bytes;
    let mut column = 0;
    let mut is_black = false;
    while column < width {
        let (run, others) = rest.split_first()?;
        let count = usize::from(*run);
        if count > width - column {
            return None;
        }
        if is_black {
            blacken(row, column, column + count);
        }
        column += count;
        is_black = !is_black;
        rest = others;
    }
    Some(rest)
}

/// Sets the bits of a row from one column up to another, where no bit is set yet from the first of them on.
fn blacken(row: &mut [u8], start: usize, end: usize)
    requires order { start ≤ end }
    requires room { end ≤ 8 * length row.old }
    ensures { (bits : List Bool) → length bits ≡ start → row.old ≡ bytes_of (length row.old) bits
        → row.new ≡ bytes_of (length row.old) (bits ++ replicate (end - start) true) }
{
    let mut column = start;
    while column < end {
        let first = column % 8;
        let count = (end - column).min(8 - first);
        row[column / 8] |= ones(first, first + count);
        column += count;
    }
}

/// A byte with the bits set from one place up to another, places counted from its left end.
fn ones(from: usize, to: usize) -> u8
    requires { (from < to) × (to ≤ 8) }
    ensures { result + 2 ^ (8 - to) ≡ 2 ^ (8 - from) }
{
    ((0x100_u16 >> from) - (0x100 >> to)) as u8
}
