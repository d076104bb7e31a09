//! Row data that is made quickly.

ghost use Rattle.std.specs.Prelude.{◌≡◌, ◌<◌, ◌≤◌, length, OnOk};
ghost use Rattle.pcl_coders.specs.Coding.{IsCodable};
ghost use Rattle.pcl_same.specs.inner.Rows.{AppendsRowData, Appends};

use crate::bits::first_dot_of_row;
use pcl_base::{Method, ROW_LIMIT};
use pcl_bitmap::first_difference;
use pcl_coders::{Delta, RowCoder};
use pcl_rows::decode;
use std::alloc::AllocError;

/// A replacement gives up to as many bytes.
const MOST_BYTES: usize = 8;

/// An offset of as many bytes is lengthened by the bytes after the command.
const LONG_OFFSET: usize = 31;

/// Appends data of method 3 that makes a row over the row above it: each changed byte once, where these are decoded to the row, and else
/// the least data.
#[tactic(auto, using(crate::proofs::KeptRows::row_written))]
pub fn append_row(row: &[u8], above: &[u8], out: &mut Vec<u8>) -> Result<(), AllocError>
    requires { IsCodable above.now row.now }
    ensures { OnOk result (AppendsRowData above.now row.now out.old.items out.new.items) }
{
    let start = out.len();
    append_changes(row, above, out)?;
    let mut buffer = [0; ROW_LIMIT];
    let made = &mut buffer[..row.len()];
    decode(Method::Delta, above, &out[start..], made);
    match first_dot_of_row(made, row) {
        None => Ok(()),
        Some(_) => {
            out.truncate(start);
            Delta.write(row, above, out)
        }
    }
}

/// Appends replacements of the bytes that aren't those above, up to eight side by side in each. Nothing is promised of them.
fn append_changes(row: &[u8], above: &[u8], out: &mut Vec<u8>) -> Result<(), AllocError>
    requires { length above.now ≡ length row.now }
    ensures { OnOk result (Appends out.old.items out.new.items) }
{
    let mut place = 0;
    while place < row.len() {
        let offset = first_difference(&above[place..], &row[place..]);
        let start = place + offset;
        if start == row.len() {
            return Ok(());
        }
        let end = start + changed_len(&above[start..], &row[start..]);
        append_command(offset, end - start, out)?;
        out.extend_from_slice(&row[start..end])?;
        place = end;
    }
    Ok(())
}

/// How many bytes from the first on aren't those above, of the first eight. The first one isn't.
fn changed_len(above: &[u8], row: &[u8]) -> usize
    requires same { length above.now ≡ length row.now }
    requires some { 0 < length row.now }
    ensures some { 0 < result }
    ensures within { result ≤ length row.now }
{
    let most = row.len().min(MOST_BYTES);
    for len in 1..most {
        if row[len] == above[len] {
            return len;
        }
    }
    most
}

/// Appends the command of a replacement of as many bytes after an offset, with the bytes that lengthen that.
fn append_command(offset: usize, len: usize, out: &mut Vec<u8>) -> Result<(), AllocError>
    ensures { OnOk result (Appends out.old.items out.new.items) }
{
    let count = len.saturating_sub(1) % MOST_BYTES;
    out.push((32 * count + offset.min(LONG_OFFSET)) as u8)?;
    if offset >= LONG_OFFSET {
        let more = offset - LONG_OFFSET;
        out.resize(out.len().saturating_add(more / 255), 255)?;
        out.push((more % 255) as u8)?;
    }
    Ok(())
}
