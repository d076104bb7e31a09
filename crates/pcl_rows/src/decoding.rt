//! Row data, decoded.

ghost use Rattle.std.specs.Prelude.{◌≡◌, ◌+◌, ◌≤◌, length, min, take, replicate, flat_map};
ghost use Rattle.pcl_rows.specs.Rows.{RowFrom, Decodes};
ghost use Rattle.pcl_rows.specs.inner.Fronts.{overlaid, IsPastSkipped};
ghost use Rattle.pcl_base.specs.declared.method.Method.TheVariants as methods;

use crate::front::Front;
use pcl_base::Method;

/// The control of method 2 that gives nothing.
const SKIPPED: u8 = 128;

/// Decodes row data over a seed row. See the PCL 5 manual, "Set Compression Method", and docs/LANGUAGE.md,
/// "Row data". What lies past the row is dropped, and a cut last element gives the new bytes that stand in
/// it.
pub fn decode(method: Method, seed: &[u8], bytes: &[u8], row: &mut [u8])
    requires { length seed.now ≡ length row.old }
    ensures { Decodes method seed.now bytes.now row.new }
{
    match method {
        Method::Plain => {
            row.fill(0);
            put_bytes(row, 0, bytes);
        }
        Method::Runs => {
            row.fill(0);
            put_runs(row, bytes);
        }
        Method::Packed => {
            row.fill(0);
            treat(Method::Packed, bytes, row);
        }
        Method::Delta => {
            row.copy_from_slice(seed);
            treat(Method::Delta, bytes, row);
        }
    }
}

/// Method 1: writes each byte as often as the count before it says. A count without its byte gives nothing,
/// and nothing after the row's end counts.
fn put_runs(row: &mut [u8], bytes: &[u8])
    ensures { RowFrom methods.Runs bytes.now row.old row.new }
{
    let mut place = 0;
    for pair in 0..bytes.len() / 2 {
        if place == row.len() {
            return;
        }
        let copies = usize::from(bytes[2 * pair]) + 1;
        place = put_copies(row, place, copies, bytes[2 * pair + 1]);
    }
}

/// Treats a row by its data, up to its end: nothing after that counts.
#[inline(always)]
fn treat(method: Method, bytes: &[u8], row: &mut [u8])
    ensures { RowFrom method bytes.now row.old row.new }
{
    let mut rest = past_skipped(method, bytes);
    let mut place = 0;
    while !rest.is_empty() {
        if place == row.len() {
            return;
        }
        let front = Front::read(method, rest);
        place = skip(row.len(), place, front.offset);
        place = put(row, place, front.copies, front.bytes);
        rest = past_skipped(method, front.rest);
    }
}

/// The data after the elements at its start that give nothing, which method 2 alone has.
#[inline(always)]
fn past_skipped(method: Method, bytes: &[u8]) -> &[u8]
    ensures { IsPastSkipped method bytes.now result.now }
{
    match method {
        Method::Packed => &bytes[skipped_count(bytes)..],
        Method::Plain | Method::Runs | Method::Delta => bytes,
    }
}

/// How many controls that give nothing stand at the start of the data.
fn skipped_count(bytes: &[u8]) -> usize
    ensures within { result ≤ length bytes.now }
    ensures skipped { take result bytes.now ≡ replicate result 128 }
{
    for (count, byte) in bytes.iter().enumerate() {
        if *byte != SKIPPED {
            return count;
        }
    }
    bytes.len()
}

/// The place that lies `offset` bytes further, or the row's end.
#[inline(always)]
fn skip(row_bytes: usize, place: usize, offset: u128) -> usize
    requires { place ≤ row_bytes }
    ensures { result ≡ min row_bytes (place + offset) }
{
    if offset < (row_bytes - place) as u128 {
        place + offset as usize
    } else {
        row_bytes
    }
}

/// Writes each byte as often as `copies` says, from a place of the row on. Answers where they end.
#[inline(always)]
fn put(row: &mut [u8], start: usize, copies: usize, bytes: &[u8]) -> usize
    requires { start ≤ length row.old }
    ensures row { row.new ≡ overlaid row.old start (flat_map (λ byte. replicate copies byte) bytes.now) }
    ensures end { result ≡ min (length row.old) (start + length (flat_map (λ byte. replicate copies byte) bytes.now)) }
{
    if copies == 1 {
        return put_bytes(row, start, bytes);
    }
    let mut place = start;
    for byte in bytes {
        place = put_copies(row, place, copies, *byte);
    }
    place
}

/// Writes bytes from a place of the row on. Answers where they end.
fn put_bytes(row: &mut [u8], place: usize, bytes: &[u8]) -> usize
    requires { place ≤ length row.old }
    ensures row { row.new ≡ overlaid row.old place bytes.now }
    ensures end { result ≡ min (length row.old) (place + length bytes.now) }
{
    let count = bytes.len().min(row.len() - place);
    row[place..place + count].copy_from_slice(&bytes[..count]);
    place + count
}

/// Writes copies of a byte from a place of the row on. Answers where they end.
fn put_copies(row: &mut [u8], place: usize, copies: usize, byte: u8) -> usize
    requires { place ≤ length row.old }
    ensures row { row.new ≡ overlaid row.old place (replicate copies byte) }
    ensures end { result ≡ min (length row.old) (place + copies) }
{
    let end = place + copies.min(row.len() - place);
    row[place..end].fill(byte);
    end
}
