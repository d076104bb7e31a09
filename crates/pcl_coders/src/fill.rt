//! Tables of least numbers, filled from the row's end. Each place takes a bounded number of steps.

ghost use Rattle.std.specs.Prelude.{◌≡◌, ℕ, ◌+◌, ◌<◌, ◌≤◌, min, length, slice_index};
ghost use Rattle.pcl_base.specs.declared.method.Method.TheVariants as methods;
ghost use Rattle.pcl_rows.specs.Decoding.{base};
ghost use Rattle.pcl_coders.specs.Coding.{IsCodable};
ghost use Rattle.pcl_coders.specs.inner.Choosing.{IsLeastLen};
ghost use Rattle.pcl_coders.specs.inner.Filling.{AreRightFrom, IsFirstEnd, HasZeros, IsLiteralEnd, HasLiteralEnd, white_like};

use crate::choice::{command_bytes, least_after};
use pcl_base::Method;
use pcl_bitmap::{first_difference, trimmed_len};

/// Fills in the least number of bytes of each place of a row, and of its end, where no more data is needed
/// from `end` on.
pub fn fill_before(method: Method, row: &[u8], seed: &[u8], end: usize, out: &mut [u16])
    requires codable { IsCodable seed.now row.now }
    requires size { length out.old ≡ length row.now + 1 }
    requires end { IsFirstEnd (base method seed.now) row.now end }
    ensures { AreRightFrom method (base method seed.now) row.now out.new 0 }
{
    clear_from(out, end);
    match method {
        Method::Plain => fill_plain(row, end, out),
        Method::Runs => fill_runs(row, end, out),
        Method::Packed => fill_packed(row, end, out),
        Method::Delta => fill_delta(seed, row, end, out),
    }
}

/// The first place from which no more data is needed.
pub fn needed_len(method: Method, row: &[u8], seed: &[u8]) -> usize
    requires { length seed.now ≡ length row.now }
    ensures { IsFirstEnd (base method seed.now) row.now result }
{
    match method {
        Method::Plain | Method::Runs | Method::Packed => trimmed_len(row),
        Method::Delta => differing_len(seed, row),
    }
}

/// The length without the bytes at the end that are those of the row before.
fn differing_len(old: &[u8], row: &[u8]) -> usize
    requires { length old.now ≡ length row.now }
    ensures { IsFirstEnd old.now row.now result }
{
    let mut len = row.len();
    if first_difference(old, row) == len {
        return 0;
    }
    while len > 0 && old[len - 1] == row[len - 1] {
        len -= 1;
    }
    len
}

/// No more bytes are needed from a place on.
fn clear_from(out: &mut [u16], end: usize)
    ensures size { length out.new ≡ length out.old }
    ensures zeros { (place : ℕ) → end ≤ place → slice_index out.new place ≡ 0 }
{
    for place in end..out.len() {
        out[place] = 0;
    }
}

/// Method 0: a byte for each place.
fn fill_plain(row: &[u8], end: usize, out: &mut [u16])
    requires { HasZeros (white_like row.now) row.now out.old end }
    ensures { AreRightFrom methods.Plain (white_like row.now) row.now out.new 0 }
{
    for place in (0..end).rev() {
        out[place] = out[place + 1] + 1;
    }
}

/// Method 1: the longest run is always as good as a shorter one.
fn fill_runs(row: &[u8], end: usize, out: &mut [u16])
    requires { HasZeros (white_like row.now) row.now out.old end }
    ensures { AreRightFrom methods.Runs (white_like row.now) row.now out.new 0 }
{
    let mut run_end = end;
    for place in (0..end).rev() {
        if place + 1 < end && row[place] != row[place + 1] {
            run_end = place + 1;
        }
        out[place] = out[run_end.min(place + 256)] + 2;
    }
}

/// Method 2: the longest repeat is always as good as a shorter one, and where the best literal ends is known from
/// place to place.
fn fill_packed(row: &[u8], end: usize, out: &mut [u16])
    requires { HasZeros (white_like row.now) row.now out.old end }
    ensures { AreRightFrom methods.Packed (white_like row.now) row.now out.new 0 }
{
    let mut run_end = end;
    let mut best = end;
    for place in (0..end).rev() {
        if place + 1 < end && row[place] != row[place + 1] {
            run_end = place + 1;
        }
        best = literal_end(out, place, best);
        let literal = (best - place) as u16 + 1 + out[best];
        out[place] = literal.min(repeat_number(out, place, run_end));
    }
}

/// Where the best literal of a place ends, given where that of the next place does. A literal to that end is at most
/// one byte dearer than the best from here: so it is the best, or the one of a single byte is.
fn literal_end(out: &[u16], place: usize, best: usize) -> usize
    requires next { place + 1 < length out.now }
    requires within { best < length out.now }
    ensures { (end : ℕ) → place < end → HasLiteralEnd out.now end (place + 1) best → IsLiteralEnd out.now end place result }
{
    let next = place + 1;
    if best <= place + 128 && best + usize::from(out[best]) < next + usize::from(out[next]) {
        best
    } else {
        next
    }
}

/// The number of a place by the longest repeat that begins there, or more than any.
fn repeat_number(out: &[u16], place: usize, run_end: usize) -> u16
    requires order { place < run_end }
    requires within { run_end < length out.now }
    requires small { slice_index out.now (min run_end (place + 128)) ≤ 1200 }
    ensures none { run_end ≡ place + 1 → result ≡ 65535 }
    ensures some { place + 1 < run_end → result ≡ slice_index out.now (min run_end (place + 128)) + 2 }
{
    if run_end == place + 1 {
        u16::MAX
    } else {
        out[run_end.min(place + 128)] + 2
    }
}

/// Method 3: replacements that start at the next byte that differs. Between two such bytes only their
/// command grows.
fn fill_delta(old: &[u8], row: &[u8], end: usize, out: &mut [u16])
    requires { HasZeros old.now row.now out.old end }
    ensures { AreRightFrom methods.Delta old.now row.now out.new 0 }
{
    let mut start = end;
    let mut best = 0;
    for place in (0..end).rev() {
        if old[place] != row[place] {
            start = place;
            best = least_after(&out[place..]);
        }
        out[place] = (command_bytes(start - place) + best) as u16;
    }
}
