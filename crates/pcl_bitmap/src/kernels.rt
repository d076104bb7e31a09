//! Where rows of bytes change: 32 bytes at a time, and the rest byte by byte.

ghost use Rattle.std.specs.Prelude.{◌≡◌, ◌≢◌, ◌↔◌, ℕ, ◌+◌, ◌-◌, ◌*◌, ◌^◌, ◌<◌, ◌≤◌, min, length, slice_index, All, IsTrue};
ghost use Rattle.std.specs.Int.{bit_at};
ghost use Rattle.pcl_bitmap.specs.Kernels.{IsFirstDifference, IsRunEnd, IsTrimmedLen};

use std::simd::prelude::*;

/// The first place where two rows of one length differ, or their length. The last 32 bytes may go over some
/// again that are the same.
pub fn first_difference(a: &[u8], b: &[u8]) -> usize
    requires { length a.now ≡ length b.now }
    ensures { IsFirstDifference a.now b.now result }
{
    let mut place = 0;
    while a.len() - place >= 32 {
        let same = same_lanes(a, b, place);
        if same < 32 {
            return place + same;
        }
        place += 32;
    }
    if a.len() >= 32 {
        let last = a.len() - 32;
        let count = same_lanes(a, b, last);
        return last + count;
    }
    while place < a.len() && a[place] == b[place] {
        place += 1;
    }
    place
}

/// The first place after `from` whose byte differs from the byte there, or the row's length.
pub fn run_end(row: &[u8], from: usize) -> usize
    requires { from < length row.now }
    ensures { IsRunEnd row.now from result }
{
    let byte = row[from];
    let mut place = from + 1;
    while row.len() - place >= 32 {
        let run = lanes_of(row, byte, place);
        if run < 32 {
            return place + run;
        }
        place += 32;
    }
    while place < row.len() && row[place] == byte {
        place += 1;
    }
    place
}

/// How many bits a row has, up to as many as the type counts.
pub fn bits_of(row: &[u8]) -> u32
    ensures { result ≡ min (8 * length row.now) (2 ^ 32 - 1) }
{
    u32::try_from(row.len().saturating_mul(8)).unwrap_or(u32::MAX)
}

/// The length of a row without the zero bytes at its end.
pub fn trimmed_len(row: &[u8]) -> usize
    ensures { IsTrimmedLen row.now result }
{
    let mut len = row.len();
    while len >= 32 && lanes_of(row, 0, len - 32) == 32 {
        len -= 32;
    }
    while len > 0 && row[len - 1] == 0 {
        len -= 1;
    }
    len
}

/// Whether every bit of `bytes` is clear.
pub fn is_zero(bytes: &[u8]) -> bool
    ensures { IsTrue result ↔ All (λ byte. byte ≡ 0) bytes.now }
{
    trimmed_len(bytes) == 0
}

// How many of the 32 bytes from `at` on stand ahead of the first that differs.
fn same_lanes(a: &[u8], b: &[u8], at: usize) -> usize
    requires first { at + 32 ≤ length a.now }
    requires second { at + 32 ≤ length b.now }
    ensures within { result ≤ 32 }
    ensures same { (k : ℕ) → k < result → slice_index a.now (at + k) ≡ slice_index b.now (at + k) }
    ensures differs { result < 32 → slice_index a.now (at + result) ≢ slice_index b.now (at + result) }
{
    lanes_before(u8x32::from_slice(&a[at..]), u8x32::from_slice(&b[at..]))
}

// How many of the 32 bytes from `at` on stand ahead of the first that is another one than `byte`.
fn lanes_of(row: &[u8], byte: u8, at: usize) -> usize
    requires { at + 32 ≤ length row.now }
    ensures within { result ≤ 32 }
    ensures same { (k : ℕ) → k < result → slice_index row.now (at + k) ≡ byte }
    ensures differs { result < 32 → slice_index row.now (at + result) ≢ byte }
{
    lanes_before(u8x32::from_slice(&row[at..]), u8x32::splat(byte))
}

// How many lanes stand ahead of the first that differs.
#[inline(always)]
fn lanes_before(a: u8x32, b: u8x32) -> usize
    ensures within { result ≤ 32 }
    ensures same { (k : ℕ) → k < result → slice_index a k ≡ slice_index b k }
    ensures differs { result < 32 → slice_index a result ≢ slice_index b result }
{
    first_set(a.simd_ne(b).to_bitmask())
}

// The lowest bit that is set, or 32.
#[inline(always)]
fn first_set(mask: u64) -> usize
    ensures within { result ≤ 32 }
    ensures clear { (k : ℕ) → k < result → bit_at mask k ≡ 0 }
    ensures set { result < 32 → bit_at mask result ≡ 1 }
{
    mask.trailing_zeros().min(32) as usize
}
