//! The numbers of a row's places, tested against all elements that agree with the row.

mod fill;
mod found;
mod steady;
mod windows;

ghost use Rattle.std.specs.Prelude.{◌≡◌, ℕ, ◌+◌, ◌-◌, ◌<◌, ◌≤◌, length, replicate, slice_index};
ghost use Rattle.pcl_base.specs.declared.method.Method.TheVariants as methods;
ghost use Rattle.pcl_base.specs.Limits.{row_limit};
ghost use Rattle.pcl_rows.specs.Decoding.{base};
ghost use Rattle.pcl_coders.specs.Coding.{IsCodable};
ghost use Rattle.pcl_check.specs.Places.{FindsPlace, FindsBadPlace};
ghost use Rattle.pcl_check.specs.inner.PlacePasses.{IsGoodEnd, IsGoodByte, AreGoodRuns, AreGoodLiterals, AreGoodReplacements, AreGoodSteps};

use fill::{add_places, fill_after_starts, fill_ends, fill_run_stops, fill_start_ends, widen};
use found::first_place;
use pcl_base::{Method, ROW_LIMIT};
use pcl_coders::base_row;
use steady::is_steady_table;
use windows::first_undercut;

/// The places of the longest row, and its end.
pub const PLACES: usize = ROW_LIMIT + 1;

/// The first place of a row whose number isn't good, if there is one. It is above the bytes of some element that agrees with
/// the row and the number where that stops, or isn't 0 though no more data is needed there. Without such a place the numbers
/// are a row table. All elements are tested at all places, whoever made the numbers. It takes time in proportion to the row's
/// bytes, and no memory; numbers that never grow, as least numbers don't, are mostly found good by a few passes (`steady`).
pub fn first_bad_place(method: Method, row: &[u8], seed: &[u8], numbers: &[u16]) -> Option<usize>
    requires codable { IsCodable seed.now row.now }
    requires size { length numbers.now ≡ length row.now + 1 }
    ensures { FindsBadPlace method seed.now row.now numbers.now result }
{
    let zeros = [0; ROW_LIMIT];
    let old = base_row(method, seed, &zeros);
    if is_steady_table(method, old, row, numbers) {
        return None;
    }
    let end = first_bad_end(old, row, numbers);
    let step = first_bad_step(method, old, row, numbers);
    first_place(end, step)
}

/// The first place from which no more data is needed and whose number isn't 0.
fn first_bad_end(old: &[u8], row: &[u8], numbers: &[u16]) -> Option<usize>
    requires same { length old.now ≡ length row.now }
    requires size { length numbers.now ≡ length row.now + 1 }
    ensures { FindsPlace (IsGoodEnd old.now row.now numbers.now) (length row.now) result }
{
    let mut found = None;
    for place in (0..numbers.len()).rev() {
        if place < row.len() && old[place] != row[place] {
            return found;
        }
        if numbers[place] > 0 {
            found = Some(place);
        }
    }
    found
}

/// The first place whose number an element undercuts.
fn first_bad_step(method: Method, old: &[u8], row: &[u8], numbers: &[u16]) -> Option<usize>
    requires same { length old.now ≡ length row.now }
    requires small { length row.now ≤ row_limit }
    requires size { length numbers.now ≡ length row.now + 1 }
    ensures { FindsPlace (AreGoodSteps method old.now row.now numbers.now) (length row.now) result }
{
    let places = numbers.len();
    let mut wide = [0; PLACES];
    let mut sums = [0; PLACES];
    let mut ends = [0; PLACES];
    let (wide, sums, ends) = (
        &mut wide[..places],
        &mut sums[..places],
        &mut ends[..places],
    );
    match method {
        Method::Plain => first_bad_byte(numbers),
        Method::Runs => first_bad_run(row, numbers, 256, wide, ends),
        Method::Packed => first_place(
            first_bad_literal(numbers, sums, ends),
            first_bad_run(row, numbers, 128, wide, ends),
        ),
        Method::Delta => first_bad_replacement(old, row, numbers, wide, sums, ends),
    }
}

/// Method 0: the first place whose number a byte that stands for itself undercuts.
fn first_bad_byte(numbers: &[u16]) -> Option<usize>
    requires { 0 < length numbers.now }
    ensures { FindsPlace (IsGoodByte numbers.now) (length numbers.now - 1) result }
{
    for place in 0..numbers.len() - 1 {
        if numbers[place].saturating_sub(1) > numbers[place + 1] {
            return Some(place);
        }
    }
    None
}

/// The first place whose number a run of at most `most` equal bytes undercuts, in method 1 or as a repeat in method 2.
fn first_bad_run(
    row: &[u8],
    numbers: &[u16],
    most: u32,
    wide: &mut [u32],
    ends: &mut [u32],
) -> Option<usize>
    requires small { length row.now ≤ row_limit }
    requires size { length numbers.now ≡ length row.now + 1 }
    requires room { (length wide.old ≡ length row.now + 1) × (length ends.old ≡ length row.now + 1) }
    requires most { (0 < most) × (most ≤ 256) }
    ensures { FindsPlace (AreGoodRuns row.now numbers.now most) (length row.now) result }
{
    widen(numbers, wide);
    fill_run_stops(row, ends);
    first_undercut(wide, wide, ends, 2, most)
}

/// Method 2: the first place whose number a literal undercuts.
fn first_bad_literal(numbers: &[u16], sums: &mut [u32], ends: &mut [u32]) -> Option<usize>
    requires some { 0 < length numbers.now }
    requires small { length numbers.now ≤ row_limit + 1 }
    requires room { (length sums.old ≡ length numbers.now) × (length ends.old ≡ length numbers.now) }
    ensures { FindsPlace (AreGoodLiterals numbers.now) (length numbers.now - 1) result }
{
    add_places(numbers, sums);
    fill_ends(ends);
    first_undercut(sums, sums, ends, 1, 128)
}

/// Method 3: the first place whose number a replacement undercuts. An offset of few bytes is tried also where it is spelled
/// with more: that undercuts less. So the places where a replacement may start are always those from the place on, up to
/// a greatest offset or to the first byte that differs. One byte spells offsets up to 30, two up to 285, three up to 540,
/// and four up to all others; a replacement stops at least one place after its start.
fn first_bad_replacement(
    old: &[u8],
    row: &[u8],
    numbers: &[u16],
    wide: &mut [u32],
    sums: &mut [u32],
    ends: &mut [u32],
) -> Option<usize>
    requires same { length old.now ≡ length row.now }
    requires small { length row.now ≤ row_limit }
    requires size { length numbers.now ≡ length row.now + 1 }
    requires room { (length wide.old ≡ length row.now + 1) × (length sums.old ≡ length row.now + 1)
        × (length ends.old ≡ length row.now + 1) }
    ensures { FindsPlace (AreGoodReplacements old.now row.now numbers.now) (length row.now) result }
{
    widen(numbers, wide);
    fill_after_starts(numbers, sums);
    fill_start_ends(old, row, ends);
    let one = first_undercut(wide, sums, ends, 1, 31);
    let two = first_undercut(wide, sums, ends, 2, 286);
    let three = first_undercut(wide, sums, ends, 3, 541);
    let four = first_undercut(wide, sums, ends, 4, 796);
    first_place(first_place(one, two), first_place(three, four))
}
