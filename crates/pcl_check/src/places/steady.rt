//! Tests that suffice for numbers that never grow along a row, as least numbers don't: whose table passes is a row table.
//! One that doesn't may be a row table all the same.
//!
//! Where numbers never grow, of elements that cost the same the one that stops farthest undercuts a number most. So of each
//! place and each cost one element is tested, and of the places from the first 0 on none is: these need no data. Most rows
//! pass a test of each place beside the next one, which has no branch.

ghost use Rattle.std.specs.Prelude.{◌≡◌, ◌≢◌, ℕ, ◌+◌, ◌-◌, ◌<◌, ◌≤◌, length, slice_index, IsTrue};
ghost use Rattle.pcl_base.specs.Limits.{row_limit};
ghost use Rattle.pcl_check.specs.inner.PlacePasses.{IsGoodByte, AreGoodRuns, AreGoodLiterals, AreGoodReplacements};
ghost use Rattle.pcl_check.specs.inner.SteadyNumbers.{most_number, IsSteady, IsNeedEnd, FallsByRun, FallsByStart, AreLeastSums, TakesLater, IsKeptBefore, IsGoodFor};

use super::PLACES;
use pcl_base::{Method, ROW_LIMIT};

/// What least numbers can be at most: two bytes for each byte of a row.
const MOST_NUMBER: u16 = 2 * ROW_LIMIT as u16;

/// Whether all numbers of a row are good, over the row before its data comes. False says nothing.
pub fn is_steady_table(method: Method, old: &[u8], row: &[u8], numbers: &[u16]) -> bool
    requires same { length old.now ≡ length row.now }
    requires small { length row.now ≤ row_limit }
    requires size { length numbers.now ≡ length row.now + 1 }
    ensures { IsTrue result → (place : ℕ) → place ≤ length row.now → IsGoodFor method old.now row.now numbers.now place }
{
    let end = count_above_zero(numbers);
    if !is_need_end(old, row, numbers, end) || !is_steady(numbers) {
        return false;
    }
    match method {
        Method::Plain => greatest_fall(numbers) <= 1,
        Method::Runs => are_good_runs(row, numbers, end, 256),
        Method::Packed => {
            are_good_runs(row, numbers, end, 128) && are_good_literals(&numbers[..end + 1])
        }
        Method::Delta => are_good_replacements(old, row, numbers, end),
    }
}

/// How many numbers aren't 0: where none grows, the place of the first 0.
fn count_above_zero(numbers: &[u16]) -> usize
    requires { length numbers.now ≤ row_limit + 1 }
    ensures { result ≤ length numbers.now }
{
    let mut count = 0u16;
    for number in numbers {
        if *number > 0 {
            count += 1;
        }
    }
    usize::from(count)
}

/// Whether the number of a place is 0, and the byte before it differs from that of the row before.
fn is_need_end(old: &[u8], row: &[u8], numbers: &[u16], end: usize) -> bool
    requires same { length old.now ≡ length row.now }
    requires size { length numbers.now ≡ length row.now + 1 }
    ensures { IsTrue result → IsNeedEnd old.now row.now numbers.now end }
{
    end <= row.len() && numbers[end] == 0 && (end == 0 || old[end - 1] != row[end - 1])
}

/// Whether no number is above one before it, or above what least numbers can be.
fn is_steady(numbers: &[u16]) -> bool
    requires { 0 < length numbers.now }
    ensures { IsTrue result → IsSteady numbers.now }
{
    numbers[0] <= MOST_NUMBER && greatest_rise(numbers) == 0
}

/// How much numbers rise from a place to the next, at most.
fn greatest_rise(numbers: &[u16]) -> u16
    requires { 0 < length numbers.now }
    ensures { (place : ℕ) → place + 1 < length numbers.now
        → slice_index numbers.now (place + 1) ≤ slice_index numbers.now place + result }
{
    let mut rise = 0u16;
    for place in 0..numbers.len() - 1 {
        rise = rise.max(numbers[place + 1].saturating_sub(numbers[place]));
    }
    rise
}

/// How much numbers fall from a place to the next, at most.
fn greatest_fall(numbers: &[u16]) -> u16
    requires { 0 < length numbers.now }
    ensures { (place : ℕ) → place + 1 < length numbers.now
        → slice_index numbers.now place ≤ slice_index numbers.now (place + 1) + result }
{
    let mut fall = 0u16;
    for place in 0..numbers.len() - 1 {
        fall = fall.max(numbers[place].saturating_sub(numbers[place + 1]));
    }
    fall
}

/// Whether no run of at most `most` equal bytes undercuts a number: at the last two places that need data, and at all where
/// the numbers don't fall by what runs cost, by the stop that is farthest.
fn are_good_runs(row: &[u8], numbers: &[u16], end: usize, most: usize) -> bool
    requires size { length numbers.now ≡ length row.now + 1 }
    requires end { (end ≤ length row.now) × (slice_index numbers.now end ≡ 0) }
    requires steady { IsSteady numbers.now }
    requires small { (length row.now ≤ row_limit) × (most ≤ 256) }
    ensures { IsTrue result → (place : ℕ) → AreGoodRuns row.now numbers.now most place }
{
    let inner = end.saturating_sub(2);
    let from = if fall_by_runs(row, numbers, inner) {
        inner
    } else {
        0
    };
    let mut stop = end;
    for place in (from..end).rev() {
        if place + 1 < end && row[place] != row[place + 1] {
            stop = place + 1;
        }
        if numbers[place] > 2 + numbers[stop.min(place + most)] {
            return false;
        }
    }
    true
}

/// Whether each number before an end is at most the next one, or the one after that, and what a run costs that ends there:
/// with two equal bytes left, the number after both counts, since they may be literal bytes too. This tests runs of any
/// length, and says no where a run is longer than one element can be.
fn fall_by_runs(row: &[u8], numbers: &[u16], end: usize) -> bool
    requires size { length numbers.now ≡ length row.now + 1 }
    requires end { end ≤ length row.now - 2 }
    requires steady { IsSteady numbers.now }
    ensures { IsTrue result → (place : ℕ) → place < end → FallsByRun row.now numbers.now place }
{
    let mut excess = 0u16;
    for place in 0..end {
        let next = numbers[place + 1] + run_cost(row[place], row[place + 1]);
        let beyond = numbers[place + 2] + run_cost(row[place + 1], row[place + 2]);
        let least = next.max(beyond);
        excess = excess.max(numbers[place].saturating_sub(least));
    }
    excess == 0
}

/// What a run costs that ends between two bytes, if it does.
#[inline(always)]
fn run_cost(byte: u8, next: u8) -> u16
    ensures ends { byte ≢ next → result ≡ 2 }
    ensures goes_on { byte ≡ next → result ≡ 0 }
{
    if byte == next { 0 } else { 2 }
}

/// Method 2: whether no literal undercuts a number. The least sum of a number and its place among 128 places comes from
/// those among 8, 16, 32 and 64.
fn are_good_literals(numbers: &[u16]) -> bool
    requires size { (0 < length numbers.now) × (length numbers.now ≤ row_limit + 1) }
    requires small { (place : ℕ) → slice_index numbers.now place ≤ most_number }
    ensures { IsTrue result → (place : ℕ) → AreGoodLiterals numbers.now place }
{
    let mut room = [0; PLACES];
    let least = &mut room[..numbers.len()];
    fill_least_of_eight(numbers, least);
    take_later(least, 8);
    take_later(least, 16);
    take_later(least, 32);
    take_later(least, 64);
    greatest_excess(numbers, least) <= 1
}

/// How much a number and its place are above the least sum at the next place, at most.
fn greatest_excess(numbers: &[u16], least: &[u16]) -> u16
    requires size { (0 < length numbers.now) × (length numbers.now ≤ row_limit + 1) × (length least.now ≡ length numbers.now) }
    requires small { (place : ℕ) → slice_index numbers.now place ≤ most_number }
    ensures { (place : ℕ) → place + 1 < length numbers.now
        → place + slice_index numbers.now place ≤ slice_index least.now (place + 1) + result }
{
    let mut excess = 0u16;
    for place in 0..numbers.len() - 1 {
        let sum = place as u16 + numbers[place];
        excess = excess.max(sum.saturating_sub(least[place + 1]));
    }
    excess
}

/// For each place the least sum of a number and its place, of eight places from it on.
fn fill_least_of_eight(numbers: &[u16], least: &mut [u16])
    requires size { (length numbers.now ≤ row_limit + 1) × (length least.old ≡ length numbers.now) }
    requires small { (place : ℕ) → slice_index numbers.now place ≤ most_number }
    ensures size { length least.new ≡ length numbers.now }
    ensures sums { AreLeastSums numbers.now 8 least.new }
{
    for place in 0..numbers.len() {
        least[place] = place as u16 + numbers[place];
    }
    take_later(least, 1);
    take_later(least, 2);
    take_later(least, 4);
}

/// Takes for each value the lesser one of it and the one that far after it.
#[inline(always)]
fn take_later(least: &mut [u16], count: usize)
    requires { count ≤ 64 }
    ensures { TakesLater count least.old least.new }
{
    for place in 0..least.len().saturating_sub(count) {
        least[place] = least[place].min(least[place + count]);
    }
}

/// Method 3: whether no replacement undercuts a number. Of each count of bytes of a command, the start is tested that is
/// farthest: it is at the first byte that differs, or before it.
fn are_good_replacements(old: &[u8], row: &[u8], numbers: &[u16], end: usize) -> bool
    requires same { length old.now ≡ length row.now }
    requires small { length row.now ≤ row_limit }
    requires size { length numbers.now ≡ length row.now + 1 }
    requires end { IsNeedEnd old.now row.now numbers.now end }
    requires steady { IsSteady numbers.now }
    ensures { IsTrue result → (place : ℕ) → AreGoodReplacements old.now row.now numbers.now place }
{
    let mut room = [0; PLACES];
    let least = &mut room[..end + 1];
    fill_least_of_eight(&numbers[..end + 1], least);
    if fall_by_starts(old, row, numbers, least, end) {
        return true;
    }
    let mut start = end;
    for place in (0..end).rev() {
        if old[place] != row[place] {
            start = place;
        }
        if !is_kept_before(numbers[place], least, place, start) {
            return false;
        }
    }
    true
}

/// Whether the numbers before an end fall by at most what replacements cost: not at a byte that stays, since a replacement
/// that starts after it may also be tried at the next place, and at a byte that differs by one that starts there. This says
/// no where an offset takes bytes of its own.
fn fall_by_starts(old: &[u8], row: &[u8], numbers: &[u16], least: &[u16], end: usize) -> bool
    requires same { length old.now ≡ length row.now }
    requires size { length numbers.now ≡ length row.now + 1 }
    requires end { (end ≤ length row.now) × (length least.now ≡ end + 1) }
    requires small { (length row.now ≤ row_limit) × ((place : ℕ) → slice_index numbers.now place ≤ most_number) }
    ensures { IsTrue result → (place : ℕ) → place < end → FallsByStart old.now row.now numbers.now least.now place }
{
    let mut excess = 0u16;
    for place in 0..end {
        let sum = place as u16 + numbers[place];
        let kept = place as u16 + numbers[place + 1];
        let replaced = least[place + 1].saturating_add(1);
        let bound = if old[place] == row[place] {
            kept
        } else {
            replaced
        };
        excess = excess.max(sum.saturating_sub(bound));
    }
    excess == 0
}

/// Whether no replacement that starts up to a place undercuts a number. One byte spells offsets up to 30, two up to 285,
/// three up to 540, and four up to all others.
fn is_kept_before(number: u16, least: &[u16], place: usize, start: usize) -> bool
    requires order { (place ≤ start) × (start + 1 < length least.now) }
    requires small { length least.now ≤ row_limit + 1 }
    ensures { IsTrue result → IsKeptBefore number least.now place start }
{
    is_kept(number, least, start.min(place + 30), 1)
        && (start <= place + 30
            || is_kept(number, least, start.min(place + 285), 2)
                && (start <= place + 285
                    || is_kept(number, least, start.min(place + 540), 3)
                        && is_kept(number, least, start, 4)))
}

/// Whether no replacement that starts at a place, after a command of this many bytes, undercuts a number.
fn is_kept(number: u16, least: &[u16], start: usize, cost: usize) -> bool
    requires within { start + 1 < length least.now }
    requires small { (length least.now ≤ row_limit + 1) × (cost ≤ 4) }
    ensures { IsTrue result → number + start ≤ cost + slice_index least.now (start + 1) }
{
    usize::from(number) + start <= cost + usize::from(least[start + 1])
}
