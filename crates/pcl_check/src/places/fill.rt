//! What the places of a row are tested with: where elements stop at the latest, and what is counted there.

ghost use Rattle.std.specs.Prelude.{◌≡◌, ℕ, ◌+◌, ◌-◌, ◌<◌, ◌≤◌, min, length, slice_index, drop};
ghost use Rattle.pcl_base.specs.Limits.{row_limit};
ghost use Rattle.pcl_coders.specs.inner.Choosing.{IsLeastLen};
ghost use Rattle.pcl_check.specs.inner.PlacePasses.{AreRunStops, AreStartEnds, ArePlaced, AreAfterStarts};

/// The numbers, wider.
pub fn widen(numbers: &[u16], wide: &mut [u32])
    requires { length wide.old ≡ length numbers.now }
    ensures { wide.new ≡ numbers.now }
{
    for (place, number) in numbers.iter().enumerate() {
        wide[place] = u32::from(*number);
    }
}

/// Each number and its place.
pub fn add_places(numbers: &[u16], sums: &mut [u32])
    requires size { length sums.old ≡ length numbers.now }
    requires small { length numbers.now ≤ row_limit + 1 }
    ensures { ArePlaced numbers.now sums.new }
{
    for (place, number) in numbers.iter().enumerate() {
        sums[place] = place as u32 + u32::from(*number);
    }
}

/// The end of a row, for all its places.
pub fn fill_ends(ends: &mut [u32])
    requires { (0 < length ends.old) × (length ends.old ≤ row_limit + 1) }
    ensures { (place : ℕ) → place < length ends.new → slice_index ends.new place ≡ length ends.new - 1 }
{
    let last = (ends.len() - 1) as u32;
    for end in ends.iter_mut() {
        *end = last;
    }
}

/// For each place of a row where the run of equal bytes ends.
pub fn fill_run_stops(row: &[u8], ends: &mut [u32])
    requires small { length row.now ≤ row_limit }
    requires size { length ends.old ≡ length row.now + 1 }
    ensures { AreRunStops row.now ends.new 0 }
{
    let len = row.len();
    ends[len] = len as u32;
    for place in (0..len).rev() {
        ends[place] = if place + 1 < len && row[place] == row[place + 1] {
            ends[place + 1]
        } else {
            place as u32 + 1
        };
    }
}

/// For each place of a row the place after the first byte that differs from the row before, or the row's end.
pub fn fill_start_ends(old: &[u8], row: &[u8], ends: &mut [u32])
    requires same { length old.now ≡ length row.now }
    requires small { length row.now ≤ row_limit }
    requires size { length ends.old ≡ length row.now + 1 }
    ensures { AreStartEnds old.now row.now ends.new 0 }
{
    let len = row.len();
    ends[len] = len as u32;
    for place in (0..len).rev() {
        ends[place] = if place + 1 < len && old[place] == row[place] {
            ends[place + 1]
        } else {
            place as u32 + 1
        };
    }
}

/// For each start of a replacement, at the place after it, the least of the replaced bytes and the number after them.
pub fn fill_after_starts(numbers: &[u16], sums: &mut [u32])
    requires size { length sums.old ≡ length numbers.now }
    requires some { 0 < length numbers.now }
    requires small { length numbers.now ≤ row_limit + 1 }
    ensures { AreAfterStarts numbers.now sums.new }
{
    for start in 0..numbers.len() - 1 {
        sums[start + 1] = least_after(&numbers[start..]);
    }
}

/// The least of the replaced bytes, one to eight, and the number after them, where a replacement starts at the first
/// place.
fn least_after(numbers: &[u16]) -> u32
    requires some { 1 < length numbers.now }
    requires small { length numbers.now ≤ row_limit + 1 }
    ensures { (len : ℕ) × IsLeastLen numbers.now 1 (min (length numbers.now - 1) 8) 0 1 len result }
{
    let most = (numbers.len() - 1).min(8);
    let mut least = u32::from(numbers[1]) + 1;
    for len in 2..most + 1 {
        least = least.min(u32::from(numbers[len]) + len as u32);
    }
    least
}
