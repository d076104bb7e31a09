//! Elements of a cost that stop at one of the next places, tested by a window.

ghost use Rattle.std.specs.Prelude.{◌≡◌, ℕ, ◌+◌, ◌-◌, ◌<◌, ◌≤◌, ◌++◌, length, slice_index};
ghost use Rattle.pcl_base.specs.Limits.{row_limit};
ghost use Rattle.pcl_check.specs.inner.EdgePasses.{AreEnds, values};
ghost use Rattle.pcl_check.specs.Places.{FindsPlace};
ghost use Rattle.pcl_check.specs.inner.PlacePasses.{IsNotUndercut};

use super::PLACES;
use crate::costs::is_within;
use pcl_coders::Window;

/// The first place whose number is above a cost and what is counted at one of the next `most` places, up to the end of
/// that place.
pub fn first_undercut(
    numbers: &[u32],
    sums: &[u32],
    ends: &[u32],
    cost: u32,
    most: u32,
) -> Option<usize>
    requires ends { AreEnds ends.now (length numbers.now - 1) }
    requires sizes { (length ends.now ≡ length numbers.now) × (length sums.now ≡ length numbers.now) }
    requires small { length numbers.now ≤ row_limit + 1 }
    requires most { (0 < most) × (most ≤ 1000) }
    ensures { FindsPlace (IsNotUndercut numbers.now sums.now ends.now cost most) (length numbers.now - 1) result }
{
    let mut room = [0; PLACES];
    let mut queue = [0; PLACES];
    let mut window = Window::new(&mut room, &mut queue);
    let mut stop = 0;
    for place in 0..numbers.len() {
        let last = ends[place].min(place as u32 + most) as usize;
        put_sums(&mut window, sums, stop, last + 1);
        stop = last + 1;
        window.take();
        if last > place && !is_within(numbers[place], cost, window.least()) {
            return Some(place);
        }
    }
    None
}

/// Puts what is counted at some places into a window.
fn put_sums(window: &mut Window<'_>, sums: &[u32], from: usize, to: usize)
    requires order { from ≤ to }
    requires within { to ≤ length sums.now }
    requires room { to - from ≤ window.old.room }
    ensures numbers { window.new.numbers ≡ window.old.numbers ++ values (slice_index sums.now) from (to - from) }
    ensures room { window.new.room + (to - from) ≡ window.old.room }
{
    for place in from..to {
        window.put(sums[place]);
    }
}
