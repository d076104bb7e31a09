//! Skips of white rows, tested against a table of numbers.

ghost use Rattle.std.specs.Prelude.{◌≡◌, ℕ, ◌+◌, ◌-◌, ◌<◌, ◌≤◌, ◌++◌, true, length, IfOk};
ghost use Rattle.pcl_output.specs.Table.{rest};
ghost use Rattle.pcl_output.specs.Table.{node_number};
ghost use Rattle.pcl_check.specs.Edges.{FindsBad};
ghost use Rattle.pcl_check.specs.inner.EdgePasses.{At, AreEnds, AreGoodSkipsOf, AreGoodSkipsTo, rests};

use super::found::first_of;
use crate::costs::is_within;
use pcl_base::Method;
use pcl_coders::Window;
use pcl_output::{Node, Table};

/// The first node inside a sequence that a skip of white rows undercuts. A count of few digits is tried also where
/// it is spelled with more: that undercuts less. So the rows that a skip of this many digits may lead to are always those
/// from the next row on, up to a greatest count or to the end of the white rows.
pub fn first_bad_skip(
    table: &Table,
    ends: &[u32],
    method: Method,
    numbers: &mut [u32],
    queue: &mut [usize],
) -> Option<Node>
    requires ends { AreEnds ends.now (length table.now - 1) }
    requires size { length ends.now ≡ length table.now }
    requires room { (length numbers.old ≡ length ends.now) × (length queue.old ≡ length ends.now) }
    ensures { FindsBad (At method true (AreGoodSkipsTo ends.now (node_number table.now) method)) (length table.now - 1) result }
{
    let one = first_bad_skip_of(table, ends, method, 1, 9, numbers, queue);
    let two = first_bad_skip_of(table, ends, method, 2, 99, numbers, queue);
    let three = first_bad_skip_of(table, ends, method, 3, 999, numbers, queue);
    let four = first_bad_skip_of(table, ends, method, 4, 9999, numbers, queue);
    first_of(first_of(one, two), first_of(three, four))
}

/// The same for skips of at most `most` rows, each count spelled with this many digits.
fn first_bad_skip_of(
    table: &Table,
    ends: &[u32],
    method: Method,
    digits: u32,
    most: u32,
    numbers: &mut [u32],
    queue: &mut [usize],
) -> Option<Node>
    requires ends { AreEnds ends.now (length table.now - 1) }
    requires size { length ends.now ≡ length table.now }
    requires most { (0 < most) × (most ≤ 9999) × (digits ≤ 4) }
    requires room { (length numbers.old ≡ length ends.now) × (length queue.old ≡ length ends.now) }
    ensures { FindsBad (At method true (AreGoodSkipsOf ends.now (node_number table.now) method digits most)) (length table.now - 1)
        result }
{
    let mut window = Window::new(numbers, queue);
    let mut stop = 0;
    for row in 0..ends.len() as u32 {
        let last = ends[row as usize].min(row + most);
        put_rests(&mut window, table, method, stop, last + 1);
        stop = last + 1;
        window.take();
        if last > row && !is_within(table.number(row, method, true), digits + 1, window.least()) {
            return Some(Node {
                row,
                method,
                inside: true,
            });
        }
    }
    None
}

/// Puts the numbers after some rows on into a window, for each the lesser of those inside a sequence and outside.
fn put_rests(window: &mut Window<'_>, table: &Table, method: Method, from: u32, to: u32)
    requires order { from ≤ to }
    requires within { to ≤ length table.now }
    requires room { to - from ≤ window.old.room }
    ensures numbers { window.new.numbers ≡ window.old.numbers ++ rests (node_number table.now) method from (to - from) }
    ensures room { window.new.room + (to - from) ≡ window.old.room }
{
    for row in from..to {
        window.put(table.rest(row, method));
    }
}
