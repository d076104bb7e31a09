//! The first dot at which rows of bytes differ.

ghost use Rattle.std.specs.Prelude.{◌≡◌, ◌≢◌, ℕ, ◌^◌, ◌<◌, ◌≤◌, length, MatchOption};
ghost use Rattle.pcl_base.specs.Limits.{row_limit};
ghost use Rattle.pcl_same.specs.inner.Rows.{IsFirstBit, IsFirstDotOfRow};

use pcl_bitmap::first_difference;

/// The leftmost dot at which two rows of one length differ.
pub fn first_dot_of_row(one: &[u8], other: &[u8]) -> Option<u32>
    requires len { length one.now ≡ length other.now }
    requires small { length one.now ≤ row_limit }
    ensures { MatchOption result (one.now ≡ other.now) (IsFirstDotOfRow one.now other.now) }
{
    let place = first_difference(one, other);
    if place == one.len() {
        return None;
    }
    Some(8 * place as u32 + first_bit(one[place], other[place]))
}

/// The leftmost bit at which two bytes differ, from 0 for the highest.
fn first_bit(one: u8, other: u8) -> u32
    requires { one ≢ other }
    ensures { IsFirstBit one other result }
{
    (one ^ other).leading_zeros()
}
