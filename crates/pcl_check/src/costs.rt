//! What steps cost, in bytes.

ghost use Rattle.std.specs.Prelude.{◌+◌, ◌≤◌, ◌↔◌, IsTrue};

/// Whether a number is at most a cost and another number, whatever these are.
pub fn is_within(number: u32, cost: u32, next: u32) -> bool
    ensures { IsTrue result ↔ (number ≤ cost + next) }
{
    number.saturating_sub(cost) <= next
}
