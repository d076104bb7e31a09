//! The element that begins the least data for the rest of a row.

ghost use Rattle.std.specs.Prelude.{◌≡◌, ℕ, ◌+◌, ◌-◌, ◌*◌, ◌<◌, ◌≤◌, min, length, slice_index, MatchOption};
ghost use Rattle.pcl_base.specs.Limits.{row_limit};
ghost use Rattle.pcl_coders.specs.inner.Choosing.{IsLeastLen, IsLiteralLen, NoLiteral, IsPlace};
ghost use Rattle.pcl_coders.specs.inner.Filling.{AreRightFrom};
ghost use Rattle.pcl_coders.specs.inner.Replacement.{replacement_bytes};

use crate::shape::Shape;
use pcl_base::Method;
use pcl_bitmap::{first_difference, run_end};

/// An element, and how many bytes it and least data after it have together.
#[derive(Clone, Copy)]
pub struct Choice {
    pub shape: Shape,
    pub sum: usize,
}

impl Choice {
    ghost use Rattle.pcl_coders.specs.inner.Shape.{IsShapeChoice, IsReplacement};

    /// The element that begins least data of a method for the wanted bytes, over the old ones, where the
    /// numbers are the least ones of their places and data is needed. Among several: of methods 1 and 2 the
    /// one that gives the most bytes, a repeat before a literal; of method 3 the one of the greatest offset,
    /// then of the fewest bytes. No length and no offset is tried that can't be the best.
    pub fn along(method: Method, old: &[u8], wanted: &[u8], numbers: &[u16]) -> Choice
        requires same { length old.now ≡ length wanted.now }
        requires place { IsPlace wanted.now numbers.now }
        requires right { AreRightFrom method old.now wanted.now numbers.now 0 }
        requires needed { 0 < slice_index numbers.now 0 }
        ensures { IsShapeChoice method old.now wanted.now numbers.now result.shape result.sum }
    {
        match method {
            Method::Plain => Choice {
                shape: Shape::SingleByte,
                sum: 1 + usize::from(numbers[1]),
            },
            Method::Runs => {
                let len = run_end(wanted, 0).min(256);
                let sum = 2 + usize::from(numbers[len]);
                let shape = Shape::Run { len };
                Choice { shape, sum }
            }
            Method::Delta => {
                let start = first_difference(old, wanted);
                Choice::after(start, wanted.len(), numbers)
            }
            Method::Packed => {
                let sum = usize::from(numbers[0]);
                let run = run_end(wanted, 0).min(128);
                let is_repeat = run >= 2 && usize::from(numbers[run]) + 2 == sum;
                if let Some(len) = literal_len(numbers, wanted.len().min(128)) {
                    if !is_repeat || run < len {
                        let shape = Shape::LiteralRun { len };
                        return Choice { shape, sum };
                    }
                }
                let shape = Shape::RepeatRun { len: run };
                Choice { shape, sum }
            }
        }
    }

    /// The replacement after an offset that begins least data.
    fn after(offset: usize, row_bytes: usize, numbers: &[u16]) -> Choice
        requires inside { offset < row_bytes }
        requires size { length numbers.now ≡ row_bytes + 1 }
        requires small { row_bytes ≤ row_limit }
        ensures { IsReplacement offset row_bytes numbers.now result.shape result.sum }
    {
        let best = LeastLen::among(
            &numbers[offset..],
            1,
            (row_bytes - offset).min(8),
            command_bytes(offset),
            1,
        );
        Choice {
            shape: Shape::Replace {
                offset,
                len: best.len,
            },
            sum: best.sum,
        }
    }
}

/// How many bytes the command of a replacement has, with those that lengthen its offset.
pub fn command_bytes(offset: usize) -> usize
    ensures { result ≡ replacement_bytes offset }
{
    if offset < 31 {
        1
    } else {
        2 + (offset - 31) / 255
    }
}

/// The least of the replaced bytes and the number after them, where a replacement starts at the first place.
pub fn least_after(numbers: &[u16]) -> usize
    requires some { 1 < length numbers.now }
    requires short { length numbers.now ≤ 601 }
    requires small { (k : ℕ) → 1 ≤ k → slice_index numbers.now k ≤ 1200 }
    ensures { (len : ℕ) × IsLeastLen numbers.now 1 (min (length numbers.now - 1) 8) 0 1 len result }
{
    if numbers.len() > 8 {
        usize::from(least_of_eight(numbers))
    } else {
        LeastLen::among(numbers, 1, numbers.len() - 1, 0, 1).sum
    }
}

/// The same where eight places are after the first: one instruction for vectors.
#[inline(always)]
fn least_of_eight(numbers: &[u16]) -> u16
    requires long { 8 < length numbers.now }
    requires small { (k : ℕ) → 1 ≤ k → slice_index numbers.now k ≤ 1200 }
    ensures { (len : ℕ) × IsLeastLen numbers.now 1 8 0 1 len result }
{
    (numbers[1] + 1)
        .min(numbers[2] + 2)
        .min(numbers[3] + 3)
        .min(numbers[4] + 4)
        .min(numbers[5] + 5)
        .min(numbers[6] + 6)
        .min(numbers[7] + 7)
        .min(numbers[8] + 8)
}

/// The longest literal, of at most this many bytes, that begins data of the first number. Numbers never grow to the
/// right, so a length that has some bytes too many is that far from the next that may do.
fn literal_len(numbers: &[u16], most: usize) -> Option<usize>
    requires within { most < length numbers.now }
    requires small { most ≤ 128 }
    requires falls { (i j : ℕ) → i ≤ j → j ≤ most → slice_index numbers.now j ≤ slice_index numbers.now i }
    requires least { (k : ℕ) → 1 ≤ k → k ≤ most → slice_index numbers.now 0 ≤ 1 + k + slice_index numbers.now k }
    ensures { MatchOption result (NoLiteral numbers.now most) (IsLiteralLen numbers.now most) }
{
    let least = usize::from(numbers[0]);
    let mut len = most;
    while len > 0 {
        let excess = 1 + len + usize::from(numbers[len]) - least;
        if excess == 0 {
            return Some(len);
        }
        len = len.saturating_sub(excess);
    }
    None
}

/// A length of an element, and how many bytes it and least data after it have together.
#[derive(Clone, Copy)]
struct LeastLen {
    len: usize,
    sum: usize,
}

impl LeastLen {
    /// The shortest of the best lengths from `from` to `to`, where an element has `head` bytes, and `each` more for
    /// each byte that it gives. `numbers` are those of the places after.
    fn among(numbers: &[u16], from: usize, to: usize, head: usize, each: usize) -> LeastLen
        requires order { from ≤ to }
        requires within { to < length numbers.now }
        requires small { (to ≤ 1000) × (head ≤ 1000) × (each ≤ 1) }
        ensures { IsLeastLen numbers.now from to head each result.len result.sum }
    {
        let mut best = LeastLen::at(numbers, from, head, each);
        for len in from + 1..to + 1 {
            let next = LeastLen::at(numbers, len, head, each);
            if next.sum < best.sum {
                best = next;
            }
        }
        best
    }

    /// What one length gives.
    fn at(numbers: &[u16], len: usize, head: usize, each: usize) -> LeastLen
        requires within { len < length numbers.now }
        requires small { (len ≤ 1000) × (head ≤ 1000) × (each ≤ 1) }
        ensures { (result.len ≡ len) × (result.sum ≡ head + each * len + slice_index numbers.now len) }
    {
        LeastLen {
            len,
            sum: head + each * len + usize::from(numbers[len]),
        }
    }
}
