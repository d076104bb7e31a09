//! The element at the front of row data.

ghost use Rattle.std.specs.Prelude.{◌^◌, ◌<◌, ◌≤◌, length};
ghost use Rattle.pcl_rows.specs.inner.Fronts.{IsFront};

use crate::head::Opening;
use pcl_base::Method;

/// An element, or as much of it as stands in the data.
#[derive(Clone, Copy)]
pub struct Front<'a> {
    /// How many bytes of the row stay before the given ones.
    pub offset: u128,
    /// How often each new byte is given.
    pub copies: usize,
    /// The new bytes that stand in it.
    pub bytes: &'a [u8],
    /// The data after it.
    pub rest: &'a [u8],
    /// Whether it has all its bytes.
    pub is_whole: bool,
}

impl<'a> Front<'a> {
    /// Reads the first element of row data.
    #[inline(always)]
    pub fn read(method: Method, bytes: &'a [u8]) -> Front<'a>
        requires { 0 < length bytes.now }
        ensures few { (length result.bytes.now ≤ 128) × (result.copies ≤ 256) × (result.offset < 2 ^ 100) }
        ensures front { IsFront method bytes.now result.offset result.copies result.bytes.now result.rest.now result.is_whole }
    {
        let opening = Opening::read(method, bytes);
        let room = bytes.len().saturating_sub(opening.len);
        let count = opening.new_count.min(room);
        let (_, after) = bytes.split_at(bytes.len() - room);
        let (new, rest) = after.split_at(count);
        Front {
            offset: opening.offset,
            copies: opening.copies,
            bytes: new,
            rest,
            // An opening that says no new bytes is one byte, so one that the data ends within says some.
            is_whole: count == opening.new_count,
        }
    }
}
