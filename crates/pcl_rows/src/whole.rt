//! Row data that is whole.

ghost use Rattle.std.specs.Prelude.{◌↔◌, IsTrue};
ghost use Rattle.pcl_rows.specs.Rows.{IsWhole};

use crate::front::Front;
use pcl_base::Method;

/// Whether row data is of whole elements and reaches no place past a row of `row_bytes` bytes.
pub fn is_whole(method: Method, bytes: &[u8], row_bytes: usize) -> bool
    ensures { IsTrue result ↔ IsWhole method bytes.now row_bytes }
{
    match method {
        // Each byte is an element of its own.
        Method::Plain => bytes.len() <= row_bytes,
        Method::Runs | Method::Packed | Method::Delta => {
            are_elements_whole(method, bytes, row_bytes)
        }
    }
}

/// The same, found by a walk over the elements.
fn are_elements_whole(method: Method, bytes: &[u8], row_bytes: usize) -> bool
    ensures { IsTrue result ↔ IsWhole method bytes.now row_bytes }
{
    let mut rest = bytes;
    let mut room = row_bytes as u128;
    while !rest.is_empty() {
        let front = Front::read(method, rest);
        let stop = front.offset + (front.copies * front.bytes.len()) as u128;
        if !front.is_whole || room < stop {
            return false;
        }
        room -= stop;
        rest = front.rest;
    }
    true
}
