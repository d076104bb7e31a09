//! Commands and fields with numbers.

use itoa::Buffer;
use std::alloc::AllocError;

/// Appends a label and a number in decimal after it.
pub fn append_labelled(label: &[u8], number: u32, out: &mut Vec<u8>) -> Result<(), AllocError> {
    let mut digits = Buffer::new();
    out.extend_from_slice(label)?;
    out.extend_from_slice(digits.format(number).as_bytes())
}

/// Appends a field of two bytes, the higher one first. A number that has no place in it becomes the largest that has
/// no sign.
pub fn append_word(number: u32, out: &mut Vec<u8>) -> Result<(), AllocError> {
    let word = u16::try_from(number.min(32_767)).unwrap_or(0);
    out.extend_from_slice(&word.to_be_bytes())
}

/// How many digits a number has.
pub fn digit_count(number: u32) -> usize {
    Buffer::new().format(number).len()
}

/// Appends a number with its sign, in decimal.
pub fn append_signed(number: i32, out: &mut Vec<u8>) -> Result<(), AllocError> {
    let sign = if number < 0 { b"-" } else { b"+" };
    append_labelled(sign, number.unsigned_abs(), out)
}

/// The number of a place, from 0. There are fewer than 4,294,967,295 of what is numbered.
pub fn number_of_place(place: usize) -> u32 {
    u32::try_from(place).unwrap_or(u32::MAX)
}

/// A number of dots, rows or pages in two bytes. No page has 65,535 dots in a row or in a column.
pub fn short_number(number: u32) -> u16 {
    u16::try_from(number).unwrap_or(u16::MAX)
}
