//! Runs of bits and rectangles of dots of one ink. Bit 0 of a list is the highest bit of its first byte.

ghost use Rattle.std.specs.Prelude.{◌≡◌, ℕ, ◌+◌, ◌*◌, ◌/◌, ◌^◌, ◌<◌, ◌≤◌, if◌then◌else◌, length, All};
ghost use Rattle.pcl_bitmap.specs.Bitmap.{bit_of_byte, dot_of_row};
ghost use Rattle.pcl_bitmap.specs.Dots.{is_black_ink, rectangle_dot, in_run};

use crate::Ink;
use crate::area::Area;
use crate::bits::leading_ones;

// A byte of eight dots of one ink.
fn eight_dots(ink: Ink) -> u8
    ensures { (k : ℕ) → k < 8 → bit_of_byte result k ≡ is_black_ink ink }
{
    match ink {
        Ink::Black => 0xFF,
        Ink::White => 0,
    }
}

// The byte with the ink on its bits from `from` up to `end`.
fn ink_byte(byte: u8, from: usize, end: usize, ink: Ink) -> u8
    ensures { (k : ℕ) → k < 8 → bit_of_byte result k ≡ (if in_run from end k then is_black_ink ink else bit_of_byte byte k) }
{
    let mask = leading_ones(end) & !leading_ones(from);
    match ink {
        Ink::Black => byte | mask,
        Ink::White => byte & !mask,
    }
}

// Inks the bits of `target` from `from` up to `end`, all in one byte.
fn fill_in_byte(target: &mut [u8], from: usize, end: usize, ink: Ink)
    requires one_byte { end ≤ 8 * (from / 8) + 8 }
    requires room { end ≤ 8 * length target.old }
    ensures { (k : ℕ) → dot_of_row target.new k ≡ (if in_run from end k then is_black_ink ink else dot_of_row target.old k) }
{
    let i = from / 8;
    if from < end {
        target[i] = ink_byte(target[i], from - 8 * i, end - 8 * i, ink);
    }
}

// Inks the bytes of `target` from byte `first` up to byte `last`.
fn fill_bytes(target: &mut [u8], first: usize, last: usize, ink: Ink)
    requires order { first ≤ last }
    requires room { last ≤ length target.old }
    ensures { (k : ℕ) → dot_of_row target.new k
        ≡ (if in_run (8 * first) (8 * last) k then is_black_ink ink else dot_of_row target.old k) }
{
    target[first..last].fill(eight_dots(ink));
}

/// Inks the bits of `target` from bit `from` up to bit `end`: whole bytes at once, the first and the
/// last by a mask.
pub fn fill_bits(target: &mut [u8], from: usize, end: usize, ink: Ink)
    requires order { from ≤ end }
    requires room { end ≤ 8 * length target.old }
    requires small { length target.old < 2 ^ 32 }
    ensures bits { (k : ℕ) → dot_of_row target.new k ≡ (if in_run from end k then is_black_ink ink else dot_of_row target.old k) }
    ensures in_bytes { All (λ byte. byte < 256) target.new }
{
    let head = end.min(8 * from.div_ceil(8));
    let tail = head.max(8 * (end / 8));
    fill_in_byte(target, from, head, ink);
    fill_bytes(target, head / 8, tail / 8, ink);
    fill_in_byte(target, tail, end, ink);
}

/// Inks an area of a page that has `row_bytes` bytes a row.
pub fn fill_rows(page: &mut [u8], row_bytes: usize, area: Area, ink: Ink)
    requires wide { area.x + area.width ≤ 8 * row_bytes }
    requires high { (area.y + area.height) * row_bytes ≤ length page.old }
    requires small { length page.old < 2 ^ 32 }
    requires rows { area.y + area.height < 2 ^ 32 }
    ensures dots { (px py : ℕ) → px < 8 * row_bytes → dot_of_row page.new (8 * (py * row_bytes) + px)
        ≡ (if rectangle_dot area.x area.y area.width area.height px py then is_black_ink ink
        else dot_of_row page.old (8 * (py * row_bytes) + px)) }
    ensures in_bytes { All (λ byte. byte < 256) page.new }
{
    for row in area.y..area.y + area.height {
        let start = 8 * (row * row_bytes) + area.x;
        fill_bits(page, start, start + area.width, ink);
    }
}
