//! Rows of raster data whose dots are squares of the page's dots.

ghost use Rattle.std.specs.Prelude.{◌≡◌, ℕ, ◌+◌, ◌-◌, ◌*◌, ◌/◌, ◌^◌, ◌<◌, ◌≤◌, ◌||◌, if◌then◌else◌, length, All};
ghost use Rattle.pcl_base.specs.Limits.{row_limit};
ghost use Rattle.std.specs.Int.{bit_at};
ghost use Rattle.pcl_bitmap.specs.Bitmap.{bit_of_byte, dot_of_row};
ghost use Rattle.pcl_bitmap.specs.Dots.{rectangle_dot, in_run};

use crate::area::Area;
use crate::bits;
use pcl_base::ROW_LIMIT;

/// Room for a row of the page, and for what else the first and the last byte spread to that it has dots of.
pub const SPREAD_LIMIT: usize = ROW_LIMIT + 16;

// The bits of a byte, each twice: halves, then pairs, then single bits move apart.
fn doubled_bits(byte: u8) -> u16
    ensures { (j : ℕ) → bit_at result j ≡ bit_at byte (j / 2) }
{
    let byte = u16::from(byte);
    let halves = (byte | byte << 4) & 0x0F0F;
    let pairs = (halves | halves << 2) & 0x3333;
    let bits = (pairs | pairs << 1) & 0x5555;
    bits | bits << 1
}

/// The bits of a byte, each `scale` times, from the lowest on.
pub fn spread_bits(byte: u8, scale: usize) -> u64
    requires { (1 ≤ scale) × (scale ≤ 8) }
    ensures { (j : ℕ) → bit_at result j ≡ bit_at byte (j / scale) }
{
    if scale == 2 {
        return u64::from(doubled_bits(byte));
    }
    let square = 0xFF_u64 >> (8 - scale);
    let mut wide = 0;
    for i in 0..8 {
        if (byte >> i) & 1 == 1 {
            wide |= square << (scale * i);
        }
    }
    wide
}

// Writes the bits of a byte, each `scale` times, to the `scale` bytes of `target` from byte `at` on.
fn spread_byte(target: &mut [u8], at: usize, scale: usize, byte: u8)
    requires scale { (1 ≤ scale) × (scale ≤ 8) }
    requires room { at + scale ≤ length target.old }
    ensures { (k : ℕ) → dot_of_row target.new k ≡ (if in_run (8 * at) (8 * (at + scale)) k then bit_of_byte byte ((k - 8 * at) / scale)
        else dot_of_row target.old k) }
{
    let wide = spread_bits(byte, scale);
    for part in 0..scale {
        target[at + part] = ((wide >> (8 * (scale - 1 - part))) & 0xFF) as u8;
    }
}

/// Writes the bits of `count` bytes of `row` from byte `first` on, each `scale` times, to the front of
/// `target`. Bytes past the end of `row` are 0.
pub fn spread_row(target: &mut [u8], scale: usize, row: &[u8], first: usize, count: usize)
    requires scale { (1 ≤ scale) × (scale ≤ 8) }
    requires room { scale * count ≤ length target.old }
    requires small { (length target.old < 2 ^ 32) × (first ≤ 2 ^ 32) }
    ensures { (k : ℕ) → k < 8 * (scale * count) → dot_of_row target.new k ≡ dot_of_row row.now (8 * first + k / scale) }
{
    for i in 0..count {
        spread_byte(target, scale * i, scale, bits::byte_at(row, first + i));
    }
}

// Sets the dots of each row of an area where `source` has a bit set, its first bit at the left edge.
fn or_rows(page: &mut [u8], row_bytes: usize, area: Area, source: &[u8])
    requires wide { area.x + area.width ≤ 8 * row_bytes }
    requires high { (area.y + area.height) * row_bytes ≤ length page.old }
    requires small { length page.old < 2 ^ 32 }
    requires rows { area.y + area.height < 2 ^ 32 }
    ensures dots { (px py : ℕ) → px < 8 * row_bytes → let place = 8 * (py * row_bytes) + px in
        dot_of_row page.new place ≡ (if rectangle_dot area.x area.y area.width area.height px py
        then dot_of_row source.now (px - area.x) || dot_of_row page.old place else dot_of_row page.old place) }
    ensures in_bytes { All (λ byte. byte < 256) page.new }
{
    for row in area.y..area.y + area.height {
        let start = 8 * (row * row_bytes) + area.x;
        bits::or_bits(page, start, start + area.width, source);
    }
}

/// Sets the dots of an area of a page that has `row_bytes` bytes a row where `row` has a bit set, each
/// bit a square of `scale` dots and the first at the left edge.
pub fn paint_squares(page: &mut [u8], row_bytes: usize, area: Area, scale: usize, row: &[u8])
    requires scale { (1 ≤ scale) × (scale ≤ 8) }
    requires narrow { area.width ≤ 8 * row_limit }
    requires wide { area.x + area.width ≤ 8 * row_bytes }
    requires high { (area.y + area.height) * row_bytes ≤ length page.old }
    requires small { length page.old < 2 ^ 32 }
    requires rows { area.y + area.height < 2 ^ 32 }
    ensures dots { (px py : ℕ) → px < 8 * row_bytes → let place = 8 * (py * row_bytes) + px in
        dot_of_row page.new place ≡ (if rectangle_dot area.x area.y area.width area.height px py
        then dot_of_row row.now ((px - area.x) / scale) || dot_of_row page.old place else dot_of_row page.old place) }
    ensures in_bytes { All (λ byte. byte < 256) page.new }
{
    if scale == 1 {
        or_rows(page, row_bytes, area, row);
    } else {
        let mut spread = [0; SPREAD_LIMIT];
        let count = area.width.div_ceil(8 * scale);
        spread_row(&mut spread, scale, row, 0, count);
        or_rows(page, row_bytes, area, &spread);
    }
}
