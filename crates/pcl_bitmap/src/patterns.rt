//! Patterns of bits that are set on a page, as the characters of a soft font are.

ghost use Rattle.std.specs.Prelude.{◌≡◌, ℕ, ◌+◌, ◌-◌, ◌*◌, ◌/◌, ◌^◌, ◌<◌, ◌≤◌, nat_le, ◌||◌, if◌then◌else◌, Some, None, length, drop, All};
ghost use Rattle.pcl_base.specs.Limits.{row_limit};
ghost use Rattle.pcl_bitmap.specs.Bitmap.{bit_of_byte, dot_of_row};
ghost use Rattle.pcl_bitmap.specs.Dots.{rectangle_dot, dots_past};

use crate::area::Area;
use crate::bits::{bits_of_pair, byte_at, or_bits};
use crate::squares::{SPREAD_LIMIT, spread_row};
use pcl_base::ROW_LIMIT;

/// What of a pattern is seen: all from the dot `(x, y)` of its own on, where its rows have `row_bytes` bytes
/// each and its bits are squares of `scale` dots.
#[derive(Clone, Copy)]
pub struct Clip {
    pub row_bytes: usize,
    pub scale: usize,
    pub x: usize,
    pub y: usize,
}

/// Where on a page an edge at `place` stands, and how many dots after it lie before the page.
pub fn start_and_skip(place: i32) -> (usize, usize)
    ensures dots { (p : ℕ) → dots_past place p ≡ (if nat_le result.0 p then Some (p + result.1 - result.0) else None) }
    ensures small { (result.0 ≤ 2 ^ 31) × (result.1 ≤ 2 ^ 31) }
{
    let distance = place.unsigned_abs() as usize;
    if place < 0 {
        (0, distance)
    } else {
        (distance, 0)
    }
}

// Eight bits of a row from bit `start` on. Bits past its end are clear.
fn eight_bits_from(row: &[u8], start: usize) -> u8
    ensures { (k : ℕ) → k < 8 → bit_of_byte result k ≡ dot_of_row row.now (start + k) }
{
    let first = byte_at(row, start / 8);
    let second = byte_at(row, start / 8 + 1);
    bits_of_pair(first, second, 8 - start % 8)
}

// Writes the bits of a row from bit `start` on to all of `target`. Bits past its end are clear.
fn write_bits(target: &mut [u8], row: &[u8], start: usize)
    requires { (start ≤ 2 ^ 32) × (length target.old ≤ row_limit) }
    ensures { (k : ℕ) → k < 8 * length target.old → dot_of_row target.new k ≡ dot_of_row row.now (start + k) }
{
    for i in 0..target.len() {
        target[i] = eight_bits_from(row, start + 8 * i);
    }
}

// Writes the dots of a row whose bits are written `scale` times each, from the dot `start` on, to all of
// `target`.
fn write_dots(target: &mut [u8], row: &[u8], scale: usize, start: usize)
    requires scale { (1 ≤ scale) × (scale ≤ 8) }
    requires small { (start ≤ 2 ^ 32) × (length target.old ≤ row_limit) }
    ensures { (k : ℕ) → k < 8 * length target.old → dot_of_row target.new k ≡ dot_of_row row.now ((start + k) / scale) }
{
    if scale == 1 {
        write_bits(target, row, start);
    } else {
        let mut spread = [0; SPREAD_LIMIT];
        let first = start / (8 * scale);
        let rest = start % (8 * scale);
        let count = (rest + 8 * target.len()).div_ceil(8 * scale);
        spread_row(&mut spread, scale, row, first, count);
        if rest == 0 {
            target.copy_from_slice(&spread[..target.len()]);
        } else {
            write_bits(target, &spread, rest);
        }
    }
}

/// Sets the dots of an area of a page that has `row_bytes` bytes a row where the pattern has a bit set,
/// the first dot of the clip at the area's upper left corner.
pub fn or_pattern(page: &mut [u8], row_bytes: usize, area: Area, clip: Clip, rows: &[u8])
    requires scale { (1 ≤ clip.scale) × (clip.scale ≤ 8) }
    requires skipped { (clip.x ≤ 2 ^ 32) × (clip.y ≤ 2 ^ 32) }
    requires bits { (j : ℕ) → j < area.height → (j + clip.y) / clip.scale * clip.row_bytes ≤ length rows.now }
    requires narrow { area.width ≤ 8 * row_limit }
    requires wide { area.x + area.width ≤ 8 * row_bytes }
    requires high { (area.y + area.height) * row_bytes ≤ length page.old }
    requires small { length page.old < 2 ^ 32 }
    requires below { area.y + area.height < 2 ^ 32 }
    ensures dots { (px py : ℕ) → px < 8 * row_bytes → let place = 8 * (py * row_bytes) + px in
        let bit_row = (py - area.y + clip.y) / clip.scale in
        dot_of_row page.new place ≡ (if rectangle_dot area.x area.y area.width area.height px py
        then dot_of_row (drop (bit_row * clip.row_bytes) rows.now) ((clip.x + (px - area.x)) / clip.scale)
        || dot_of_row page.old place
        else dot_of_row page.old place) }
    ensures in_bytes { All (λ byte. byte < 256) page.new }
{
    if clip.scale == 1 && clip.x == 0 {
        or_whole_rows(page, row_bytes, area, clip, rows);
        return;
    }
    let mut dots = [0; ROW_LIMIT];
    let count = area.width.div_ceil(8);
    for row in area.y..area.y + area.height {
        let line = row - area.y + clip.y;
        if row == area.y || line % clip.scale == 0 {
            let source = &rows[line / clip.scale * clip.row_bytes..];
            write_dots(&mut dots[..count], source, clip.scale, clip.x);
        }
        let start = 8 * (row * row_bytes) + area.x;
        or_bits(page, start, start + area.width, &dots[..count]);
    }
}

// The same of a pattern whose bits are dots, and whose rows are seen from their first dot on.
fn or_whole_rows(page: &mut [u8], row_bytes: usize, area: Area, clip: Clip, rows: &[u8])
    requires skipped { clip.y ≤ 2 ^ 32 }
    requires bits { (j : ℕ) → j < area.height → (j + clip.y) * clip.row_bytes ≤ length rows.now }
    requires wide { area.x + area.width ≤ 8 * row_bytes }
    requires high { (area.y + area.height) * row_bytes ≤ length page.old }
    requires small { length page.old < 2 ^ 32 }
    requires below { area.y + area.height < 2 ^ 32 }
    ensures dots { (px py : ℕ) → px < 8 * row_bytes → let place = 8 * (py * row_bytes) + px in
        dot_of_row page.new place ≡ (if rectangle_dot area.x area.y area.width area.height px py
        then dot_of_row (drop ((py - area.y + clip.y) * clip.row_bytes) rows.now) (px - area.x)
        || dot_of_row page.old place
        else dot_of_row page.old place) }
    ensures in_bytes { All (λ byte. byte < 256) page.new }
{
    for row in area.y..area.y + area.height {
        let source = &rows[(row - area.y + clip.y) * clip.row_bytes..];
        let start = 8 * (row * row_bytes) + area.x;
        or_bits(page, start, start + area.width, source);
    }
}
