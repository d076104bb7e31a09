use super::assert_gives;
use pcl_base::{Dpi, Size};
use pcl_bitmap::{Bitmap, Ink, same_dots_same_bitmap};
use std::process::Abort;
use std::test::Fail;

/// A byte of a page: its row, its place there, and what it is.
type Byte = (u32, usize, u8);

const BYTES_AT_300: [Byte; 7] = [
    (0, 0, 0),
    (0, 1, 0),
    (1, 0, 0x9F),
    (1, 1, 0xFE),
    (1, 2, 0),
    (3506, 291, 0x0F),
    (3506, 292, 0xC0),
];

/// Row `y` of a page, which has one.
fn row_of<'a>(rt: &impl Abort, page: &'a Bitmap, y: u32) -> &'a [u8] {
    assert!(rt; y < page.size().height(page.dpi()));
    page.row(y)
}

fn assert_bytes(rt: &impl Abort, page: &Bitmap, row_bytes: usize, bytes: &[Byte]) {
    for (y, place, byte) in bytes {
        let row = row_of(rt, page, *y);
        let given = (row.len(), row.get(*place).copied());
        assert_gives(rt, &(*y, *place), &given, &(row_bytes, Some(*byte)));
    }
}

// A4 at 300 dots per inch is 2338 dots wide: 292 bytes and 2 dots.
#[test]
fn paints_at_300(rt: HostRuntime) -> Result<(), Fail> {
    let mut page = Bitmap::new(rt.alloc(), Size::A4, Dpi::Dpi300)?;
    assert_gives(
        &rt,
        &"new",
        &(page.size(), page.dpi()),
        &(Size::A4, Dpi::Dpi300),
    );
    page.paint_row(3, 1, 1, 12, &[0xFF, 0xFF]);
    page.paint_row(0, 1, 1, 8, &[0x81]);
    page.paint_row(2332, 3506, 1, 16, &[0xFF, 0xFF]);
    page.paint_row(2338, 0, 1, 8, &[0xFF]);
    page.paint_row(0, 3507, 1, 8, &[0xFF]);
    assert_bytes(&rt, &page, 293, &BYTES_AT_300);
    let blank = (page.is_blank(0), page.is_blank(1));
    page.clear();
    assert_gives(
        &rt,
        &"blank",
        &(blank, page.is_blank(1)),
        &((true, false), true),
    );
    Ok(())
}

// At 600 it is 4676 dots wide: 584 bytes and 4 dots.
#[test]
fn paints_at_600(rt: HostRuntime) -> Result<(), Fail> {
    let mut page = Bitmap::new(rt.alloc(), Size::A4, Dpi::Dpi600)?;
    page.paint_row(4672, 7013, 1, 8, &[0xA5]);
    page.paint_row(0, 7014, 1, 8, &[0xFF]);
    assert_bytes(&rt, &page, 585, &[(7013, 584, 0xA0)]);
    Ok(())
}

/// The tables of what is drawn on an A4 page at 300 dots per inch.
#[derive(Clone, Copy)]
enum Drawn {
    Rectangles,
    Rows,
    Patterns,
}

impl Drawn {
    /// Whether the dot is black on a page of this alone.
    fn is_black(self, x: u32, y: u32) -> bool {
        match self {
            Drawn::Rectangles => is_black_by_rectangles(x, y),
            Drawn::Rows => is_black_by_rows(x, y),
            Drawn::Patterns => is_black_by_patterns(x, y),
        }
    }
}

// Whether the dot of a row is black; past the row's bytes none is.
fn is_black(row: &[u8], x: u32) -> bool {
    let byte = row.get(x as usize / 8).copied().unwrap_or(0);
    is_set(byte, x)
}

// Whether the bit of a dot is set in the byte of the dot's eight.
fn is_set(byte: u8, x: u32) -> bool {
    (byte << (x % 8)) & 0x80 != 0
}

/// Some rows and columns of a page, each from a first one to before a last one.
type Part = ([u32; 2], [u32; 2]);

// Compares the dots of some parts of a page with what is drawn.
fn assert_drawn(rt: &impl Abort, page: &Bitmap, parts: &[Part], drawn: Drawn) {
    for (ys, xs) in parts {
        for y in ys[0]..ys[1] {
            assert_row(rt, row_of(rt, page, y), y, *xs, drawn);
        }
    }
}

// The same of some dots of a row. Those from 2338 on are past the page.
fn assert_row(rt: &impl Abort, row: &[u8], y: u32, xs: [u32; 2], drawn: Drawn) {
    for x in xs[0]..xs[1] {
        let wanted = x < 2338 && drawn.is_black(x, y);
        assert_gives(rt, &(x, y), &is_black(row, x), &wanted);
    }
}

// Each with its upper left corner, its width and height, and its ink: over the whole page, of no size,
// of one dot, within a byte, on whole bytes, past both edges, and from the last dot on.
const RECTANGLES: [(u32, u32, u64, u64, Ink); 12] = [
    (0, 0, u64::MAX, u64::MAX, Ink::Black),
    (5, 1, 30, 2, Ink::White),
    (8, 1, 16, 1, Ink::Black),
    (9, 1, 3, 1, Ink::White),
    (10, 1, 1, 1, Ink::Black),
    (40, 0, 0, 9, Ink::White),
    (40, 0, 9, 0, Ink::White),
    (2330, 3505, 100, 100, Ink::White),
    (2337, 3506, u64::MAX, 1, Ink::Black),
    (2338, 0, 1, 1, Ink::White),
    (0, 3507, 1, 1, Ink::White),
    (u32::MAX, u32::MAX, 1, 1, Ink::White),
];

// The ink of the last rectangle that covers the dot.
fn is_black_by_rectangles(x: u32, y: u32) -> bool {
    let mut black = false;
    for (left, top, width, height, ink) in &RECTANGLES {
        if covers(*left, *width, x) && covers(*top, *height, y) {
            black = *ink == Ink::Black;
        }
    }
    black
}

// Whether a dot is one of this many from a first one on.
fn covers(first: u32, count: u64, dot: u32) -> bool {
    dot.checked_sub(first)
        .is_some_and(|past| u64::from(past) < count)
}

const FILLED: [Part; 2] = [([0, 4], [0, 2344]), ([3504, 3507], [0, 2344])];

#[test]
fn fills_rectangles(rt: HostRuntime) -> Result<(), Fail> {
    let mut page = Bitmap::new(rt.alloc(), Size::A4, Dpi::Dpi300)?;
    for (x, y, width, height, ink) in &RECTANGLES {
        page.fill(*x, *y, *width, *height, *ink);
    }
    assert_drawn(&rt, &page, &FILLED, Drawn::Rectangles);
    Ok(())
}

// Each with its first dot, its scale, its width in bits, and its bytes: rows that end inside a byte, at
// odd dots, at the right edge, past the lower edge, with bits past the width, and off the page.
const ROWS: [(u32, u64, u32, u32, &[u8]); 13] = [
    (3, 1, 1, 12, &[0xA5, 0xFF]),
    (5, 3, 2, 11, &[0x93, 0xF1]),
    (0, 6, 3, 24, &[0x81, 0, 0xFF]),
    (17, 10, 4, 9, &[0x6D, 0x80]),
    (8, 15, 5, 16, &[0xC3, 0x5A]),
    (31, 21, 6, 15, &[0x01, 0x7E]),
    (2, 28, 7, 8, &[0xB7]),
    (13, 36, 8, 13, &[0x9A, 0xE8]),
    (2325, 45, 8, 16, &[0xAA, 0xAA]),
    (9, 3504, 8, 3, &[0xBF]),
    (2337, 50, 2, 1, &[0x80]),
    (2338, 52, 2, 8, &[0xFF]),
    (0, u64::MAX, 8, 0, &[]),
];

// Whether the dot is in a square of a set bit of one of the rows.
fn is_black_by_rows(x: u32, y: u32) -> bool {
    let mut black = false;
    for (left, top, scale, width, row) in &ROWS {
        let column = square_of(x, i128::from(*left), *scale);
        let down = square_of(y, i128::from(*top), *scale);
        black |= is_inked(column, down, (u64::from(*width), 1), row);
    }
    black
}

// Which square of this many dots a dot is in, as far to the right or down from the first one.
fn square_of(dot: u32, first: i128, scale: u32) -> Option<u64> {
    let dots = u64::try_from(i128::from(dot).wrapping_sub(first)).ok()?;
    dots.checked_div(u64::from(scale))
}

// Whether a square is that of a set bit, by its column and row in rows of this many bits and this many of them, each in
// whole bytes.
fn is_inked(column: Option<u64>, row: Option<u64>, size: (u64, u64), rows: &[u8]) -> bool {
    let (Some(column), Some(row)) = (column, row) else {
        return false;
    };
    let first = row.wrapping_mul(size.0.div_ceil(8).wrapping_mul(8));
    column < size.0 && row < size.1 && is_bit_set(rows, first.wrapping_add(column))
}

// Whether a bit of a row is set, by its number.
fn is_bit_set(row: &[u8], bit: u64) -> bool {
    let byte = row.get(bit as usize / 8).copied().unwrap_or(0);
    is_set(byte, (bit % 8) as u32)
}

const PAINTED: [Part; 4] = [
    ([0, 55], [0, 200]),
    ([0, 55], [2300, 2344]),
    ([3502, 3507], [0, 200]),
    ([3502, 3507], [2300, 2344]),
];

#[test]
fn paints_squares(rt: HostRuntime) -> Result<(), Fail> {
    let mut page = Bitmap::new(rt.alloc(), Size::A4, Dpi::Dpi300)?;
    for (x, y, scale, width, row) in &ROWS {
        page.paint_row(*x, *y, *scale, *width, row);
    }
    assert_drawn(&rt, &page, &PAINTED, Drawn::Rows);
    Ok(())
}

// Each with the dot of its first bit, its width, height and scale, and its rows: on the page, cut at each
// side, wholly off each side, at the ends of the numbers, and of no size.
const PATTERNS: [(i32, i32, u16, u16, u32, &[u8]); 14] = [
    (21, 3, 11, 3, 1, &[0xA5, 0xE0, 0x3C, 0x60, 0xFF, 0xFF]),
    (48, 4, 9, 2, 2, &[0x93, 0x80, 0x4F, 0xFF]),
    (-5, 9, 13, 2, 1, &[0xC7, 0x3F, 0x1B, 0xA8]),
    (-7, 13, 11, 2, 2, &[0x5D, 0xE0, 0xB1, 0x7F]),
    (70, -1, 8, 3, 1, &[0xFF, 0xA7, 0x18]),
    (84, -3, 6, 4, 2, &[0xFF, 0xB4, 0x6F, 0x9C]),
    (2331, 20, 16, 1, 1, &[0x9D, 0xEF]),
    (2333, 22, 4, 2, 2, &[0xAF, 0xDF]),
    (33, 3504, 5, 6, 1, &[0xA8, 0x70, 0x98, 0xFF, 0xFF, 0xFF]),
    (60, 3503, 7, 3, 2, &[0xB7, 0xEA, 0xFF]),
    (-8, 30, 8, 1, 1, &[0xFF]),
    (2338, 32, 8, 1, 2, &[0xFF]),
    (i32::MIN, i32::MIN, 8, 1, 2, &[0xFF]),
    (i32::MAX, i32::MAX, 0, 0, 1, &[]),
];

// Whether the dot is in a square of a set bit of one of the patterns.
fn is_black_by_patterns(x: u32, y: u32) -> bool {
    let mut black = false;
    for (left, top, width, height, scale, rows) in &PATTERNS {
        let column = square_of(x, i128::from(*left), *scale);
        let row = square_of(y, i128::from(*top), *scale);
        black |= is_inked(column, row, (u64::from(*width), u64::from(*height)), rows);
    }
    black
}

const BLITTED: [Part; 4] = [
    ([0, 34], [0, 120]),
    ([0, 34], [2300, 2344]),
    ([3500, 3507], [0, 120]),
    ([3500, 3507], [2300, 2344]),
];

#[test]
fn paints_patterns(rt: HostRuntime) -> Result<(), Fail> {
    let mut page = Bitmap::new(rt.alloc(), Size::A4, Dpi::Dpi300)?;
    for (x, y, width, height, scale, rows) in &PATTERNS {
        page.blit(*x, *y, *width, *height, rows, *scale);
    }
    assert_drawn(&rt, &page, &BLITTED, Drawn::Patterns);
    Ok(())
}

// The law does nothing.
#[test]
fn states_the_law() {
    same_dots_same_bitmap();
}
