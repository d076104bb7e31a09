use super::assert_gives;
use pcl_base::{Dpi, Kind, Method, Name, Refusal, Sign, Size, Value};
use std::alloc::Global;
use std::process::Abort;
use std::test::Fail;

// Each size, its number, its width, its height, and the bytes of a row.
const SIZES: [(Size, u32, u32, u32, usize); 4] = [
    (Size::Executive, 1, 2025, 3150, 254),
    (Size::Letter, 2, 2400, 3300, 300),
    (Size::Legal, 3, 2400, 4200, 300),
    (Size::A4, 26, 2338, 3507, 293),
];

#[test]
fn sizes(rt: HostRuntime) {
    let dpi = Dpi::Dpi300;
    for (size, code, width, height, row_bytes) in &SIZES {
        let words = (Size::from_code(*code), size.code());
        let lengths = (size.width(dpi), size.height(dpi), size.row_bytes(dpi));
        let wanted = ((Some(*size), *code), (*width, *height, *row_bytes));
        assert_gives(&rt, size, &(words, lengths), &wanted);
    }
    let fine = (Size::A4.width(Dpi::Dpi600), Size::A4.row_bytes(Dpi::Dpi600));
    assert_gives(&rt, &"A4 at 600", &fine, &(4676, 585));
    assert_gives(&rt, &"no size", &Size::from_code(0), &None);
}

#[test]
fn resolutions(rt: HostRuntime) {
    let (coarse, fine) = (Dpi::Dpi300, Dpi::Dpi600);
    assert_gives(&rt, &coarse, &(coarse.dots(), coarse.unit()), &(300, 24));
    assert_gives(&rt, &fine, &(fine.dots(), fine.unit()), &(600, 12));
}

const METHODS: [(u32, Method); 4] = [
    (0, Method::Plain),
    (1, Method::Runs),
    (2, Method::Packed),
    (3, Method::Delta),
];

#[test]
fn methods(rt: HostRuntime) {
    for (code, method) in &METHODS {
        let given = (Method::from_code(*code), method.code());
        assert_gives(&rt, method, &given, &(Some(*method), *code));
    }
    assert_gives(&rt, &"no method", &Method::from_code(4), &None);
}

// Sign, magnitude in ten-thousandths, whole part, and 24 times the magnitude.
const VALUES: [(Sign, u32, i32, u64); 8] = [
    (Sign::Absent, 0, 0, 0),
    (Sign::Minus, 5_000, 0, 12),
    (Sign::Minus, 10_000, -1, 24),
    (Sign::Plus, 19_999, 1, 47),
    (Sign::Absent, 416, 0, 0),
    (Sign::Absent, 417, 0, 1),
    (Sign::Minus, 327_670_000, -32_767, 786_408),
    (Sign::Plus, 655_350_000, 65_535, 1_572_840),
];

#[test]
fn values(rt: HostRuntime) {
    for (sign, parts, whole, scaled) in &VALUES {
        let value = Value {
            sign: *sign,
            parts: *parts,
        };
        assert_gives(
            &rt,
            &value,
            &(value.whole(), value.scaled(24)),
            &(*whole, *scaled),
        );
    }
}

/// A kind's number, and the parts and the text of a refusal.
type Line = (u8, Kind, usize, Name, &'static str);

const LINES: [Line; 14] = [
    (1, Kind::Truncated, 0, Name::Empty, "Truncated at 0 -"),
    (
        2,
        Kind::BadSequence,
        10,
        Name::One(b'*'),
        "BadSequence at 10 *",
    ),
    (
        3,
        Kind::ValueRange,
        7,
        Name::Two(b'*', b'p'),
        "ValueRange at 7 *p",
    ),
    (
        4,
        Kind::UnsupportedCommand,
        1,
        Name::TEXT,
        "UnsupportedCommand at 1 text",
    ),
    (
        5,
        Kind::UnsupportedValue,
        5,
        Name::Three(b'*', b'b', b'M'),
        "UnsupportedValue at 5 *bM",
    ),
    (6, Kind::FontHeader, 2, Name::One(8), "FontHeader at 2 BS"),
    (
        7,
        Kind::CharacterData,
        3,
        Name::One(9),
        "CharacterData at 3 HT",
    ),
    (8, Kind::NoFont, 4, Name::One(10), "NoFont at 4 LF"),
    (9, Kind::MacroOpen, 99, Name::One(12), "MacroOpen at 99 FF"),
    (
        10,
        Kind::MacroControl,
        100,
        Name::One(13),
        "MacroControl at 100 CR",
    ),
    (11, Kind::MacroDepth, 6, Name::One(14), "MacroDepth at 6 SO"),
    (
        12,
        Kind::TooManyCommands,
        383,
        Name::One(15),
        "TooManyCommands at 383 SI",
    ),
    (
        13,
        Kind::TooManyPages,
        256,
        Name::One(b'E'),
        "TooManyPages at 256 E",
    ),
    (
        14,
        Kind::NotPcl,
        usize::MAX,
        Name::Two(b'%', b'X'),
        "NotPcl at 18446744073709551615 %X",
    ),
];

// The number of each kind, and the text of a refusal.
#[test]
fn refusals(rt: HostRuntime) -> Result<(), Fail> {
    assert_lines(&rt, rt.alloc(), &LINES)
}

/// Asserts the number and the text of each line, after bytes that stay.
fn assert_lines(rt: &impl Abort, alloc: Global, lines: &[Line]) -> Result<(), Fail> {
    for (number, kind, at, name, text) in lines {
        let mut line = Vec::from_slice(alloc, b"# ")?;
        let refusal = Refusal {
            kind: *kind,
            at: *at,
            name: *name,
        };
        refusal.write_text(&mut line)?;
        let given = (kind.number(), line.strip_prefix(b"# "));
        assert_gives(rt, kind, &given, &(*number, Some(text.as_bytes())));
    }
    Ok(())
}
