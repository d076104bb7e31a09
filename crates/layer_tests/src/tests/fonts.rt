use super::assert_gives;
use pcl_base::{CallFault, Dpi, Kind, Profile};
use pcl_fonts::{FontControl, Fonts};
use std::alloc::{AllocError, Global};

/// A header: fixed, of type 0, with a pitch of 8 quarter dots.
const HEADER: [u8; 64] = [
    0, 64, 0, 0, 0, 0, 0, 0, 0, 0, 0, 0, 0, 0, 0, 0, 0, 8, 0, 0, 0, 0, 0, 0, 0, 0, 0, 0, 0, 0, 0,
    0, 0, 0, 0, 0, 0, 0, 0, 0, 0, 0, 0, 0, 0, 0, 0, 0, 0, 0, 0, 0, 0, 0, 0, 0, 0, 0, 0, 0, 0, 0, 0,
    0,
];

/// A character 8 bits wide and 2 high, right of the cursor by 1 and above it by 2, with an advance of 80 quarter dots.
const CHARACTER: [u8; 18] = [4, 0, 14, 1, 0, 0, 0, 1, 0, 2, 0, 8, 0, 2, 0, 80, 0xFF, 0x81];

/// Some bytes, cut to a length, with another byte at a place.
fn changed(
    alloc: Global,
    bytes: &[u8],
    len: usize,
    place: usize,
    byte: u8,
) -> Result<Vec<u8>, AllocError> {
    let mut bytes = Vec::from_slice(alloc, bytes)?;
    if let Some(slot) = bytes.get_mut(place) {
        *slot = byte;
    }
    bytes.truncate(len);
    Ok(bytes)
}

const BAD_HEADER: Result<(), CallFault> = Err(CallFault::Refused(Kind::FontHeader));

const BAD_CHARACTER: Result<(), CallFault> = Err(CallFault::Refused(Kind::CharacterData));

/// How many bytes are left of some data, which place has which byte there, and whether that is taken.
type Changed = (usize, usize, u8, Result<(), CallFault>);

const HEADERS: [Changed; 13] = [
    (64, 1, 64, Ok(())),
    (63, 1, 64, BAD_HEADER),
    (64, 1, 63, BAD_HEADER),
    (64, 1, 65, BAD_HEADER),
    (64, 0, 1, BAD_HEADER),
    (64, 2, 1, BAD_HEADER),
    (64, 3, 2, Ok(())),
    (64, 3, 3, BAD_HEADER),
    (64, 12, 1, BAD_HEADER),
    (64, 13, 1, Ok(())),
    (64, 13, 2, BAD_HEADER),
    (64, 14, 9, Ok(())),
    (64, 63, 9, Ok(())),
];

// Headers: each field at its values and past them, and a byte too few.
#[test]
fn headers(rt: HostRuntime) -> Result<(), AllocError> {
    for (len, place, byte, wanted) in &HEADERS {
        let data = changed(rt.alloc(), &HEADER, *len, *place, *byte)?;
        let taken = Fonts::new(rt.alloc()).header(1, &data, Profile::Stated, Dpi::Dpi300);
        assert_gives(&rt, &(*len, *place, *byte), &taken, wanted);
    }
    Ok(())
}

/// A header of format 20 of 600 dots per inch: proportional, of type 0, with a pitch of 7 quarter dots.
const FINE_HEADER: [u8; 68] = [
    0, 68, 20, 0, 0, 0, 0, 0, 0, 0, 0, 0, 0, 1, 0, 0, 0, 7, 0, 0, 0, 0, 0, 0, 0, 0, 0, 0, 0, 0, 0,
    0, 0, 0, 0, 0, 0, 0, 0, 0, 0, 0, 0, 0, 0, 0, 0, 0, 0, 0, 0, 0, 0, 0, 0, 0, 0, 0, 0, 0, 0, 0, 0,
    0, 2, 88, 2, 88,
];

const FINE_HEADERS: [(Profile, Dpi, Changed); 9] = [
    (Profile::Drivers, Dpi::Dpi600, (68, 14, 9, Ok(()))),
    (Profile::Drivers, Dpi::Dpi300, (68, 14, 9, BAD_HEADER)),
    (Profile::Stated, Dpi::Dpi600, (68, 14, 9, BAD_HEADER)),
    (Profile::Drivers, Dpi::Dpi600, (67, 14, 9, BAD_HEADER)),
    (Profile::Drivers, Dpi::Dpi600, (64, 1, 64, BAD_HEADER)),
    (Profile::Drivers, Dpi::Dpi600, (68, 1, 67, BAD_HEADER)),
    (Profile::Drivers, Dpi::Dpi600, (68, 65, 89, BAD_HEADER)),
    (Profile::Drivers, Dpi::Dpi600, (68, 67, 89, BAD_HEADER)),
    (Profile::Drivers, Dpi::Dpi600, (68, 2, 0, Ok(()))),
];

// Headers that state a resolution, by the profile and the resolution of the pages.
#[test]
fn fine_headers(rt: HostRuntime) -> Result<(), AllocError> {
    for (profile, dpi, (len, place, byte, wanted)) in &FINE_HEADERS {
        let data = changed(rt.alloc(), &FINE_HEADER, *len, *place, *byte)?;
        let taken = Fonts::new(rt.alloc()).header(1, &data, *profile, *dpi);
        assert_gives(&rt, &(*profile, *dpi, *len, *place), &taken, wanted);
    }
    Ok(())
}

// The width of a column, and an advance of 5 quarter dots to the left, in fonts of 300 dots per inch and of 600.
#[test]
fn lengths(rt: HostRuntime) {
    let mut fonts = Fonts::new(rt.alloc());
    let _ = fonts.header(1, &HEADER, Profile::Drivers, Dpi::Dpi600);
    let _ = fonts.header(2, &FINE_HEADER, Profile::Drivers, Dpi::Dpi600);
    for (id, wanted) in [(1, (48, -30)), (2, (21, -15))] {
        let lengths = fonts.font(id).map(|font| (font.column(), font.advance(-5)));
        assert_gives(&rt, &id, &lengths, &Some(wanted));
    }
}

const CHARACTERS: [Changed; 11] = [
    (18, 0, 4, Ok(())),
    (18, 0, 5, BAD_CHARACTER),
    (18, 1, 1, BAD_CHARACTER),
    (18, 2, 15, BAD_CHARACTER),
    (18, 3, 2, BAD_CHARACTER),
    (18, 4, 1, BAD_CHARACTER),
    (18, 13, 3, BAD_CHARACTER),
    (18, 11, 9, BAD_CHARACTER),
    (17, 0, 4, BAD_CHARACTER),
    (15, 13, 0, BAD_CHARACTER),
    (16, 13, 0, Ok(())),
];

// Characters: each fixed byte off by one, and data that are cut.
#[test]
fn characters(rt: HostRuntime) -> Result<(), AllocError> {
    for (len, place, byte, wanted) in &CHARACTERS {
        let data = changed(rt.alloc(), &CHARACTER, *len, *place, *byte)?;
        let mut fonts = Fonts::new(rt.alloc());
        let _ = fonts.header(0, &HEADER, Profile::Stated, Dpi::Dpi300);
        let taken = fonts.character(0, 65, &data, Profile::Stated);
        assert_gives(&rt, &(*len, *place, *byte), &taken, wanted);
    }
    Ok(())
}

/// The same character, whose rows are given by runs: 8 black bits, and one black at each end.
const COMPRESSED: [u8; 24] = [
    4, 0, 14, 2, 0, 0, 0, 1, 0, 2, 0, 8, 0, 2, 0, 80, 0, 0, 8, 0, 0, 1, 6, 1,
];

const COMPRESSED_CHARACTERS: [(Profile, Changed); 14] = [
    (Profile::Drivers, (24, 0, 4, Ok(()))),
    (Profile::Stated, (24, 0, 4, BAD_CHARACTER)),
    (Profile::Drivers, (24, 1, 1, BAD_CHARACTER)),
    (Profile::Drivers, (24, 2, 15, BAD_CHARACTER)),
    (Profile::Drivers, (24, 3, 3, BAD_CHARACTER)),
    (Profile::Drivers, (24, 4, 1, BAD_CHARACTER)),
    (Profile::Drivers, (23, 0, 4, BAD_CHARACTER)),
    (Profile::Drivers, (24, 13, 3, BAD_CHARACTER)),
    (Profile::Drivers, (24, 16, 1, Ok(()))),
    (Profile::Drivers, (24, 16, 2, BAD_CHARACTER)),
    (Profile::Drivers, (24, 18, 9, BAD_CHARACTER)),
    (Profile::Drivers, (24, 22, 5, BAD_CHARACTER)),
    (Profile::Drivers, (24, 22, 8, BAD_CHARACTER)),
    (Profile::Drivers, (16, 13, 0, Ok(()))),
];

// Compressed characters, by the profile: each fixed byte off by one, data that are cut, and runs and repetitions that go too far.
#[test]
fn compressed_characters(rt: HostRuntime) -> Result<(), AllocError> {
    for (profile, (len, place, byte, wanted)) in &COMPRESSED_CHARACTERS {
        let data = changed(rt.alloc(), &COMPRESSED, *len, *place, *byte)?;
        let mut fonts = Fonts::new(rt.alloc());
        let _ = fonts.header(0, &HEADER, *profile, Dpi::Dpi300);
        let taken = fonts.character(0, 65, &data, *profile);
        assert_gives(&rt, &(*profile, *len, *place, *byte), &taken, wanted);
    }
    Ok(())
}

// The rows of the character, by both classes.
#[test]
fn rows(rt: HostRuntime) -> Result<(), AllocError> {
    let mut fonts = Fonts::new(rt.alloc());
    let _ = fonts.header(0, &HEADER, Profile::Drivers, Dpi::Dpi300);
    let _ = fonts.character(0, 65, &CHARACTER, Profile::Drivers);
    let _ = fonts.character(0, 66, &COMPRESSED, Profile::Drivers);
    for code in [65, 66] {
        if let Some(glyph) = fonts.glyph(0, code) {
            let rows = glyph.rows(rt.alloc())?;
            assert_gives(&rt, &code, &rows.as_slice(), &[0xFF, 0x81].as_slice());
        }
    }
    Ok(())
}

/// Which of fonts 1 (temporary) and 2 (permanent) and of their characters 65 are there after a control and then a
/// deletion of temporary fonts, if that is asked for.
fn left_by(alloc: Global, what: FontControl, id: u16, and_delete: bool) -> [bool; 4] {
    let mut fonts = Fonts::new(alloc);
    for id in [1, 2] {
        let _ = fonts.header(id, &HEADER, Profile::Stated, Dpi::Dpi300);
        let _ = fonts.character(id, 65, &CHARACTER, Profile::Stated);
    }
    fonts.control(2, 0, FontControl::MakePermanent);
    fonts.control(id, 65, what);
    if and_delete {
        fonts.control(0, 0, FontControl::Temporary);
    }
    [
        fonts.font(1).is_some(),
        fonts.glyph(1, 65).is_some(),
        fonts.font(2).is_some(),
        fonts.glyph(2, 65).is_some(),
    ]
}

// What each control leaves of these, with or without that deletion.
const CONTROLS: [(FontControl, u16, bool, [bool; 4]); 8] = [
    (FontControl::All, 1, false, [false, false, false, false]),
    (FontControl::Temporary, 1, false, [false, false, true, true]),
    (FontControl::One, 2, false, [true, true, false, false]),
    (FontControl::One, 3, false, [true, true, true, true]),
    (FontControl::Character, 1, false, [true, false, true, true]),
    (
        FontControl::MakeTemporary,
        2,
        true,
        [false, false, false, false],
    ),
    (
        FontControl::MakePermanent,
        1,
        true,
        [true, true, true, true],
    ),
    (
        FontControl::MakePermanent,
        3,
        true,
        [false, false, true, true],
    ),
];

#[test]
fn controls(rt: HostRuntime) {
    for (what, id, and_delete, wanted) in &CONTROLS {
        let left = left_by(rt.alloc(), *what, *id, *and_delete);
        assert_gives(&rt, &(*what, *id), &left, wanted);
    }
}
