//! Fonts and codes of characters.

use glyph_patterns::FONT_CODES;
use std::ops::Range;

/// The codes that fonts have for characters, which are of type 2. What symbol sets give to control codes, to a filled box and to a hard
/// space is left out: the codes below 32, 127 and 160.
const CODES: [Range<usize>; 3] = [33..127, 128..160, 161..256];

/// The fonts of a job. A page uses no more of them, and a printer has to hold 16 fonts on a page.
const FONT_LIMIT: usize = 16;

/// The code of the blank that needs no character: a space advances by the pitch of the font.
const SPACE: u8 = 32;

/// A character's place: the number of its font, from 0, and its code.
#[derive(Clone, Copy)]
pub struct Code {
    pub font: usize,
    pub code: u8,
}

/// The code of the blank of this number. The first is the space; the others are characters of the first font.
pub fn blank_code(number: usize) -> u8 {
    match number.checked_sub(1) {
        None => SPACE,
        Some(place) => nth_code(place),
    }
}

/// The font and the code of the character of this rank, after those of as many blanks. None is left for those of too high a rank.
pub fn code_of_rank(rank: usize, blanks: usize) -> Option<Code> {
    let place = blanks.saturating_sub(1).saturating_add(rank);
    let font = place / FONT_CODES;
    (font < FONT_LIMIT).then_some(Code {
        font,
        code: nth_code(place % FONT_CODES),
    })
}

/// The ID of a font: temporary fonts go down from the highest ID.
pub fn font_id(font: usize) -> u32 {
    u32::try_from(font).map_or(0, |font| 32_767u32.saturating_sub(font))
}

/// The code in this place, from 0, of those that a font has.
fn nth_code(place: usize) -> u8 {
    let mut rest = place;
    for range in CODES {
        if rest < range.len() {
            return u8::try_from(range.start.saturating_add(rest)).unwrap_or(u8::MAX);
        }
        rest = rest.saturating_sub(range.len());
    }
    u8::MAX
}
