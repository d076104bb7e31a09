//! Characters without dots, each of which moves the cursor by one gap: a byte moves it then.

use glyph_patterns::append_labelled;
use indexmap::IndexMap;
use std::alloc::{AllocError, Global};

/// The ID of their font: temporary fonts go down from the highest ID.
const FONT_ID: u32 = 32_767;

/// A gap that is there so often has a character: it takes 31 bytes, and a cursor move some six more than a byte.
const BLANK_USES: u32 = 6;

/// How many codes a font of type 1 has for characters: 33 to 126 and 161 to 255.
const CODES: usize = 189;

/// The codes up to 126.
const LOW_CODES: usize = 94;

/// Characters advance by quarters of a dot at 300 dots per inch.
const QUARTERS: i32 = 4;

/// The header of a proportional font of type 1: its size, format and type, a cell of one dot, portrait, Roman-8, a pitch, a height
/// and a width of one dot, the last code, and a name.
const HEADER: &[u8; 64] =
    b"\x00\x40\x00\x01\x00\x00\x00\x00\x00\x01\x00\x01\x00\x01\x01\x15\x00\x04\x00\x04\x00\x00\
\x00\x00\x00\x00\x00\x00\x02\x00\x00\x00\x00\x04\x00\x04\x00\x20\x00\xff\x00\x00\x00\x00\x00\x00\x00\x00pclmin blanks   ";

/// The gaps to the right that have a character, the most frequent first, and how often each is there.
#[derive(Drop)]
pub struct Blanks {
    gaps: IndexMap<i32, u32>,
    /// How many quarters of a dot at 300 dots per inch a gap of 1 is.
    quarters: i32,
}

impl Blanks {
    /// The blanks of a job, where each gap is there so often, in dots of which this many are one at 300 dots per inch.
    pub fn new(gaps: IndexMap<i32, u32>, scale: u32) -> Result<Blanks, AllocError> {
        let scale = i32::try_from(scale).unwrap_or(1).max(1);
        let mut blanks = Blanks {
            gaps,
            quarters: QUARTERS / scale,
        };
        blanks.keep_frequent()?;
        Ok(blanks)
    }

    /// Keeps the gaps to the right that are frequent, the most frequent first, as many as there are codes. Those to the left are
    /// moves: GhostPCL goes a dot less to the left than a character says.
    fn keep_frequent(&mut self) -> Result<(), AllocError> {
        self.gaps.retain(|gap: &i32, count: &mut u32| -> bool { *gap > 0 && *count >= BLANK_USES });
        self.gaps
            .sort_by_key(|_gap, count| u32::MAX.saturating_sub(*count))?;
        self.gaps.truncate(CODES);
        Ok(())
    }

    /// The code of the character that moves the cursor by a gap, if there is one.
    pub fn code(&self, gap: i32) -> Option<u8> {
        Some(code_of(self.gaps.get_index_of(&gap)?))
    }

    /// Appends the font of the blanks, and selects it; nothing where there are none.
    pub fn append_font(&self, out: &mut Vec<u8>) -> Result<(), AllocError> {
        if self.gaps.is_empty() {
            return Ok(());
        }
        append_labelled(b"\x1b*c", FONT_ID, out)?;
        out.extend_from_slice(b"D\x1b)s64W")?;
        out.extend_from_slice(HEADER)?;
        self.append_characters(out)?;
        self.append_selection(out)
    }

    /// Appends what selects the font of the blanks, if there are any.
    pub fn append_selection(&self, out: &mut Vec<u8>) -> Result<(), AllocError> {
        if self.gaps.is_empty() {
            return Ok(());
        }
        append_labelled(b"\x1b(", FONT_ID, out)?;
        out.extend_from_slice(b"X")
    }

    /// Appends a control of the font of the blanks, with the letter of its ID and its number, if there are any.
    pub fn append_control(&self, control: &[u8], out: &mut Vec<u8>) -> Result<(), AllocError> {
        if self.gaps.is_empty() {
            return Ok(());
        }
        append_labelled(b"\x1b*c", FONT_ID, out)?;
        out.extend_from_slice(control)
    }

    /// Appends the characters.
    fn append_characters(&self, out: &mut Vec<u8>) -> Result<(), AllocError> {
        for (place, gap) in self.gaps.keys().enumerate() {
            append_character(code_of(place), gap.saturating_mul(self.quarters), out)?;
        }
        Ok(())
    }
}

/// The code of the blank in this place.
fn code_of(place: usize) -> u8 {
    let code = if place < LOW_CODES {
        place.saturating_add(33)
    } else {
        place.saturating_sub(LOW_CODES).saturating_add(161)
    };
    u8::try_from(code).unwrap_or(u8::MAX)
}

/// Appends the character of a code, which advances by this many quarters of a dot at 300 dots per inch: one white dot.
fn append_character(code: u8, quarters: i32, out: &mut Vec<u8>) -> Result<(), AllocError> {
    let advance = i16::try_from(quarters).unwrap_or(0);
    append_labelled(b"\x1b*c", u32::from(code), out)?;
    out.extend_from_slice(b"E\x1b(s17W")?;
    // Format 4, no continuation, a descriptor of 14 bytes, class 1, portrait, no offsets, width and height of one dot.
    out.extend_from_slice(&[4, 0, 14, 1, 0, 0, 0, 0, 0, 0, 0, 1, 0, 1])?;
    out.extend_from_slice(&advance.to_be_bytes())?;
    out.extend_from_slice(&[0])
}
