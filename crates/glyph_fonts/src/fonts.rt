//! Sending fonts (PCL 5 manual, "Soft Font Creation").

use crate::codes::{blank_code, font_id};
use crate::layout::FontLayout;
use crate::spacing::Character;
use glyph_patterns::{
    FontKind, Letters, Pattern, append_compressed, append_labelled, append_word, number_of_place,
};
use std::alloc::AllocError;

/// The bytes of a font header without a resolution.
const HEADER_BYTES: u32 = 64;

/// The bytes of a character before its rows.
const DESCRIPTOR_BYTES: u32 = 16;

/// Quarter dots in a dot.
const QUARTERS: u32 = 4;

/// The class of characters whose rows are sent as they are.
const PLAIN: u8 = 1;

/// The class of compressed characters.
const COMPRESSED: u8 = 2;

/// A character as it is sent.
#[derive(Clone, Copy)]
struct Sent<'a> {
    code: u8,
    /// How far right of the cursor its left edge stands, in dots.
    left: i32,
    /// How far its topmost row lies above the cursor, in dots, or below it under 0.
    top: i32,
    /// In dots.
    advance: u32,
    /// Its dots.
    pattern: Pattern<'a>,
}

/// The resolution along x and along y that ends a header of format 20, in dots per inch; a header of format 0 has none.
fn resolution_of(kind: FontKind) -> &'static [u32] {
    match kind.scale {
        2 => &[600, 600],
        _ => &[],
    }
}

/// How many bytes a header has.
fn header_bytes(kind: FontKind) -> u32 {
    let resolution = number_of_place(resolution_of(kind).len()).saturating_mul(2);
    HEADER_BYTES.saturating_add(resolution)
}

/// The format of a header.
fn format_of(kind: FontKind) -> u8 {
    if resolution_of(kind).is_empty() {
        0
    } else {
        20
    }
}

/// Appends the unit in which the cursor moves, a dot, where it isn't the one that a reset sets.
pub fn append_unit(layout: &FontLayout, out: &mut Vec<u8>) -> Result<(), AllocError> {
    match layout.kind.scale {
        1 => Ok(()),
        _ => out.extend_from_slice(b"\x1b&u600D"),
    }
}

/// Appends the unit in which the cursor moves, and all fonts with their characters.
pub fn append_fonts(layout: &FontLayout, out: &mut Vec<u8>) -> Result<(), AllocError> {
    append_unit(layout, out)?;
    let mut font = None;
    for (rank, character) in layout.spacing.characters.keys().enumerate() {
        font = append_ranked(layout, rank, *character, font, out)?;
        if font.is_none() {
            break;
        }
    }
    Ok(())
}

/// Appends the character of this rank, after its font if that isn't the one before, and says which font it is of; none where no code is
/// left.
fn append_ranked(
    layout: &FontLayout,
    rank: usize,
    character: Character,
    before: Option<usize>,
    out: &mut Vec<u8>,
) -> Result<Option<usize>, AllocError> {
    let Some((font, sent)) = sent_of_rank(layout, rank, character) else {
        return Ok(None);
    };
    if before != Some(font) {
        append_font(layout, font, out)?;
    }
    append_character(&sent, layout.kind, out)?;
    Ok(Some(font))
}

/// The font of a character of this rank, and the character as it is sent; none where no code is left for it.
fn sent_of_rank(
    layout: &FontLayout,
    rank: usize,
    character: Character,
) -> Option<(usize, Sent<'_>)> {
    let code = layout.spacing.code_of_rank(rank)?;
    let pattern = layout.pattern_of(character.glyph)?;
    let sent = Sent {
        code: code.code,
        left: layout.spacing.metrics.bearing(character.glyph),
        top: layout.letters.top_of(character.glyph),
        advance: character.advance,
        pattern,
    };
    Some((code.font, sent))
}

/// Appends a font, the first one with the blanks.
fn append_font(layout: &FontLayout, font: usize, out: &mut Vec<u8>) -> Result<(), AllocError> {
    append_labelled(b"\x1b*c", font_id(font), out)?;
    append_labelled(b"D\x1b)s", header_bytes(layout.kind), out)?;
    out.extend_from_slice(b"W")?;
    append_header(layout, out)?;
    if font == 0 {
        append_blanks(layout, out)?;
    }
    Ok(())
}

/// Appends the blanks but the space.
fn append_blanks(layout: &FontLayout, out: &mut Vec<u8>) -> Result<(), AllocError> {
    for (number, advance) in layout.spacing.rests.blanks().iter().enumerate().skip(1) {
        let sent = Sent {
            code: blank_code(number),
            left: 0,
            top: 0,
            advance: *advance,
            pattern: Pattern {
                width: 1,
                height: 1,
                rows: &[0],
            },
        };
        append_character(&sent, layout.kind, out)?;
    }
    Ok(())
}

/// Appends a character, compressed where it may be and takes fewer bytes so.
fn append_character(sent: &Sent<'_>, kind: FontKind, out: &mut Vec<u8>) -> Result<(), AllocError> {
    if kind.compresses {
        let mut compressed = Vec::new(*out.allocator());
        append_compressed(sent.pattern, &mut compressed)?;
        if compressed.len() < sent.pattern.rows.len() {
            return append_classed(sent, COMPRESSED, &compressed, out);
        }
    }
    append_classed(sent, PLAIN, sent.pattern.rows, out)
}

/// Appends a character: its code, and its descriptor and rows, of this class.
fn append_classed(
    sent: &Sent<'_>,
    class: u8,
    rows: &[u8],
    out: &mut Vec<u8>,
) -> Result<(), AllocError> {
    let size = number_of_place(rows.len());
    append_labelled(b"\x1b*c", u32::from(sent.code), out)?;
    append_labelled(b"E\x1b(s", DESCRIPTOR_BYTES.saturating_add(size), out)?;
    // Format 4, no continuation, a descriptor of 14 bytes, the class, portrait.
    out.extend_from_slice(&[b'W', 4, 0, 14, class, 0, 0])?;
    let advance = sent.advance.saturating_mul(QUARTERS);
    append_offset(sent.left, out)?;
    append_offset(sent.top, out)?;
    let Pattern { width, height, .. } = sent.pattern;
    append_words(&[width, height, advance], out)?;
    out.extend_from_slice(rows)
}

/// Appends a left or a top offset, a field of two bytes with a sign.
fn append_offset(offset: i32, out: &mut Vec<u8>) -> Result<(), AllocError> {
    out.extend_from_slice(&i16::try_from(offset).unwrap_or(0).to_be_bytes())
}

/// Appends fields of two bytes.
fn append_words(numbers: &[u32], out: &mut Vec<u8>) -> Result<(), AllocError> {
    for number in numbers {
        append_word(*number, out)?;
    }
    Ok(())
}

/// Appends the header of a proportional font.
fn append_header(layout: &FontLayout, out: &mut Vec<u8>) -> Result<(), AllocError> {
    let kind = layout.kind;
    let cell = Cell::of(layout);
    append_word(header_bytes(kind), out)?;
    // The format, type 2, and two bytes that aren't used.
    out.extend_from_slice(&[format_of(kind), 2, 0, 0])?;
    append_words(&[cell.baseline, cell.width, cell.height], out)?;
    append_style(layout, cell, out)?;
    // The first and the last code, the parts of pitch and height below quarter dots, the height of capitals, a number.
    out.extend_from_slice(&[0, 32, 0, 255, 0, 0, 0, 0, 0, 0, 0, 0])?;
    out.extend_from_slice(b"pclmin glyphs   ")?;
    append_words(resolution_of(kind), out)
}

/// Appends the part of a header that says how its font looks.
fn append_style(layout: &FontLayout, cell: Cell, out: &mut Vec<u8>) -> Result<(), AllocError> {
    let pitch = layout.spacing.rests.pitch().saturating_mul(QUARTERS);
    let height = cell.height.saturating_mul(QUARTERS);
    let half_baseline = cell.baseline.saturating_mul(QUARTERS / 2);
    // Portrait, proportional, and the symbol set PC-8.
    out.extend_from_slice(&[0, 1, 1, 85])?;
    append_words(&[pitch, height, half_baseline], out)?;
    // Width, style, weight, typeface, serifs, quality, placement, and no underline.
    out.extend_from_slice(&[0, 0, 0, 0, 0, 0, 2, 0, 0, 0])?;
    append_words(&[height, cell.width.saturating_mul(QUARTERS)], out)
}

/// The box that holds each character, in dots.
#[derive(Clone, Copy)]
struct Cell {
    width: u32,
    height: u32,
    /// How far its topmost row lies above the baseline.
    baseline: u32,
}

impl Cell {
    /// The box that holds all characters of a job.
    fn of(layout: &FontLayout) -> Cell {
        let mut cell = Cell {
            width: 1,
            height: 1,
            baseline: 0,
        };
        for character in layout.spacing.characters.keys() {
            if let Some(pattern) = layout.pattern_of(character.glyph) {
                cell = cell.with(pattern, &layout.letters, character.glyph);
            }
        }
        cell
    }

    /// The box with one character more.
    fn with(self, pattern: Pattern<'_>, letters: &Letters, glyph: u32) -> Cell {
        let top = letters.top_of(glyph);
        let below = self.height.saturating_sub(self.baseline);
        let bottom = i32::try_from(pattern.height)
            .unwrap_or(0)
            .saturating_sub(top);
        let baseline = self.baseline.max(u32::try_from(top).unwrap_or(0));
        Cell {
            width: self.width.max(pattern.width),
            height: baseline.saturating_add(below.max(u32::try_from(bottom).unwrap_or(0))),
            baseline,
        }
    }
}
