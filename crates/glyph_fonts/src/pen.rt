//! The text of letters: codes, moves of the cursor, and changes of the font.

use crate::codes::font_id;
use crate::feeds::{Feed, find_feed};
use crate::layout::FontLayout;
use glyph_patterns::{Letter, append_labelled, digit_count};
use std::alloc::{AllocError, Global};

/// The primary font is in use from here on.
const SHIFT_IN: u8 = 15;

/// The line feed.
const LINE_FEED: u8 = 10;

/// The carriage return, which puts the cursor at the left margin.
const CARRIAGE_RETURN: u8 = 13;

/// The secondary font is in use from here on.
const SHIFT_OUT: u8 = 14;

/// A line feed puts the cursor at the left margin too.
const LINE_TERMINATION: &[u8] = b"\x1b&k2G";

/// No more bytes than these set a line feed, and the default again.
const SETTING_BYTES: usize = 64;

/// The line spacing is the default again, a sixth of an inch.
const USUAL_SPACING: &[u8] = b"\x1b&l6D";

/// What the printer holds: where its cursor is, which fonts are selected, and what a line feed does.
#[derive(Clone, Copy)]
pub struct Pen {
    /// The dot of the cursor.
    pub x: i32,
    /// The dot row of the cursor; none at the start of a page.
    pub line: Option<u32>,
    /// The width of the page: the cursor stops there.
    pub page_width: u32,
    /// Whether the first font is selected as the primary one.
    pub has_primary: bool,
    /// The font that is selected as the secondary one.
    pub secondary: Option<usize>,
    /// Whether the secondary font is in use.
    pub is_shifted: bool,
    /// The line feed that is set on the page, if one is.
    pub feed: Option<Feed>,
    /// Whether a line feed goes to the left margin.
    pub returns: bool,
    /// How many bytes the starts of lines by the left margin take less than moves, on the page: each counts one more, since it may
    /// change the font.
    pub spared: usize,
    /// Whether the line spacing is the default again after each page, since page lengths count lines.
    pub keeps_spacing: bool,
}

impl Pen {
    /// At the start of a job, whether the line spacing is the default again after each page or not.
    pub fn new(keeps_spacing: bool) -> Pen {
        Pen {
            x: 0,
            line: None,
            page_width: 0,
            has_primary: false,
            secondary: None,
            is_shifted: false,
            feed: None,
            returns: false,
            spared: 0,
            keeps_spacing,
        }
    }

    /// At the start of the text of a page. The fonts stay.
    pub fn on_page(self, page_width: u32) -> Pen {
        let mut pen = self;
        pen.x = 0;
        pen.line = None;
        pen.page_width = page_width;
        pen.feed = None;
        pen.spared = 0;
        pen
    }

    /// After the start of a line by the left margin that takes as many bytes less than a move.
    fn with_spared(self, bytes: usize) -> Pen {
        let mut pen = self;
        pen.spared = pen.spared.saturating_add(bytes.saturating_sub(1));
        pen
    }

    /// With the cursor at another place.
    fn at(self, x: i32, line: u32) -> Pen {
        let mut pen = self;
        pen.x = x.min(i32::try_from(self.page_width).unwrap_or(i32::MAX));
        pen.line = Some(line);
        pen
    }
}

/// Appends the text of the letters of a page of this height, with line feeds where it takes fewer bytes so.
pub fn append_text(
    layout: &FontLayout,
    letters: &[Letter],
    pen: Pen,
    height: u32,
    out: &mut Vec<u8>,
) -> Result<Pen, AllocError> {
    let alloc = *out.allocator();
    let Some(feed) = feed_of(layout, alloc, letters, height)? else {
        return append_lines(layout, letters, pen, out);
    };
    let mut fed = Vec::new(alloc);
    let fed_pen = append_fed(layout, letters, pen, feed, &mut fed)?;
    if fed_pen.spared > SETTING_BYTES {
        out.extend_from_slice(&fed)?;
        return Ok(fed_pen);
    }
    let mut moved = Vec::new(alloc);
    let moved_pen = append_lines(layout, letters, pen, &mut moved)?;
    if fed.len() < moved.len() {
        out.extend_from_slice(&fed)?;
        return Ok(fed_pen);
    }
    out.extend_from_slice(&moved)?;
    Ok(moved_pen)
}

/// The line feed of a page of this height, if one may start its lines.
fn feed_of(
    layout: &FontLayout,
    alloc: Global,
    letters: &[Letter],
    height: u32,
) -> Result<Option<Feed>, AllocError> {
    if layout.spacing.has_feeds {
        let scale = layout.kind.scale;
        find_feed(alloc, &layout.spacing, letters, height, scale)
    } else {
        Ok(None)
    }
}

/// Appends the text of the letters of a page, of which lines may start by this line feed.
fn append_fed(
    layout: &FontLayout,
    letters: &[Letter],
    pen: Pen,
    feed: Feed,
    out: &mut Vec<u8>,
) -> Result<Pen, AllocError> {
    let pen = set_feed(pen, feed, out)?;
    let pen = append_lines(layout, letters, pen, out)?;
    if pen.keeps_spacing {
        out.extend_from_slice(USUAL_SPACING)?;
    }
    Ok(pen)
}

/// Appends what sets a line feed. The margin counts columns, of the pitch of a font: a dot.
fn set_feed(pen: Pen, feed: Feed, out: &mut Vec<u8>) -> Result<Pen, AllocError> {
    let mut pen = if pen.has_primary {
        pen
    } else {
        select_font(0, pen, out)?
    };
    append_labelled(b"\x1b&a", feed.margin, out)?;
    out.extend_from_slice(b"L")?;
    feed.append_spacing(out)?;
    if !pen.returns {
        out.extend_from_slice(LINE_TERMINATION)?;
    }
    pen.returns = true;
    pen.feed = Some(feed);
    Ok(pen)
}

/// Appends the letters of a page.
fn append_lines(
    layout: &FontLayout,
    letters: &[Letter],
    pen: Pen,
    out: &mut Vec<u8>,
) -> Result<Pen, AllocError> {
    let mut pen = pen;
    for (place, letter) in letters.iter().enumerate() {
        let next = letters.get(place.saturating_add(1));
        pen = append_letter(layout, letter, next, pen, out)?;
    }
    Ok(pen)
}

/// Appends a letter, with what leads to it, so that the cursor advances to the next one where a character does so.
fn append_letter(
    layout: &FontLayout,
    letter: &Letter,
    next: Option<&Letter>,
    pen: Pen,
    out: &mut Vec<u8>,
) -> Result<Pen, AllocError> {
    let gap = match next {
        Some(next) => layout.spacing.distance(letter, next),
        None => None,
    };
    let Some((code, advance)) = layout.spacing.character(letter.glyph, gap) else {
        return Ok(pen);
    };
    let place = layout.spacing.metrics.place_of(letter);
    let pen = append_move(layout, letter, place, pen, out)?;
    let pen = select_font(code.font, pen, out)?;
    out.push(code.code)?;
    let x = place.saturating_add_unsigned(advance);
    Ok(pen.at(x, u32::from(letter.baseline)))
}

/// Appends what moves the cursor to the place of a letter.
fn append_move(
    layout: &FontLayout,
    letter: &Letter,
    place: i32,
    pen: Pen,
    out: &mut Vec<u8>,
) -> Result<Pen, AllocError> {
    if pen.line == Some(u32::from(letter.baseline)) {
        append_rest(layout, place.saturating_sub(pen.x), pen, out)
    } else {
        append_line_start(layout, letter, place, pen, out)
    }
}

/// Appends what moves the cursor by a rest, with the first font in use where blanks of it do so.
fn append_rest(
    layout: &FontLayout,
    rest: i32,
    pen: Pen,
    out: &mut Vec<u8>,
) -> Result<Pen, AllocError> {
    let rests = &layout.spacing.rests;
    let pen = if rests.needs_first_font(rest) {
        select_font(0, pen, out)?
    } else {
        pen
    };
    rests.append(rest, out)?;
    Ok(pen)
}

/// Appends what starts another line with the cursor in this place: a move, or where it takes fewer bytes what leads to the left margin
/// and from there on.
fn append_line_start(
    layout: &FontLayout,
    letter: &Letter,
    place: i32,
    pen: Pen,
    out: &mut Vec<u8>,
) -> Result<Pen, AllocError> {
    let alloc = *out.allocator();
    let mut moved = Vec::new(alloc);
    append_place(letter, place, pen, &mut moved)?;
    if let Some(feed) = pen.feed {
        let mut returned = Vec::new(alloc);
        append_return(feed, letter, pen, &mut returned)?;
        let margin = i32::try_from(feed.margin).unwrap_or(0);
        let rest = place.saturating_sub(margin);
        let returned_pen = append_rest(layout, rest, pen, &mut returned)?;
        if returned.len() < moved.len() {
            out.extend_from_slice(&returned)?;
            return Ok(returned_pen.with_spared(moved.len().saturating_sub(returned.len())));
        }
    }
    out.extend_from_slice(&moved)?;
    Ok(pen)
}

/// Appends what puts the cursor at the left margin, on the line of a letter: line feeds, or a carriage return and a move down.
fn append_return(
    feed: Feed,
    letter: &Letter,
    pen: Pen,
    out: &mut Vec<u8>,
) -> Result<(), AllocError> {
    let row = u32::from(letter.baseline);
    let feeds = pen.line.and_then(|line| feed.count(line, row));
    match feeds {
        Some(count) => {
            for _ in 0..count {
                out.push(LINE_FEED)?;
            }
            Ok(())
        }
        None => {
            out.extend_from_slice(&[CARRIAGE_RETURN])?;
            append_row(b"\x1b*p", letter, pen, out)
        }
    }
}

/// Appends a move to the start of another line.
fn append_place(
    letter: &Letter,
    place: i32,
    pen: Pen,
    out: &mut Vec<u8>,
) -> Result<(), AllocError> {
    append_labelled(b"\x1b*p", u32::try_from(place).unwrap_or(0), out)?;
    append_row(b"x", letter, pen, out)
}

/// Appends a label and the row of a letter after it. It is counted from the line above where that takes fewer bytes.
fn append_row(
    label: &[u8],
    letter: &Letter,
    pen: Pen,
    out: &mut Vec<u8>,
) -> Result<(), AllocError> {
    let row = u32::from(letter.baseline);
    let below = pen
        .line
        .and_then(|line| row.checked_sub(line))
        .unwrap_or(u32::MAX);
    out.extend_from_slice(label)?;
    if digit_count(below).saturating_add(1) < digit_count(row) {
        append_labelled(b"+", below, out)?;
    } else {
        append_labelled(b"", row, out)?;
    }
    out.extend_from_slice(b"Y")
}

/// Appends what brings a font into use: the first font is the primary one, and all others in turn the secondary one.
fn select_font(font: usize, pen: Pen, out: &mut Vec<u8>) -> Result<Pen, AllocError> {
    let mut pen = pen;
    if font == 0 {
        if !pen.has_primary {
            append_labelled(b"\x1b(", font_id(font), out)?;
            out.extend_from_slice(b"X")?;
            pen.has_primary = true;
        }
        if pen.is_shifted {
            out.push(SHIFT_IN)?;
            pen.is_shifted = false;
        }
    } else {
        if pen.secondary != Some(font) {
            append_labelled(b"\x1b)", font_id(font), out)?;
            out.extend_from_slice(b"X")?;
            pen.secondary = Some(font);
        }
        if !pen.is_shifted {
            out.push(SHIFT_OUT)?;
            pen.is_shifted = true;
        }
    }
    Ok(pen)
}
