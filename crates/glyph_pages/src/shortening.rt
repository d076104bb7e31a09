//! Page texts made shorter.
//!
//! The raster of a page text starts at the corner of the page, and each row ends a sequence (docs/OUTPUT.md). A raster may start where the
//! ink does, and a row without data needs no end: the sequence of the next row takes it too.

use crate::corners::Corner;
use glyph_patterns::append_labelled;
use pcl_bitmap::Page;
use std::alloc::{AllocError, Global};

/// Starts the sequence of a row.
const ROW_START: &[u8] = b"\x1b*b";

/// A page text whose raster starts at a corner of a page, and which was written for the page from there on. Rows that have no data stand
/// in the sequences of those that follow.
pub fn shortened(
    alloc: Global,
    text: &[u8],
    page: &Page,
    corner: Corner,
) -> Result<Vec<u8>, AllocError> {
    let mut out = Vec::new(alloc);
    let (head, body) = split_after(text, b'A');
    if corner.is_of_page() {
        out.extend_from_slice(head)?;
    } else {
        let (start, _) = split_after(head, b'E');
        out.extend_from_slice(start)?;
        append_start(page, corner, &mut out)?;
    }
    append_chained(body, &mut out)?;
    Ok(out)
}

/// Appends the start of a raster at a corner of a page, where the PCL unit is a dot.
fn append_start(page: &Page, corner: Corner, out: &mut Vec<u8>) -> Result<(), AllocError> {
    let left = u32::try_from(corner.left).map_or(0, |bytes| bytes.saturating_mul(8));
    let width = page.size.width(page.dpi).saturating_sub(left);
    append_labelled(b"\x1b*p", left, out)?;
    append_labelled(b"x", corner.top, out)?;
    append_labelled(b"Y\x1b*t", page.dpi.dots(), out)?;
    append_labelled(b"R\x1b*r", width, out)?;
    out.extend_from_slice(b"s1A")
}

/// Appends the rows of a page text, and what follows them, with rows that have no data in the sequences of those that follow.
fn append_chained(body: &[u8], out: &mut Vec<u8>) -> Result<(), AllocError> {
    let mut rest = body;
    let mut is_open = false;
    for _ in 0..body.len() {
        let Some(sequence) = Sequence::first_of(rest) else {
            break;
        };
        rest = sequence.rest;
        is_open = sequence.append(is_open, out)?;
    }
    out.extend_from_slice(rest)
}

/// A text up to the end of its first command that has this letter, and what follows: all of it where none has.
fn split_after(text: &[u8], letter: u8) -> (&[u8], &[u8]) {
    let end = match text.iter().position(|byte| *byte == letter) {
        Some(place) => place.saturating_add(1),
        None => 0,
    };
    text.split_at(end.min(text.len()))
}

/// A sequence that sends a row.
#[derive(Clone, Copy)]
struct Sequence<'a> {
    /// What stands from its start up to the `W`.
    parameters: &'a [u8],
    data: &'a [u8],
    /// What follows.
    rest: &'a [u8],
}

impl<'a> Sequence<'a> {
    /// The one that a text begins with.
    fn first_of(text: &'a [u8]) -> Option<Sequence<'a>> {
        let sequence = text.strip_prefix(ROW_START)?;
        let end = sequence.iter().position(|byte| *byte == b'W')?;
        let parameters = sequence.get(..end)?;
        let after = sequence.get(end.saturating_add(1)..)?;
        let (data, rest) = after.split_at_checked(last_number(parameters))?;
        Some(Sequence {
            parameters,
            data,
            rest,
        })
    }

    /// Appends it, to a sequence that may be open, and says whether one is open after it.
    fn append(self, is_open: bool, out: &mut Vec<u8>) -> Result<bool, AllocError> {
        if !is_open {
            out.extend_from_slice(ROW_START)?;
        }
        out.extend_from_slice(self.parameters)?;
        let goes_on = self.data.is_empty() && self.rest.starts_with(ROW_START);
        out.push(if goes_on { b'w' } else { b'W' })?;
        out.extend_from_slice(self.data)?;
        Ok(goes_on)
    }
}

/// The number with which some parameters end.
fn last_number(parameters: &[u8]) -> usize {
    let mut number: usize = 0;
    for byte in parameters {
        number = if byte.is_ascii_digit() {
            number
                .saturating_mul(10)
                .saturating_add(usize::from(byte.saturating_sub(b'0')))
        } else {
            0
        };
    }
    number
}
