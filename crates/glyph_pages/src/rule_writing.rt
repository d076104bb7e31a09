//! Rules written as rectangles (PCL 5 manual, "Rectangular Area Fills").

use crate::series::{RulesLeft, SeriesMacros};
use glyph_patterns::{append_labelled, digit_count};
use glyph_shapes::{Rule, count_beside};
use std::alloc::{AllocError, Global};

/// The highest ID of a macro. Those of a job go down from it, as a site's own mostly go up from 0.
pub const FIRST_ID: u32 = 32_767;

/// About how many bytes a rectangle takes.
const RECTANGLE_BYTES: u32 = 14;

/// What the printer holds for rules.
#[derive(Clone, Copy)]
pub struct RulePen {
    /// The size of the next rectangle, in dots.
    width: u32,
    height: u32,
    macros: SeriesMacros,
}

impl RulePen {
    /// After a reset.
    pub fn new() -> RulePen {
        RulePen {
            width: 0,
            height: 0,
            macros: SeriesMacros::new(),
        }
    }
}

/// Appends the rules of a page, where the PCL unit is a dot: for each a move, and the rectangle with what of its size isn't set yet. A
/// series of rules is one rule and a macro, of this ID or one below it, which is run for each of the others.
pub fn append_rules(
    alloc: Global,
    rules: &[Rule],
    pen: RulePen,
    id: u32,
    out: &mut Vec<u8>,
) -> Result<RulePen, AllocError> {
    let mut left = RulesLeft::new(alloc, rules)?;
    let mut pen = pen;
    pen.macros = pen.macros.on_page();
    let mut before = None;
    for (place, rule) in rules.iter().enumerate() {
        if left.take(place) {
            append_move(rule, before, out)?;
            pen = append_rectangle(rule, pen, out)?;
            before = Some(*rule);
            if let Some(series) = left.longest_series(*rule, place, pen.macros) {
                pen.macros = series.append(pen.macros, id, out)?;
                before = Some(left.take_series(*rule, series));
            }
        }
    }
    Ok(pen)
}

/// Appends the move to a rule from the one before, if there was one on the page: the cursor stays at the corner of a rectangle.
fn append_move(rule: &Rule, before: Option<Rule>, out: &mut Vec<u8>) -> Result<(), AllocError> {
    let Some(before) = before else {
        append_labelled(b"\x1b*p", rule.left, out)?;
        append_labelled(b"x", rule.top, out)?;
        return out.extend_from_slice(b"Y");
    };
    out.extend_from_slice(b"\x1b*p")?;
    if rule.left == before.left {
        append_place(before.top, rule.top, out)?;
        return out.extend_from_slice(b"Y");
    }
    append_place(before.left, rule.left, out)?;
    if rule.top == before.top {
        return out.extend_from_slice(b"X");
    }
    out.extend_from_slice(b"x")?;
    append_place(before.top, rule.top, out)?;
    out.extend_from_slice(b"Y")
}

/// Appends a place in dots, counted from the one before where that takes fewer bytes.
fn append_place(before: u32, place: u32, out: &mut Vec<u8>) -> Result<(), AllocError> {
    let way = place.abs_diff(before);
    if digit_count(way).saturating_add(1) < digit_count(place) {
        append_labelled(if place < before { b"-" } else { b"+" }, way, out)
    } else {
        append_labelled(b"", place, out)
    }
}

/// Appends a rectangle at the cursor, with those sides that aren't set.
fn append_rectangle(rule: &Rule, pen: RulePen, out: &mut Vec<u8>) -> Result<RulePen, AllocError> {
    out.extend_from_slice(b"\x1b*c")?;
    if rule.width != pen.width {
        append_labelled(b"", rule.width, out)?;
        out.extend_from_slice(b"a")?;
    }
    if rule.height != pen.height {
        append_labelled(b"", rule.height, out)?;
        out.extend_from_slice(b"b")?;
    }
    out.extend_from_slice(b"P")?;
    Ok(RulePen {
        width: rule.width,
        height: rule.height,
        macros: pen.macros,
    })
}

/// Those rules that share their rows with few: rules that begin in one row and end in one take a byte for each row in a raster, all of them
/// together, and so do the bars of a bar code.
pub fn sparse_rules(alloc: Global, rules: &[Rule]) -> Result<Vec<Rule>, AllocError> {
    let mut sparse = Vec::new(alloc);
    for rule in rules {
        if count_beside(rule, rules).saturating_mul(RECTANGLE_BYTES) <= rule.height
            || rule.width > rule.height
        {
            sparse.push(*rule)?;
        }
    }
    Ok(sparse)
}
