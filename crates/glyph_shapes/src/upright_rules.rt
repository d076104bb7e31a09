//! Rules that go from top to bottom.

use crate::dots::black_dots;
use crate::edges::append_edges;
use crate::inked_pages::InkedPage;
use crate::rules::{RULE_LIMIT, Rule, is_border, is_slender, least_length};
use pcl_bitmap::trimmed_len;
use std::alloc::{AllocError, Global};
use std::mem::swap;

/// How many rows a stack has whose common columns are looked at: each rule goes through all rows of one at least.
fn stack_rows(page: &InkedPage<'_>) -> u32 {
    least_length(page.dpi()).div_ceil(2)
}

/// Appends the upright rules of a page, as long as there is room.
pub fn append_upright_rules(
    alloc: Global,
    page: &InkedPage<'_>,
    rules: &mut Vec<Rule>,
) -> Result<(), AllocError> {
    let mut finder = UprightFinder {
        page,
        common: Vec::new(alloc),
        edges: Vec::new(alloc),
        above: Vec::new(alloc),
    };
    let rows = stack_rows(page).max(1);
    for stack in 0..page.height() / rows {
        finder.step(stack.saturating_mul(rows), rows, rules)?;
    }
    Ok(())
}

/// Goes over the rows of a page in stacks of this many.
#[derive(Drop)]
struct UprightFinder<'a> {
    page: &'a InkedPage<'a>,
    /// The dots that are black in all rows of the stack.
    common: Vec<u8>,
    /// Where their ink changes, in this stack and in the one above.
    edges: Vec<u16>,
    above: Vec<u16>,
}

impl<'a> UprightFinder<'a> {
    /// Goes on to the stack of this many rows from `top` on, the next one, and appends the rules through it that aren't there.
    fn step(&mut self, top: u32, rows: u32, rules: &mut Vec<Rule>) -> Result<(), AllocError> {
        swap(&mut self.above, &mut self.edges);
        self.edges.clear();
        if !self.find_common(top, rows)? {
            return Ok(());
        }
        append_edges(&self.common, &mut self.edges)?;
        let mut above = self.above.as_slice();
        for ends in self.edges.chunks(2) {
            if let [start, end] = *ends {
                above = pairs_from(above, start);
                let stack = Rule {
                    height: rows,
                    width: u32::from(end.saturating_sub(start)),
                    left: u32::from(start),
                    top,
                };
                if !above.starts_with(ends) && !is_covered(stack, rules) {
                    append_rule_through(self.page, stack, rules)?;
                }
            }
        }
        Ok(())
    }

    /// Finds the dots that are black in all of this many rows from `top` on, and says whether there are any.
    fn find_common(&mut self, top: u32, rows: u32) -> Result<bool, AllocError> {
        self.common.clear();
        self.common.extend_from_slice(self.page.row(top))?;
        for y in top..top.saturating_add(rows) {
            let row = self.page.row(y);
            for (common, byte) in self.common.iter_mut().zip(row) {
                *common &= *byte;
            }
            if row.is_empty() || trimmed_len(&self.common) == 0 {
                return Ok(false);
            }
        }
        Ok(true)
    }
}

/// Those of the pairs of some edges, from left to right, that don't begin left of this dot.
fn pairs_from(edges: &[u16], start: u16) -> &[u16] {
    let place = edges
        .chunks(2)
        .position(|ends| ends.first().is_some_and(|edge| *edge >= start));
    match place {
        Some(count) => edges.get(count.saturating_mul(2)..).unwrap_or(&[]),
        None => &[],
    }
}

/// Whether one of some rules has all dots of a rectangle.
fn is_covered(rectangle: Rule, rules: &[Rule]) -> bool {
    rules.iter().any(|rule| rule.covers(rectangle))
}

/// Appends the rule through a stack of rows whose dots are black, if it is one and there is room.
fn append_rule_through(
    page: &InkedPage<'_>,
    stack: Rule,
    rules: &mut Vec<Rule>,
) -> Result<(), AllocError> {
    if rules.len() >= RULE_LIMIT {
        return Ok(());
    }
    if let Some(rule) = rule_through(page, stack) {
        rules.push(rule)?;
    }
    Ok(())
}

/// The rule through a stack of rows whose dots are black: it goes up and down as far as they are. None where that is no rule, or where what
/// touches it is in these rows.
fn rule_through(page: &InkedPage<'_>, stack: Rule) -> Option<Rule> {
    if !is_slender(page.height(), stack.width) || !is_bordered(page, stack) {
        return None;
    }
    let top = top_of(page, stack);
    let bottom = bottom_of(page, stack);
    let rule = Rule {
        height: bottom.saturating_sub(top),
        width: stack.width,
        left: stack.left,
        top,
    };
    is_upright_rule(page, rule).then_some(rule)
}

/// How far up the dots of a rectangle are black.
fn top_of(page: &InkedPage<'_>, rectangle: Rule) -> u32 {
    let mut top = rectangle.top;
    for _ in 0..rectangle.top {
        match top.checked_sub(1) {
            Some(above) if is_black(page, above, rectangle) => {
                top = page.start_of(above);
            }
            _ => break,
        }
    }
    top
}

/// The row down to which the dots of a rectangle are black.
fn bottom_of(page: &InkedPage<'_>, rectangle: Rule) -> u32 {
    let mut bottom = rectangle.bottom();
    for _ in bottom..page.height() {
        if bottom >= page.height() || !is_black(page, bottom, rectangle) {
            break;
        }
        bottom = page.end_of(bottom);
    }
    bottom
}

/// Whether the dots of a rectangle's columns are black in row `y`.
fn is_black(page: &InkedPage<'_>, y: u32, rectangle: Rule) -> bool {
    let end = rectangle.left.saturating_add(rectangle.width);
    black_dots(page.row(y), rectangle.left, end) == rectangle.width
}

/// Whether a black rectangle is a rule: long and thin, and mostly white on its left and right.
fn is_upright_rule(page: &InkedPage<'_>, rule: Rule) -> bool {
    rule.height >= least_length(page.dpi())
        && is_slender(rule.height, rule.width)
        && is_bordered(page, rule)
}

/// Whether a rectangle is mostly white on its left and right.
fn is_bordered(page: &InkedPage<'_>, rectangle: Rule) -> bool {
    let end = rectangle.left.saturating_add(rectangle.width);
    let left = match rectangle.left.checked_sub(1) {
        Some(beside) => black_in_column(page, beside, rectangle),
        None => 0,
    };
    is_border(left, rectangle.height)
        && is_border(black_in_column(page, end, rectangle), rectangle.height)
}

/// How many dots of column `x` are black in the rows of a rectangle.
fn black_in_column(page: &InkedPage<'_>, x: u32, rectangle: Rule) -> u32 {
    let mut count: u32 = 0;
    let mut y = rectangle.top;
    for _ in 0..rectangle.height {
        if y >= rectangle.bottom() {
            break;
        }
        let end = page.end_of(y).min(rectangle.bottom());
        let black = black_dots(page.row(y), x, x.saturating_add(1));
        count = count.saturating_add(black.saturating_mul(end.saturating_sub(y)));
        y = end;
    }
    count
}
