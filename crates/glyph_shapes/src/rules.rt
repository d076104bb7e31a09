//! Rules of pages: black rectangles that are long and thin, as those of frames, tables and underlines.
//!
//! A level rule is the same long run of black dots in each of its rows, an upright one the same black columns down many rows. What
//! crosses a rule is black in it too: so both kinds are found on the page as it is, before any is taken out.

use crate::inked_pages::InkedPage;
use crate::level_rules::append_level_rules;
use crate::upright_rules::append_upright_rules;
use glyph_patterns::rows_len;
use pcl_base::Dpi;
use pcl_bitmap::{Bitmap, Ink};
use std::alloc::{AllocError, Global};

/// How many rules of a page are found, at most.
pub const RULE_LIMIT: usize = 512;

/// A rule is this many times as long as it is thick, at least: the stems of large letters are thicker.
const SLENDERNESS: u32 = 12;

/// How many of the dots beside a rule may be black, as what touches or crosses it is: one of this many.
const BORDER_PART: u32 = 4;

/// A bar code has this many bars, which as characters of a few widths take a byte or two each. Fewer take as few bytes as rectangles.
const LEAST_BARS: u32 = 24;

/// A black rectangle of a page, in dots. Their order is that of printing: equal sizes come in turn.
#[derive(Clone, Copy, PartialEq, Eq, PartialOrd, Ord)]
pub struct Rule {
    pub height: u32,
    pub width: u32,
    /// Its leftmost dot.
    pub left: u32,
    /// Its topmost row.
    pub top: u32,
}

impl Rule {
    /// The row below its lowest one.
    pub fn bottom(self) -> u32 {
        self.top.saturating_add(self.height)
    }

    /// Whether it has dots in row `y`.
    pub fn is_in_row(self, y: u32) -> bool {
        self.top <= y && y < self.bottom()
    }

    /// Whether all of another rectangle is in it.
    pub fn covers(self, other: Rule) -> bool {
        self.left <= other.left
            && self.top <= other.top
            && self.left.saturating_add(self.width) >= other.left.saturating_add(other.width)
            && self.bottom() >= other.bottom()
    }
}

/// The rules of the pages of a job.
#[derive(Drop)]
pub struct Rules {
    /// Those of all pages in turn.
    rules: Vec<Rule>,
    /// For each page, how many rules there are up to its end.
    ends: Vec<usize>,
}

impl Rules {
    /// No page yet.
    pub fn new(alloc: Global) -> Rules {
        Rules {
            rules: Vec::new(alloc),
            ends: Vec::new(alloc),
        }
    }

    /// Whether no page has any.
    pub fn is_empty(&self) -> bool {
        self.rules.is_empty()
    }

    /// The rules of a page, whose number is counted from 0, in the order of printing.
    pub fn of_page(&self, page: u32) -> &[Rule] {
        let end = self.ends.get(page as usize).copied().unwrap_or(0);
        let start = match (page as usize).checked_sub(1) {
            Some(before) => self.ends.get(before).copied().unwrap_or(0),
            None => 0,
        };
        let rules = self.rules.get(..end).unwrap_or(&[]);
        rules.get(start..).unwrap_or(&[])
    }

    /// Adds rules to the page that comes.
    pub fn add(&mut self, rules: &[Rule]) -> Result<(), AllocError> {
        self.rules.extend_from_slice(rules)
    }

    /// Ends the page that came, with the rules that were added.
    pub fn end_page(&mut self) -> Result<(), AllocError> {
        self.ends.push(self.rules.len())?;
        Ok(())
    }
}

/// The rules of a page, in the order of printing.
pub fn find_rules(alloc: Global, page: &InkedPage<'_>) -> Result<Vec<Rule>, AllocError> {
    let mut rules = Vec::new(alloc);
    append_level_rules(alloc, page, &mut rules)?;
    append_upright_rules(alloc, page, &mut rules)?;
    rules.sort_unstable();
    Ok(rules)
}

/// How many dots a rule has in its length, at least: 32 of them are four whole bytes of a row at 300 dots per inch.
pub fn least_length(dpi: Dpi) -> u32 {
    match dpi {
        Dpi::Dpi300 => 63,
        Dpi::Dpi600 => 126,
    }
}

/// Those of some rules that are no bars of a bar code. Bars may be characters: they are upright, `LEAST_BARS` or more are in the same rows,
/// and each has no more dots than a letter may have. `scale` dots are one at 300 dots per inch.
pub fn without_bars(alloc: Global, rules: &[Rule], scale: u32) -> Result<Vec<Rule>, AllocError> {
    let mut kept = Vec::new(alloc);
    for rule in rules {
        let may_be_letter = rows_len(rule.width, rule.height, scale) > 0;
        let is_bar = may_be_letter && rule.width < rule.height;
        if !is_bar || count_beside(rule, rules) < LEAST_BARS {
            kept.push(*rule)?;
        }
    }
    Ok(kept)
}

/// How many rules are in the same rows as this one, with itself.
pub fn count_beside(rule: &Rule, rules: &[Rule]) -> u32 {
    let mut count: u32 = 0;
    for other in rules {
        if other.top == rule.top && other.height == rule.height {
            count = count.saturating_add(1);
        }
    }
    count
}

/// Whether a rectangle is thin enough for a rule.
pub fn is_slender(length: u32, thickness: u32) -> bool {
    thickness.saturating_mul(SLENDERNESS) <= length
}

/// Whether so few of the dots beside a rule of this length are black that it stands by itself.
pub fn is_border(black: u32, length: u32) -> bool {
    black.saturating_mul(BORDER_PART) <= length
}

/// Inks the dots of rules.
pub fn ink_rules(rules: &[Rule], ink: Ink, bitmap: &mut Bitmap) {
    for rule in rules {
        bitmap.fill(
            rule.left,
            rule.top,
            u64::from(rule.width),
            u64::from(rule.height),
            ink,
        );
    }
}
