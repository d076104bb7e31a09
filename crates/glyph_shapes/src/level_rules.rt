//! Rules that go from left to right.

use crate::dots::black_dots;
use crate::edges::append_edges;
use crate::inked_pages::InkedPage;
use crate::rules::{RULE_LIMIT, Rule, is_border, is_slender, least_length};
use std::alloc::{AllocError, Global};
use std::mem::swap;

/// A long run of black dots, from the dot `start` up to the one before `end`, in each row from `top` on.
#[derive(Clone, Copy)]
struct LongRun {
    start: u32,
    end: u32,
    top: u32,
}

impl LongRun {
    /// The rectangle that ends above row `bottom`.
    fn rule_above(self, bottom: u32) -> Rule {
        Rule {
            height: bottom.saturating_sub(self.top),
            width: self.end.saturating_sub(self.start),
            left: self.start,
            top: self.top,
        }
    }

    /// Whether another one has the same dots of its row.
    fn is_like(self, other: LongRun) -> bool {
        self.start == other.start && self.end == other.end
    }
}

/// Appends the level rules of a page, as long as there is room.
pub fn append_level_rules(
    alloc: Global,
    page: &InkedPage<'_>,
    rules: &mut Vec<Rule>,
) -> Result<(), AllocError> {
    let mut finder = LevelFinder {
        page,
        open: Vec::new(alloc),
        found: Vec::new(alloc),
        edges: Vec::new(alloc),
    };
    for stretch in page.stretches.iter() {
        finder.step(stretch.top, rules)?;
    }
    finder.close_all(page.height(), rules)
}

/// Goes over the rows of a page from the topmost one on. A row like the one above ends no rule, and is passed over.
#[derive(Drop)]
struct LevelFinder<'a> {
    page: &'a InkedPage<'a>,
    /// The long runs of the row above, from left to right.
    open: Vec<LongRun>,
    /// Those of the row.
    found: Vec<LongRun>,
    edges: Vec<u16>,
}

impl<'a> LevelFinder<'a> {
    /// Goes on to row `y`, the next one that isn't the row above once more, and appends the rules that end above it.
    fn step(&mut self, y: u32, rules: &mut Vec<Rule>) -> Result<(), AllocError> {
        self.find_runs(y)?;
        self.close_ended(y, rules)?;
        swap(&mut self.open, &mut self.found);
        Ok(())
    }

    /// Finds the long runs of row `y`. Those of the row above go on.
    fn find_runs(&mut self, y: u32) -> Result<(), AllocError> {
        let row = self.page.row(y);
        self.found.clear();
        if !has_long_run(row) {
            return Ok(());
        }
        self.edges.clear();
        append_edges(row, &mut self.edges)?;
        let least = least_length(self.page.dpi());
        for ends in self.edges.chunks(2) {
            if let [start, end] = *ends {
                let run = LongRun {
                    start: u32::from(start),
                    end: u32::from(end),
                    top: y,
                };
                if run.end.saturating_sub(run.start) >= least {
                    self.found.push(continued(run, &self.open))?;
                }
            }
        }
        Ok(())
    }

    /// Appends the rules of the row above that don't go on in row `y`.
    fn close_ended(&self, y: u32, rules: &mut Vec<Rule>) -> Result<(), AllocError> {
        for run in self.open.iter() {
            let goes_on = self.found.iter().any(|found| found.is_like(*run));
            if !goes_on {
                append_if_rule(self.page, run.rule_above(y), rules)?;
            }
        }
        Ok(())
    }

    /// Appends the rules of the last row, which ends above this one.
    fn close_all(&self, bottom: u32, rules: &mut Vec<Rule>) -> Result<(), AllocError> {
        for run in self.open.iter() {
            append_if_rule(self.page, run.rule_above(bottom), rules)?;
        }
        Ok(())
    }
}

/// A run with the topmost row of the one that it continues, of those of the row above.
fn continued(run: LongRun, above: &[LongRun]) -> LongRun {
    match above.iter().find(|open| open.is_like(run)) {
        Some(open) => *open,
        None => run,
    }
}

/// Whether a row may have a run as long as a rule: such a run has four whole bytes.
fn has_long_run(row: &[u8]) -> bool {
    let (words, _) = row.as_chunks::<4>();
    words.iter().any(|word| *word == [0xFF; 4])
}

/// Appends a rectangle of long runs, if it is a rule: thin, and mostly white above and below.
fn append_if_rule(
    page: &InkedPage<'_>,
    rule: Rule,
    rules: &mut Vec<Rule>,
) -> Result<(), AllocError> {
    let end = rule.left.saturating_add(rule.width);
    let bottom = rule.bottom();
    let above = black_dots(page.row_above(rule.top), rule.left, end);
    let below = black_dots(page.row(bottom), rule.left, end);
    if rules.len() < RULE_LIMIT
        && is_slender(rule.width, rule.height)
        && is_border(above, rule.width)
        && is_border(below, rule.width)
    {
        rules.push(rule)?;
    }
    Ok(())
}
