//! The rules that have dots in a row.

use crate::rules::Rule;
use std::alloc::{AllocError, Global};

/// Goes over the rows of a page from the topmost one on, and knows the rules that have dots in each.
#[derive(Drop)]
pub struct RowRules<'a> {
    /// The rules of the page.
    all: &'a [Rule],
    /// Those that have dots in the row.
    pub in_row: Vec<Rule>,
    /// The next row that has dots of others.
    turn: u32,
}

impl<'a> RowRules<'a> {
    /// Above the topmost row of a page with these rules.
    pub fn new(alloc: Global, all: &'a [Rule]) -> RowRules<'a> {
        RowRules {
            all,
            in_row: Vec::new(alloc),
            turn: 0,
        }
    }

    /// Goes on to row `y`, below the last one. Says whether other rules may have dots in it.
    pub fn step(&mut self, y: u32) -> Result<bool, AllocError> {
        if y < self.turn {
            return Ok(false);
        }
        self.in_row.clear();
        self.turn = u32::MAX;
        for rule in self.all {
            if rule.is_in_row(y) {
                self.in_row.push(*rule)?;
                self.turn = self.turn.min(rule.bottom());
            } else if y < rule.top {
                self.turn = self.turn.min(rule.top);
            }
        }
        Ok(true)
    }
}
