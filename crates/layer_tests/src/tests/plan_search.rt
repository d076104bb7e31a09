//! The least cost of a body, by trying all tokens until no number falls.

use pcl_coders::{Delta, Packed, Plain, RowCoder, Runs};

/// More than any body of a few rows.
const FAR: u32 = 1000;

/// The numbers of a page's nodes, which fall until they are least.
#[derive(Drop)]
struct Search<'a> {
    /// Rows of two bytes; those below them are white.
    rows: &'a [u8],
    numbers: [u32; 32],
}

/// The place of a node's number.
fn place_of(row: usize, code: u8, inside: bool) -> usize {
    row.saturating_mul(8) | usize::from(code % 4 * 2) | usize::from(inside)
}

impl Search<'_> {
    fn number(&self, row: usize, code: u8, inside: bool) -> u32 {
        let place = place_of(row, code, inside);
        self.numbers.get(place).copied().unwrap_or(FAR)
    }

    /// The number of a node falls to `cost` and the number of another one.
    fn fall(&mut self, row: usize, code: u8, inside: bool, cost: u32, after: u32) {
        if let Some(slot) = self.numbers.get_mut(place_of(row, code, inside)) {
            *slot = (*slot).min(cost.saturating_add(after));
        }
    }

    fn either(&self, row: usize, code: u8) -> u32 {
        self.number(row, code, false)
            .min(self.number(row, code, true))
    }

    /// How many rows there are.
    fn count(&self) -> usize {
        self.rows.len() / 2
    }

    /// A row; one past the last is white.
    fn row(&self, row: usize) -> [u8; 2] {
        let mut bytes = [0; 2];
        for (slot, byte) in bytes
            .iter_mut()
            .zip(self.rows.iter().skip(row.saturating_mul(2)))
        {
            *slot = *byte;
        }
        bytes
    }

    fn is_white(&self, from: usize, to: usize) -> bool {
        for row in from..to {
            if self.row(row) != [0, 0] {
                return false;
            }
        }
        true
    }

    /// All tokens from a node in turn, but those for rows.
    fn relax(&mut self, row: usize, code: u8) {
        if self.is_white(row, 9) {
            self.fall(row, code, false, 0, 0);
        }
        let inside = self.number(row, code, true);
        self.fall(row, code, false, 3, inside);
        for next in 0..4u8 {
            let after = self.either(row, next);
            let cost = if next == 0 { 1 } else { 2 };
            self.fall(row, code, true, cost, after);
        }
    }

    /// The tokens that skip rows, and the one that sends a row.
    fn relax_rows(&mut self, row: usize, code: u8) {
        let next = row.saturating_add(1);
        for to in next..self.count().saturating_add(1) {
            if self.is_white(row, to) {
                let after = self.either(to, code);
                self.fall(row, code, true, 2, after);
            }
        }
        if row < self.count() {
            let seed = if row == 0 { [0, 0] } else { self.row(row - 1) };
            let least = least_bytes(code, self.row(row), seed);
            let digits = if least == 0 { 0 } else { 1 };
            let after = self.number(next, code, false);
            self.fall(row, code, true, least.saturating_add(1 + digits), after);
        }
    }
}

fn least_bytes(code: u8, row: [u8; 2], seed: [u8; 2]) -> u32 {
    let least = match code {
        0 => Plain.least(&row, &seed),
        1 => Runs.least(&row, &seed),
        2 => Packed.least(&row, &seed),
        _ => Delta.least(&row, &seed),
    };
    least as u32
}

/// The cost of the least body of a page with at most three rows of two bytes, and white rows below them.
pub(super) fn searched_cost(rows: &[u8]) -> u32 {
    let mut search = Search {
        rows,
        numbers: [FAR; 32],
    };
    for _ in 0..12 {
        for row in 0..4 {
            for code in 0..4u8 {
                search.relax(row, code);
                search.relax_rows(row, code);
            }
        }
    }
    search.number(0, 0, false)
}
