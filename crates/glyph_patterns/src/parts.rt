//! What rows cost the shapes that are in them.
//!
//! What shapes take in a row depends on what else is in it: they share the bytes around its data, and many small ones share each byte of
//! these. So each row is taken to cost what its data take, and each shape its part of that, by its weight.

use crate::lists::{number_of, quotient};
use std::alloc::{AllocError, Global};

/// Parts of a byte.
pub const FINE: i64 = 256;

/// The bytes around the data of a row, `ESC*b#W`.
pub const ROW_BYTES: usize = 5;

/// A row of a page.
#[derive(Clone, Copy)]
pub struct Row {
    /// About how many bytes its data take, with all shapes in it.
    pub bytes: u16,
    /// About how many bytes shapes that can't be letters weigh in it: one each run of a shape that is too large.
    pub others: u16,
}

impl Row {
    /// A row whose data take this many bytes.
    pub fn of(bytes: u32) -> Row {
        Row {
            bytes: u16::try_from(bytes).unwrap_or(u16::MAX),
            others: 0,
        }
    }
}

/// What some rows together cost or save for a shape that is in them.
#[derive(Clone, Copy)]
pub struct RowParts {
    /// For each byte of its weight, in fine parts.
    of_weight: i64,
    /// However little it weighs, in fine parts.
    of_any: i64,
}

impl RowParts {
    /// Those of no rows.
    const NONE: RowParts = RowParts {
        of_weight: 0,
        of_any: 0,
    };

    /// What these rows cost or save, past those of `start`, for a shape of this weight; in fine parts.
    pub fn since(self, start: RowParts, weight: i64) -> i64 {
        let parts = self.of_weight.saturating_sub(start.of_weight);
        quotient(parts.saturating_mul(weight), FINE).saturating_add(
            self.of_any.saturating_sub(start.of_any),
        )
    }

    /// What the rows before that of `end` cost or save from that of `start` on, for a shape of this weight; in fine parts. Those of all
    /// rows before each one are given.
    pub fn between(sums: &[RowParts], start: usize, end: usize, weight: i64) -> i64 {
        match (sums.get(start), sums.get(end)) {
            (Some(start), Some(end)) => end.since(*start, weight),
            _ => 0,
        }
    }

    /// With a row more, in which shapes weigh so much.
    fn with_row(self, row: &Row, weight: i64) -> RowParts {
        RowParts {
            of_weight: self.of_weight.saturating_add(part_of(row, weight)),
            of_any: self.of_any,
        }
    }

    /// With a row more, which shapes of so much weight leave, where so much stays.
    fn with_left_row(self, row: &Row, staying: i64, leaving: i64) -> RowParts {
        let bytes = in_fine_parts(usize::from(row.bytes));
        let staying = staying.saturating_add(in_fine_parts(usize::from(row.others)));
        let before = bytes.min(staying.saturating_add(leaving));
        let data = before.saturating_sub(bytes.min(staying));
        let around = if staying > 0 {
            0
        } else {
            in_fine_parts(ROW_BYTES)
        };
        RowParts {
            of_weight: self
                .of_weight
                .saturating_add(quotient(data.saturating_mul(FINE), leaving)),
            of_any: self.of_any.saturating_add(around),
        }
    }
}

/// What all rows before each one together cost shapes. `changes` are by how much the weights of the shapes that may be letters are more in
/// each row than in the row before it, in fine parts.
pub fn sum_parts(
    alloc: Global,
    rows: &[Row],
    changes: &[i64],
) -> Result<Vec<RowParts>, AllocError> {
    let mut sums = Vec::new(alloc);
    let mut weight: i64 = 0;
    let mut sum = RowParts::NONE;
    for (place, row) in rows.iter().enumerate() {
        sums.push(sum)?;
        weight = weight.saturating_add(number_of(changes, place));
        sum = sum.with_row(row, weight);
    }
    sums.push(sum)?;
    Ok(sums)
}

/// What a byte of weight costs in a row, in fine parts, where the shapes that may be letters have so much weight in it, which is in fine
/// parts too.
fn part_of(row: &Row, weight: i64) -> i64 {
    let weight = weight.saturating_add(in_fine_parts(usize::from(row.others)));
    let data = weight.min(in_fine_parts(usize::from(row.bytes)));
    let cost = data.saturating_add(in_fine_parts(ROW_BYTES));
    quotient(cost.saturating_mul(FINE), weight)
}

/// What all rows before each one together save that letters leave. The changes are by how much the weights of the shapes that stay, and of
/// the letters, are more in each row than in the row before it, in fine parts.
pub fn sum_saved(
    alloc: Global,
    rows: &[Row],
    stays: &[i64],
    leaves: &[i64],
) -> Result<Vec<RowParts>, AllocError> {
    let mut sums = Vec::new(alloc);
    let mut staying: i64 = 0;
    let mut leaving: i64 = 0;
    let mut sum = RowParts::NONE;
    for (place, row) in rows.iter().enumerate() {
        sums.push(sum)?;
        staying = staying.saturating_add(number_of(stays, place));
        leaving = leaving.saturating_add(number_of(leaves, place));
        sum = sum.with_left_row(row, staying, leaving);
    }
    sums.push(sum)?;
    Ok(sums)
}

/// No more than this, in fine parts, does a shape cost in a row that weighs so much, in fine parts too: what the row takes, or its part of
/// that beside those that can't be letters.
pub fn most_in_row(row: &Row, weight: i64) -> i64 {
    let all = in_fine_parts(usize::from(row.bytes).saturating_add(ROW_BYTES));
    if row.others == 0 {
        return all;
    }
    all.min(quotient(part_of(row, 0).saturating_mul(weight), FINE))
}

/// This many bytes in fine parts.
pub fn in_fine_parts(bytes: usize) -> i64 {
    i64::try_from(bytes)
        .unwrap_or(i64::MAX)
        .saturating_mul(FINE)
}
