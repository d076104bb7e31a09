//! The table of a plan, filled from the last row upwards.

ghost use Rattle.std.specs.Prelude.{◌≡◌, ◌+◌, ◌<◌, ◌≤◌, length};
ghost use Rattle.pcl_base.specs.Limits.{data_limit};
ghost use Rattle.pcl_base.specs.declared.method.Method.{Method as RowMethod};
ghost use Rattle.pcl_coders.specs.Coding.{IsLeastLength};
ghost use Rattle.pcl_output.specs.Nodes.{row_at, row_above};
ghost use Rattle.pcl_output.specs.Table.{by_method, node_number};
ghost use Rattle.pcl_plan.specs.inner.Rows.{rows_of};
ghost use Rattle.pcl_plan.specs.inner.Filling.{skipping, IsLeastSkip, IsReadable, IsLeastStart, AreRowNumbers, AreRowsRightFrom};
ghost use Rattle.pcl_output.specs.inner.WhiteRows.{IsWhiteRun};

use crate::lengths::LeastLengths;
use crate::rows::Rows;
use pcl_base::{Method, ROW_LIMIT};
use pcl_output::{ByMethod, RowNumbers, Table, digits, row_cost};

/// Fills in the least numbers of all nodes. Each row takes a bounded number of steps, besides those of its
/// coders.
pub fn fill<L: LeastLengths>(lengths: &L, rows: &Rows<'_>, table: &mut Table)
    requires { length table.old ≡ rows.now.count + 1 }
    ensures { AreRowsRightFrom rows.now.width (rows_of rows.now) table.new 0 }
{
    table.put(rows.count, RowNumbers::at_end());
    let mut run = 0;
    for row in (0..rows.count).rev() {
        run = white_run(rows, row, run);
        let numbers = if row + run == rows.count {
            RowNumbers::at_end()
        } else {
            row_numbers(lengths, rows, table, row, run)
        };
        table.put(row, numbers);
    }
}

/// How many rows are white from a row on, where this many are from the next one on.
fn white_run(rows: &Rows<'_>, row: u32, below: u32) -> u32
    requires row { row < rows.now.count }
    requires below { IsWhiteRun (rows_of rows.now) (row + 1) below }
    ensures run { IsWhiteRun (rows_of rows.now) row result }
    ensures within { row + result ≤ rows.now.count }
{
    if rows.is_white(row) { below + 1 } else { 0 }
}

/// The least numbers of a row, where `run` rows are white from it on and there is ink after them.
fn row_numbers<L: LeastLengths>(
    lengths: &L,
    rows: &Rows<'_>,
    table: &Table,
    row: u32,
    run: u32,
) -> RowNumbers
    requires ink { row + run < rows.now.count }
    requires run { IsWhiteRun (rows_of rows.now) row run }
    requires right { AreRowsRightFrom rows.now.width (rows_of rows.now) table.now (row + 1) }
    ensures { AreRowNumbers rows.now.width (rows_of rows.now) (node_number table.now) row result }
{
    let bytes = least_lengths(lengths, rows, row);
    RowNumbers::from_direct(least_starts(table, row, run, bytes))
}

/// The least lengths of a row's data by the four methods.
fn least_lengths<L: LeastLengths>(lengths: &L, rows: &Rows<'_>, row: u32) -> ByMethod
    requires { row < rows.now.count }
    ensures { (method : RowMethod)
        → IsLeastLength method (row_above rows.now.width (rows_of rows.now) row) (row_at (rows_of rows.now) row) (by_method result method) }
{
    let zeros = [0; ROW_LIMIT];
    let bytes = rows.row(row);
    let seed = rows.row_above(row, &zeros);
    ByMethod {
        plain: lengths.least(Method::Plain, bytes, seed),
        runs: lengths.least(Method::Runs, bytes, seed),
        packed: lengths.least(Method::Packed, bytes, seed),
        delta: lengths.least(Method::Delta, bytes, seed),
    }
}

/// For each method the least of what sending a row and skipping some of `run` rows costs, with all that comes
/// after them. `bytes` is how many the row's data has.
fn least_starts(table: &Table, row: u32, run: u32, bytes: ByMethod) -> ByMethod
    requires readable { IsReadable table.now row run }
    requires bytes { (method : RowMethod) → by_method bytes method ≤ data_limit }
    ensures { (method : RowMethod)
        → IsLeastStart (node_number table.now) row method run (by_method bytes method) (by_method result method) }
{
    ByMethod {
        plain: least_start(table, row, Method::Plain, run, bytes.plain),
        runs: least_start(table, row, Method::Runs, run, bytes.runs),
        packed: least_start(table, row, Method::Packed, run, bytes.packed),
        delta: least_start(table, row, Method::Delta, run, bytes.delta),
    }
}

/// The least of what sending a row by this many bytes of data costs, with all that comes after it, and of
/// what skipping some of `run` rows costs.
fn least_start(table: &Table, row: u32, method: Method, run: u32, bytes: u32) -> u32
    requires readable { IsReadable table.now row run }
    requires bytes { bytes ≤ data_limit }
    ensures { IsLeastStart (node_number table.now) row method run bytes result }
{
    let sent = row_cost(bytes) + table.number(row + 1, method, false);
    if run == 0 {
        sent
    } else {
        sent.min(least_skip(table, row, method, run).number)
    }
}

/// How many rows are skipped, and what that costs with all that comes after them.
#[derive(Clone, Copy)]
pub struct Skip {
    pub count: u32,
    pub number: u32,
}

impl Skip {
    /// The one that costs less, this one where both cost the same.
    fn or(self, other: Skip) -> Skip
        ensures first { self.number ≤ other.number → result ≡ self }
        ensures second { other.number < self.number → result ≡ other }
    {
        if other.number < self.number {
            other
        } else {
            self
        }
    }
}

/// The skip of some of `run` rows that costs least, the longest of several. To skip more rows is never worse
/// where their count has no more digits: so only the most rows of each count of digits are tried.
pub fn least_skip(table: &Table, row: u32, method: Method, run: u32) -> Skip
    requires some { 0 < run }
    requires readable { IsReadable table.now row run }
    ensures { IsLeastSkip (node_number table.now) row method run result }
{
    skip_of(table, row, method, run)
        .or(skip_of(table, row, method, run.min(999)))
        .or(skip_of(table, row, method, run.min(99)))
        .or(skip_of(table, row, method, run.min(9)))
}

/// The skip of this many rows.
fn skip_of(table: &Table, row: u32, method: Method, count: u32) -> Skip
    requires some { 0 < count }
    requires readable { IsReadable table.now row count }
    ensures count { result.count ≡ count }
    ensures number { result.number ≡ skipping (node_number table.now) row method count }
{
    Skip {
        count,
        number: digits(count) + 1 + table.rest(row + count, method),
    }
}
