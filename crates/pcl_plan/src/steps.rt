//! The steps of a plan, read off its table from the topmost row downwards.

ghost use Rattle.std.specs.Prelude.{◌≡◌, ◌≢◌, ℕ, ◌+◌, ◌^◌, ◌<◌, ◌≤◌, [], length, OnOk, IfSome, IfNone};
ghost use Rattle.pcl_base.specs.Limits.{data_limit};
ghost use Rattle.pcl_base.specs.declared.method.Method.{Method as RowMethod};
ghost use Rattle.pcl_base.specs.Method.{method_code};
ghost use Rattle.pcl_coders.specs.Coding.{IsLeastLength};
ghost use Rattle.pcl_output.specs.Nodes.{row_at, row_above, row_after};
ghost use Rattle.pcl_output.specs.Table.{node_number};
ghost use Rattle.pcl_plan.specs.inner.Rows.{rows_of};
ghost use Rattle.pcl_output.specs.Spelling.{switching, row_cost};
ghost use Rattle.pcl_output.specs.Table.{outside, rest};
ghost use Rattle.pcl_plan.specs.inner.Filling.{skipping, IsReadable, AreRowsRightFrom};
ghost use Rattle.pcl_plan.specs.inner.Reading.{AreLeastSteps, IsBestStep, IsNextNode};

use crate::fill::least_skip;
use crate::lengths::LeastLengths;
use crate::rows::Rows;
use pcl_base::{Method, ROW_LIMIT};
use pcl_output::{Node, Step, Table, digits, row_cost};
use std::alloc::AllocError;

/// The node after a step. A sequence goes on after rows that are skipped and a switch, unless the rest is white.
fn next_node(node: Node, step: Step, table: &Table) -> Node
    requires row { node.row + 65535 < 2 ^ 32 }
    requires within { row_after node.row step < length table.now }
    ensures { IsNextNode (node_number table.now) node.row node.method step result }
{
    let open = node.after(step, false);
    let ends = table.number(open.row, open.method, false) == 0;
    node.after(step, ends)
}

/// Appends the steps of a walk of least cost along the least numbers of a page.
pub fn append_steps<L: LeastLengths>(
    lengths: &L,
    rows: &Rows<'_>,
    table: &Table,
    steps: &mut Vec<Step>,
) -> Result<(), AllocError>
    requires none { steps.old.items ≡ [] }
    requires right { AreRowsRightFrom rows.now.width (rows_of rows.now) table.now 0 }
    ensures { OnOk result (AreLeastSteps rows.now.width (rows_of rows.now) (node_number table.now) steps.new.items) }
{
    let mut node = Node::start();
    while table.number(node.row, node.method, node.inside) > 0 {
        let step = best_step(lengths, rows, table, node.row, node.method);
        steps.push(step)?;
        node = next_node(node, step, table);
    }
    Ok(())
}

/// A step with which the least begins that comes inside a sequence, where the rest isn't white: of several the
/// longest skip, then the row, then the switch to the method of the lowest number. Where neither a skip nor a switch
/// begins it, the row does, and what it costs tells its length: a coder is asked only where a switch begins it.
fn best_step<L: LeastLengths>(
    lengths: &L,
    rows: &Rows<'_>,
    table: &Table,
    row: u32,
    method: Method,
) -> Step
    requires row { row < rows.now.count }
    requires right { AreRowsRightFrom rows.now.width (rows_of rows.now) table.now 0 }
    requires ink { 0 < outside (node_number table.now) row method }
    ensures { IsBestStep rows.now.width (rows_of rows.now) (node_number table.now) row method result }
{
    let least = table.number(row, method, true);
    let run = rows.white_run(row);
    if let Some(count) = beginning_skip(table, row, method, run, least) {
        return Step::Skip(count as u16);
    }
    let sent = table.number(row + 1, method, false);
    let Some(next) = beginning_switch(table, row, least) else {
        return Step::Row(data_len(least - sent) as u16);
    };
    let bytes = least_length(lengths, rows, row, method);
    if row_cost(bytes) + sent == least {
        Step::Row(bytes as u16)
    } else {
        Step::Switch(next)
    }
}

/// The longest skip of some of `run` rows with which the least begins, if there is one.
fn beginning_skip(table: &Table, row: u32, method: Method, run: u32, least: u32) -> Option<u32>
    requires readable { IsReadable table.now row run }
    requires least { (count : ℕ) → 0 < count → count ≤ run → least ≤ skipping (node_number table.now) row method count }
    ensures some { IfSome result (λ count. (0 < count) × (count ≤ run) × (least ≡ skipping (node_number table.now) row method count)) }
    ensures none { IfNone result ((count : ℕ) → 0 < count → count ≤ run → least < skipping (node_number table.now) row method count) }
{
    if run == 0 {
        return None;
    }
    let skip = least_skip(table, row, method, run);
    if skip.number == least {
        Some(skip.count)
    } else {
        None
    }
}

/// The least length of a row's data by a method.
fn least_length<L: LeastLengths>(lengths: &L, rows: &Rows<'_>, row: u32, method: Method) -> u32
    requires { row < rows.now.count }
    ensures least { IsLeastLength method (row_above rows.now.width (rows_of rows.now) row) (row_at (rows_of rows.now) row) result }
    ensures small { result ≤ data_limit }
{
    let zeros = [0; ROW_LIMIT];
    lengths.least(method, rows.row(row), rows.row_above(row, &zeros))
}

/// The method of the lowest number with a switch to which the least begins, if there is one.
fn beginning_switch(table: &Table, row: u32, least: u32) -> Option<Method>
    requires within { row < length table.now }
    requires small { (method : RowMethod) → rest (node_number table.now) row method < 2 ^ 30 }
    ensures attained { IfSome result (λ next. least ≡ switching next + rest (node_number table.now) row next) }
    ensures lowest { IfSome result (λ first. (next : RowMethod) → method_code next < method_code first
        → least ≢ switching next + rest (node_number table.now) row next) }
    ensures none { IfNone result ((next : RowMethod) → least ≢ switching next + rest (node_number table.now) row next) }
{
    if switch_number(table, row, Method::Plain) == least {
        Some(Method::Plain)
    } else if switch_number(table, row, Method::Runs) == least {
        Some(Method::Runs)
    } else if switch_number(table, row, Method::Packed) == least {
        Some(Method::Packed)
    } else if switch_number(table, row, Method::Delta) == least {
        Some(Method::Delta)
    } else {
        None
    }
}

/// What a switch costs, with all that comes after it.
fn switch_number(table: &Table, row: u32, next: Method) -> u32
    requires within { row < length table.now }
    requires small { rest (node_number table.now) row next < 2 ^ 30 }
    ensures { result ≡ switching next + rest (node_number table.now) row next }
{
    digits(next.code()) + 1 + table.rest(row, next)
}

/// How many bytes of data a row has that costs so much: no two lengths cost the same.
fn data_len(cost: u32) -> u32
    ensures { (bytes : ℕ) → bytes ≤ data_limit → cost ≡ row_cost bytes → result ≡ bytes }
{
    match cost {
        0..=1 => 0,
        2..=11 => cost - 2,
        12..=102 => cost - 3,
        103..=1003 => cost - 4,
        1004..=10004 => cost - 5,
        _ => cost - 6,
    }
}
