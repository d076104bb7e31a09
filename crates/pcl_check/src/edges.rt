//! All steps between the nodes of a page, tested against a table of numbers.

mod found;
mod laws;
mod lengths;
mod skips;

ghost use Rattle.std.specs.Prelude.{◌≡◌, ℕ, ◌+◌, ◌-◌, ◌<◌, ◌≤◌, ◌↔◌, Bool, true, false, length, slice_index, IfOk, IsTrue};
ghost use Rattle.pcl_base.specs.declared.method.Method.{Method as RowMethod};
ghost use Rattle.pcl_base.specs.Method.{method_code};
ghost use Rattle.pcl_base.specs.Size.{page_height};
ghost use Rattle.pcl_output.specs.PageText.{bitmap_rows};
ghost use Rattle.pcl_output.specs.Table.{node_number};
ghost use Rattle.pcl_check.specs.Edges.{number_at, AreGoodSwitches, IsGoodNumber, FindsBad};
ghost use Rattle.pcl_output.specs.Spelling.{setting_cost, row_cost};
ghost use Rattle.pcl_check.specs.inner.EdgePasses.{At, AreRunEnds, AreEnds, IsGoodStart, IsGoodSending, IsGoodIn};

use crate::costs::is_within;
use found::first_of;
pub use laws::{good_numbers_are_feasible, numbers_by_bounds_are_feasible};
pub use lengths::{LeastByCoders, RowLengths};
use pcl_base::Method;
use pcl_bitmap::{Bitmap, Page};
use pcl_output::{Node, Table, row_cost};
use skips::first_bad_skip;
use std::alloc::{AllocError, Global};

/// The first number of a table, in the order of certificates, that isn't good, if there is one. It is above what some
/// step costs and the number where that leads, or isn't 0 though the text may end there. All steps of all nodes are
/// tested, whoever made the table. A row is counted with the length that `lengths` gives. It takes time in proportion to
/// the page's rows, besides what the lengths take, and fails only where memory runs out.
pub fn first_bad_number<L: RowLengths>(
    alloc: Global,
    lengths: &L,
    page: &Page,
    table: &Table,
) -> Result<Option<Node>, AllocError>
    requires covered { L.covers lengths.now page.now }
    requires rows { length table.now ≡ page_height page.now.size page.now.dpi + 1 }
    ensures { IfOk result (FindsBad (IsGoodNumber (bitmap_rows page.now.bitmap) (L.counts lengths.now page.now) (node_number table.now))
        (page_height page.now.size page.now.dpi)) }
{
    let places = table.rows() as usize + 1;
    let mut ends = vec![in alloc; 0; places]?;
    let mut numbers = vec![in alloc; 0; places]?;
    let mut queue = vec![in alloc; 0; places]?;
    let found = first_bad(lengths, page, table, &mut ends, &mut numbers, &mut queue);
    Ok(found)
}

/// The same, where the room for the ends of white rows and for a window over numbers is lent.
fn first_bad<L: RowLengths>(
    lengths: &L,
    page: &Page,
    table: &Table,
    ends: &mut [u32],
    numbers: &mut [u32],
    queue: &mut [usize],
) -> Option<Node>
    requires covered { L.covers lengths.now page.now }
    requires rows { length table.now ≡ page_height page.now.size page.now.dpi + 1 }
    requires ends { length ends.old ≡ length table.now }
    requires room { (length numbers.old ≡ length table.now) × (length queue.old ≡ length table.now) }
    ensures { FindsBad (IsGoodNumber (bitmap_rows page.now.bitmap) (L.counts lengths.now page.now) (node_number table.now))
        (page_height page.now.size page.now.dpi) result }
{
    fill_run_ends(&page.bitmap, ends);
    let plain = first_bad_in(lengths, page, table, ends, Method::Plain, numbers, queue);
    let runs = first_bad_in(lengths, page, table, ends, Method::Runs, numbers, queue);
    let packed = first_bad_in(lengths, page, table, ends, Method::Packed, numbers, queue);
    let delta = first_bad_in(lengths, page, table, ends, Method::Delta, numbers, queue);
    first_of(first_of(plain, runs), first_of(packed, delta))
}

/// For each row of a page and for the end of the rows, where the white rows from there on end.
fn fill_run_ends(bitmap: &Bitmap, ends: &mut [u32])
    requires { length ends.old ≡ page_height bitmap.now.size bitmap.now.dpi + 1 }
    ensures { AreRunEnds (bitmap_rows bitmap.now) ends.new 0 }
{
    let height = bitmap.size().height(bitmap.dpi());
    ends[height as usize] = height;
    for row in (0..height).rev() {
        ends[row as usize] = if bitmap.is_blank(row) {
            ends[row as usize + 1]
        } else {
            row
        };
    }
}

/// The first bad number of the nodes in a method.
fn first_bad_in<L: RowLengths>(
    lengths: &L,
    page: &Page,
    table: &Table,
    ends: &[u32],
    method: Method,
    numbers: &mut [u32],
    queue: &mut [usize],
) -> Option<Node>
    requires covered { L.covers lengths.now page.now }
    requires rows { length table.now ≡ page_height page.now.size page.now.dpi + 1 }
    requires ends { AreEnds ends.now (page_height page.now.size page.now.dpi) }
    requires room { (length numbers.old ≡ length ends.now) × (length queue.old ≡ length ends.now) }
    ensures { FindsBad (IsGoodIn ends.now (page_height page.now.size page.now.dpi) (L.counts lengths.now page.now)
        (node_number table.now) method) (page_height page.now.size page.now.dpi) result }
{
    let outside = first_bad_start(table, ends, method);
    let switch = first_bad_switch(table, method);
    let sent = first_bad_sending(lengths, page, table, method);
    let skip = first_bad_skip(table, ends, method, numbers, queue);
    first_of(first_of(outside, switch), first_of(sent, skip))
}

/// The first node outside a sequence whose number is above that of the sequence that is opened, or isn't 0 at an end.
fn first_bad_start(table: &Table, ends: &[u32], method: Method) -> Option<Node>
    requires ends { AreEnds ends.now (length table.now - 1) }
    requires size { length ends.now ≡ length table.now }
    ensures { FindsBad (At method false (IsGoodStart ends.now (node_number table.now) method)) (length table.now - 1) result }
{
    for row in 0..ends.len() as u32 {
        if !is_good_start(table, ends, row, method) {
            return Some(Node {
                row,
                method,
                inside: false,
            });
        }
    }
    None
}

/// Whether the number of a node outside a sequence is at most that of the sequence that is opened, and 0 at an end.
fn is_good_start(table: &Table, ends: &[u32], row: u32, method: Method) -> bool
    requires row { row < length table.now }
    requires size { length ends.now ≡ length table.now }
    ensures { IsTrue result ↔ IsGoodStart ends.now (node_number table.now) method row }
{
    let outside = table.number(row, method, false);
    let is_end = ends[row as usize] as usize + 1 == ends.len();
    is_within(outside, 3, table.number(row, method, true)) && (!is_end || outside == 0)
}

/// The first node inside a sequence that a switch to a method undercuts.
fn first_bad_switch(table: &Table, method: Method) -> Option<Node>
    requires { length table.now ≤ 10000 }
    ensures { FindsBad (At method true (AreGoodSwitches (node_number table.now) method)) (length table.now - 1) result }
{
    for row in 0..table.rows() + 1 {
        if !are_good_switches(table, row, method) {
            return Some(Node {
                row,
                method,
                inside: true,
            });
        }
    }
    None
}

/// Whether no switch to a method undercuts the number of a node inside a sequence.
fn are_good_switches(table: &Table, row: u32, method: Method) -> bool
    requires { row < length table.now }
    ensures { IsTrue result ↔ AreGoodSwitches (node_number table.now) method row }
{
    let number = table.number(row, method, true);
    let plain = table.rest(row, Method::Plain);
    let runs = table.rest(row, Method::Runs);
    let packed = table.rest(row, Method::Packed);
    let delta = table.rest(row, Method::Delta);
    is_within(number, 1, plain) && is_within(number, 2, runs.min(packed).min(delta))
}

/// The first node inside a sequence that the row that is sent undercuts.
fn first_bad_sending<L: RowLengths>(
    lengths: &L,
    page: &Page,
    table: &Table,
    method: Method,
) -> Option<Node>
    requires covered { L.covers lengths.now page.now }
    requires rows { length table.now ≡ page_height page.now.size page.now.dpi + 1 }
    ensures { FindsBad (At method true (IsGoodSending (page_height page.now.size page.now.dpi) (L.counts lengths.now page.now)
        (node_number table.now) method)) (page_height page.now.size page.now.dpi) result }
{
    for row in 0..table.rows() {
        let sent = row_cost(lengths.length(page, row, method));
        let next = table.number(row + 1, method, false);
        if !is_within(table.number(row, method, true), sent, next) {
            return Some(Node {
                row,
                method,
                inside: true,
            });
        }
    }
    None
}
