//! Plans of Letter pages at 300 dots per inch whose topmost rows have ink in their first bytes, and tables.

ghost use Rattle.std.specs.Prelude.{◌+◌, ◌*◌, ◌/◌, ◌≤◌, length};

use super::assert_gives;
use super::plan_search::searched_cost;
use super::short_rows::set_bytes;
use pcl_base::{Dpi, Method, Size};
use pcl_bitmap::{Bitmap, Page};
use pcl_output::{
    Step, Table, feasible_numbers_bound_texts, least_walk_is_least_text, printing_is_walking,
};
use pcl_plan::{Plan, plan};
use std::alloc::{AllocError, Global};
use std::process::Abort;

/// The plan of a page with `height` rows of `width` dots from row `top` on, and white rows around them.
fn plan_of(
    alloc: Global,
    top: i32,
    width: u16,
    height: u16,
    rows: &[u8],
) -> Result<Plan, AllocError>
    requires { height * ((width + 7) / 8) ≤ length rows.now }
{
    let (size, dpi) = (Size::Letter, Dpi::Dpi300);
    let mut bitmap = Bitmap::new(alloc, size, dpi)?;
    bitmap.blit(0, top, width, height, rows, 1);
    let page = Page {
        size,
        copies: 1,
        dpi,
        bitmap,
    };
    plan(alloc, &page)
}

const DELTA: Step = Step::Switch(Method::Delta);

/// The first bytes of a page's rows, its body, and what that costs.
const BODIES: [(&[u8], &[Step], u32); 9] = [
    (b"", &[], 0),
    (b"\x00\x00\x00", &[], 0),
    (b"\x80", &[Step::Row(1)], 6),
    (b"\x80\x80", &[Step::Row(1), Step::Row(1)], 12),
    (
        b"\x80\x80\x80",
        &[Step::Row(1), DELTA, Step::Row(0), Step::Row(0)],
        16,
    ),
    (
        b"\x80\x00\x80",
        &[Step::Row(1), Step::Skip(1), Step::Row(1)],
        14,
    ),
    (
        b"\x00\x00\x00\x00\x00\x00\x00\x00\x00\x01",
        &[Step::Skip(9), Step::Row(1)],
        8,
    ),
    (
        b"\x00\x00\x00\x00\x00\x00\x00\x00\x00\x00\x01",
        &[Step::Skip(10), Step::Row(1)],
        9,
    ),
    (b"\x00\x00\x01\x00", &[Step::Skip(2), Step::Row(1)], 8),
];

/// Bodies that are worked out by hand.
#[test]
fn bodies(rt: HostRuntime) -> Result<(), AllocError> {
    for (rows, steps, cost) in &BODIES {
        let plan = plan_of(rt.alloc(), 0, 8, rows.len().min(99) as u16, rows)?;
        let given = (plan.steps(), plan.cost(), plan.table().rows());
        assert_gives(&rt, rows, &given, &(*steps, *cost, 3300));
    }
    Ok(())
}

/// Nodes of the page with a dot in its topmost row, and their numbers: the row, the method, whether inside a sequence.
const NUMBERS: [(u32, Method, bool, u32); 6] = [
    (0, Method::Plain, false, 6),
    (0, Method::Plain, true, 3),
    (0, Method::Runs, true, 4),
    (0, Method::Packed, true, 4),
    (0, Method::Delta, true, 4),
    (3300, Method::Delta, true, 1),
];

/// A dot in the topmost row.
#[test]
fn dot_at_the_top(rt: HostRuntime) -> Result<(), AllocError> {
    let plan = plan_of(rt.alloc(), 0, 1, 1, &[0x80])?;
    let steps: &[Step] = &[Step::Row(1)];
    assert_gives(&rt, &"steps", &plan.steps(), &steps);
    assert_numbers(&rt, plan.table());
    Ok(())
}

/// Asserts how many rows a table has, and the numbers of its nodes.
fn assert_numbers(rt: &impl Abort, table: &Table) {
    assert_gives(rt, &"rows", &table.rows(), &3300);
    for (row, method, inside, number) in &NUMBERS {
        let row = (*row).min(table.rows());
        assert_gives(rt, method, &table.number(row, *method, *inside), number);
    }
}

/// A dot below white rows.
#[test]
fn dot_below_white_rows(rt: HostRuntime) -> Result<(), AllocError> {
    let plan = plan_of(rt.alloc(), 100, 1, 1, &[0x80])?;
    assert_eq!(rt; plan.steps(), &[Step::Skip(100), Step::Row(1)][..]);
    assert_eq!(rt; plan.cost(), 10);
    Ok(())
}

/// Numbers are kept where they are put.
#[test]
fn tables(rt: HostRuntime) -> Result<(), AllocError> {
    let mut table = Table::new(rt.alloc(), 2)?;
    table.set(2, Method::Delta, true, 7);
    table.set(1, Method::Runs, false, 8);
    let numbers = [
        table.number(2, Method::Delta, true),
        table.number(2, Method::Delta, false),
        table.number(1, Method::Runs, false),
        table.number(0, Method::Runs, false),
    ];
    assert_eq!(rt; (table.rows(), numbers), (2, [7, 0, 8, 0]));
    Ok(())
}

/// The laws do nothing.
#[test]
fn states_the_laws() {
    printing_is_walking();
    feasible_numbers_bound_texts();
    least_walk_is_least_text();
}

/// Pages of up to three rows of two bytes, each byte one of three: no tokens cost less than the plan says.
#[test]
fn searched(rt: HostRuntime) -> Result<(), AllocError> {
    for (height, count) in [(0u16, 1), (1, 9), (2, 81), (3, 729)] {
        for number in 0..count {
            let mut rows = [0; 6];
            set_bytes(&mut rows, number, &[0, 0x80, 0xFF]);
            let plan = plan_of(rt.alloc(), 0, 16, height, &rows)?;
            let least = searched_cost(rows.get(..2 * usize::from(height)).unwrap_or(&[]));
            assert!(rt; plan.cost() == least, "{rows:?} {height}");
        }
    }
    Ok(())
}
