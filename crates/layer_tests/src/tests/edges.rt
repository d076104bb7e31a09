use super::assert_gives;
use pcl_base::{Dpi, Method, Size};
use pcl_bitmap::{Bitmap, Ink, Page};
use pcl_check::{
    LeastByCoders, first_bad_number, good_numbers_are_feasible, numbers_by_bounds_are_feasible,
};
use pcl_output::{Node, Table};
use std::alloc::{AllocError, Global};
use std::process::Abort;

/// Each method, and the least numbers of the first row of the page of a dot in it, outside a sequence and inside.
const LEAST: [(Method, u32, u32); 4] = [
    (Method::Plain, 6, 3),
    (Method::Runs, 7, 4),
    (Method::Packed, 7, 4),
    (Method::Delta, 7, 4),
];

/// The node of a row, a method, and whether a sequence is open.
fn node(row: u32, method: Method, inside: bool) -> Node {
    Node {
        row,
        method,
        inside,
    }
}

/// A Letter page of the dot at its left upper corner.
fn dot_page(alloc: Global) -> Result<Page, AllocError> {
    let size = Size::Letter;
    let dpi = Dpi::Dpi300;
    let mut bitmap = Bitmap::new(alloc, size, dpi)?;
    bitmap.fill(0, 0, 1, 1, Ink::Black);
    Ok(Page {
        size,
        copies: 1,
        dpi,
        bitmap,
    })
}

/// Sets the number of a node in a table of such a page.
fn set(rt: &impl Abort, table: &mut Table, node: Node, number: u32) {
    assert!(rt; table.rows() == 3300 && node.row <= 3300);
    table.set(node.row, node.method, node.inside, number);
}

/// Its least numbers: the text sends the topmost row by method 0, and the rest is white.
fn dot_table(rt: &impl Abort, alloc: Global) -> Result<Table, AllocError> {
    let mut table = Table::new(alloc, 3300)?;
    for (method, outside, inside) in LEAST {
        set(rt, &mut table, node(0, method, false), outside);
        set(rt, &mut table, node(0, method, true), inside);
        for row in 1..3301 {
            set(rt, &mut table, node(row, method, true), 1);
        }
    }
    Ok(table)
}

/// The first bad number of a table for the page.
fn found(
    rt: &impl Abort,
    alloc: Global,
    page: &Page,
    table: &Table,
) -> Result<Option<Node>, AllocError> {
    assert!(rt; table.rows() == page.size.height(page.dpi));
    first_bad_number(alloc, &LeastByCoders, page, table)
}

/// The least numbers are good, and each one that is raised is the first bad one: of the first row, of a later one and of
/// the last.
#[test]
fn raised_numbers(rt: HostRuntime) -> Result<(), AllocError> {
    let page = dot_page(rt.alloc())?;
    let mut table = dot_table(&rt, rt.alloc())?;
    assert_gives(
        &rt,
        &"least",
        &found(&rt, rt.alloc(), &page, &table)?,
        &None,
    );
    for row in [0, 1650, 3300] {
        for (method, _, _) in LEAST {
            for inside in [false, true] {
                assert_raised(
                    &rt,
                    rt.alloc(),
                    &page,
                    &mut table,
                    node(row, method, inside),
                )?;
            }
        }
    }
    Ok(())
}

/// Asserts that a number that is raised is the first bad one, and leaves it as it was.
fn assert_raised(
    rt: &impl Abort,
    alloc: Global,
    page: &Page,
    table: &mut Table,
    node: Node,
) -> Result<(), AllocError> {
    assert!(rt; table.rows() == 3300 && node.row <= 3300);
    let number = table.number(node.row, node.method, node.inside);
    assert!(rt; number < 10);
    set(rt, table, node, number + 1);
    assert_gives(rt, &number, &found(rt, alloc, page, table)?, &Some(node));
    set(rt, table, node, number);
    Ok(())
}

/// Numbers as large as they get undercut nothing by wrapping.
#[test]
fn great_numbers(rt: HostRuntime) -> Result<(), AllocError> {
    let page = dot_page(rt.alloc())?;
    let mut table = dot_table(&rt, rt.alloc())?;
    set(&rt, &mut table, node(0, Method::Plain, false), u32::MAX);
    let bad = node(0, Method::Plain, true);
    set(&rt, &mut table, bad, u32::MAX);
    assert_gives(
        &rt,
        &"great",
        &found(&rt, rt.alloc(), &page, &table)?,
        &Some(bad),
    );
    Ok(())
}

// The laws do nothing.
#[test]
fn states_the_laws() {
    good_numbers_are_feasible();
    numbers_by_bounds_are_feasible();
}
