//! The first bad number of a page's row tables.

ghost use Rattle.std.specs.Prelude.{◌≡◌, ◌+◌, ◌*◌, ◌<◌, ◌≤◌, length, option_copied, MatchOption};
ghost use Rattle.pcl_base.specs.Size.{page_height, page_row_bytes};
ghost use Rattle.pcl_base.specs.Method.{method_code};
ghost use Rattle.pcl_cert.specs.RowTables.{list_of};
ghost use Rattle.pcl_check.specs.Places.{FindsPlace};
ghost use Rattle.pcl_cert.specs.Checking.{IsGoodInTables};
ghost use Rattle.pcl_cert.specs.inner.FirstBad.{AreTablesOf, FindsBadBelow, FindsBadIn};

use crate::tables::RowTables;
use pcl_base::{Method, ROW_LIMIT};
use pcl_bitmap::Page;
use pcl_check::first_bad_place;
use pcl_output::row_above;

/// A place of a row whose number is bad: a row, a method, and a place of the row or its end.
#[derive(Clone, Copy, Debug, PartialEq, Eq)]
pub struct BadPlace {
    pub row: u32,
    pub method: Method,
    pub place: u32,
}

/// The first bad number of the row tables of a page, in the order of certificates; none where there are no row tables or
/// all their numbers are good.
pub fn first_bad_row_place(page: &Page, tables: Option<&RowTables<'_>>) -> Option<BadPlace>
    requires { AreTablesOf page.now (option_copied tables) }
    ensures { FindsBadIn page.now (option_copied tables.entry) result }
{
    let tables = tables?;
    for row in 0..page.size.height(page.dpi) {
        let found = first_bad_in_row(page, tables, row);
        if found.is_some() {
            return found;
        }
    }
    None
}

/// The first bad number of the four tables of a row.
fn first_bad_in_row(page: &Page, tables: &RowTables<'_>, row: u32) -> Option<BadPlace>
    requires row { row < page_height page.now.size page.now.dpi }
    requires tables { length tables.now ≡ 4 * page_height page.now.size page.now.dpi }
    ensures { FindsBadBelow page.now tables.now row 4 result }
{
    let found = or_in_table(None, page, tables, row, Method::Plain);
    let found = or_in_table(found, page, tables, row, Method::Runs);
    let found = or_in_table(found, page, tables, row, Method::Packed);
    or_in_table(found, page, tables, row, Method::Delta)
}

/// What was found in the methods before, or else the first bad number of the table of a row and a method.
fn or_in_table(
    found: Option<BadPlace>,
    page: &Page,
    tables: &RowTables<'_>,
    row: u32,
    method: Method,
) -> Option<BadPlace>
    requires row { row < page_height page.now.size page.now.dpi }
    requires tables { length tables.now ≡ 4 * page_height page.now.size page.now.dpi }
    requires before { FindsBadBelow page.now tables.now row (method_code method) found }
    ensures { FindsBadBelow page.now tables.now row (method_code method + 1) result }
{
    if found.is_some() {
        return found;
    }
    match first_bad_in_table(page, tables, row, method) {
        None => None,
        Some(place) => Some(BadPlace { row, method, place }),
    }
}

/// The first bad number of the table of a row and a method.
fn first_bad_in_table(page: &Page, tables: &RowTables<'_>, row: u32, method: Method) -> Option<u32>
    requires row { row < page_height page.now.size page.now.dpi }
    requires tables { length tables.now ≡ 4 * page_height page.now.size page.now.dpi }
    ensures { FindsPlace (IsGoodInTables page.now tables.now row method) (page_row_bytes page.now.size page.now.dpi) result }
{
    let bytes = page.bitmap.row(row);
    if tables.is_empty(row, method) {
        return None;
    }
    let zeros = [0; ROW_LIMIT];
    let mut space = [0; ROW_LIMIT + 1];
    let seed = row_above(&page.bitmap, row, &zeros);
    let numbers = &mut space[..bytes.len() + 1];
    tables.copy_table(row, method, numbers);
    let place = first_bad_place(method, bytes, seed, numbers)?;
    Some(place as u32)
}
