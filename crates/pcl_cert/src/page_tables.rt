//! The row tables of a page.

ghost use Rattle.std.specs.Prelude.{◌≡◌, ◌+◌, ◌<◌, ◌≤◌, replicate, length, IfOk, OnOk};
ghost use Rattle.pcl_base.specs.Size.{page_height, page_row_bytes};
ghost use Rattle.pcl_coders.specs.Coding.{IsCodable};
ghost use Rattle.pcl_cert.specs.PageTables.{AreLeastTablesOf};
ghost use Rattle.pcl_cert.specs.inner.Listing.{AreWhole, HasRowMore, HoldsRowsOf};

use crate::listing::Lists;
use crate::tables::{Bytes, RowTables};
use pcl_base::ROW_LIMIT;
use pcl_bitmap::{Bitmap, Page};
use pcl_coders::{Delta, Packed, Plain, RowCoder, Runs};
use pcl_output::row_above;
use std::alloc::{AllocError, Global};

/// The least numbers of each row of a page, by each method. A row is over the row above it (docs/CERTIFICATE.md, "Row
/// tables"). It fails where memory runs out.
pub fn row_tables(alloc: Global, page: &Page) -> Result<RowTables<'static>, AllocError>
    ensures { IfOk result (λ tables. AreLeastTablesOf page.now tables) }
{
    let bitmap = &page.bitmap;
    let mut lists = Lists::new(alloc);
    for row in 0..bitmap.size().height(bitmap.dpi()) {
        push_row(bitmap, row, &mut lists)?;
    }
    Ok(RowTables::within(Bytes::Kept(lists.bytes), lists.starts))
}

/// Puts the lists of a row after the others.
fn push_row(bitmap: &Bitmap, row: u32, lists: &mut Lists) -> Result<(), AllocError>
    requires row { row < page_height bitmap.now.size bitmap.now.dpi }
    requires holds { HoldsRowsOf bitmap.now row lists.old }
    ensures { OnOk result (HoldsRowsOf bitmap.now (row + 1) lists.new) }
{
    let zeros = [0; ROW_LIMIT];
    let bytes = bitmap.row(row);
    let seed = row_above(bitmap, row, &zeros);
    push_list(&Plain, bytes, seed, lists)?;
    push_list(&Runs, bytes, seed, lists)?;
    push_list(&Packed, bytes, seed, lists)?;
    push_list(&Delta, bytes, seed, lists)
}

/// Puts the least numbers of a row by a method after the others.
fn push_list<C: RowCoder>(
    coder: &C,
    row: &[u8],
    seed: &[u8],
    lists: &mut Lists,
) -> Result<(), AllocError>
    requires whole { AreWhole lists.old }
    requires codable { IsCodable seed.now row.now }
    ensures { OnOk result (HasRowMore (C.of coder.now) seed.now row.now lists.old lists.new) }
{
    let mut numbers = [0; ROW_LIMIT + 1];
    let numbers = &mut numbers[..row.len() + 1];
    coder.places(row, seed, numbers);
    lists.push(numbers)
}
