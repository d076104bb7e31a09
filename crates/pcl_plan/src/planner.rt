//! The least plan of a page.

ghost use Rattle.std.specs.Prelude.{IfOk};
ghost use Rattle.pcl_plan.specs.inner.Rows.{rows_of};
ghost use Rattle.pcl_plan.specs.Plans.{IsPlan};
ghost use Rattle.pcl_plan.specs.PagePlans.{IsPlanOf};

use crate::fill::fill;
use crate::lengths::{Coders, LeastLengths};
use crate::page_plan::Plan;
use crate::rows::Rows;
use crate::steps::append_steps;
use pcl_bitmap::Page;
use pcl_output::Table;
use std::alloc::{AllocError, Global};

/// The least plan of a page (docs/OUTPUT.md, "Page texts"). It takes time in proportion to the page's rows,
/// besides what the coders of their data take, and fails only where memory runs out.
pub fn plan(alloc: Global, page: &Page) -> Result<Plan, AllocError>
    ensures { IfOk result (λ plan. IsPlanOf page.now plan) }
{
    let bitmap = &page.bitmap;
    let rows = Rows {
        bytes: bitmap.bytes(),
        width: bitmap.size().row_bytes(bitmap.dpi()),
        count: bitmap.size().height(bitmap.dpi()),
    };
    plan_rows(alloc, &Coders, &rows)
}

/// The same for any rows, with any coders that give least lengths.
pub fn plan_rows<L: LeastLengths>(
    alloc: Global,
    lengths: &L,
    rows: &Rows<'_>,
) -> Result<Plan, AllocError>
    ensures { IfOk result (λ plan. IsPlan rows.now.width (rows_of rows.now) plan) }
{
    let mut table = Table::new(alloc, rows.count)?;
    fill(lengths, rows, &mut table);
    let mut steps = Vec::new(alloc);
    append_steps(lengths, rows, &table, &mut steps)?;
    Ok(Plan::new(steps, table))
}
