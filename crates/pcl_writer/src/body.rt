//! The body of a page text, along the steps of its plan.

ghost use Rattle.std.specs.Prelude.{◌≡◌, ◌++◌, ◌<◌, [], length, take, replicate, OnOk};
ghost use Rattle.std.specs.List.{flat_map};
ghost use Rattle.pcl_base.specs.Size.{page_height, page_row_bytes};
ghost use Rattle.pcl_coders.specs.Coding.{IsCodable, IsLeastLength, AppendsLeast};
ghost use Rattle.pcl_output.specs.Tokens.{letter, token_bytes};
ghost use Rattle.pcl_output.specs.PageText.{bitmap_rows};
ghost use Rattle.pcl_output.specs.Nodes.{row_at};
ghost use Rattle.pcl_output.specs.Spelling.{least_spelling};
ghost use Rattle.pcl_plan.specs.Plans.{opened};
ghost use Rattle.pcl_writer.specs.inner.Steps.{above, IsBitmapPlan, IsWritable, AppendsBody, AppendsStep, AppendsParameter, AppendsRow};

use crate::number::append_spelling;
use pcl_base::{Method, ROW_LIMIT};
use pcl_bitmap::Bitmap;
use pcl_coders::RowCoder;
use pcl_output::{Node, Step, row_above};
use pcl_plan::Plan;
use std::alloc::AllocError;

/// Appends the body of a page along the steps of its plan. Where memory runs out a prefix of it is appended.
pub fn append_body(bitmap: &Bitmap, plan: &Plan, out: &mut Vec<u8>) -> Result<(), AllocError>
    requires { IsBitmapPlan bitmap.now plan.now }
    ensures ok { OnOk result (AppendsBody bitmap.now plan.now out.old.items out.new.items) }
    ensures front { take (length out.old.items) out.new.items ≡ out.old.items }
{
    let steps = plan.steps();
    let mut node = Node::start();
    for (i, step) in steps.iter().enumerate() {
        let ends = i + 1 == steps.len();
        append_step(bitmap, node, *step, ends, out)?;
        node = node.after(*step, ends);
    }
    Ok(())
}

/// Appends the parameter of a step, in a new sequence where none is open, or a prefix of it where memory runs
/// out.
fn append_step(
    bitmap: &Bitmap,
    node: Node,
    step: Step,
    ends: bool,
    out: &mut Vec<u8>,
) -> Result<(), AllocError>
    requires { IsWritable bitmap.now node.row node.method step }
    ensures ok { OnOk result (AppendsStep bitmap.now node step ends out.old.items out.new.items) }
    ensures front { take (length out.old.items) out.new.items ≡ out.old.items }
{
    append_opening(node.inside, out)?;
    append_parameter(bitmap, node.row, node.method, step, ends, out)
}

/// Opens a sequence where none is open, or appends a prefix of that where memory runs out.
fn append_opening(inside: bool, out: &mut Vec<u8>) -> Result<(), AllocError>
    ensures ok { OnOk result (out.new.items ≡ out.old.items ++ flat_map token_bytes (opened inside [])) }
    ensures front { take (length out.old.items) out.new.items ≡ out.old.items }
{
    if inside {
        Ok(())
    } else {
        out.extend_from_slice(b"\x1b*b")
    }
}

/// Appends the parameter of a step, or a prefix of it where memory runs out.
fn append_parameter(
    bitmap: &Bitmap,
    row: u32,
    method: Method,
    step: Step,
    ends: bool,
    out: &mut Vec<u8>,
) -> Result<(), AllocError>
    requires { IsWritable bitmap.now row method step }
    ensures ok { OnOk result (AppendsParameter bitmap.now row method step ends out.old.items out.new.items) }
    ensures front { take (length out.old.items) out.new.items ≡ out.old.items }
{
    match step {
        Step::Skip(count) => append_setting(u32::from(count), b'Y', ends, out),
        Step::Switch(next) => append_setting(next.code(), b'M', ends, out),
        Step::Row(bytes) => append_row(bitmap, row, method, bytes, out),
    }
}

/// Appends a number and its letter, a capital where it ends its sequence, or a prefix of it where memory runs
/// out.
fn append_setting(number: u32, capital: u8, ends: bool, out: &mut Vec<u8>) -> Result<(), AllocError>
    requires { capital < 128 }
    ensures ok { OnOk result (out.new.items ≡ out.old.items ++ (least_spelling number ++ letter capital ends)) }
    ensures front { take (length out.old.items) out.new.items ≡ out.old.items }
{
    append_spelling(number, out)?;
    out.push(if ends { capital } else { capital + 32 })?;
    Ok(())
}

/// Appends the length of a row's data and the data, or a prefix of it where memory runs out.
fn append_row(
    bitmap: &Bitmap,
    row: u32,
    method: Method,
    bytes: u16,
    out: &mut Vec<u8>,
) -> Result<(), AllocError>
    requires row { row < page_height bitmap.now.size bitmap.now.dpi }
    requires bytes { IsLeastLength method (above bitmap.now row) (row_at (bitmap_rows bitmap.now) row) bytes }
    ensures ok { OnOk result (AppendsRow bitmap.now row method bytes out.old.items out.new.items) }
    ensures front { take (length out.old.items) out.new.items ≡ out.old.items }
{
    let zeros = [0; ROW_LIMIT];
    append_spelling(u32::from(bytes), out)?;
    out.extend_from_slice(b"W")?;
    append_data(method, bitmap.row(row), row_above(bitmap, row, &zeros), out)
}

/// Appends least data for a row by a method. Where memory runs out nothing is appended.
fn append_data(method: Method, row: &[u8], seed: &[u8], out: &mut Vec<u8>) -> Result<(), AllocError>
    requires { IsCodable seed.now row.now }
    ensures ok { OnOk result (AppendsLeast method seed.now row.now out.old.items out.new.items) }
    ensures front { take (length out.old.items) out.new.items ≡ out.old.items }
{
    method.write(row, seed, out)
}
