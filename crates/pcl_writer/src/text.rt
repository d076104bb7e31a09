//! Page texts, and what stands around them.

ghost use Rattle.std.specs.Prelude.{◌≡◌, ◌+◌, ◌++◌, length, take, if◌then◌else◌, is_ok, OnOk, OnErr};
ghost use Rattle.pcl_output.specs.Tokens.{start_bytes, end_bytes, frame_bytes};
ghost use Rattle.pcl_plan.specs.PagePlans.{IsPlanOf};
ghost use Rattle.pcl_writer.specs.Appending.{AppendsPage, planned_bytes};

use crate::body::append_body;
use crate::number::append_labelled;
use pcl_base::{Dpi, Size};
use pcl_bitmap::Page;
use pcl_output::{END_PAGE, RESET};
use pcl_plan::Plan;
use std::alloc::AllocError;

/// Appends the page text that a plan of the page says (docs/OUTPUT.md, "Page texts"). It prints the page, and
/// no page text that does is shorter: it has as many bytes as the plan costs, beside those that don't depend on
/// the rows. Where memory runs out `out` stays as it was.
pub fn write_page(page: &Page, plan: &Plan, out: &mut Vec<u8>) -> Result<(), AllocError>
    requires { IsPlanOf page.now plan.now }
    ensures ok { OnOk result (AppendsPage page.now out.old.items out.new.items) }
    ensures cost { OnOk result (length out.new.items ≡ length out.old.items + planned_bytes page.now plan.now) }
    ensures err { OnErr result (out.new.items ≡ out.old.items) }
{
    let before = out.len();
    let written = append_page(page, plan, out);
    if written.is_err() {
        out.truncate(before);
    }
    written
}

/// Appends what stands before the page texts of a job and after them: a reset. Where memory runs out
/// `out` stays as it was.
pub fn write_frame(out: &mut Vec<u8>) -> Result<(), AllocError>
    ensures { out.new.items ≡ (if is_ok result then out.old.items ++ frame_bytes else out.old.items) }
{
    out.extend_from_slice(RESET)
}

/// Appends a page text, or a prefix of it where memory runs out.
fn append_page(page: &Page, plan: &Plan, out: &mut Vec<u8>) -> Result<(), AllocError>
    requires { IsPlanOf page.now plan.now }
    ensures ok { OnOk result (AppendsPage page.now out.old.items out.new.items) }
    ensures front { take (length out.old.items) out.new.items ≡ out.old.items }
{
    let bitmap = &page.bitmap;
    append_start(page.copies, bitmap.size(), bitmap.dpi(), out)?;
    append_body(bitmap, plan, out)?;
    out.extend_from_slice(END_PAGE)?;
    Ok(())
}

/// Appends the copies, the size and the start of the raster, or a prefix of it where memory runs out.
fn append_start(copies: u8, size: Size, dpi: Dpi, out: &mut Vec<u8>) -> Result<(), AllocError>
    ensures ok { OnOk result (out.new.items ≡ out.old.items ++ start_bytes dpi copies size) }
    ensures front { take (length out.old.items) out.new.items ≡ out.old.items }
{
    append_labelled(b"\x1b&l", u32::from(copies), out)?;
    append_labelled(b"x", size.code(), out)?;
    append_labelled(b"a0E\x1b*p0x0Y\x1b*t", dpi.dots(), out)?;
    append_labelled(b"R\x1b*r", size.width(dpi), out)?;
    out.extend_from_slice(b"s0A")?;
    Ok(())
}
