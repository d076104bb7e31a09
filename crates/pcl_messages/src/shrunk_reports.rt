//! What is said of a job that is shrunk.

ghost use Rattle.std.specs.Prelude.{◌≡◌, ◌++◌, IfOk, OnOk};
ghost use Rattle.pcl_messages.specs.ShrunkReports.{candidate_text, doubt_text, pages_word};
ghost use Rattle.pcl_messages.specs.ShrunkReports.{counts_text, reason_text, shrunk_text};
ghost use Rattle.pcl_messages.specs.ShrunkReports.{count_members, quoted_text, written_member, doubt_member, shrunk_object_text};
ghost use Rattle.pcl_messages.specs.ShrunkReports.{shrunk_report_in};

use crate::texts::append_labelled;
use pcl_request::Layout;
use pcl_shrink::{Candidate, Doubt, Shrunk};
use std::alloc::{AllocError, Global};

/// What is said of a job without pages.
pub const NO_PAGE: &[u8] = b"pclmin: no page\n";

/// What is reported of a job of this many bytes that was shrunk, in a layout.
pub fn shrunk_report(
    alloc: Global,
    layout: Layout,
    len: usize,
    shrunk: &Shrunk,
) -> Result<Vec<u8>, AllocError>
    ensures { IfOk result (λ line. line.items ≡ shrunk_report_in layout len shrunk.now) }
{
    let mut line = Vec::new(alloc);
    match layout {
        Layout::Text => append_shrunk_line(len, shrunk, &mut line)?,
        Layout::Json => append_shrunk_object(len, shrunk, &mut line)?,
    }
    Ok(line)
}

/// Appends what is said of a job of this many bytes that was shrunk.
fn append_shrunk_line(len: usize, shrunk: &Shrunk, line: &mut Vec<u8>) -> Result<(), AllocError>
    ensures { OnOk result (line.new.items ≡ line.old.items ++ shrunk_text len shrunk.now) }
{
    append_counts(len, shrunk, line)?;
    line.extend_from_slice(candidate_name(shrunk.by))?;
    append_reason(shrunk.doubt, line)?;
    line.extend_from_slice(b"\n")
}

/// Appends the bytes of the job that came in and of the one that goes out, and its pages.
fn append_counts(len: usize, shrunk: &Shrunk, line: &mut Vec<u8>) -> Result<(), AllocError>
    ensures { OnOk result (line.new.items ≡ line.old.items ++ counts_text len shrunk.now) }
{
    append_labelled(b"pclmin: ", len, line)?;
    append_labelled(b" bytes in, ", shrunk.job.len(), line)?;
    append_labelled(b" out, ", shrunk.pages, line)?;
    line.extend_from_slice(after_pages(shrunk.pages))
}

/// Appends why a job is as it came, where printers may read something otherwise.
fn append_reason(doubt: Option<Doubt>, line: &mut Vec<u8>) -> Result<(), AllocError>
    ensures { OnOk result (line.new.items ≡ line.old.items ++ reason_text doubt) }
{
    match doubt {
        None => Ok(()),
        Some(doubt) => {
            line.extend_from_slice(b", since printers read otherwise ")?;
            line.extend_from_slice(doubt_name(doubt))
        }
    }
}

/// Appends the same as an object of JSON.
fn append_shrunk_object(len: usize, shrunk: &Shrunk, line: &mut Vec<u8>) -> Result<(), AllocError>
    ensures { OnOk result (line.new.items ≡ line.old.items ++ shrunk_object_text len shrunk.now) }
{
    append_count_members(len, shrunk, line)?;
    append_written(shrunk.by, line)?;
    append_doubt(shrunk.doubt, line)?;
    line.extend_from_slice(b"}\n")
}

/// Appends the start of the object, with its numbers.
fn append_count_members(len: usize, shrunk: &Shrunk, line: &mut Vec<u8>) -> Result<(), AllocError>
    ensures { OnOk result (line.new.items ≡ line.old.items ++ count_members len shrunk.now) }
{
    append_labelled(b"{\"bytes_in\":", len, line)?;
    append_labelled(b",\"bytes_out\":", shrunk.job.len(), line)?;
    append_labelled(b",\"pages\":", shrunk.pages, line)
}

/// Appends its member that says how the pages are written.
fn append_written(by: Candidate, line: &mut Vec<u8>) -> Result<(), AllocError>
    ensures { OnOk result (line.new.items ≡ line.old.items ++ written_member by) }
{
    append_quoted(b",\"written\":\"", candidate_name(by), line)
}

/// Appends its member that says what printers may read otherwise.
fn append_doubt(doubt: Option<Doubt>, line: &mut Vec<u8>) -> Result<(), AllocError>
    ensures { OnOk result (line.new.items ≡ line.old.items ++ doubt_member doubt) }
{
    match doubt {
        None => line.extend_from_slice(b",\"doubt\":null"),
        Some(doubt) => append_quoted(b",\"doubt\":\"", doubt_name(doubt), line),
    }
}

/// Appends a label that ends in a quotation mark, a text, and another mark.
fn append_quoted(label: &[u8], text: &[u8], line: &mut Vec<u8>) -> Result<(), AllocError>
    ensures { OnOk result (line.new.items ≡ line.old.items ++ quoted_text label.now text.now) }
{
    line.extend_from_slice(label)?;
    line.extend_from_slice(text)?;
    line.extend_from_slice(b"\"")
}

/// What stands after a number of pages.
fn after_pages(pages: usize) -> &'static [u8]
    ensures { result.now ≡ pages_word pages }
{
    match pages {
        1 => b" page, ",
        _ => b" pages, ",
    }
}

/// How the pages of a job are written.
fn candidate_name(by: Candidate) -> &'static [u8]
    ensures { result.now ≡ candidate_text by }
{
    match by {
        Candidate::Input => b"as they came",
        Candidate::Raster => b"as least rasters",
        Candidate::Coarse => b"as rasters of other resolutions",
        Candidate::Glyphs => b"as glyphs",
    }
}

/// What printers may read otherwise in a job.
fn doubt_name(doubt: Doubt) -> &'static [u8]
    ensures { result.now ≡ doubt_text doubt }
{
    match doubt {
        Doubt::BetweenDots => b"what stands between dots",
        Doubt::ShortRaster => b"where the cursor is after fewer rows than a raster's height",
        Doubt::FirstLine => b"where the cursor is after settings",
        Doubt::SeedRow => b"an offset of 0 before a row by method 3",
        Doubt::RasterSize => b"a width or a height of a raster of 0",
        Doubt::Advance => b"an advance below 0",
        Doubt::Code => b"a code without a character",
        Doubt::EmptyMark => b"a mark without dots on the page",
        Doubt::ColumnWidth => b"the column width after another font, or a font sent anew",
        Doubt::PastEnd => b"a tab, a move by rows or a line spacing past the end of the page",
        Doubt::PartOfUnit => b"a part of a unit",
        Doubt::Ejection => {
            b"sides, a media type, a page length or an orientation on a page with marks"
        }
        Doubt::Edge => b"ink past an edge of the page",
        Doubt::OpenRaster => b"where a raster ends",
        Doubt::RowStart => b"where a row begins, after a raster away from the left edge",
        Doubt::TextScale => b"a text scale that isn't 0",
        Doubt::Back => b"the side of a sheet after a page that is moved",
        Doubt::JobLine => b"a line of @PJL",
        Doubt::OtherFont => b"a font that no ID of the job selects",
        Doubt::RightMargin => b"a line past a right margin, or one that wraps",
        Doubt::RowData => b"a row by method 3 that ends in an offset",
        Doubt::Sides => b"which side of the sheet comes next",
        Doubt::CalledMacro => b"a page size or the end of a page in a called macro",
        Doubt::Paper => b"a page without a size, where papers differ",
        Doubt::NoPage => b"a job without a page",
        Doubt::OpenEnd => b"what the job leaves at its end",
    }
}
