//! Lines of columns that tabs part.

use crate::facts::{DataBytes, JobFacts, PageFacts, Total};
use std::alloc::{AllocError, Global};

/// The names of the columns.
const HEADER: &str =
    "page\tdpi\tsize\tcopies\tsides\tsource\tblack\tbytes\tmethod_0\tmethod_1\tmethod_2\tmethod_3\n";

/// A header, a line for each page, and one of the sums.
pub fn table(alloc: Global, facts: &JobFacts) -> Result<Vec<u8>, AllocError> {
    let mut text = String::from_str(alloc, HEADER)?;
    append_lines(facts, &mut text)?;
    Ok(text.into_bytes())
}

/// Appends the lines after the header.
fn append_lines(facts: &JobFacts, text: &mut String) -> Result<(), AllocError> {
    for page in &facts.pages {
        append_page(facts.dpi, page, text)?;
    }
    append_total(facts.dpi, &facts.total, text)
}

/// Appends the line of a page.
fn append_page(dpi: u32, facts: &PageFacts, text: &mut String) -> Result<(), AllocError> {
    let PageFacts {
        page,
        size,
        copies,
        ..
    } = *facts;
    write!(text, "{page}\t{dpi}\t{size}\t{copies}\t")?;
    append_asked(facts.sides, text)?;
    append_asked(facts.source, text)?;
    append_percent(facts.black_dots, facts.dots, text)?;
    append_bytes(facts.bytes, facts.data, text)
}

/// Appends the line of the sums.
fn append_total(dpi: u32, total: &Total, text: &mut String) -> Result<(), AllocError> {
    let Total { pages, copies, .. } = *total;
    write!(text, "{pages}\t{dpi}\ttotal\t{copies}\t\t\t")?;
    append_percent(total.black_dots, total.dots, text)?;
    append_bytes(total.bytes, total.data, text)
}

/// Appends the last columns of a line: bytes, and those of row data by method.
fn append_bytes(bytes: usize, data: DataBytes, text: &mut String) -> Result<(), AllocError> {
    let DataBytes {
        method_0,
        method_1,
        method_2,
        method_3,
    } = data;
    write!(
        text,
        "{bytes}\t{method_0}\t{method_1}\t{method_2}\t{method_3}\n"
    )
}

/// Appends the column of what is asked, or of a dash.
fn append_asked(value: Option<i64>, text: &mut String) -> Result<(), AllocError> {
    match value {
        Some(value) => write!(text, "{value}\t"),
        None => text.push_str("-\t"),
    }
}

/// Appends the column of a share in percent, with two digits after the point.
fn append_percent(part: u64, whole: u64, text: &mut String) -> Result<(), AllocError> {
    let permyriad = part.saturating_mul(10_000).checked_div(whole).unwrap_or(0);
    let percent = permyriad / 100;
    let rest = permyriad % 100;
    write!(text, "{percent}.{rest:02}\t")
}
