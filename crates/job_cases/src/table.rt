//! A table of cases, as it is written.
//!
//! A line of a table is a word and what belongs to it; empty lines, and lines that begin with `#`, say nothing.
//!
//! ```text
//! case the dot at the corner         its name, which no other case has
//!   dpi 600                          the resolution of its pages; 300 where none is said
//!   job ESC&l0E ESC*p0x0Y            the job, in the notation that `notation` tells;
//!   job ESC*c1a1b0P                  several such lines are one job
//!   page A4, 3 copies                a page that is expected, and then its rows; without copies one
//!     0: FF 0F                       row 0 begins with these bytes, as in brackets, and is white after them
//!     1-4: 300*FF                    rows 1 to 4 are so
//!     5-99 by 2: @31 FF @286 FF      rows 5, 7, 9 to 99: byte 31, byte 286; those between are white
//!     100: dots 240 300-303          row 100 has these dots
//!     written ESC*b1W[80]            the body of the page's text in the job that is written
//!   2* page Letter                   two pages, white as each page whose rows aren't given
//!   length 48                        the bytes of the job that is written
//! ```
//!
//! In place of pages a case has `no page`, or the refusal of the job, as `refused ValueRange at 0 *pX`.
//! `written` stands at each page of a case or at none.

use crate::case::{Case, Pages, RepeatedRows};
use case_tables::{TableFault, bracketed_bytes_of, bytes_of, number, resolution};
use pcl_base::{Dpi, Size};
use std::alloc::{AllocError, Global};

/// The most bytes of a row, which an A4 page has at 600 dots per inch, rounded up.
const ROW_BYTES: usize = 600;

/// The cases of a table, or its first line that is wrong.
pub(crate) fn cases_of(alloc: Global, text: &str) -> Result<Vec<Case>, (usize, TableFault)> {
    let mut cases = Vec::new(alloc);
    let mut number = 0usize;
    for line in text.lines() {
        number = number.saturating_add(1);
        add_line(alloc, &mut cases, line.trim()).map_err(|fault| (number, fault))?;
    }
    Ok(cases)
}

fn add_line(alloc: Global, cases: &mut Vec<Case>, line: &str) -> Result<(), TableFault> {
    if line.is_empty() || line.starts_with('#') {
        return Ok(());
    }
    let (word, rest) = line.split_once(' ').unwrap_or((line, ""));
    if word == "case" {
        cases.push(new_case(alloc, rest)?)?;
        return Ok(());
    }
    let case = cases.last_mut().ok_or(TableFault::NoCase)?;
    add_word(alloc, case, word, rest)
}

/// A case of which only the name is known.
fn new_case(alloc: Global, name: &str) -> Result<Case, AllocError> {
    Ok(Case {
        name: String::from_str(alloc, name)?,
        dpi: Dpi::Dpi300,
        notation: String::new(alloc),
        refusal: None,
        no_page: false,
        pages: Vec::new(alloc),
        length: None,
    })
}

/// Adds a line to a case, by its first word and the rest.
fn add_word(alloc: Global, case: &mut Case, word: &str, rest: &str) -> Result<(), TableFault> {
    match word {
        "dpi" => case.dpi = resolution(rest)?,
        "job" => {
            case.notation.push_str(rest)?;
            case.notation.push_str(" ")?;
        }
        "refused" => case.refusal = Some(String::from_str(alloc, rest)?),
        "no" => case.no_page = true,
        "length" => case.length = Some(number(rest)?),
        "page" => add_pages(alloc, case, 1, rest)?,
        "written" => {
            let pages = case.pages.last_mut().ok_or(TableFault::NoPage)?;
            pages.body = Some(bytes_of(alloc, rest)?);
        }
        _ => match (word.strip_suffix('*'), rest.strip_prefix("page ")) {
            (Some(times), Some(page)) => add_pages(alloc, case, number(times)?, page)?,
            _ => add_rows(alloc, case, word, rest)?,
        },
    }
    Ok(())
}

/// Adds this many times the page of a line, as `A4, 3 copies`.
fn add_pages(alloc: Global, case: &mut Case, times: usize, page: &str) -> Result<(), TableFault> {
    let (name, copies) = page.split_once(", ").unwrap_or((page, "1 copies"));
    let (copies, _) = copies.split_once(' ').ok_or(TableFault::Unknown)?;
    let pages = Pages {
        end: case.page_count().saturating_add(times),
        times,
        size: size(name)?,
        copies: copies.parse().map_err(|_| TableFault::Number)?,
        rows: Vec::new(alloc),
        body: None,
    };
    case.pages.push(pages)?;
    Ok(())
}

/// Adds the rows of a line to the last page, as `5-99` and `by 2: FF 0F`.
fn add_rows(alloc: Global, case: &mut Case, first: &str, rest: &str) -> Result<(), TableFault> {
    let (span, step, bytes) = match first.strip_suffix(':') {
        Some(span) => (span, "1", rest),
        None => {
            let (step, bytes) = rest.split_once(": ").ok_or(TableFault::Unknown)?;
            (
                first,
                step.strip_prefix("by ").ok_or(TableFault::Unknown)?,
                bytes,
            )
        }
    };
    let (first, last) = span.split_once('-').unwrap_or((span, span));
    let rows = RepeatedRows {
        first: row_number(first)?,
        last: row_number(last)?,
        step: row_number(step)?,
        bytes: row_of(alloc, bytes)?,
    };
    let pages = case.pages.last_mut().ok_or(TableFault::NoPage)?;
    pages.rows.push(rows)?;
    Ok(())
}

/// The bytes of a row, as `FF @31 0F` or `dots 240 300-303`.
fn row_of(alloc: Global, text: &str) -> Result<Vec<u8>, TableFault> {
    let mut row = Vec::new(alloc);
    if let Some(dots) = text.strip_prefix("dots ") {
        for span in dots.split_whitespace() {
            add_dots(&mut row, span)?;
        }
        return Ok(row);
    }
    for (part, bytes) in text.split('@').enumerate() {
        let bytes = match part {
            0 => bytes,
            _ => {
                let (place, bytes) = bytes.split_once(' ').ok_or(TableFault::Unknown)?;
                widen(&mut row, number(place)?)?;
                bytes
            }
        };
        row.extend_from_slice(&bracketed_bytes_of(alloc, bytes)?)?;
    }
    Ok(row)
}

/// Adds zeros up to this many bytes.
fn widen(row: &mut Vec<u8>, len: usize) -> Result<(), TableFault> {
    if len < row.len() || len > ROW_BYTES {
        return Err(TableFault::Row);
    }
    row.resize(len, 0)?;
    Ok(())
}

/// Sets the dots of a span, as `240` or `300-303`.
fn add_dots(row: &mut Vec<u8>, span: &str) -> Result<(), TableFault> {
    let (first, last) = span.split_once('-').unwrap_or((span, span));
    let (first, last) = (number(first)?, number(last)?);
    let len = (last / 8).saturating_add(1);
    widen(row, len.max(row.len()))?;
    for dot in first..=last {
        if let Some(byte) = row.get_mut(dot / 8) {
            *byte |= 0x80 >> (dot % 8);
        }
    }
    Ok(())
}

fn row_number(text: &str) -> Result<u32, TableFault> {
    text.parse().map_err(|_| TableFault::Number)
}

fn size(name: &str) -> Result<Size, TableFault> {
    Size::ALL
        .into_iter()
        .find(|size| size.name() == name)
        .ok_or(TableFault::Number)
}
