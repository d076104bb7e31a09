//! The checker: its yes proves that no text of the output grammar that prints the page is shorter (docs/CERTIFICATE.md).

mod laws;
mod lengths;
mod places;

ghost use Rattle.std.specs.Prelude.{◌≡◌, ℕ, ◌+◌, ◌<◌, ◌≤◌, ◌↔◌, length, option_copied, IfOk, IsTrue};
ghost use Rattle.pcl_base.specs.Size.{page_height};
ghost use Rattle.pcl_output.specs.LeastTexts.{fixed_bytes};
ghost use Rattle.pcl_check.specs.Edges.{FindsBad};
ghost use Rattle.pcl_cert.specs.Checking.{IsVerdict, AreOfPage, IsGoodOf};

use crate::tables::RowTables;
pub use laws::{
    proved_tables_are_feasible, proved_texts_are_least, tables_are_proved, tables_can_be_certified,
};
use lengths::ByRowTables;
use pcl_base::Method;
use pcl_bitmap::Page;
use pcl_check::{LeastByCoders, TextVerdict, first_bad_number, read_page_text};
use pcl_output::{Node, Table, digits};
use places::first_bad_row_place;
use std::alloc::{AllocError, Global};

/// What the checker answers, by the first test that fails.
#[derive(Clone, Copy, Debug, PartialEq, Eq)]
pub enum Verdict {
    /// The text is no page text at the page's resolution.
    NotGrammar,
    /// The text prints another page.
    OtherPage,
    /// A table doesn't have the page's rows.
    Rows,
    /// The first number of a row table that is above an element's bytes and the number where that stops, or isn't 0 where
    /// no more data is needed.
    Place {
        row: u32,
        method: Method,
        place: u32,
    },
    /// The first number of a node that is above what a step costs and the number where that leads, or isn't 0 at an end.
    Edge {
        row: u32,
        method: Method,
        inside: bool,
    },
    /// The text is longer or shorter than the number of the first node says.
    Length,
    /// The text prints the page, and no text of the output grammar that does is shorter.
    Proved,
}

/// Checks that a text prints a page and that none that does is shorter, by numbers for the nodes of the page. The
/// numbers may come from anybody. Where there are row tables no coder is called: rows are counted with the first numbers
/// of these. It fails only where memory runs out.
pub fn check_page(
    alloc: Global,
    page: &Page,
    text: &[u8],
    table: &Table,
    tables: Option<&RowTables<'_>>,
) -> Result<Verdict, AllocError>
    ensures { IfOk result (λ verdict. IsVerdict page.now text.now table.now (option_copied tables.entry) verdict) }
{
    match read_page_text(page, text) {
        TextVerdict::NotGrammar => return Ok(Verdict::NotGrammar),
        TextVerdict::OtherPage => return Ok(Verdict::OtherPage),
        TextVerdict::Prints => {}
    }
    if !are_of_page(page, table, tables) {
        return Ok(Verdict::Rows);
    }
    if let Some(bad) = first_bad_row_place(page, tables) {
        return Ok(Verdict::Place {
            row: bad.row,
            method: bad.method,
            place: bad.place,
        });
    }
    if let Some(bad) = first_bad_edge(alloc, page, table, tables)? {
        return Ok(Verdict::Edge {
            row: bad.row,
            method: bad.method,
            inside: bad.inside,
        });
    }
    let least = fixed_len(page) + table.number(0, Method::Plain, false) as usize;
    Ok(if text.len() == least {
        Verdict::Proved
    } else {
        Verdict::Length
    })
}

/// Whether the tables have the page's rows.
fn are_of_page(page: &Page, table: &Table, tables: Option<&RowTables<'_>>) -> bool
    ensures { IsTrue result ↔ AreOfPage page.now table.now (option_copied tables.entry) }
{
    let height = page.size.height(page.dpi);
    if table.rows() != height {
        return false;
    }
    match tables {
        None => true,
        Some(tables) => tables.rows() == height,
    }
}

/// The first bad number of a node.
fn first_bad_edge(
    alloc: Global,
    page: &Page,
    table: &Table,
    tables: Option<&RowTables<'_>>,
) -> Result<Option<Node>, AllocError>
    requires { AreOfPage page.now table.now (option_copied tables) }
    ensures { IfOk result (FindsBad (IsGoodOf page.now table.now (option_copied tables.entry)) (page_height page.now.size page.now.dpi)) }
{
    match tables {
        None => first_bad_number(alloc, &LeastByCoders, page, table),
        Some(tables) => first_bad_number(alloc, &ByRowTables { tables }, page, table),
    }
}

/// The bytes of a page text that don't depend on its rows.
fn fixed_len(page: &Page) -> usize
    ensures { result ≡ fixed_bytes page.now.dpi page.now.size page.now.copies }
{
    (36 + digits(u32::from(page.copies)) + digits(page.size.code())) as usize
}
