//! What a certificate says of a page.

use crate::tables::RowTables;
use pcl_output::Table;

/// What a certificate says of a page: the length of its text in bytes, a number for each node of the page, and in the
/// second format a table for each of its rows and each method.
#[derive(Drop, Debug)]
pub struct PageProof<'a> {
    pub text_len: u32,
    pub table: Table,
    pub places: Option<RowTables<'a>>,
}
