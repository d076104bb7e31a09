//! What is wrong with a line of a table, and its numbers.

use crate::notation::NotationFault;
use pcl_base::Dpi;
use std::alloc::{AllocError, AllocFailed};
use thiserror::Error;

/// What is wrong with a line of a table.
#[derive(Clone, Copy, Debug, Error)]
pub enum TableFault {
    #[error("no case has begun")]
    NoCase,
    #[error("no page has begun")]
    NoPage,
    #[error("the line says nothing known")]
    Unknown,
    #[error("a number, a resolution or a size is wrong")]
    Number,
    #[error("a row is longer than a page is wide")]
    Row,
    #[error(transparent)]
    Notation(NotationFault),
}

impl From<AllocError> for TableFault {
    fn from(error: AllocError) -> Self {
        TableFault::Notation(NotationFault::Memory(error))
    }
}

impl<T: Drop> From<AllocFailed<T>> for TableFault {
    fn from(error: AllocFailed<T>) -> Self {
        TableFault::from(AllocError::from(error))
    }
}

impl From<NotationFault> for TableFault {
    fn from(fault: NotationFault) -> Self {
        TableFault::Notation(fault)
    }
}

/// A number.
pub fn number(text: &str) -> Result<usize, TableFault> {
    text.parse().map_err(|_| TableFault::Number)
}

/// A resolution, in dots per inch.
pub fn resolution(text: &str) -> Result<Dpi, TableFault> {
    match text {
        "300" => Ok(Dpi::Dpi300),
        "600" => Ok(Dpi::Dpi600),
        _ => Err(TableFault::Number),
    }
}
