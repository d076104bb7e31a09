//! A job, how it is read, and for whom it is shrunk.

use crate::shifts::Shift;
use pcl_base::{Dpi, Profile};
use pcl_page::Asks;
use pcl_printers::Readers;
use std::alloc::Global;

/// The terms on which a job is shrunk.
#[derive(Clone, Copy)]
pub struct Terms {
    /// By which profile it is read. Each call says whether that is the widest one, or the only one.
    pub profile: Profile,
    /// For which readers the smaller job is.
    pub readers: Readers,
}

/// How a job is read.
#[derive(Clone, Copy)]
pub struct Reading {
    /// Which commands it may have.
    pub profile: Profile,
    /// The resolution at which it is written.
    pub first: Dpi,
    /// Another at which what is written must be the same too.
    pub also: Option<Dpi>,
}

/// A job, and how it is read.
#[derive(Clone, Copy)]
pub struct ReadJob<'a> {
    pub alloc: Global,
    pub job: &'a [u8],
    pub at: Reading,
}

/// A job for which others are proposed.
#[derive(Clone, Copy)]
pub struct Original<'a, 'b> {
    pub source: ReadJob<'a>,
    /// Where the dots of its pages lie at 600 dots per inch, if that counts.
    pub shifts: &'b [Shift],
    /// What it asks for.
    pub asks: &'b Asks<'a>,
}
