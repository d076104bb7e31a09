//! Which commands a job may have.

/// Which commands a job may have, and with which values (docs/LANGUAGE.md, "The drivers' profile").
#[derive(Clone, Copy, Debug, PartialEq, Eq)]
pub enum Profile {
    /// Those by which a job is read that is written again as its least raster, or painted.
    Stated,
    /// Those, and what drivers send besides: commands that move or mark nothing on a page, and ask something of the printer.
    Drivers,
}
