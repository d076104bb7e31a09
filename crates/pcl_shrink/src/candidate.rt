//! What a job is shrunk to.

use pcl_printers::Doubt;

/// A way to write the pages of a job.
#[derive(Clone, Copy, Debug, PartialEq, Eq)]
pub enum Candidate {
    /// The bytes that came in.
    Input,
    /// The least page texts (docs/OUTPUT.md), with what the job asks for.
    Raster,
    /// Rasters of coarser resolutions, where a page has them.
    Coarse,
    /// Letters as soft fonts or as macros, where that takes fewer bytes (docs/GLYPHS.md).
    Glyphs,
}

/// The smallest job that was found with the pages of another.
#[derive(Debug, Drop)]
pub struct Shrunk {
    /// The job.
    pub job: Vec<u8>,
    /// How it is written.
    pub by: Candidate,
    /// How many pages it has.
    pub pages: usize,
    /// Why it is the job as it came, where printers may read that otherwise.
    pub doubt: Option<Doubt>,
}

/// A job that may have the pages of another.
#[derive(Drop)]
pub(crate) struct Proposal {
    /// The job.
    pub job: Vec<u8>,
    /// How it is written.
    pub by: Candidate,
}
