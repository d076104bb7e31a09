//! What stands around the tokens of a page, and around the pages of a job.

/// The last bytes of a page text, after its body: `ESC*rC`, the end of the raster, and a form feed.
pub const END_PAGE: &[u8] = b"\x1b*rC\x0c";

/// `ESC E`, a reset. It stands before the page texts of a job, and after them.
pub const RESET: &[u8] = b"\x1bE";
