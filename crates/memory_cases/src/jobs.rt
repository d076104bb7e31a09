//! The jobs of these calls.

use std::alloc::{AllocError, Global};

/// The header of a font of proportional characters, 30 dots apart where they aren't there.
pub(crate) const HEADER: [u8; 64] = [
    0, 64, 0, 0, 0, 0, 0, 0, 0, 0, 0, 0, 0, 1, 0, 0, 0, 120, 0, 0, 0, 0, 0, 0, 0, 0, 0, 0, 0, 0, 0,
    0, 0, 0, 0, 0, 0, 0, 0, 0, 0, 0, 0, 0, 0, 0, 0, 0, 0, 0, 0, 0, 0, 0, 0, 0, 0, 0, 0, 0, 0, 0, 0,
    0,
];

/// A character of eight dots and two rows.
const CHARACTER: [u8; 18] = [4, 0, 14, 1, 0, 0, 0, 2, 0, 3, 0, 8, 0, 2, 0, 80, 255, 129];

/// The same character, compressed.
pub(crate) const COMPRESSED: [u8; 24] = [
    4, 0, 14, 2, 0, 0, 0, 2, 0, 3, 0, 8, 0, 2, 0, 80, 0, 0, 8, 0, 0, 1, 6, 1,
];

/// Two letters of a soft font: its header and its character stand where `HEADER` and `CHARACTER` do.
const LETTERS: [&[u8]; 5] = [
    b"\x1b*c1D\x1b)s64W",
    &HEADER,
    b"\x1b*c65E\x1b(s18W",
    &CHARACTER,
    b"\x1b(1X\x1b&l0E\x1b*p0x3YAA",
];

/// Two blank pages by a macro that is called: the call puts the copies back.
pub(crate) const CALLED: &[u8] = b"\x1b&f5y0X\x1b&l2X\x1b&f1X\x1b&f3X\x0c\x1b&f2X\x0c";

/// A page with the dot (0, 0).
pub(crate) const DOT: &[u8] = b"\x1bE\x1b&l0E\x1b*p0x0Y\x1b*t300R\x1b*r0A\x1b*b1W\x80\x1b*rC\x0c";

/// A page with a dot, ejected by another page size, and a blank one of that size.
pub(crate) const TWO_SIZES: &[u8] = b"\x1b&l0E\x1b*p0x0Y\x1b*c1a1b0P\x1b&l26A\x0c";

/// A page, and a raster whose start is refused.
pub(crate) const REFUSED: &[u8] = b"\x0c\x1b*r2A";

/// The job of two letters.
pub(crate) fn letters(alloc: Global) -> Result<Vec<u8>, AllocError> {
    let mut job = Vec::new(alloc);
    for part in LETTERS {
        append_twice(&mut job, part)?;
    }
    Ok(job)
}

/// Appends bytes, and tries once more where memory runs out.
fn append_twice(job: &mut Vec<u8>, part: &[u8]) -> Result<(), AllocError> {
    match job.extend_from_slice(part) {
        Ok(()) => Ok(()),
        Err(AllocError) => job.extend_from_slice(part),
    }
}
