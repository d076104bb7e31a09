//! Previews into writers that take little or fail.

use super::assert_gives;
use super::devices::failing;
use pcl_base::{Dpi, Kind, Name, Refusal};
use pcl_tool::{Fault, preview};
use std::alloc::{AllocError, Global};
use std::process::Abort;

/// The sample job, of one page with the dot (0, 0).
const JOB: &[u8] = b"\x1bE\x1b&l0E\x1b*p0x0Y\x1b*t300R\x1b*r0A\x1b*b1W\x80\x1b*rC\x0c";

/// The image of the sample's page: Letter at 300 dots per inch, 2400 by 3300 dots.
fn image(alloc: Global) -> Result<Vec<u8>, AllocError> {
    let mut image = Vec::from_slice(alloc, b"P4\n2400 3300\n\x80")?;
    image.extend_from_slice(&vec![in alloc; 0; 989_999]?)?;
    Ok(image)
}

/// The page, how many bytes a write takes, which write fails, whether flushing does, and what comes of
/// it; and how many bytes the writer then holds, and how often it was flushed.
type Row = (
    usize,
    usize,
    Option<usize>,
    bool,
    Result<(), Fault>,
    usize,
    usize,
);

const WHOLE: usize = usize::MAX;

const ROWS: [Row; 14] = [
    (1, WHOLE, None, false, Ok(()), 990_013, 1),
    (1, 65_536, None, false, Ok(()), 990_013, 1),
    (1, 1, None, false, Ok(()), 990_013, 1),
    (1, WHOLE, None, true, Err(Fault::WriteFault), 990_013, 1),
    (1, 0, None, false, Err(Fault::WriteFault), 0, 0),
    (1, WHOLE, Some(0), false, Err(Fault::WriteFault), 0, 0),
    (1, WHOLE, Some(1), false, Err(Fault::WriteFault), 13, 0),
    (1, 1, Some(5), false, Err(Fault::WriteFault), 5, 0),
    (1, 1, Some(20), false, Err(Fault::WriteFault), 20, 0),
    (1, 7, Some(2), false, Err(Fault::WriteFault), 13, 0),
    (1, 7, Some(3), false, Err(Fault::WriteFault), 20, 0),
    (0, WHOLE, None, false, Err(Fault::NoSuchPage), 0, 0),
    (2, WHOLE, None, false, Err(Fault::NoSuchPage), 0, 0),
    (usize::MAX, WHOLE, None, false, Err(Fault::NoSuchPage), 0, 0),
];

/// Asserts that a row's writer holds a prefix of the image.
fn assert_front(rt: &impl Abort, alloc: Global, image: &[u8], row: &Row) {
    let (page, most, good, flush_fails, wanted, len, flushes) = *row;
    let mut held = failing(alloc, most, good, flush_fails);
    let result = preview(alloc, JOB, page, Dpi::Dpi300, &mut held);
    let is_front = image.starts_with(&held.bytes);
    let given = (result, held.bytes.len(), is_front, held.flushes);
    assert_gives(rt, row, &given, &(wanted, len, true, flushes));
}

#[test]
fn fronts_of_the_image(rt: HostRuntime) -> Result<(), AllocError> {
    let image = image(rt.alloc())?;
    for row in &ROWS {
        assert_front(&rt, rt.alloc(), &image, row);
    }
    Ok(())
}

const REFUSAL: Refusal = Refusal {
    kind: Kind::UnsupportedValue,
    at: 1,
    name: Name::Three(b'*', b'r', b'A'),
};

/// Jobs, pages, and why there is no preview.
const FAULTS: [(&[u8], usize, Fault); 6] = [
    (b"\x0c\x1b*r2A", 0, Fault::Refused(REFUSAL)),
    (b"\x0c\x1b*r2A", 1, Fault::Refused(REFUSAL)),
    (b"\x0c\x1b*r2A", 2, Fault::Refused(REFUSAL)),
    (b"", 0, Fault::NoSuchPage),
    (b"", 1, Fault::NoSuchPage),
    (b"\x0c\x0c", 3, Fault::NoSuchPage),
];

// Nothing is written of a refused job, whatever page is asked for, nor of an empty one.
#[test]
fn nothing(rt: HostRuntime) {
    for (job, page, fault) in &FAULTS {
        let mut out = Vec::new(rt.alloc());
        let result = preview(rt.alloc(), job, *page, Dpi::Dpi300, &mut out);
        let wanted = (Err(*fault), b"".as_slice());
        assert_gives(&rt, &(*job, *page), &(result, out.as_slice()), &wanted);
    }
}

/// Two pages of Letter: a dot on the first, and one in each of two rows of the second.
const PAGES: &[u8] = b"\x1b*t600R\x1b&l0E\x1b*b1W\x80\x0c\x1b*b1W\x40\x1b*b1W\x20";

/// How many bytes after the head of an image aren't 0.
fn count_black(image: &[u8]) -> usize {
    image.iter().skip(13).filter(|byte| **byte != 0).count()
}

/// Asserts which bytes stand first in the topmost row of a page and in its rows 75 and 76, and that as many are black as the
/// page's number.
fn assert_page(rt: &impl Abort, alloc: Global, page: usize, wanted: &[Option<u8>; 3]) {
    let mut out = Vec::new(alloc);
    let result = preview(alloc, PAGES, page, Dpi::Dpi600, &mut out);
    let image = out.as_slice();
    let firsts = [
        image.get(13).copied(),
        image.get(13 + 600 * 75).copied(),
        image.get(13 + 600 * 76).copied(),
    ];
    let head = image.starts_with(b"P4\n4800 6600\n");
    assert_gives(
        rt,
        &page,
        &(result, image.len(), head, firsts, count_black(image)),
        &(Ok(()), 13 + 600 * 6600, true, *wanted, page),
    );
}

// Pages are counted from 1, in order.
#[test]
fn chosen_pages(rt: HostRuntime) {
    assert_page(&rt, rt.alloc(), 1, &[Some(0), Some(0x80), Some(0)]);
    assert_page(&rt, rt.alloc(), 2, &[Some(0), Some(0x40), Some(0x20)]);
}
