use super::assert_gives;
use pcl_base::{Dpi, Method, Size};
use pcl_bitmap::{Bitmap, Ink, Page};
use pcl_cert::{
    CertFault, Format, PageProof, Verdict, add_proof, check_page, read_certificate, row_tables,
    write_certificate,
};
use std::alloc::{AllocError, Global};
use std::process::Abort;

/// Where the lists of a certificate of one Letter page begin.
const LISTS: usize = 105_650;

/// The certificate of a Letter page with a dot in its first corner, as it is worked out by hand.
fn dot_certificate(alloc: Global, format: Format) -> Result<Vec<u8>, AllocError> {
    let mut bytes = Vec::from_slice(alloc, format.magic())?;
    bytes.extend_from_slice(&[0, 0, 0, 1, 0, 0, 0, 44, 0x0C, 0xE4])?;
    bytes.extend_from_slice(b"\0\0\0\x06\0\0\0\x03\0\0\0\x07\0\0\0\x04")?;
    bytes.extend_from_slice(b"\0\0\0\x07\0\0\0\x04\0\0\0\x07\0\0\0\x04")?;
    for _ in 0..4 * 3300 {
        bytes.extend_from_slice(&[0, 0, 0, 0, 0, 0, 0, 1])?;
    }
    if format == Format::Two {
        bytes.extend_from_slice(&[0, 1, 0, 1, 0, 1, 0, 2, 0, 1, 0, 2, 0, 1, 0, 2])?;
        bytes.extend_from_slice(&[0, 0, 0, 0, 0, 0, 0, 1, 0, 2])?;
        for _ in 0..4 * 3298 {
            bytes.extend_from_slice(&[0, 0])?;
        }
    }
    Ok(bytes)
}

/// The same with another byte at a place.
fn changed(alloc: Global, format: Format, place: usize, byte: u8) -> Result<Vec<u8>, AllocError> {
    let mut bytes = dot_certificate(alloc, format)?;
    if let Some(slot) = bytes.get_mut(place) {
        *slot = byte;
    }
    Ok(bytes)
}

/// A Letter page with a dot in its first corner.
fn dot_page(alloc: Global) -> Result<Page, AllocError> {
    let mut bitmap = Bitmap::new(alloc, Size::Letter, Dpi::Dpi300)?;
    bitmap.fill(0, 0, 1, 1, Ink::Black);
    Ok(Page {
        size: Size::Letter,
        copies: 1,
        dpi: Dpi::Dpi300,
        bitmap,
    })
}

/// The text of that page with this body.
fn text(alloc: Global, body: &[u8]) -> Result<Vec<u8>, AllocError> {
    let mut text = Vec::from_slice(alloc, b"\x1b&l1x2a0E\x1b*p0x0Y\x1b*t300R\x1b*r2400s0A")?;
    text.extend_from_slice(body)?;
    text.extend_from_slice(b"\x1b*rC\x0c")?;
    Ok(text)
}

/// What reading bytes answers, or the verdict on the page and a text with this body.
fn checked(
    alloc: Global,
    bytes: &[u8],
    body: &[u8],
) -> Result<Result<Verdict, CertFault>, AllocError> {
    match read_certificate(alloc, bytes, Dpi::Dpi300) {
        Ok((_, proofs)) => match proofs.first() {
            Some(proof) => Ok(Ok(verdict_by(alloc, proof, body)?)),
            None => Ok(Err(CertFault::Short)),
        },
        Err(fault) => Ok(Err(fault)),
    }
}

/// The verdict on the page and a text with this body.
fn verdict_by(alloc: Global, proof: &PageProof, body: &[u8]) -> Result<Verdict, AllocError> {
    let page = dot_page(alloc)?;
    let text = text(alloc, body)?;
    check_page(alloc, &page, &text, &proof.table, proof.places.as_ref())
}

/// What reading a certificate answers, or the verdict on a page and a text by it.
type Answer = Result<Verdict, CertFault>;

const PROVED: Answer = Ok(Verdict::Proved);

const LENGTH: Answer = Ok(Verdict::Length);

const EDGE: Answer = Ok(Verdict::Edge {
    row: 0,
    method: Method::Delta,
    inside: true,
});

const PLACE: Answer = Ok(Verdict::Place {
    row: 1,
    method: Method::Delta,
    place: 0,
});

// The right certificates, and each with one byte changed.
const CHANGED: [(Format, usize, u8, Answer); 13] = [
    (Format::One, 0, b'P', PROVED),
    (Format::One, 21, 5, LENGTH),
    (Format::One, 49, 5, EDGE),
    (Format::One, 17, 0xE5, Err(CertFault::Rows)),
    (Format::One, 11, 2, Err(CertFault::Short)),
    (Format::One, 11, 0, Err(CertFault::Extra)),
    (Format::One, 7, b'3', Err(CertFault::BadMagic)),
    (Format::Two, 0, b'P', PROVED),
    (Format::Two, 21, 5, LENGTH),
    (Format::Two, LISTS + 25, 3, PLACE),
    (Format::Two, LISTS + 25, 0, Err(CertFault::Places)),
    (Format::Two, LISTS, 2, Err(CertFault::Places)),
    (Format::Two, LISTS + 17, 1, Err(CertFault::Places)),
];

#[test]
fn verdicts(rt: HostRuntime) -> Result<(), AllocError> {
    for (format, at, byte, wanted) in &CHANGED {
        let bytes = changed(rt.alloc(), *format, *at, *byte)?;
        let given = checked(rt.alloc(), &bytes, b"\x1b*b1W\x80")?;
        assert_gives(&rt, &(*format, *at, *byte), &given, wanted);
    }
    Ok(())
}

// Bodies of texts beside the right certificates.
const BODIES: [(&[u8], Verdict); 4] = [
    (b"\x1b*b1W\x80", Verdict::Proved),
    (b"\x1b*b01W\x80", Verdict::Length),
    (b"\x1b*b1W\x40", Verdict::OtherPage),
    (b"\x1b*b1w\x80", Verdict::NotGrammar),
];

#[test]
fn texts(rt: HostRuntime) -> Result<(), AllocError> {
    for (format, len) in [(Format::One, LISTS), (Format::Two, 132_060)] {
        let bytes = dot_certificate(rt.alloc(), format)?;
        assert_gives(&rt, &format, &bytes.len(), &len);
        for (body, wanted) in &BODIES {
            assert_gives(&rt, body, &checked(rt.alloc(), &bytes, body)?, &Ok(*wanted));
        }
    }
    Ok(())
}

// The row tables of the page are those of its certificate.
#[test]
fn lists_of_the_page(rt: HostRuntime) -> Result<(), AllocError> {
    let bytes = dot_certificate(rt.alloc(), Format::Two)?;
    let tables = row_tables(rt.alloc(), &dot_page(rt.alloc())?)?;
    let mut lists = Vec::new(rt.alloc());
    tables.append(&mut lists)?;
    assert_gives(&rt, &"lists", &Some(lists.as_slice()), &bytes.get(LISTS..));
    assert_gives(&rt, &"rows", &tables.rows(), &3300);
    Ok(())
}

// What is read is written again.
#[test]
fn written_again(rt: HostRuntime) -> Result<(), AllocError> {
    let bytes = dot_certificate(rt.alloc(), Format::Two)?;
    let Ok((format, proofs)) = read_certificate(rt.alloc(), &bytes, Dpi::Dpi300) else {
        rt.abort();
    };
    let mut again = Vec::new(rt.alloc());
    write_certificate(&proofs, format, &mut again)?;
    assert_gives(&rt, &"again", &again.as_slice(), &bytes.as_slice());
    Ok(())
}

// A page that is added to a certificate of none.
#[test]
fn page_added(rt: HostRuntime) -> Result<(), AllocError> {
    let bytes = dot_certificate(rt.alloc(), Format::Two)?;
    let Ok((format, proofs)) = read_certificate(rt.alloc(), &bytes, Dpi::Dpi300) else {
        rt.abort();
    };
    let Some(proof) = proofs.first() else {
        rt.abort();
    };
    let mut grown = Vec::new(rt.alloc());
    write_certificate(&[], format, &mut grown)?;
    add_proof(proof, format, &mut grown)?;
    assert_gives(&rt, &"grown", &grown.as_slice(), &bytes.as_slice());
    Ok(())
}
