use super::assert_gives;
use pcl_base::{Dpi, Size};
use pcl_bitmap::{Bitmap, Ink, Page};
use pcl_check::{TextVerdict, read_page_text};
use std::alloc::{AllocError, Global};

/// A page of one black rectangle at its upper left corner, at 300 dots per inch.
fn page_of(alloc: Global, size: Size, w: u64, h: u64) -> Result<Page, AllocError> {
    let dpi = Dpi::Dpi300;
    let mut bitmap = Bitmap::new(alloc, size, dpi)?;
    bitmap.fill(0, 0, w, h, Ink::Black);
    Ok(Page {
        size,
        copies: 1,
        dpi,
        bitmap,
    })
}

/// The verdict on the text with this start and body.
fn verdict(
    alloc: Global,
    page: &Page,
    start: &[u8],
    body: &[u8],
) -> Result<TextVerdict, AllocError> {
    let mut text = Vec::new(alloc);
    text.extend_from_slice(start)?;
    text.extend_from_slice(body)?;
    text.extend_from_slice(b"\x1b*rC\x0c")?;
    Ok(read_page_text(page, &text))
}

const LETTER: &[u8] = b"\x1b&l1x2a0E\x1b*p0x0Y\x1b*t300R\x1b*r2400s0A";

/// A part of a text, and the verdict on the text.
type Part = (&'static [u8], TextVerdict);

/// Bodies beside a page of one dot, in several spellings.
const BODIES: [Part; 18] = [
    (b"\x1b*b1W\x80", TextVerdict::Prints),
    (b"\x1b*b01W\x80", TextVerdict::Prints),
    (b"\x1b*b00M\x1b*bm00000001m2W\x00\x80", TextVerdict::Prints),
    (b"\x1b*b1W\x80\x1b*b3299Y", TextVerdict::Prints),
    (b"\x1b*b1W\x80\x1b*b3m1yW\x1b*bW", TextVerdict::Prints),
    (b"\x1b*b1W\x40", TextVerdict::OtherPage),
    (b"", TextVerdict::OtherPage),
    (b"\x1b*b1y1W\x80", TextVerdict::OtherPage),
    (b"\x1b*b1W\x80\x1b*b3mW", TextVerdict::OtherPage),
    (b"\x1b*b1w\x80", TextVerdict::NotGrammar),
    (b"\x1b*b1W\x80\x1b*b3300Y", TextVerdict::NotGrammar),
    (b"\x1b*b0Y\x1b*b1W\x80", TextVerdict::NotGrammar),
    (b"\x1b*b4M", TextVerdict::NotGrammar),
    (b"\x1b*b1y", TextVerdict::NotGrammar),
    (b"\x1b*b", TextVerdict::NotGrammar),
    (b"\x1b*b65536W", TextVerdict::NotGrammar),
    (b"\x1b*b2m1W\x05", TextVerdict::NotGrammar),
    (b"\x1b*b1W\x80\x1b*rC\x0c", TextVerdict::NotGrammar),
];

#[test]
fn bodies_beside_a_dot(rt: HostRuntime) -> Result<(), AllocError> {
    let page = page_of(rt.alloc(), Size::Letter, 1, 1)?;
    for (body, wanted) in &BODIES {
        assert_gives(
            &rt,
            body,
            &verdict(rt.alloc(), &page, LETTER, body)?,
            wanted,
        );
    }
    Ok(())
}

/// Begins beside the same page.
const BEGINS: [Part; 9] = [
    (LETTER, TextVerdict::Prints),
    (
        b"\x1b&l2x2a0E\x1b*p0x0Y\x1b*t300R\x1b*r2400s0A",
        TextVerdict::OtherPage,
    ),
    (
        b"\x1b&l99x3a0E\x1b*p0x0Y\x1b*t300R\x1b*r2400s0A",
        TextVerdict::OtherPage,
    ),
    (
        b"\x1b&l1x26a0E\x1b*p0x0Y\x1b*t300R\x1b*r2338s0A",
        TextVerdict::OtherPage,
    ),
    (
        b"\x1b&l01x2a0E\x1b*p0x0Y\x1b*t300R\x1b*r2400s0A",
        TextVerdict::NotGrammar,
    ),
    (
        b"\x1b&l100x2a0E\x1b*p0x0Y\x1b*t300R\x1b*r2400s0A",
        TextVerdict::NotGrammar,
    ),
    (
        b"\x1b&l0x2a0E\x1b*p0x0Y\x1b*t300R\x1b*r2400s0A",
        TextVerdict::NotGrammar,
    ),
    (
        b"\x1b&l1x2a0E\x1b*p0x0Y\x1b*t600R\x1b*r4800s0A",
        TextVerdict::NotGrammar,
    ),
    (
        b"\x1b&l1x2a0E\x1b*p0x0Y\x1b*t300R\x1b*r2338s0A",
        TextVerdict::NotGrammar,
    ),
];

#[test]
fn begins_beside_a_dot(rt: HostRuntime) -> Result<(), AllocError> {
    let page = page_of(rt.alloc(), Size::Letter, 1, 1)?;
    for (start, wanted) in &BEGINS {
        let given = verdict(rt.alloc(), &page, start, b"\x1b*b1W\x80")?;
        assert_gives(&rt, start, &given, wanted);
    }
    Ok(())
}

const A4: &[u8] = b"\x1b&l1x26a0E\x1b*p0x0Y\x1b*t300R\x1b*r2338s0A";

/// Bodies beside a full row of A4: its last byte has six bits past the page's width.
const FULL_ROWS: [Part; 3] = [
    (b"\x1b*b1m6W\xFF\xFF\x23\xFF\x00\xC0", TextVerdict::Prints),
    (b"\x1b*b1m4W\xFF\xFF\x24\xFF", TextVerdict::NotGrammar),
    (
        b"\x1b*b1m6W\xFF\xFF\x23\xFF\x00\x80",
        TextVerdict::OtherPage,
    ),
];

#[test]
fn pad_bits(rt: HostRuntime) -> Result<(), AllocError> {
    let page = page_of(rt.alloc(), Size::A4, 2338, 1)?;
    for (body, wanted) in &FULL_ROWS {
        assert_gives(&rt, body, &verdict(rt.alloc(), &page, A4, body)?, wanted);
    }
    Ok(())
}
