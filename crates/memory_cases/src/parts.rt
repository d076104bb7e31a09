//! Parts of jobs alone: the text of a page, a font and its character, and a macro.

use crate::jobs::{COMPRESSED, HEADER};
use pcl_base::{CallFault, Dpi, Profile, Size};
use pcl_bitmap::{Bitmap, Ink, Page};
use pcl_fonts::Fonts;
use pcl_macros::Macros;
use pcl_plan::plan;
use pcl_writer::write_page;
use std::alloc::{AllocError, Global};
use std::io;

/// Prints what each part gives.
pub(crate) fn print_parts<R: Print + AllocGlobal>(rt: &R) -> io::Result<()> {
    print_page(rt)?;
    print_font(rt)?;
    print_macro(rt)
}

/// Prints how many bytes the text of a page with a dot has.
fn print_page<R: Print + AllocGlobal>(rt: &R) -> io::Result<()> {
    let len = match page_text(rt.alloc()) {
        Err(AllocError) => page_text(rt.alloc()),
        answer => answer,
    };
    println!(rt; "a page with a dot: {len:?}")
}

/// How many bytes the text of a page with a dot has, which is written after one byte.
fn page_text(alloc: Global) -> Result<usize, AllocError> {
    let mut bitmap = Bitmap::new(alloc, Size::Letter, Dpi::Dpi300)?;
    bitmap.fill(0, 0, 1, 1, Ink::Black);
    let page = Page {
        size: Size::Letter,
        copies: 1,
        dpi: Dpi::Dpi300,
        bitmap,
    };
    let plan = plan(alloc, &page)?;
    let mut out = vec![in alloc; 0; 1]?;
    if write_page(&page, &plan, &mut out).is_err() {
        let kept = out.len();
        write_page(&page, &plan, &mut out)?;
        return Ok(out.len() - kept);
    }
    Ok(out.len() - 1)
}

/// Prints what a font and its compressed character are taken as.
fn print_font<R: Print + AllocGlobal>(rt: &R) -> io::Result<()> {
    let mut fonts = Fonts::new(rt.alloc());
    let header = match fonts.header(1, &HEADER, Profile::Stated, Dpi::Dpi300) {
        Err(CallFault::Memory) => fonts.header(1, &HEADER, Profile::Stated, Dpi::Dpi300),
        answer => answer,
    };
    let character = match fonts.character(1, 65, &COMPRESSED, Profile::Drivers) {
        Err(CallFault::Memory) => fonts.character(1, 65, &COMPRESSED, Profile::Drivers),
        answer => answer,
    };
    let len = match row_bytes(rt.alloc(), &fonts) {
        Err(AllocError) => row_bytes(rt.alloc(), &fonts),
        answer => answer,
    };
    println!(rt; "a font: {header:?}, its character: {character:?}, bytes of its rows: {len:?}")
}

/// How many bytes the rows of the font's character have.
fn row_bytes(alloc: Global, fonts: &Fonts<'_>) -> Result<Option<usize>, AllocError> {
    let Some(glyph) = fonts.glyph(1, 65) else {
        return Ok(None);
    };
    Ok(Some(glyph.rows(alloc)?.as_slice().len()))
}

/// Prints where a macro stands.
fn print_macro<R: Print + AllocGlobal>(rt: &R) -> io::Result<()> {
    let mut macros = Macros::new(rt.alloc());
    macros.begin(5, 1);
    let end = match macros.end(3) {
        Err(CallFault::Memory) => macros.end(3),
        answer => answer,
    };
    let body = macros.body(5);
    println!(rt;
        "a macro: {end:?}, {:?}",
        body.map(|body| (body.start, body.end))
    )
}
