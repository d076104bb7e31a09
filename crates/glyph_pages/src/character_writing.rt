//! The letters of pages written as characters.

use crate::remains::{FORM_FEED, Taken};
use crate::rule_writing::FIRST_ID;
use glyph_fonts::{FontLayout, Pen, append_text};
use glyph_patterns::Letter;
use glyph_shapes::Rule;
use pcl_bitmap::Page;
use std::alloc::AllocError;

/// Writes the letters of pages as characters, one page after the other.
#[derive(Drop)]
pub struct CharacterWriter<'a> {
    layout: &'a FontLayout,
    /// How many pages came.
    page: u32,
    /// How many letters these have.
    letters: usize,
    /// What the printer holds before the page.
    pen: Pen,
    /// What it holds after the letters that were appended last.
    next: Pen,
}

impl<'a> CharacterWriter<'a> {
    /// Before the first page. Whether the line spacing is to be the default again after each page is given.
    pub fn new(layout: &'a FontLayout, keeps_spacing: bool) -> CharacterWriter<'a> {
        let pen = Pen::new(keeps_spacing);
        CharacterWriter {
            layout,
            page: 0,
            letters: 0,
            pen,
            next: pen,
        }
    }

    /// Goes on after a reset: no font is selected.
    pub fn restart(&mut self) {
        self.pen = Pen::new(self.pen.keeps_spacing);
    }

    /// The letters of the next page, and these rules of it.
    pub fn next_page(&mut self, rules: &'a [Rule]) -> Taken<'a> {
        let layout = self.layout;
        let letters = layout.letters.of_page(self.page, self.letters);
        self.page = self.page.saturating_add(1);
        self.letters = self.letters.saturating_add(letters.len());
        Taken {
            patterns: &layout.patterns,
            found: &layout.letters,
            letters,
            rules,
            free_id: FIRST_ID,
        }
    }

    /// Appends what prints the letters of a page, and the end of the page.
    pub fn append_letters(
        &mut self,
        letters: &[Letter],
        page: &Page,
        out: &mut Vec<u8>,
    ) -> Result<(), AllocError> {
        let pen = self.pen.on_page(page.size.width(page.dpi));
        let height = page.size.height(page.dpi);
        self.next = append_text(self.layout, letters, pen, height, out)?;
        out.push(FORM_FEED)?;
        Ok(())
    }

    /// Goes on after a page that is sent with the letters that were appended last.
    pub fn keep_letters(&mut self) {
        self.pen = self.next;
    }
}
