//! The letters of pages written as macros that are run.

use crate::remains::{FORM_FEED, Taken};
use crate::rule_writing::FIRST_ID;
use glyph_macros::{Line, MacroLayout, append_lines};
use glyph_shapes::Rule;
use std::alloc::AllocError;

/// Puts back method 0, by which the rows of a page text begin.
pub const END_RASTER: &[u8] = b"\x1b*rC";

/// Writes the letters of pages as macros, one page after the other.
#[derive(Drop)]
pub struct MacroWriter<'a> {
    layout: &'a MacroLayout,
    /// How many pages came.
    page: u32,
    /// How many letters, lines and marks these have.
    letters: usize,
    lines: usize,
    marks: usize,
    /// The lines of the page.
    on_page: &'a [Line],
    /// Whether the page before has macros, after which the method is that of their rows.
    leaves_method: bool,
}

impl<'a> MacroWriter<'a> {
    /// Before the first page.
    pub fn new(layout: &'a MacroLayout) -> MacroWriter<'a> {
        MacroWriter {
            layout,
            page: 0,
            letters: 0,
            lines: 0,
            marks: 0,
            on_page: &[],
            leaves_method: false,
        }
    }

    /// Goes on after a reset, which puts back method 0.
    pub fn restart(&mut self) {
        self.leaves_method = false;
    }

    /// The letters of the next page, and these rules of it.
    pub fn next_page(&mut self, rules: &'a [Rule]) -> Taken<'a> {
        let layout = self.layout;
        let letters = layout.letters.of_page(self.page, self.letters);
        self.on_page = layout.plan.text.script.of_page(self.page, self.lines);
        self.page = self.page.saturating_add(1);
        self.letters = self.letters.saturating_add(letters.len());
        self.lines = self.lines.saturating_add(self.on_page.len());
        Taken {
            patterns: &layout.patterns,
            found: &layout.letters,
            letters,
            rules,
            free_id: free_id(layout),
        }
    }

    /// Appends what stands before a page, however it is sent.
    pub fn append_start(&mut self, out: &mut Vec<u8>) -> Result<(), AllocError> {
        if self.leaves_method {
            out.extend_from_slice(END_RASTER)?;
        }
        self.leaves_method = false;
        Ok(())
    }

    /// Appends what prints the letters of the page, and the end of the page.
    pub fn append_letters(&mut self, out: &mut Vec<u8>) -> Result<(), AllocError> {
        self.marks = append_lines(self.layout, self.on_page, self.marks, out)?;
        out.push(FORM_FEED)?;
        Ok(())
    }

    /// Goes on after a page that is sent with the letters that were appended last.
    pub fn keep_letters(&mut self) {
        self.leaves_method = !self.on_page.is_empty();
    }
}

/// The highest ID that no macro of a layout has: they go down from the first.
pub fn free_id(layout: &MacroLayout) -> u32 {
    let count = u32::try_from(layout.plan.macros.uses.len()).unwrap_or(0);
    FIRST_ID.saturating_sub(count)
}
