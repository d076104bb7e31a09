//! What of a job goes as letters and as rules, and how.

use crate::character_writing::CharacterWriter;
use crate::macro_writing::{MacroWriter, free_id};
use crate::remains::{RestWriter, Taken, WholePage};
use crate::repeats::Repeats;
use crate::rule_writing::FIRST_ID;
use crate::series::SERIES_MACROS;
use glyph_fonts::{FontLayout, append_fonts, append_unit, lay_out};
use glyph_letters::find_letters;
use glyph_macros::{MacroLayout, append_definitions, append_settings, lay_out_macros};
use glyph_patterns::{Form, Letter, Letters};
use glyph_shapes::{Collection, Rule, Rules};
use pcl_bitmap::Page;
use std::alloc::{AllocError, Global};

/// The letters of a job, and its rules.
#[derive(Drop)]
pub struct Lettering {
    letters: Lettered,
    rules: Rules,
}

/// The letters of a job: as characters of soft fonts, or as macros.
#[derive(Drop)]
enum Lettered {
    Characters(FontLayout),
    Macros(MacroLayout),
}

impl Lettering {
    /// The letters and the rules of pages that were collected, of a job of this many bytes.
    pub fn new(
        alloc: Global,
        collection: Collection,
        job_bytes: usize,
    ) -> Result<Lettering, AllocError> {
        let mut collection = collection;
        let letters = letters_of(alloc, &mut collection, job_bytes)?;
        Lettering::laid_out(alloc, collection, letters)
    }

    /// These letters of pages that were collected, laid out as their resolution wants.
    fn laid_out(
        alloc: Global,
        collection: Collection,
        letters: Letters,
    ) -> Result<Lettering, AllocError> {
        let Collection {
            form,
            widths,
            rules,
            patterns,
            ..
        } = collection;
        let letters = match form {
            Form::Characters(kind) => {
                Lettered::Characters(lay_out(alloc, kind, &widths, patterns, letters)?)
            }
            Form::Macros { scale } => {
                let layout = lay_out_macros(alloc, scale, &widths, patterns, letters)?;
                Lettered::Macros(layout)
            }
        };
        Ok(Lettering { letters, rules })
    }

    /// Whether there is none: no shape takes fewer bytes as a letter, and there is no rule.
    pub fn is_empty(&self) -> bool {
        self.rules.is_empty()
            && match &self.letters {
                Lettered::Characters(layout) => layout.letters.letters.is_empty(),
                Lettered::Macros(layout) => layout.letters.letters.is_empty(),
            }
    }

    /// What repeats in pages with these letters, before the first page. The rules have the IDs above. Macros of letters are three deep, so
    /// no other runs them.
    pub fn repeats(&self, alloc: Global) -> Repeats {
        let rules = u32::try_from(SERIES_MACROS).unwrap_or(0);
        match &self.letters {
            Lettered::Characters(_) => Repeats::new(alloc, FIRST_ID.saturating_sub(rules), true),
            Lettered::Macros(layout) => {
                Repeats::new(alloc, free_id(layout).saturating_sub(rules), false)
            }
        }
    }

    /// Appends what is sent before pages with letters: the fonts or the macros. A reset deletes them.
    pub fn append_start(&self, alloc: Global, out: &mut Vec<u8>) -> Result<(), AllocError> {
        match &self.letters {
            Lettered::Characters(layout) => append_fonts(layout, out),
            Lettered::Macros(layout) => append_definitions(alloc, layout, out),
        }
    }

    /// Appends what makes the fonts or the macros permanent: then a reset leaves them.
    pub fn append_permanent(&self, out: &mut Vec<u8>) -> Result<(), AllocError> {
        match &self.letters {
            Lettered::Characters(layout) => glyph_fonts::append_permanent(layout, out),
            Lettered::Macros(layout) => glyph_macros::append_permanent(layout, out),
        }
    }

    /// Appends what is sent after a reset that left the fonts or the macros, before pages with letters.
    pub fn append_settings(&self, out: &mut Vec<u8>) -> Result<(), AllocError> {
        match &self.letters {
            Lettered::Characters(layout) => append_unit(layout, out),
            Lettered::Macros(layout) => append_settings(layout, out),
        }
    }

    /// Appends what deletes the fonts or the macros.
    pub fn append_deletion(&self, out: &mut Vec<u8>) -> Result<(), AllocError> {
        match &self.letters {
            Lettered::Characters(layout) => glyph_fonts::append_deletion(layout, out),
            Lettered::Macros(layout) => glyph_macros::append_deletion(layout, out),
        }
    }
}

/// The letters of pages that were collected, of a job of this many bytes: none, at once, where these have no shapes. The shapes, by which
/// they are found, are given up.
fn letters_of(
    alloc: Global,
    collection: &mut Collection,
    job_bytes: usize,
) -> Result<Letters, AllocError> {
    if collection.placed.is_empty() && collection.tiles.is_empty() {
        return Ok(Letters::new(alloc));
    }
    let letters = find_letters(alloc, collection, job_bytes)?;
    collection.placed = Vec::new(alloc);
    collection.tiles = Vec::new(alloc);
    collection.rows = Vec::new(alloc);
    Ok(letters)
}

/// Writes the pages of a job with its letters and its rules, one after the other.
#[derive(Drop)]
pub struct PageWriter<'a> {
    rules: &'a Rules,
    /// How many pages came.
    page: u32,
    letters: FormWriter<'a>,
    rest: RestWriter,
}

impl<'a> PageWriter<'a> {
    /// At the first page. Whether the line spacing is to be the default again after each page is given.
    pub fn new(lettering: &'a Lettering, keeps_spacing: bool) -> PageWriter<'a> {
        PageWriter {
            rules: &lettering.rules,
            page: 0,
            letters: FormWriter::new(&lettering.letters, keeps_spacing),
            rest: RestWriter::new(),
        }
    }

    /// Goes on after a reset.
    pub fn restart(&mut self) {
        self.rest.restart();
        self.letters.restart();
    }

    /// Forgets the dots that it holds to write the next page sooner, which take as much memory as a page.
    pub fn forget_sheet(&mut self) {
        self.rest.forget_sheet();
    }

    /// Appends the next page: its text without letters, or one with letters where it takes fewer bytes, and with its rules as rectangles
    /// where that takes fewer yet.
    pub fn append_page(
        &mut self,
        whole: WholePage<'_>,
        out: &mut Vec<u8>,
    ) -> Result<(), AllocError> {
        let taken = self.letters.next_page(self.rules.of_page(self.page));
        self.page = self.page.saturating_add(1);
        self.letters.append_start(out)?;
        if taken.is_empty() {
            return out.extend_from_slice(whole.plain);
        }
        let mut printed = Vec::new(*out.allocator());
        self.letters
            .append_letters(taken.letters, whole.page, &mut printed)?;
        if self.rest.append_shorter(taken, whole, &printed, out)? {
            self.letters.keep_letters();
        }
        Ok(())
    }
}

/// Writes the letters of pages in their form.
#[derive(Drop)]
enum FormWriter<'a> {
    Characters(CharacterWriter<'a>),
    Macros(MacroWriter<'a>),
}

impl<'a> FormWriter<'a> {
    /// Before the first page.
    fn new(letters: &'a Lettered, keeps_spacing: bool) -> FormWriter<'a> {
        match letters {
            Lettered::Characters(layout) => {
                FormWriter::Characters(CharacterWriter::new(layout, keeps_spacing))
            }
            Lettered::Macros(layout) => FormWriter::Macros(MacroWriter::new(layout)),
        }
    }

    /// Goes on after a reset.
    fn restart(&mut self) {
        match self {
            FormWriter::Characters(writer) => writer.restart(),
            FormWriter::Macros(writer) => writer.restart(),
        }
    }

    /// The letters of the next page, and these rules of it.
    fn next_page(&mut self, rules: &'a [Rule]) -> Taken<'a> {
        match self {
            FormWriter::Characters(writer) => writer.next_page(rules),
            FormWriter::Macros(writer) => writer.next_page(rules),
        }
    }

    /// Appends what stands before the page, however it is sent.
    fn append_start(&mut self, out: &mut Vec<u8>) -> Result<(), AllocError> {
        match self {
            FormWriter::Characters(_) => Ok(()),
            FormWriter::Macros(writer) => writer.append_start(out),
        }
    }

    /// Appends what prints these letters of the page, and the end of the page.
    fn append_letters(
        &mut self,
        letters: &[Letter],
        page: &Page,
        out: &mut Vec<u8>,
    ) -> Result<(), AllocError> {
        match self {
            FormWriter::Characters(writer) => writer.append_letters(letters, page, out),
            FormWriter::Macros(writer) => writer.append_letters(out),
        }
    }

    /// Goes on after a page that is sent with the letters that were appended last.
    fn keep_letters(&mut self) {
        match self {
            FormWriter::Characters(writer) => writer.keep_letters(),
            FormWriter::Macros(writer) => writer.keep_letters(),
        }
    }
}
