//! A job written again with its letters as soft fonts or as macros, page by page where that takes fewer bytes.

use crate::asking::{append_end, append_page_start, append_page_text, has_exit};
use crate::proposals::says_length;
use crate::raster_jobs::REPEATED_BYTES;
use crate::reading::{Original, ReadJob};
use crate::shifts::{Shift, shift_at};
use crate::watching::{Pass, ShrinkWatcher};
use glyph_pages::{END_RASTER, Lettering, PageWriter, Repeats, WholePage, text_hash};
use pcl_base::JobFault;
use pcl_page::{Asks, Page, PageSink, perform_by};
use std::alloc::AllocError;
use std::marker::Model;

/// A proposal of a smaller job with the same pages, which asks for what a job asks for, with these letters as soft fonts or as macros
/// (docs/GLYPHS.md), and with these texts for the pages and stretches of pages where that takes fewer bytes. None where no page has
/// letters, or where it has as many bytes as the job. Nothing is promised of it. The pages are those that the texts print: these may take
/// far less time than the job, which is performed once.
pub fn letter_job<'b, P: ShrinkWatcher>(
    original: Original<'_, 'b>,
    texts: &'b [Vec<u8>],
    lettering: &'b Lettering,
    watcher: P,
) -> Result<Option<Vec<u8>>, AllocError> {
    let mut writer = LetterWriter::new(original, texts, lettering, watcher);
    match perform_texts(original.source, texts, &mut writer) {
        Ok(()) => writer.finish(),
        Err(JobFault::Refused(_)) => Ok(None),
        Err(JobFault::Memory) => Err(AllocError),
    }
}

/// Texts of pages are performed together up to this many bytes: each performing has a page of its own.
const TOGETHER_BYTES: usize = 65_536;

/// Performs texts of pages, one after the other. Longer ones aren't copied.
fn perform_texts<P: ShrinkWatcher>(
    source: ReadJob<'_>,
    texts: &[Vec<u8>],
    writer: &mut LetterWriter<'_, '_, P>,
) -> Result<(), JobFault> {
    let mut together = Vec::new(source.alloc);
    for text in texts {
        if together.len().saturating_add(text.len()) > TOGETHER_BYTES {
            perform_text(source, &together, writer)?;
            together.clear();
        }
        if text.len() > TOGETHER_BYTES {
            perform_text(source, text, writer)?;
        } else {
            together.extend_from_slice(text)?;
        }
    }
    perform_text(source, &together, writer)
}

/// Performs a text, if it isn't empty. Then no page is held: one that outlives this performing's would keep the next one's from its place.
fn perform_text<P: ShrinkWatcher>(
    source: ReadJob<'_>,
    text: &[u8],
    writer: &mut LetterWriter<'_, '_, P>,
) -> Result<(), JobFault> {
    if text.is_empty() {
        return Ok(());
    }
    let at = source.at;
    perform_by(source.alloc, text, at.profile, at.first, writer)?;
    writer.writer.forget_sheet();
    Ok(())
}

/// Writes the pages that come. A universal exit may delete fonts and macros: so the pages up to the next one are a stretch, which is
/// written after the letters, and without any where that takes fewer bytes. Where a reset stands within it, the letters are permanent,
/// and are deleted at its end.
#[derive(Drop)]
struct LetterWriter<'a, 'b, P> {
    /// The job.
    original: Original<'a, 'b>,
    /// The texts of its pages without letters.
    texts: &'b [Vec<u8>],
    lettering: &'b Lettering,
    writer: PageWriter<'b>,
    /// What repeats in the pages since a reset.
    repeats: Repeats,
    /// How many pages came.
    pages: usize,
    /// How many of them came before the stretch.
    first: usize,
    /// How many bytes the stretch takes without letters, and without macros for what repeats.
    whole: usize,
    /// How many it takes without letters, at least: a page that was there since a reset counts none.
    plain: usize,
    /// Hashes of the texts of the pages since that reset.
    known: Vec<u64>,
    /// Where the stretch begins in what is written.
    place: usize,
    /// Whether a reset stands within it.
    spans_reset: bool,
    /// Whether a stretch before it has letters.
    has_letters: bool,
    /// What is written, with the stretch after the letters.
    out: Vec<u8>,
    /// Whether what is written is too long: then nothing of it is left, and no more is written.
    is_too_long: bool,
    /// Is called for each page.
    watcher: P,
}

impl<'a, 'b, P: ShrinkWatcher> LetterWriter<'a, 'b, P> {
    /// Before the first page.
    fn new(
        original: Original<'a, 'b>,
        texts: &'b [Vec<u8>],
        lettering: &'b Lettering,
        watcher: P,
    ) -> LetterWriter<'a, 'b, P> {
        let alloc = original.source.alloc;
        LetterWriter {
            original,
            texts,
            lettering,
            writer: PageWriter::new(lettering, says_length(original.asks)),
            repeats: lettering.repeats(alloc),
            pages: 0,
            first: 0,
            whole: 0,
            plain: 0,
            known: Vec::new(alloc),
            place: 0,
            spans_reset: false,
            has_letters: false,
            out: Vec::new(alloc),
            is_too_long: false,
            watcher,
        }
    }

    /// With how many bytes what is written is too long, but for what may repeat in it.
    fn limit(&self) -> usize {
        self.original.source.job.len()
    }

    /// With how many bytes what is written is too long, whatever repeats in it.
    fn limit_with_repeats(&self) -> usize {
        self.limit().saturating_add(REPEATED_BYTES)
    }

    /// Whether the stretch is too long without letters.
    fn needs_letters(&self) -> bool {
        self.place.saturating_add(self.whole) >= self.limit_with_repeats()
    }

    /// With how many bytes more what is written is too long: none as long as the stretch is not without letters.
    fn room(&self) -> Option<usize> {
        let room = self.limit_with_repeats().saturating_sub(self.out.len());
        self.needs_letters().then_some(room)
    }

    /// Gives up, since what is written would be too long: nothing is left of it.
    fn give_up(&mut self) {
        self.out = Vec::new(*self.out.allocator());
        self.is_too_long = true;
    }

    /// Appends what stands before the next page.
    fn begin_page(&mut self) -> Result<(), AllocError> {
        let starts = self.pages == 0 || has_exit(self.original.asks, self.pages);
        if starts {
            self.end_stretch()?;
        }
        let mut start = Vec::new(*self.out.allocator());
        let is_reset = append_page_start(self.original.asks, self.pages, &mut start)?;
        self.whole = self.whole.saturating_add(start.len());
        self.plain = self.plain.saturating_add(start.len());
        if is_reset {
            self.repeats.end(&mut self.out)?;
        }
        self.out.extend_from_slice(&start)?;
        if starts {
            self.spans_reset = spans_reset(self.original.asks, self.pages);
            self.append_letters()?;
        } else if is_reset {
            self.lettering.append_settings(&mut self.out)?;
        }
        if is_reset {
            self.writer.restart();
            self.known.clear();
        }
        Ok(())
    }

    /// Appends the letters of the stretch.
    fn append_letters(&mut self) -> Result<(), AllocError> {
        let alloc = *self.out.allocator();
        self.lettering.append_start(alloc, &mut self.out)?;
        if self.spans_reset {
            self.lettering.append_permanent(&mut self.out)?;
        }
        Ok(())
    }

    /// Ends the stretch, which stays as it is written where that is shorter than without letters, or where it is too long without.
    fn end_stretch(&mut self) -> Result<(), AllocError> {
        self.repeats.end(&mut self.out)?;
        if self.spans_reset {
            self.lettering.append_deletion(&mut self.out)?;
        }
        let is_shorter = self.out.len().saturating_sub(self.place) < self.plain;
        if is_shorter || self.needs_letters() {
            self.has_letters = true;
        } else {
            self.take_plain_if_shorter()?;
        }
        self.first = self.pages;
        self.whole = 0;
        self.plain = 0;
        self.place = self.out.len();
        self.spans_reset = false;
        Ok(())
    }

    /// Leaves the stretch as it is written where that is shorter than without letters.
    fn take_plain_if_shorter(&mut self) -> Result<(), AllocError> {
        let lettered = self.out.split_off(self.place.min(self.out.len()))?;
        self.append_plain()?;
        let plain = self.out.len().saturating_sub(self.place);
        if lettered.len() < plain {
            self.has_letters = true;
            self.out.truncate(self.place);
            self.out.extend_from_slice(&lettered)?;
        }
        Ok(())
    }

    /// Appends the pages of the stretch without letters.
    fn append_plain(&mut self) -> Result<(), AllocError> {
        for (number, text) in self.texts.iter().enumerate() {
            if self.first <= number && number < self.pages {
                let is_reset = append_page_start(self.original.asks, number, &mut self.out)?;
                if is_reset {
                    self.repeats.end(&mut self.out)?;
                }
                let place = self.out.len();
                append_page_text(self.original.asks, number, text, &mut self.out)?;
                self.repeats.add_page(&self.out, place)?;
            }
        }
        self.repeats.end(&mut self.out)
    }

    /// The job with the pages that came: none where no stretch has letters, or where it is too long.
    fn finish(self) -> Result<Option<Vec<u8>>, AllocError> {
        let mut writer = self;
        let is_shorter = writer.end()?;
        Ok(is_shorter.then_some(writer.out))
    }

    /// Ends the job. Says whether it has letters, and fewer bytes than it may have.
    fn end(&mut self) -> Result<bool, AllocError> {
        if self.is_too_long {
            return Ok(false);
        }
        self.end_stretch()?;
        if !self.has_letters {
            return Ok(false);
        }
        append_end(self.original.asks, self.pages, &mut self.out)?;
        Ok(self.out.len() < self.limit())
    }

    /// Appends what was written of a page, of which this is a text without letters, so that it says what was said of it. The end of a
    /// raster may stand before it, where macros of the page before left a method.
    fn append_written(&mut self, written: &[u8], plain: &[u8]) -> Result<(), AllocError> {
        let text = match written.strip_prefix(END_RASTER) {
            Some(text) => {
                self.out.extend_from_slice(END_RASTER)?;
                text
            }
            None => written,
        };
        let place = self.out.len();
        append_page_text(self.original.asks, self.pages, text, &mut self.out)?;
        match shift_at(self.original.shifts, self.pages) {
            Shift::HalfLower if text != plain => lower_page(&mut self.out, place),
            _ => Ok(()),
        }
    }

    /// Whether no page since the last reset has this text without letters. From here on one has it.
    fn is_new(&mut self, text: &[u8]) -> Result<bool, AllocError> {
        let hash = text_hash(text);
        if self.known.contains(&hash) {
            return Ok(false);
        }
        self.known.push(hash)?;
        Ok(true)
    }

    /// Appends a page, of which this is a text without letters.
    fn append_page(&mut self, page: &Page, text: &[u8]) -> Result<(), AllocError> {
        self.begin_page()?;
        let mut written = Vec::new(*self.out.allocator());
        append_page_text(self.original.asks, self.pages, text, &mut written)?;
        self.whole = self.whole.saturating_add(written.len());
        if self.is_new(text)? {
            self.plain = self.plain.saturating_add(written.len());
        }
        written.clear();
        let whole = WholePage {
            page,
            plain: text,
            room: self.room(),
        };
        self.writer.append_page(whole, &mut written)?;
        if self.room().is_some_and(|room| room <= written.len()) {
            self.give_up();
            return Ok(());
        }
        let place = self.out.len();
        self.append_written(&written, text)?;
        self.repeats.add_page(&self.out, place)?;
        self.pages = self.pages.saturating_add(1);
        self.watcher.pages_passed(Pass::Write, self.pages);
        Ok(())
    }
}

/// What ends the start of a page text: no top margin.
const NO_MARGIN: &[u8] = b"0E";

/// A top margin of half a dot at 300 dots per inch, from which moves to a row count: a line of 0.08 of 1/48 inch.
const HALF_DOT_MARGIN: &[u8] = b".08c1E";

/// Puts the marks of the page whose text begins in this place half a dot lower.
fn lower_page(out: &mut Vec<u8>, place: usize) -> Result<(), AllocError> {
    let text = out.split_off(place.min(out.len()))?;
    let end = text.iter().position(|byte| *byte == b'E');
    let end = end.unwrap_or(0).saturating_add(1).min(text.len());
    let (start, rest) = text.split_at(end);
    out.extend_from_slice(start.strip_suffix(NO_MARGIN).unwrap_or(start))?;
    out.extend_from_slice(HALF_DOT_MARGIN)?;
    out.extend_from_slice(rest)
}

/// Whether a reset stands between pages of the stretch that starts with the page of this number, from 0.
fn spans_reset(asks: &Asks<'_>, first: usize) -> bool {
    for (page, asked) in asks.pages.iter().enumerate() {
        if page > first {
            if has_exit(asks, page) {
                return false;
            }
            if asked.start.is_first {
                return true;
            }
        }
    }
    false
}

impl<'a, 'b, P> Model for LetterWriter<'a, 'b, P> {
    // Nothing is said of what was written.
    ghost Value = { Unit {0} };

    ghost view = { λ _. tt };
}

impl<'a, 'b, P: ShrinkWatcher> PageSink for LetterWriter<'a, 'b, P> {
    ghost takes = { λ old page new. Unit {0} };

    fn page(&mut self, page: &Page) -> Result<(), AllocError> {
        let texts = self.texts;
        match texts.get(self.pages) {
            Some(text) if !self.is_too_long => self.append_page(page, text),
            _ => Ok(()),
        }
    }
}
