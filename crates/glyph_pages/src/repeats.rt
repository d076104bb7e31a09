//! What repeats in pages, sent once as macros: forms, letterheads, and pages that come again.
//!
//! A macro that is executed does what its commands do, so bytes that stand again may be a run of one, whatever is set there. A reset and a
//! universal exit delete macros, and so begin anew.

use crate::passages::Passages;
use crate::repeat_writing::append_with_macros;
use crate::segments::{Segment, segments_of};
use indexmap::IndexMap;
use std::alloc::{AllocError, Global};
use std::hash::{FoldHasher, Hasher};
use std::mem::swap;

/// What is known of the pages since a reset.
#[derive(Drop)]
pub struct Repeats {
    /// The highest ID that a macro may have.
    first_id: u32,
    /// Whether macros may run those that pages run.
    may_run: bool,
    /// Where the first page begins in what is written.
    base: usize,
    /// How many bytes the pages have, with what stands between them.
    len: usize,
    passages: Passages,
    /// Segments by their hashes, each as the number of a passage.
    known: IndexMap<u64, usize>,
    /// Whether a segment stands again.
    has_any: bool,
}

impl Repeats {
    /// Before the first page. Macros have this ID and those below it, and may run those that pages run, or not.
    pub fn new(alloc: Global, first_id: u32, may_run: bool) -> Repeats {
        Repeats {
            first_id,
            may_run,
            base: 0,
            len: 0,
            passages: Passages::new(alloc),
            known: IndexMap::new(alloc),
            has_any: false,
        }
    }

    /// Adds a page, whose text is what is written from this place on. What stands between pages stays there.
    pub fn add_page(&mut self, written: &[u8], place: usize) -> Result<(), AllocError> {
        if self.passages.order.is_empty() {
            self.base = place;
        }
        let (_, pages) = written.split_at(self.base.min(written.len()));
        let start = place.saturating_sub(self.base).min(pages.len());
        if self.len < start {
            let len = start.saturating_sub(self.len);
            self.passages.add(self.len, len, false)?;
        }
        let (_, page) = pages.split_at(start);
        let alloc = *self.passages.order.allocator();
        for segment in segments_of(alloc, page, self.may_run)?.iter() {
            self.add_segment(pages, segment.after(start))?;
        }
        self.len = pages.len();
        Ok(())
    }

    /// Adds a segment of these pages.
    fn add_segment(&mut self, pages: &[u8], segment: Segment) -> Result<(), AllocError> {
        let len = segment.end.saturating_sub(segment.start);
        if segment.is_fixed {
            return self.passages.add(segment.start, len, true);
        }
        let bytes = pages.get(segment.start..segment.end).unwrap_or(&[]);
        let hash = text_hash(bytes);
        match self.known.get(&hash) {
            Some(number) if self.passages.bytes(*number, pages) == bytes => {
                self.has_any = true;
                self.passages.add_again(*number)
            }
            Some(_) => self.passages.add(segment.start, len, segment.has_macros),
            None => {
                self.known.insert(hash, self.passages.list.len())?;
                self.passages.add(segment.start, len, segment.has_macros)
            }
        }
    }

    /// Writes the pages again, with what repeats as macros, and begins anew. What stands after the last page stays there.
    pub fn end(&mut self, out: &mut Vec<u8>) -> Result<(), AllocError> {
        let alloc = *out.allocator();
        let mut found = Repeats::new(alloc, self.first_id, self.may_run);
        swap(self, &mut found);
        let Repeats {
            first_id,
            base,
            len,
            mut passages,
            has_any,
            ..
        } = found;
        if !has_any {
            return Ok(());
        }
        passages.join(alloc)?;
        let pages = out.split_off(base.min(out.len()))?;
        let (pages, rest) = pages.split_at(len.min(pages.len()));
        append_with_macros(&passages, pages, first_id, out)?;
        out.extend_from_slice(rest)
    }
}

/// A hash of a text.
pub fn text_hash(bytes: &[u8]) -> u64 {
    let mut hasher = FoldHasher::default();
    hasher.write(bytes);
    hasher.finish()
}
