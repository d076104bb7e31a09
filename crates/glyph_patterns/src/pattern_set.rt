//! The patterns of a job, each once.

use crate::forms::Form;
use crate::lists::quotient;
use crate::numbers::{number_of_place, short_number};
use crate::parts::{Row, in_fine_parts, most_in_row};
use crate::patterns::{Changes, Pattern, row_bytes_of};
use indexmap::IndexMap;
use std::alloc::{AllocError, Global};
use std::hash::{FoldHasher, Hasher};

/// What is kept of patterns may take this many bytes before there is more room.
const FIRST_ROOM: usize = 1_048_576;

/// About how many bytes a pattern takes besides its rows.
const PATTERN_BYTES: usize = 64;

/// Patterns, numbered from 0 as they came. They are kept apart by a hash of their sides and dots: if two had the same one, a letter would
/// be another than it should be, and the comparison would refuse the job.
#[derive(Drop)]
pub struct Patterns {
    /// By their hashes.
    kept: IndexMap<u64, KeptPattern>,
    /// The rows of patterns in turn.
    rows: Vec<u8>,
    /// About how many bytes all of this may take.
    room: usize,
}

/// What is kept of a pattern.
#[derive(Clone, Copy)]
struct KeptPattern {
    width: u16,
    height: u16,
    /// How many bytes what prints it takes, once for the job.
    definition: u32,
    /// About how many bytes it takes in each of its rows by itself, in fine parts.
    weight: u32,
    /// Where its rows begin; none where they aren't kept.
    start: Option<u32>,
}

impl KeptPattern {
    fn without_rows(pattern: Pattern<'_>, form: Form) -> KeptPattern {
        let changes = pattern.changes();
        KeptPattern {
            width: short_number(pattern.width),
            height: short_number(pattern.height),
            definition: number_of_place(form.definition_bytes(pattern, changes)),
            weight: weight_of(pattern, changes),
            start: None,
        }
    }

    /// No more bytes than these, in fine parts, does a shape of the pattern take that is in these rows.
    fn most_bytes(self, rows: &[Row]) -> i64 {
        let mut most: i64 = 0;
        for row in rows {
            most = most.saturating_add(most_in_row(row, i64::from(self.weight)));
        }
        most
    }
}

impl Patterns {
    /// No pattern yet.
    pub fn new(alloc: Global) -> Patterns {
        Patterns {
            kept: IndexMap::new(alloc),
            rows: Vec::new(alloc),
            room: FIRST_ROOM,
        }
    }

    /// Makes room for this many bytes more. What prints patterns is sent, so where they take more bytes than the pages do as rasters few of
    /// them can be letters.
    pub fn add_room(&mut self, bytes: usize) {
        self.room = self.room.saturating_add(bytes);
    }

    /// Whether there is room for this many patterns more, with this many bytes of rows.
    fn has_room(&self, patterns: usize, rows: usize) -> bool {
        let count = self.kept.len().saturating_add(patterns);
        let bytes = self.rows.len().saturating_add(rows);
        count.saturating_mul(PATTERN_BYTES).saturating_add(bytes) <= self.room
    }

    /// How many there are.
    pub fn len(&self) -> usize {
        self.kept.len()
    }

    /// The pattern of a number, if its dots are kept.
    pub fn get(&self, number: u32) -> Option<Pattern<'_>> {
        let kept = self.kept_at(number)?;
        let start = kept.start? as usize;
        let len = row_bytes_of(u32::from(kept.width)).saturating_mul(usize::from(kept.height));
        let rows = self.rows.get(..start.saturating_add(len))?;
        Some(Pattern {
            width: u32::from(kept.width),
            height: u32::from(kept.height),
            rows: rows.get(start..)?,
        })
    }

    /// How wide the pattern of a number is, in dots, if its dots are kept.
    pub fn width_of(&self, number: u32) -> Option<u32> {
        let kept = self.kept_at(number)?;
        kept.start?;
        Some(u32::from(kept.width))
    }

    /// How many bytes what prints a pattern takes, once for the job.
    pub fn definition_bytes(&self, number: u32) -> usize {
        self.kept_at(number)
            .map_or(0, |kept| kept.definition as usize)
    }

    /// About how many bytes a pattern takes in each of its rows by itself, in fine parts.
    pub fn weight(&self, number: u32) -> i64 {
        self.kept_at(number)
            .map_or(0, |kept| i64::from(kept.weight))
    }

    /// How many rows a pattern is in: its own, and the one below them, which has dots no longer.
    pub fn row_count(&self, number: u32) -> usize {
        self.kept_at(number)
            .map_or(0, |kept| usize::from(kept.height).saturating_add(1))
    }

    /// The number of the pattern of a shape that is in these rows of its page. A pattern that isn't there is added, without its dots where
    /// a single shape of it is no letter, since what prints it takes as many bytes as the shape takes in these rows: they are kept once it
    /// comes again. None where there is no room to add it.
    pub fn number_of_shape(
        &mut self,
        pattern: Pattern<'_>,
        form: Form,
        rows: &[Row],
    ) -> Result<Option<u32>, AllocError> {
        let Some((place, is_new)) = self.place_of(pattern, form)? else {
            return Ok(None);
        };
        if !is_new || self.is_worth_a_letter(place, rows) {
            self.keep_rows(place, pattern)?;
        }
        Ok(Some(number_of_place(place)))
    }

    /// The number of a pattern, which is added with its dots if it isn't there: none where there is no room.
    pub fn number_of_dots(
        &mut self,
        pattern: Pattern<'_>,
        form: Form,
    ) -> Result<Option<u32>, AllocError> {
        if !self.has_room(1, pattern.rows.len()) {
            return Ok(None);
        }
        let Some((place, _)) = self.place_of(pattern, form)? else {
            return Ok(None);
        };
        self.keep_rows(place, pattern)?;
        Ok(Some(number_of_place(place)))
    }

    /// The place of a pattern, which is added without its rows if it isn't there, and whether it was added. None where there is no room.
    fn place_of(
        &mut self,
        pattern: Pattern<'_>,
        form: Form,
    ) -> Result<Option<(usize, bool)>, AllocError> {
        let hash = hash_of(pattern);
        if let Some(place) = self.kept.get_index_of(&hash) {
            return Ok(Some((place, false)));
        }
        if !self.has_room(1, 0) {
            return Ok(None);
        }
        let kept = KeptPattern::without_rows(pattern, form);
        let (place, _) = self.kept.insert_full(hash, kept)?;
        Ok(Some((place, true)))
    }

    /// Whether a single shape of the pattern in a place, in these rows, may take more bytes there than what prints it.
    fn is_worth_a_letter(&self, place: usize, rows: &[Row]) -> bool {
        match self.kept.get_index(place) {
            Some((_, kept)) => kept.most_bytes(rows) > in_fine_parts(kept.definition as usize),
            None => false,
        }
    }

    /// Keeps the rows of the pattern in a place, unless they are kept or there is no room.
    fn keep_rows(&mut self, place: usize, pattern: Pattern<'_>) -> Result<(), AllocError> {
        if !self.has_room(0, pattern.rows.len()) {
            return Ok(());
        }
        let start = number_of_place(self.rows.len());
        if let Some(kept) = self.kept.get_index_mut(place) {
            if kept.start.is_none() {
                self.rows.extend_from_slice(pattern.rows)?;
                kept.start = Some(start);
            }
        }
        Ok(())
    }

    /// What is kept of the pattern of a number.
    fn kept_at(&self, number: u32) -> Option<KeptPattern> {
        let (_, kept) = self.kept.get_index(number as usize)?;
        Some(*kept)
    }
}

/// A hash of the sides and the dots of a pattern.
fn hash_of(pattern: Pattern<'_>) -> u64 {
    let mut hasher = FoldHasher::default();
    hasher.write_u32(pattern.width);
    hasher.write_u32(pattern.height);
    hasher.write(pattern.rows);
    hasher.finish()
}

/// About how many bytes a pattern takes in each of its rows by itself, in fine parts: those that differ from the row above and one more,
/// in each row that isn't the one above, where a white row follows below. This differs from row to row.
fn weight_of(pattern: Pattern<'_>, changes: Changes) -> u32 {
    let changes = changes.with(pattern.last_bytes());
    let bytes = changes.rows.saturating_add(changes.bytes);
    let rows = i64::from(pattern.height).saturating_add(1);
    u32::try_from(quotient(in_fine_parts(bytes), rows)).unwrap_or(u32::MAX)
}
