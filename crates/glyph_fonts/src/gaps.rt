//! How far letters of a line stand from each other, and the rests that advances leave of that.

use crate::feeds::has_feeds;
use crate::rests::Rests;
use crate::spacing::Character;
use glyph_patterns::{Letter, Metrics};
use indexmap::IndexMap;
use std::alloc::{AllocError, Global};
use std::hash::Hash;

/// The pitch of fonts, in dots, where line feeds may start lines: a left margin counts by it.
const FEED_PITCH: u32 = 1;

/// A glyph, and how far right of the cursor at its letter that of the next letter stands, in dots. Their order is that of glyphs.
#[derive(Clone, Copy, PartialEq, Eq, PartialOrd, Ord, Hash)]
pub struct Gap {
    pub glyph: u32,
    pub distance: i32,
}

impl Gap {
    /// What the usual advances leave of the distance.
    pub fn rest(self, usual: &[u32]) -> i32 {
        let advance = usual.get(self.glyph as usize).copied().unwrap_or(0);
        self.rest_of(advance)
    }

    /// What an advance leaves of the distance.
    pub fn rest_of(self, advance: u32) -> i32 {
        self.distance.saturating_sub_unsigned(advance)
    }

    /// The character that advances by the distance, unless that goes to the left.
    pub fn character(self) -> Option<Character> {
        Some(Character {
            glyph: self.glyph,
            advance: u32::try_from(self.distance).ok()?,
        })
    }
}

/// A distance from a glyph, and how often it is there.
#[derive(Clone, Copy)]
pub struct CountedGap {
    pub gap: Gap,
    pub count: u32,
}

/// The distances between the letters of a job.
#[derive(Drop)]
pub struct Gaps {
    /// How often each glyph is followed at each distance on its line, in the order of glyphs.
    pub counted: Vec<CountedGap>,
    /// The width of the widest page, in dots.
    width: u32,
    /// Whether line feeds may start lines.
    pub has_feeds: bool,
}

impl Gaps {
    /// Those of letters on pages of these widths.
    pub fn of(
        alloc: Global,
        widths: &[u32],
        letters: &[Letter],
        metrics: &Metrics,
    ) -> Result<Gaps, AllocError> {
        Ok(Gaps {
            counted: count_gaps(alloc, letters, metrics)?,
            width: widths.iter().copied().max().unwrap_or(0),
            has_feeds: has_feeds(alloc, letters)?,
        })
    }

    /// How the rests are made that the usual advances leave, where none of these characters goes so far.
    pub fn rests(
        &self,
        alloc: Global,
        characters: &IndexMap<Character, u32>,
        usual: &[u32],
    ) -> Result<Rests, AllocError> {
        let mut counts = IndexMap::new(alloc);
        for counted in self.counted.iter() {
            let rest = counted.gap.rest(usual);
            if rest > 0 && !is_sent(characters, counted.gap) {
                add_count(rest.unsigned_abs(), counted.count, &mut counts)?;
            }
        }
        counts.sort_by_key(|_rest, count| u32::MAX.saturating_sub(*count))?;
        let pitch = self.has_feeds.then_some(FEED_PITCH);
        Rests::new(alloc, self.width, &counts, pitch)
    }
}

/// Whether a character that advances by a distance is sent.
fn is_sent(characters: &IndexMap<Character, u32>, gap: Gap) -> bool {
    match gap.character() {
        Some(character) => characters.contains_key(&character),
        None => false,
    }
}

/// How far right of the cursor at a letter that of the next one stands; none where it starts another line.
pub fn distance(metrics: &Metrics, letter: &Letter, next: &Letter) -> Option<i32> {
    letter.gap_to(next)?;
    let place = metrics.place_of(letter);
    Some(metrics.place_of(next).saturating_sub(place))
}

/// How often each glyph is followed at each distance on its line, in the order of glyphs.
fn count_gaps(
    alloc: Global,
    letters: &[Letter],
    metrics: &Metrics,
) -> Result<Vec<CountedGap>, AllocError> {
    let mut counts = IndexMap::new(alloc);
    for (place, letter) in letters.iter().enumerate() {
        if let Some(next) = letters.get(place.saturating_add(1)) {
            if let Some(distance) = distance(metrics, letter, next) {
                let glyph = letter.glyph;
                add_count(Gap { glyph, distance }, 1, &mut counts)?;
            }
        }
    }
    counts.sort_keys()?;
    let mut gaps = Vec::new(alloc);
    for (gap, count) in counts.iter() {
        gaps.push(CountedGap {
            gap: *gap,
            count: *count,
        })?;
    }
    Ok(gaps)
}

/// Adds to how often something is there.
fn add_count<K: Hash + Eq + Drop>(
    key: K,
    count: u32,
    counts: &mut IndexMap<K, u32>,
) -> Result<(), AllocError> {
    let total = counts.entry(key)?.or_insert(0u32);
    *total = total.saturating_add(count);
    Ok(())
}
