//! How far letters advance, and what makes the rests that are left.

use crate::codes::{Code, code_of_rank};
use crate::gaps::{CountedGap, Gaps, distance};
use crate::rests::Rests;
use glyph_patterns::{
    FONT_CODES, Letter, Letters, Metrics, Patterns, find_metrics, number_of_place,
};
use indexmap::IndexMap;
use std::alloc::{AllocError, Global};

/// A distance may be the usual advance of a glyph where one in this many of its letters has it, or more.
const USUAL_PART: u32 = 20;

/// How often usual advances are chosen, and the blanks that they leave.
const ROUNDS: u32 = 3;

/// A glyph with an advance.
#[derive(Clone, Copy, PartialEq, Eq, Hash)]
pub struct Character {
    /// The number of the glyph.
    pub glyph: u32,
    /// How far the cursor moves, in dots.
    pub advance: u32,
}

impl Character {
    /// Whether its advance is the usual one of its glyph.
    fn is_usual(&self, usual: &[u32]) -> bool {
        usual.get(self.glyph as usize) == Some(&self.advance)
    }
}

/// The usual character of a glyph.
#[derive(Clone, Copy)]
struct UsualCharacter {
    /// How far the cursor moves, in dots.
    advance: u32,
    /// None where it isn't sent.
    code: Option<Code>,
}

/// The characters that are sent, and the rests that blanks make.
#[derive(Drop)]
pub struct Spacing {
    /// Where letters stand from the cursor.
    pub metrics: Metrics,
    /// For each glyph, its usual character.
    usual: Vec<UsualCharacter>,
    /// The characters, the most used first, and how often each is used.
    pub characters: IndexMap<Character, u32>,
    /// How rests are made.
    pub rests: Rests,
    /// Whether line feeds may start lines.
    pub has_feeds: bool,
}

impl Spacing {
    /// The spacing of the letters of a job, on pages of these widths.
    pub fn new(
        alloc: Global,
        widths: &[u32],
        patterns: &Patterns,
        found: &Letters,
    ) -> Result<Spacing, AllocError> {
        let metrics = find_metrics(alloc, widths, &found.letters, found.glyphs.len())?;
        let uses = count_uses(alloc, &found.letters, found.glyphs.len())?;
        let gaps = Gaps::of(alloc, widths, &found.letters, &metrics)?;
        let mut usual = first_advances(alloc, &metrics, patterns, found, uses.len())?;
        let characters = find_characters(alloc, patterns, found, &gaps, &uses, &mut usual)?;
        let rests = gaps.rests(alloc, &characters, &usual)?;
        let usual = find_usual(alloc, &usual, &characters, rests.blanks().len())?;
        Ok(Spacing {
            metrics,
            usual,
            characters,
            rests,
            has_feeds: gaps.has_feeds,
        })
    }

    /// The font and the code of the character of this rank, if there is one left for it.
    pub fn code_of_rank(&self, rank: usize) -> Option<Code> {
        code_of_rank(rank, self.rests.blanks().len())
    }

    /// The font and the code of a character, if it is sent.
    fn code(&self, character: Character) -> Option<Code> {
        let rank = self.characters.get_index_of(&character)?;
        self.code_of_rank(rank)
    }

    /// The character that prints a glyph where the cursor is to go so far right after it, and its advance: one that
    /// advances so far, or else the usual one. None where that isn't sent.
    pub fn character(&self, glyph: u32, distance: Option<i32>) -> Option<(Code, u32)> {
        let usual = self.usual.get(glyph as usize)?;
        let usual_code = usual.code?;
        if let Some(advance) = distance.and_then(|distance| u32::try_from(distance).ok()) {
            if advance != usual.advance {
                if let Some(code) = self.code(Character { glyph, advance }) {
                    return Some((code, advance));
                }
            }
        }
        Some((usual_code, usual.advance))
    }

    /// How far right of the cursor at a letter that of the next one stands; none where it starts another line.
    pub fn distance(&self, letter: &Letter, next: &Letter) -> Option<i32> {
        distance(&self.metrics, letter, next)
    }
}

/// For each glyph its usual character, which has this advance, where the characters have codes in turn after those of as many blanks.
fn find_usual(
    alloc: Global,
    advances: &[u32],
    characters: &IndexMap<Character, u32>,
    blanks: usize,
) -> Result<Vec<UsualCharacter>, AllocError> {
    let mut usual = Vec::new(alloc);
    for advance in advances {
        usual.push(UsualCharacter {
            advance: *advance,
            code: None,
        })?;
    }
    for (rank, character) in characters.keys().enumerate() {
        if character.is_usual(advances) {
            if let Some(usual) = usual.get_mut(character.glyph as usize) {
                usual.code = code_of_rank(rank, blanks);
            }
        }
    }
    Ok(usual)
}

/// How many letters each glyph has.
fn count_uses(alloc: Global, letters: &[Letter], glyphs: usize) -> Result<Vec<u32>, AllocError> {
    let mut uses = vec![in alloc; 0u32; glyphs]?;
    for letter in letters {
        if let Some(count) = uses.get_mut(letter.glyph as usize) {
            *count = count.saturating_add(1);
        }
    }
    Ok(uses)
}

/// For each glyph, the advance that is fitted to the distances, or the width where that isn't above 0.
fn first_advances(
    alloc: Global,
    metrics: &Metrics,
    patterns: &Patterns,
    found: &Letters,
    glyphs: usize,
) -> Result<Vec<u32>, AllocError> {
    let mut advances = Vec::new(alloc);
    for place in 0..glyphs {
        let glyph = number_of_place(place);
        let fitted = u32::try_from(metrics.advance(glyph)).unwrap_or(0);
        let width = found
            .pattern_of(patterns, glyph)
            .map_or(0, |pattern| pattern.width);
        advances.push(if fitted > 0 { fitted } else { width })?;
    }
    Ok(advances)
}

/// The characters that are sent, the most used first. The usual advances become those that leave the fewest bytes.
fn find_characters(
    alloc: Global,
    patterns: &Patterns,
    found: &Letters,
    gaps: &Gaps,
    uses: &[u32],
    usual: &mut [u32],
) -> Result<IndexMap<Character, u32>, AllocError> {
    let rests = settle_advances(alloc, gaps, uses, usual)?;
    let mut characters = IndexMap::new(alloc);
    insert_usual(uses, usual, &mut characters)?;
    for counted in gaps.counted.iter() {
        let bytes = rests.bytes(counted.gap.rest(usual));
        if pays(patterns, found, counted, bytes) {
            insert_other(counted, &mut characters)?;
        }
    }
    characters.sort_by_key(|_character, uses| u32::MAX.saturating_sub(*uses))?;
    leave_far(usual, &mut characters);
    Ok(characters)
}

/// Leaves out those past the first two fonts that aren't usual ones: a selection takes more bytes than a rest.
fn leave_far(usual: &[u32], characters: &mut IndexMap<Character, u32>) {
    if let Some((_, far)) = characters.get_index(FONT_CODES.saturating_mul(2)) {
        let far = *far;
        characters.retain(|character: &Character, uses: &mut u32| -> bool {
            *uses > far || character.is_usual(usual)
        });
    }
}

/// Chooses the usual advances in some rounds, and says how rests are made by which the last one chose.
fn settle_advances(
    alloc: Global,
    gaps: &Gaps,
    uses: &[u32],
    usual: &mut [u32],
) -> Result<Rests, AllocError> {
    let none = IndexMap::new(alloc);
    for _ in 1..ROUNDS {
        let rests = gaps.rests(alloc, &none, usual)?;
        choose_advances(&rests, &gaps.counted, uses, usual);
    }
    let rests = gaps.rests(alloc, &none, usual)?;
    choose_advances(&rests, &gaps.counted, uses, usual);
    Ok(rests)
}

/// Has each glyph advance by the distance that leaves the fewest bytes, of those that are frequent enough and the advance that it has.
fn choose_advances(rests: &Rests, gaps: &[CountedGap], uses: &[u32], usual: &mut [u32]) {
    let mut rest = gaps;
    for (glyph, advance) in usual.iter_mut().enumerate() {
        let number = number_of_place(glyph);
        let count = rest.partition_point(|counted| counted.gap.glyph <= number);
        let (of_glyph, others) = rest.split_at(count.min(rest.len()));
        let uses = uses.get(glyph).copied().unwrap_or(0);
        *advance = best_advance(rests, of_glyph, uses, *advance);
        rest = others;
    }
}

/// The advance that leaves the fewest bytes between a glyph and what follows it at these distances.
fn best_advance(rests: &Rests, gaps: &[CountedGap], uses: u32, old: u32) -> u32 {
    let mut best = old;
    let mut least = bytes_left(rests, gaps, old);
    for counted in gaps {
        if counted.count.saturating_mul(USUAL_PART) >= uses {
            if let Ok(advance) = u32::try_from(counted.gap.distance) {
                let bytes = bytes_left(rests, gaps, advance);
                if bytes < least {
                    best = advance;
                    least = bytes;
                }
            }
        }
    }
    best
}

/// How many bytes the rests take that this advance leaves of these distances.
fn bytes_left(rests: &Rests, gaps: &[CountedGap], advance: u32) -> u32 {
    let mut bytes: u32 = 0;
    for counted in gaps {
        let each = rests.bytes(counted.gap.rest_of(advance));
        bytes = bytes.saturating_add(each.saturating_mul(counted.count));
    }
    bytes
}

/// Inserts the usual character of each glyph that has letters.
fn insert_usual(
    uses: &[u32],
    usual: &[u32],
    characters: &mut IndexMap<Character, u32>,
) -> Result<(), AllocError> {
    for (place, advance) in usual.iter().enumerate() {
        let count = uses.get(place).copied().unwrap_or(0);
        if count > 0 {
            let glyph = number_of_place(place);
            let advance = *advance;
            characters.insert(Character { glyph, advance }, count)?;
        }
    }
    Ok(())
}

/// Inserts the character that advances by a distance, unless that goes to the left.
fn insert_other(
    counted: &CountedGap,
    characters: &mut IndexMap<Character, u32>,
) -> Result<(), AllocError> {
    if let Some(character) = counted.gap.character() {
        characters.insert(character, counted.count)?;
    }
    Ok(())
}

/// Whether a character of its own for a distance saves more bytes than it takes, where the rest takes this many each time.
fn pays(patterns: &Patterns, found: &Letters, counted: &CountedGap, bytes: u32) -> bool {
    match found.glyphs.get_index(counted.gap.glyph as usize) {
        Some(glyph) => {
            let saved = counted.count.saturating_mul(bytes);
            saved as usize > patterns.definition_bytes(glyph.pattern)
        }
        None => false,
    }
}
