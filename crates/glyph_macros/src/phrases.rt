//! Phrases: marks that often stand in turn, and that one macro prints.

use crate::macros::{Uses, count_text};
use crate::marks::{Mark, Script};
use glyph_patterns::number_of_place;
use indexmap::{IndexMap, IndexSet};
use std::alloc::{AllocError, Global};

/// How often two marks in turn are joined, in rounds: a phrase of the last one may have sixteen marks.
const ROUNDS: u32 = 4;

/// Two marks in turn that would save this many bytes are a phrase: its macro takes some 37 bytes, and longer phrases take uses from it.
const LEAST_SAVED: u32 = 48;

/// About how many bytes it takes to run a macro.
const RUN_BYTES: u32 = 8;

/// How many a gap to the right takes, between two sequences that run macros; one to the left takes a move.
const GAP_BYTES: u32 = 4;

/// How many it takes to run the same macro once more.
const AGAIN_BYTES: u32 = 2;

/// What the macro of a phrase takes around its marks.
const DEFINITION_BYTES: u32 = 19;

/// After this many different pairs no further ones are counted, each of which takes memory: texts have fewer.
const COUNTED_PAIRS: usize = 65_536;

/// How many phrases there are, at most.
const PHRASE_LIMIT: usize = 10_000;

/// How many macros may run one inside another.
const DEPTH_LIMIT: u32 = 3;

/// Marks that one macro prints.
#[derive(Drop)]
pub struct Phrase {
    /// How many macros run one inside another when it is printed: up to three.
    pub depth: u32,
    pub marks: Vec<Mark>,
}

/// Two marks in turn.
#[derive(Clone, Copy, PartialEq, Eq, Hash)]
struct Pair {
    first: Mark,
    second: Mark,
}

impl Pair {
    /// How many bytes are saved each time where it is joined.
    fn saved(self) -> u32 {
        if self.first == self.second {
            AGAIN_BYTES
        } else {
            bytes_of(self.first).min(bytes_of(self.second))
        }
    }
}

/// About how many bytes a mark takes.
fn bytes_of(mark: Mark) -> u32 {
    match mark {
        Mark::Gap(gap) if gap > 0 => GAP_BYTES,
        _ => RUN_BYTES,
    }
}

/// The lines of a job, and the phrases in them.
#[derive(Drop)]
pub struct PhrasedText {
    pub script: Script,
    pub phrases: Vec<Phrase>,
    /// The two marks of which each phrase is made.
    pairs: IndexSet<Pair>,
}

/// The text of a script, with its phrases.
pub fn find_phrases(alloc: Global, script: Script) -> Result<PhrasedText, AllocError> {
    let mut text = PhrasedText {
        script,
        phrases: Vec::new(alloc),
        pairs: IndexSet::new(alloc),
    };
    for _ in 0..ROUNDS {
        if !text.join(alloc)? {
            break;
        }
    }
    text.drop_dear(alloc)?;
    Ok(text)
}

impl PhrasedText {
    /// Joins the pairs that are frequent, and says whether there were any.
    fn join(&mut self, alloc: Global) -> Result<bool, AllocError> {
        let pairs = self.frequent_pairs(alloc)?;
        if pairs.is_empty() {
            return Ok(false);
        }
        self.join_pairs(alloc, &pairs)?;
        Ok(true)
    }

    /// Joins these pairs.
    fn join_pairs(&mut self, alloc: Global, pairs: &IndexMap<Pair, u32>) -> Result<(), AllocError> {
        self.add_phrases(alloc, pairs)?;
        self.script = self.joined(alloc, pairs)?;
        Ok(())
    }

    /// The pairs that are frequent, and how many bytes are saved where each is joined.
    fn frequent_pairs(&self, alloc: Global) -> Result<IndexMap<Pair, u32>, AllocError> {
        let mut counts = count_pairs(alloc, &self.script)?;
        self.keep_frequent(&mut counts);
        // A pair that is frequent may overlap another that saves more: what counts is where it would be joined.
        let mut uses = count_uses(alloc, &self.script, &counts)?;
        self.keep_frequent(&mut uses);
        Ok(uses)
    }

    /// Adds the phrases of pairs, unless they are there.
    fn add_phrases(
        &mut self,
        alloc: Global,
        pairs: &IndexMap<Pair, u32>,
    ) -> Result<(), AllocError> {
        for pair in pairs.keys() {
            self.add_phrase(alloc, *pair)?;
        }
        Ok(())
    }

    /// Drops pairs that aren't frequent, and those past the limit.
    fn keep_frequent(&self, counts: &mut IndexMap<Pair, u32>) {
        counts.retain(|_pair: &Pair, saved: &mut u32| -> bool { *saved >= LEAST_SAVED });
        counts.truncate(PHRASE_LIMIT.saturating_sub(self.phrases.len()));
    }

    /// Adds the phrase of a pair, unless it is there.
    fn add_phrase(&mut self, alloc: Global, pair: Pair) -> Result<(), AllocError> {
        let (_, is_new) = self.pairs.insert_full(pair)?;
        if is_new {
            let mut marks = Vec::new(alloc);
            self.append_parts(pair.first, &mut marks)?;
            self.append_parts(pair.second, &mut marks)?;
            let depth = self.depth(pair.first).max(self.depth(pair.second));
            self.phrases.push(Phrase {
                depth: depth.saturating_add(1).min(DEPTH_LIMIT),
                marks,
            })?;
        }
        Ok(())
    }

    /// How many macros run one inside another when a mark is printed.
    fn depth(&self, mark: Mark) -> u32 {
        match mark {
            Mark::Phrase(number) => self
                .phrases
                .get(number as usize)
                .map_or(DEPTH_LIMIT, |phrase| phrase.depth),
            Mark::Glyph(_) | Mark::Gap(_) => 1,
        }
    }

    /// Appends a mark as a part of a phrase: itself, or what it prints where it is a phrase that none may run.
    fn append_parts(&self, mark: Mark, marks: &mut Vec<Mark>) -> Result<(), AllocError> {
        if let Mark::Phrase(number) = mark {
            if let Some(phrase) = self.phrases.get(number as usize) {
                if phrase.depth >= DEPTH_LIMIT {
                    return marks.extend_from_slice(&phrase.marks);
                }
            }
        }
        marks.push(mark)?;
        Ok(())
    }

    /// The mark of the phrase of a pair.
    fn phrase_of(&self, pair: Pair) -> Mark {
        match self.pairs.get_index_of(&pair) {
            Some(number) => Mark::Phrase(number_of_place(number)),
            None => pair.first,
        }
    }

    /// The lines with these pairs joined.
    fn joined(&self, alloc: Global, pairs: &IndexMap<Pair, u32>) -> Result<Script, AllocError> {
        let mut script = Script::new(alloc);
        let mut start = 0;
        for line in self.script.lines.iter() {
            let marks = self.script.marks_of(line, start);
            start = line.end;
            self.append_joined(marks, pairs, &mut script.marks)?;
            script.end_line(line)?;
        }
        Ok(script)
    }

    /// Appends the marks of a line with these pairs joined.
    fn append_joined(
        &self,
        marks: &[Mark],
        pairs: &IndexMap<Pair, u32>,
        out: &mut Vec<Mark>,
    ) -> Result<(), AllocError> {
        let mut is_joined = false;
        for (place, mark) in marks.iter().enumerate() {
            if is_joined {
                is_joined = false;
            } else if let Some(pair) = pair_at(marks, place, pairs) {
                out.push(self.phrase_of(pair))?;
                is_joined = true;
            } else {
                out.push(*mark)?;
            }
        }
        Ok(())
    }
}

/// Phrases that aren't used often enough.
impl PhrasedText {
    /// Puts the marks of phrases whose macros take more bytes than they save in their place.
    fn drop_dear(&mut self, alloc: Global) -> Result<(), AllocError> {
        let dear = self.find_dear(alloc)?;
        self.unfold(alloc, &dear)
    }

    /// The phrases whose macros take more bytes than they save.
    fn find_dear(&self, alloc: Global) -> Result<IndexSet<Mark>, AllocError> {
        let mut uses = IndexMap::new(alloc);
        count_text(self, &mut uses)?;
        let mut dear = IndexSet::new(alloc);
        self.add_dear(&uses, &mut dear)?;
        Ok(dear)
    }

    /// Adds the phrases whose macros take more bytes than they save, where each is used so often.
    fn add_dear(&self, uses: &Uses, dear: &mut IndexSet<Mark>) -> Result<(), AllocError> {
        for (number, phrase) in self.phrases.iter().enumerate() {
            let mark = Mark::Phrase(number_of_place(number));
            if phrase.is_dear(uses.get(&mark).copied().unwrap_or(0)) {
                dear.insert(mark)?;
            }
        }
        Ok(())
    }

    /// Puts the marks of these phrases in their place, in other phrases and in the lines.
    fn unfold(&mut self, alloc: Global, dear: &IndexSet<Mark>) -> Result<(), AllocError> {
        self.unfold_phrases(alloc, dear)?;
        self.script = self.unfolded_script(alloc, dear)?;
        Ok(())
    }

    /// Puts the marks of these phrases in their place in other phrases. A phrase has only marks that come before it.
    fn unfold_phrases(&mut self, alloc: Global, dear: &IndexSet<Mark>) -> Result<(), AllocError> {
        for number in 0..self.phrases.len() {
            let mut marks = Vec::new(alloc);
            self.append_unfolded(&self.phrases[number].marks, dear, &mut marks)?;
            self.phrases[number].marks = marks;
        }
        Ok(())
    }

    /// The lines with the marks of these phrases in their place.
    fn unfolded_script(&self, alloc: Global, dear: &IndexSet<Mark>) -> Result<Script, AllocError> {
        let mut script = Script::new(alloc);
        let mut start = 0;
        for line in self.script.lines.iter() {
            let marks = self.script.marks_of(line, start);
            start = line.end;
            self.append_unfolded(marks, dear, &mut script.marks)?;
            script.end_line(line)?;
        }
        Ok(script)
    }

    /// Appends marks, with the marks of these phrases in their place.
    fn append_unfolded(
        &self,
        marks: &[Mark],
        dear: &IndexSet<Mark>,
        out: &mut Vec<Mark>,
    ) -> Result<(), AllocError> {
        for mark in marks {
            self.append_mark_unfolded(*mark, dear.contains(mark), out)?;
        }
        Ok(())
    }

    /// Appends a mark, or the marks of a phrase in its place.
    fn append_mark_unfolded(
        &self,
        mark: Mark,
        is_dear: bool,
        out: &mut Vec<Mark>,
    ) -> Result<(), AllocError> {
        match mark {
            Mark::Phrase(number) if is_dear => match self.phrases.get(number as usize) {
                Some(phrase) => out.extend_from_slice(&phrase.marks),
                None => Ok(()),
            },
            _ => {
                out.push(mark)?;
                Ok(())
            }
        }
    }
}

impl Phrase {
    /// Whether its macro takes more bytes than it saves where it is used so often.
    fn is_dear(&self, uses: u32) -> bool {
        let bytes = bytes_of_all(&self.marks);
        let saved = bytes.saturating_sub(RUN_BYTES).saturating_mul(uses);
        saved < bytes.saturating_add(DEFINITION_BYTES)
    }
}

/// About how many bytes marks take.
fn bytes_of_all(marks: &[Mark]) -> u32 {
    let mut bytes: u32 = 0;
    for mark in marks {
        bytes = bytes.saturating_add(bytes_of(*mark));
    }
    bytes
}

/// How many bytes each two marks that stand in turn on a line would save.
fn count_pairs(alloc: Global, script: &Script) -> Result<IndexMap<Pair, u32>, AllocError> {
    let mut counts = IndexMap::new(alloc);
    let mut start = 0;
    for line in script.lines.iter() {
        let marks = script.marks_of(line, start);
        start = line.end;
        count_pairs_on_line(marks, &mut counts)?;
    }
    Ok(counts)
}

/// Counts each two marks that stand in turn on a line.
fn count_pairs_on_line(marks: &[Mark], counts: &mut IndexMap<Pair, u32>) -> Result<(), AllocError> {
    for place in 0..marks.len() {
        if let Some(pair) = two_at(marks, place) {
            count_pair(pair, counts)?;
        }
    }
    Ok(())
}

/// Counts what is saved where a pair is joined, if it is there already or there is room.
fn count_pair(pair: Pair, counts: &mut IndexMap<Pair, u32>) -> Result<(), AllocError> {
    if counts.len() < COUNTED_PAIRS || counts.contains_key(&pair) {
        let saved = counts.entry(pair)?.or_insert(0u32);
        *saved = saved.saturating_add(pair.saved());
    }
    Ok(())
}

/// How many bytes are saved where each of these pairs is joined.
fn count_uses(
    alloc: Global,
    script: &Script,
    pairs: &IndexMap<Pair, u32>,
) -> Result<IndexMap<Pair, u32>, AllocError> {
    let mut uses = IndexMap::new(alloc);
    let mut start = 0;
    for line in script.lines.iter() {
        let marks = script.marks_of(line, start);
        start = line.end;
        count_uses_on_line(marks, pairs, &mut uses)?;
    }
    Ok(uses)
}

/// Counts what is saved where these pairs are joined on a line.
fn count_uses_on_line(
    marks: &[Mark],
    pairs: &IndexMap<Pair, u32>,
    uses: &mut IndexMap<Pair, u32>,
) -> Result<(), AllocError> {
    let mut is_joined = false;
    for place in 0..marks.len() {
        if is_joined {
            is_joined = false;
        } else if let Some(pair) = pair_at(marks, place, pairs) {
            count_pair(pair, uses)?;
            is_joined = true;
        }
    }
    Ok(())
}

/// The pair at a place of a line, if it is to be joined: one of these, which saves no less than the next one, which overlaps it.
fn pair_at(marks: &[Mark], place: usize, pairs: &IndexMap<Pair, u32>) -> Option<Pair> {
    let pair = two_at(marks, place)?;
    let count = *pairs.get(&pair)?;
    let next = match two_at(marks, place.saturating_add(1)) {
        Some(next) => pairs.get(&next).copied().unwrap_or(0),
        None => 0,
    };
    (count >= next).then_some(pair)
}

/// The two marks from a place on.
fn two_at(marks: &[Mark], place: usize) -> Option<Pair> {
    Some(Pair {
        first: *marks.get(place)?,
        second: *marks.get(place.saturating_add(1))?,
    })
}
