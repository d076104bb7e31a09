//! What ID a macro leaves set: that of the macro that mostly comes next, which runs then without saying its ID.

use crate::macros::Uses;
use crate::marks::Mark;
use crate::phrases::{Phrase, PhrasedText};
use glyph_patterns::number_of_place;
use indexmap::IndexMap;
use std::alloc::{AllocError, Global};

/// So much more often than what is set anyway another macro has to come next: setting its ID takes six to nine bytes, once, and
/// saves six each time.
const LEAST_GAIN: u32 = 2;

/// Two marks with macros, of which the second comes next, whatever gaps are between them.
#[derive(Clone, Copy, PartialEq, Eq, Hash)]
struct Step {
    from: Mark,
    to: Mark,
}

/// A mark, and how often it comes next.
#[derive(Clone, Copy)]
struct Likely {
    mark: Mark,
    count: u32,
}

/// How marks with macros follow each other.
#[derive(Drop)]
struct Steps {
    counts: IndexMap<Step, u32>,
    /// For each mark the one that mostly comes next.
    likely: IndexMap<Mark, Likely>,
}

/// For each of these marks of a text the one whose ID is set after its macro was executed.
pub fn find_left(
    alloc: Global,
    text: &PhrasedText,
    uses: &Uses,
) -> Result<IndexMap<Mark, Mark>, AllocError> {
    let mut steps = Steps::new(alloc);
    steps.count_text(text, uses)?;
    steps.find_likely()?;
    let mut left = IndexMap::new(alloc);
    steps.add_glyphs(uses, &mut left)?;
    steps.add_phrases(&text.phrases, uses, &mut left)?;
    Ok(left)
}

impl Steps {
    fn new(alloc: Global) -> Steps {
        Steps {
            counts: IndexMap::new(alloc),
            likely: IndexMap::new(alloc),
        }
    }

    /// Counts the steps on the lines of a text, each of which goes on with what the line before left, and those in its phrases.
    fn count_text(&mut self, text: &PhrasedText, uses: &Uses) -> Result<(), AllocError> {
        self.count_marks(&text.script.marks, uses)?;
        for (number, phrase) in text.phrases.iter().enumerate() {
            if uses.contains_key(&Mark::Phrase(number_of_place(number))) {
                self.count_marks(&phrase.marks, uses)?;
            }
        }
        Ok(())
    }

    /// Counts the steps of marks.
    fn count_marks(&mut self, marks: &[Mark], uses: &Uses) -> Result<(), AllocError> {
        let mut before = None;
        for mark in marks {
            if uses.contains_key(mark) {
                self.count_step(before, *mark)?;
                before = Some(*mark);
            }
        }
        Ok(())
    }

    /// Counts a step from a mark, if there is one, to another: what comes once more needs no ID, since a call leaves its own set.
    fn count_step(&mut self, before: Option<Mark>, to: Mark) -> Result<(), AllocError> {
        let from = before.unwrap_or(to);
        if from != to {
            let count = self.counts.entry(Step { from, to })?.or_insert(0u32);
            *count = count.saturating_add(1);
        }
        Ok(())
    }

    /// Finds what mostly comes next.
    fn find_likely(&mut self) -> Result<(), AllocError> {
        for (step, count) in self.counts.iter() {
            let new = Likely {
                mark: step.to,
                count: *count,
            };
            let likely = self.likely.entry(step.from)?.or_insert(new);
            if *count > likely.count {
                *likely = new;
            }
        }
        Ok(())
    }

    /// The mark whose ID the macro of a mark is to leave, where it would leave that of `set` without more.
    fn left(&self, mark: Mark, set: Mark) -> Mark {
        let step = Step {
            from: mark,
            to: set,
        };
        let count = self.counts.get(&step).copied().unwrap_or(0);
        match self.likely.get(&mark) {
            Some(likely) if likely.count >= count.saturating_add(LEAST_GAIN) => likely.mark,
            _ => set,
        }
    }

    /// Adds what is left by the macros of glyphs.
    fn add_glyphs(&self, uses: &Uses, left: &mut IndexMap<Mark, Mark>) -> Result<(), AllocError> {
        for mark in uses.keys() {
            if let Mark::Glyph(_) = *mark {
                left.insert(*mark, self.left(*mark, *mark))?;
            }
        }
        Ok(())
    }

    /// Adds what is left by the macros of phrases. A phrase has only marks that come before it.
    fn add_phrases(
        &self,
        phrases: &[Phrase],
        uses: &Uses,
        left: &mut IndexMap<Mark, Mark>,
    ) -> Result<(), AllocError> {
        for (number, phrase) in phrases.iter().enumerate() {
            let mark = Mark::Phrase(number_of_place(number));
            if uses.contains_key(&mark) {
                let set = left_by(left, mark, &phrase.marks);
                left.insert(mark, self.left(mark, set))?;
            }
        }
        Ok(())
    }
}

/// The mark whose ID is set after these marks, where it was that of `set` before them.
pub fn left_by(left: &IndexMap<Mark, Mark>, set: Mark, marks: &[Mark]) -> Mark {
    let mut set = set;
    for mark in marks {
        if let Some(next) = left.get(mark) {
            set = *next;
        }
    }
    set
}
