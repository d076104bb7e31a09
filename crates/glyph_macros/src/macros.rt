//! The numbers of macros, and running them.

use crate::blanks::Blanks;
use crate::following::{find_left, left_by};
use crate::marks::Mark;
use crate::phrases::{Phrase, PhrasedText};
use glyph_patterns::{append_labelled, append_signed, number_of_place};
use indexmap::IndexMap;
use std::alloc::{AllocError, Global};

/// The ID of the first macro. Those of the others go down from it, as a site's own mostly go up from 0.
const FIRST_ID: u32 = 32_767;

/// Marks, and how often each is used.
pub type Uses = IndexMap<Mark, u32>;

/// The macros of a job, and the characters that make gaps.
#[derive(Drop)]
pub struct LetterMacros {
    /// The marks that have macros, the most used first.
    pub uses: Uses,
    /// For each of them the mark whose ID is set after its macro was executed.
    left: IndexMap<Mark, Mark>,
    pub blanks: Blanks,
}

/// What macros leave as they are run one after the other.
#[derive(Clone, Copy)]
pub struct IdSetting {
    /// The mark whose ID is set.
    pub set: Option<Mark>,
    /// Whether the sequence in which the last one runs goes on.
    pub is_open: bool,
}

impl LetterMacros {
    /// The macros of a text: those of its glyphs and phrases. `scale` of its dots are one at 300 dots per inch.
    pub fn new(alloc: Global, text: &PhrasedText, scale: u32) -> Result<LetterMacros, AllocError> {
        let mut uses = IndexMap::new(alloc);
        count_text(text, &mut uses)?;
        let blanks = find_blanks(alloc, &uses, scale)?;
        keep_macros(&mut uses)?;
        let left = find_left(alloc, text, &uses)?;
        Ok(LetterMacros { uses, left, blanks })
    }

    /// The ID of the macro that prints a mark, if it has one.
    pub fn id(&self, mark: Mark) -> Option<u32> {
        let place = number_of_place(self.uses.get_index_of(&mark)?);
        Some(FIRST_ID.saturating_sub(place))
    }

    /// The mark whose ID the macro of a mark leaves set.
    pub fn left(&self, mark: Mark) -> Mark {
        self.left.get(&mark).copied().unwrap_or(mark)
    }

    /// What is set once the macro of a mark ran before the rest of some marks: its own ID where it runs once more. At their end the
    /// sequence goes on as it is said.
    fn setting_after(&self, mark: Mark, rest: &[Mark], goes_on: bool) -> IdSetting {
        let left = if self.first_with_macro(rest) == Some(mark) {
            mark
        } else {
            self.left(mark)
        };
        IdSetting {
            set: Some(left),
            is_open: match rest.first() {
                Some(next) => self.id(*next).is_some(),
                None => goes_on,
            },
        }
    }

    /// The first of some marks that has a macro.
    fn first_with_macro(&self, marks: &[Mark]) -> Option<Mark> {
        for mark in marks {
            if self.uses.contains_key(mark) {
                return Some(*mark);
            }
        }
        None
    }

    /// The mark whose ID is set after these marks, where it was that of `set` before them.
    pub fn left_by(&self, set: Mark, marks: &[Mark]) -> Mark {
        left_by(&self.left, set, marks)
    }
}

/// Counts the marks of a text, and of the phrases that are used in it.
pub fn count_text(text: &PhrasedText, uses: &mut Uses) -> Result<(), AllocError> {
    count_marks(&text.script.marks, uses)?;
    count_parts(&text.phrases, uses)
}

/// Counts the marks of the phrases that are used.
fn count_parts(phrases: &[Phrase], uses: &mut Uses) -> Result<(), AllocError> {
    // A phrase has only marks that come before it.
    for number in (0..phrases.len()).rev() {
        if uses.contains_key(&Mark::Phrase(number_of_place(number))) {
            count_marks(&phrases[number].marks, uses)?;
        }
    }
    Ok(())
}

/// Counts marks.
fn count_marks(marks: &[Mark], uses: &mut Uses) -> Result<(), AllocError> {
    for mark in marks {
        let count = uses.entry(*mark)?.or_insert(0u32);
        *count = count.saturating_add(1);
    }
    Ok(())
}

/// The characters that make the gaps among marks that are used so often.
fn find_blanks(alloc: Global, uses: &Uses, scale: u32) -> Result<Blanks, AllocError> {
    let mut gaps = IndexMap::new(alloc);
    count_gaps(uses, &mut gaps)?;
    Blanks::new(gaps, scale)
}

/// Takes the gaps out of marks, with how often each is used.
fn count_gaps(uses: &Uses, gaps: &mut IndexMap<i32, u32>) -> Result<(), AllocError> {
    for (mark, count) in uses.iter() {
        if let Mark::Gap(gap) = *mark {
            gaps.insert(gap, *count)?;
        }
    }
    Ok(())
}

/// Keeps the marks that have macros, the most used first.
fn keep_macros(uses: &mut Uses) -> Result<(), AllocError> {
    uses.retain(|mark: &Mark, _count: &mut u32| -> bool { !mark.is_gap() });
    uses.sort_by_key(|_mark, count| u32::MAX.saturating_sub(*count))
}

/// Appends what prints marks, where the ID of this one is set before: macros run in one sequence as far as they come in turn, and
/// gaps. The last sequence goes on after the marks if it is said so. Says what is set then.
pub fn append_marks(
    macros: &LetterMacros,
    marks: &[Mark],
    set: Option<Mark>,
    goes_on: bool,
    out: &mut Vec<u8>,
) -> Result<IdSetting, AllocError> {
    let mut setting = IdSetting {
        set,
        is_open: false,
    };
    for (place, mark) in marks.iter().enumerate() {
        let rest = marks.get(place.saturating_add(1)..).unwrap_or(&[]);
        match macros.id(*mark) {
            Some(id) => {
                append_id_unless_set(*mark, id, setting, out)?;
                setting = macros.setting_after(*mark, rest, goes_on);
                append_run(setting, setting.set == Some(macros.left(*mark)), out)?;
            }
            None => append_gap(macros, *mark, out)?,
        }
    }
    Ok(setting)
}

/// Appends the start of a sequence, where none is open, and in it the ID of the macro of a mark, where it isn't set.
fn append_id_unless_set(
    mark: Mark,
    id: u32,
    setting: IdSetting,
    out: &mut Vec<u8>,
) -> Result<(), AllocError> {
    append_start(setting.is_open, out)?;
    if setting.set == Some(mark) {
        Ok(())
    } else {
        append_id(id, b"y", out)
    }
}

/// Appends what runs the macro whose ID is set, so that this is set after it: an execution where that is what the macro leaves, and
/// else a call, which puts back the ID.
fn append_run(after: IdSetting, is_left: bool, out: &mut Vec<u8>) -> Result<(), AllocError> {
    out.push(if is_left { b'2' } else { b'3' })?;
    out.push(if after.is_open { b'x' } else { b'X' })?;
    Ok(())
}

/// Appends what sets the ID of the macro of a mark, which ends a sequence that may be open.
pub fn append_set(
    macros: &LetterMacros,
    mark: Mark,
    is_open: bool,
    out: &mut Vec<u8>,
) -> Result<(), AllocError> {
    match macros.id(mark) {
        Some(id) => {
            append_start(is_open, out)?;
            append_id(id, b"Y", out)
        }
        None => Ok(()),
    }
}

/// Appends the start of a sequence for macros, where none is open.
fn append_start(is_open: bool, out: &mut Vec<u8>) -> Result<(), AllocError> {
    if is_open {
        Ok(())
    } else {
        out.extend_from_slice(b"\x1b&f")
    }
}

/// Appends the ID of a macro, and the letter that sets it.
fn append_id(id: u32, letter: &[u8], out: &mut Vec<u8>) -> Result<(), AllocError> {
    append_labelled(b"", id, out)?;
    out.extend_from_slice(letter)
}

/// Appends what makes the gap that a mark is: its character, or else a move.
fn append_gap(macros: &LetterMacros, mark: Mark, out: &mut Vec<u8>) -> Result<(), AllocError> {
    let Mark::Gap(gap) = mark else {
        return Ok(());
    };
    match macros.blanks.code(gap) {
        Some(code) => {
            out.push(code)?;
            Ok(())
        }
        None => append_move(gap, out),
    }
}

/// Appends a move of the cursor along the line by this many dots.
pub fn append_move(dots: i32, out: &mut Vec<u8>) -> Result<(), AllocError> {
    if dots == 0 {
        return Ok(());
    }
    out.extend_from_slice(b"\x1b*p")?;
    append_signed(dots, out)?;
    out.extend_from_slice(b"X")
}
