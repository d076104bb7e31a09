//! Passages: segments in turn that stand in pages again and again, which a macro may send once.

use indexmap::IndexMap;
use std::alloc::{AllocError, Global};
use std::mem::swap;

/// How often passages are joined, at most.
const ROUNDS: u32 = 16;

/// What a macro takes besides its passage where it is defined and run, with an ID of five digits.
const DEFINITION_BYTES: usize = 21;

/// What a further run of it takes.
const RUN_BYTES: usize = 11;

/// A macro saves this many bytes at least.
const LEAST_SAVED: usize = 16;

/// Bytes of some pages.
#[derive(Clone, Copy)]
pub struct Passage {
    /// Where they stand.
    pub start: usize,
    pub len: usize,
    /// How often these bytes are the passage.
    pub uses: usize,
    /// Whether macros are defined or run in it, so that the ID is another one after it.
    pub has_macros: bool,
}

impl Passage {
    /// Whether it takes fewer bytes as a macro.
    pub fn is_macro(self) -> bool {
        bytes_of(self.len, self.uses) < self.len.saturating_mul(self.uses)
    }
}

/// How many bytes it takes to send some bytes so often: as a macro where that saves enough.
fn bytes_of(len: usize, uses: usize) -> usize {
    let plain = len.saturating_mul(uses);
    let runs = uses.saturating_sub(1).saturating_mul(RUN_BYTES);
    let as_macro = len.saturating_add(DEFINITION_BYTES).saturating_add(runs);
    if as_macro.saturating_add(LEAST_SAVED) <= plain {
        as_macro
    } else {
        plain
    }
}

/// Two passages in turn, by their numbers.
#[derive(Clone, Copy, PartialEq, Eq, Hash)]
struct Couple {
    first: usize,
    second: usize,
}

/// Which passages are joined in a step.
#[derive(Clone, Copy)]
enum Step {
    /// Those that stand side by side wherever one of them stands.
    Inseparable,
    /// Those that take fewer bytes so: of two couples that overlap the one that saves more.
    Sparing,
}

/// The passages of some pages.
#[derive(Drop)]
pub struct Passages {
    /// All of them, by their numbers.
    pub list: Vec<Passage>,
    /// The numbers of those of the pages, side by side from the start of the first page on.
    pub order: Vec<usize>,
}

impl Passages {
    /// Of no page.
    pub fn new(alloc: Global) -> Passages {
        Passages {
            list: Vec::new(alloc),
            order: Vec::new(alloc),
        }
    }

    /// Adds a passage that wasn't there.
    pub fn add(&mut self, start: usize, len: usize, has_macros: bool) -> Result<(), AllocError> {
        self.order.push(self.list.len())?;
        self.list.push(Passage {
            start,
            len,
            uses: 1,
            has_macros,
        })?;
        Ok(())
    }

    /// Adds a passage that was there.
    pub fn add_again(&mut self, number: usize) -> Result<(), AllocError> {
        self.order.push(number)?;
        if let Some(passage) = self.list.get_mut(number) {
            passage.uses = passage.uses.saturating_add(1);
        }
        Ok(())
    }

    /// The passage of a number.
    pub fn get(&self, number: usize) -> Passage {
        passage_of(&self.list, number)
    }

    /// The bytes of a passage in the text of its pages.
    pub fn bytes<'a>(&self, number: usize, text: &'a [u8]) -> &'a [u8] {
        let passage = self.get(number);
        let end = passage.start.saturating_add(passage.len);
        text.get(passage.start..end).unwrap_or(&[])
    }

    /// Joins passages that stand side by side again and again.
    pub fn join(&mut self, alloc: Global) -> Result<(), AllocError> {
        for _ in 0..ROUNDS {
            let count = self.order.len();
            self.join_once(alloc, Step::Inseparable)?;
            self.join_once(alloc, Step::Sparing)?;
            if self.order.len() == count {
                break;
            }
        }
        Ok(())
    }

    /// Joins the passages of a step.
    fn join_once(&mut self, alloc: Global, step: Step) -> Result<(), AllocError> {
        let couples = self.count(alloc)?;
        let joined = self.joined(alloc, &couples, step)?;
        let mut parts = Vec::new(alloc);
        swap(&mut parts, &mut self.order);
        self.order = order_of_joined(alloc, &mut self.list, &parts, &joined)?;
        self.count_uses();
        Ok(())
    }

    /// Counts how often each passage stands.
    fn count_uses(&mut self) {
        for passage in self.list.iter_mut() {
            passage.uses = 0;
        }
        for number in self.order.iter() {
            if let Some(passage) = self.list.get_mut(*number) {
                passage.uses = passage.uses.saturating_add(1);
            }
        }
    }

    /// The couples of passages, and how often each stands.
    fn count(&self, alloc: Global) -> Result<IndexMap<Couple, usize>, AllocError> {
        let mut counts = IndexMap::new(alloc);
        for place in 1..self.order.len() {
            if let Some(couple) = self.couple_to(place) {
                let count = counts.entry(couple)?.or_insert(0usize);
                *count = count.saturating_add(1);
            }
        }
        Ok(counts)
    }

    /// The passage in a place and the one before it.
    fn couple_to(&self, place: usize) -> Option<Couple> {
        Some(Couple {
            first: *self.order.get(place.checked_sub(1)?)?,
            second: *self.order.get(place)?,
        })
    }

    /// For each place whether the passage there is joined to the one before it.
    fn joined(
        &self,
        alloc: Global,
        couples: &IndexMap<Couple, usize>,
        step: Step,
    ) -> Result<Vec<bool>, AllocError> {
        let mut joined = Vec::new(alloc);
        let mut was_joined = false;
        for place in 0..self.order.len() {
            let is_joined = match step {
                Step::Inseparable => self.is_inseparable(place, couples),
                Step::Sparing => !was_joined && self.is_sparing(place, couples),
            };
            joined.push(is_joined)?;
            was_joined = is_joined;
        }
        Ok(joined)
    }

    /// Whether the passage in a place and the one before it stand side by side wherever one of them stands.
    fn is_inseparable(&self, place: usize, couples: &IndexMap<Couple, usize>) -> bool {
        let Some(couple) = self.couple_to(place) else {
            return false;
        };
        let count = couples.get(&couple).copied().unwrap_or(0);
        couple.first != couple.second
            && self.get(couple.first).uses == count
            && self.get(couple.second).uses == count
    }

    /// Whether it saves bytes to join the passage in a place to the one before it, and no more to join it to the next.
    fn is_sparing(&self, place: usize, couples: &IndexMap<Couple, usize>) -> bool {
        let saved = self.saved(place, couples);
        saved > 0 && self.saved(place.saturating_add(1), couples) <= saved
    }

    /// How many bytes are saved if the passage in a place is joined to the one before it wherever they stand so.
    fn saved(&self, place: usize, couples: &IndexMap<Couple, usize>) -> usize {
        let Some(couple) = self.couple_to(place) else {
            return 0;
        };
        let count = couples.get(&couple).copied().unwrap_or(0);
        if count < 2 || couple.first == couple.second {
            return 0;
        }
        let first = self.get(couple.first);
        let second = self.get(couple.second);
        let apart = bytes_of(first.len, first.uses).saturating_add(bytes_of(
            second.len,
            second.uses,
        ));
        let both = bytes_of(first.len.saturating_add(second.len), count);
        let left = bytes_of_left(first, count).saturating_add(bytes_of_left(second, count));
        apart.saturating_sub(both.saturating_add(left))
    }
}

/// How many bytes a passage takes where this many of its uses are joined to others.
fn bytes_of_left(passage: Passage, joined: usize) -> usize {
    match passage.uses.saturating_sub(joined) {
        0 => 0,
        uses => bytes_of(passage.len, uses),
    }
}

/// The order of passages in which those of some places are joined to the ones before them. Joined passages are added to the list.
fn order_of_joined(
    alloc: Global,
    list: &mut Vec<Passage>,
    parts: &[usize],
    joined: &[bool],
) -> Result<Vec<usize>, AllocError> {
    let mut made = IndexMap::new(alloc);
    let mut order = Vec::new(alloc);
    let mut end: usize = 0;
    for (place, number) in parts.iter().enumerate() {
        end = end.saturating_add(passage_of(list, *number).len);
        order.push(*number)?;
        if joined.get(place) == Some(&true) {
            join_last(list, &mut made, &mut order, end)?;
        }
    }
    Ok(order)
}

/// Joins the last two passages of an order, of which the second ends in this place.
fn join_last(
    list: &mut Vec<Passage>,
    made: &mut IndexMap<Couple, usize>,
    order: &mut Vec<usize>,
    end: usize,
) -> Result<(), AllocError> {
    let (Some(second), Some(first)) = (order.pop(), order.pop()) else {
        return Ok(());
    };
    let couple = Couple { first, second };
    if let Some(number) = made.get(&couple) {
        order.push(*number)?;
        return Ok(());
    }
    let number = list.len();
    list.push(both(passage_of(list, first), passage_of(list, second), end))?;
    made.insert(couple, number)?;
    order.push(number)?;
    Ok(())
}

/// Two passages side by side as one, which ends in this place.
fn both(first: Passage, second: Passage, end: usize) -> Passage {
    let len = first.len.saturating_add(second.len);
    Passage {
        start: end.saturating_sub(len),
        len,
        uses: 0,
        has_macros: first.has_macros || second.has_macros,
    }
}

/// The passage of a number.
fn passage_of(list: &[Passage], number: usize) -> Passage {
    match list.get(number) {
        Some(passage) => *passage,
        None => Passage {
            start: 0,
            len: 0,
            uses: 0,
            has_macros: false,
        },
    }
}
