//! Series of rules: rules of one size, each as far from the one before, as those of a table are.

use glyph_patterns::append_labelled;
use glyph_shapes::Rule;
use std::alloc::{AllocError, Global};

/// About how many bytes the definition of the macro of a series takes.
const DEFINITION_BYTES: usize = 28;

/// The bytes that start its runs.
const START_BYTES: usize = 3;

/// About how many bytes it takes to set its ID.
const ID_BYTES: usize = 6;

/// About how many bytes a run saves: a move and a rectangle are eleven, a run two.
const SAVED_BYTES: usize = 9;

/// This many rules after one are looked at for the second of its series. Lines whose distance is no whole number of dots are two or three
/// series in one another.
const AHEAD: usize = 8;

/// How many macros series have at a time.
pub const SERIES_MACROS: usize = 8;

/// How far right and down of a rule the next one of its series stands, in dots.
#[derive(Clone, Copy, PartialEq, Eq)]
pub struct SeriesStep {
    right: u32,
    down: u32,
}

impl SeriesStep {
    /// The one from a rule to another: none where their sizes differ, or where it goes to the left or up.
    fn between(rule: Rule, next: Rule) -> Option<SeriesStep> {
        if rule.width != next.width || rule.height != next.height {
            return None;
        }
        Some(SeriesStep {
            right: next.left.checked_sub(rule.left)?,
            down: next.top.checked_sub(rule.top)?,
        })
    }

    /// The rule that it leads to from one.
    fn from(self, rule: Rule) -> Rule {
        Rule {
            height: rule.height,
            width: rule.width,
            left: rule.left.saturating_add(self.right),
            top: rule.top.saturating_add(self.down),
        }
    }

    /// Appends the move.
    fn append(self, out: &mut Vec<u8>) -> Result<(), AllocError> {
        if self.right == 0 {
            append_labelled(b"\x1b*p+", self.down, out)?;
            return out.extend_from_slice(b"Y");
        }
        append_labelled(b"\x1b*p+", self.right, out)?;
        if self.down == 0 {
            return out.extend_from_slice(b"X");
        }
        append_labelled(b"x+", self.down, out)?;
        out.extend_from_slice(b"Y")
    }
}

/// The rules of a series after its first one.
#[derive(Clone, Copy)]
pub struct Series {
    pub step: SeriesStep,
    /// How many they are.
    pub count: usize,
}

impl Series {
    /// How many bytes it saves, where the printer holds these macros: none if it saves none.
    fn saved(self, macros: SeriesMacros) -> Option<usize> {
        let definition = match macros.place_of(self.step) {
            None => DEFINITION_BYTES,
            place if place == macros.set => 0,
            _ => ID_BYTES,
        };
        let saved = self.count.saturating_mul(SAVED_BYTES);
        saved.checked_sub(definition.saturating_add(START_BYTES))
    }

    /// Appends its runs, and before them its macro, unless the printer holds it. Macros have this ID and those below it. Gives the macros
    /// that the printer holds then.
    pub fn append(
        self,
        macros: SeriesMacros,
        first_id: u32,
        out: &mut Vec<u8>,
    ) -> Result<SeriesMacros, AllocError> {
        let mut macros = macros;
        let place = macros.place_of(self.step);
        if place.is_none() {
            macros.hold(self.step);
            append_definition(self.step, macros.set_id(first_id), out)?;
        }
        out.extend_from_slice(b"\x1b&f")?;
        if place.is_some() && place != macros.set {
            macros.set = place;
            append_labelled(b"", macros.set_id(first_id), out)?;
            out.extend_from_slice(b"y")?;
        }
        for _ in 1..self.count {
            out.extend_from_slice(b"2x")?;
        }
        out.extend_from_slice(b"2X")?;
        Ok(macros)
    }
}

/// The macros of series that the printer holds.
#[derive(Clone, Copy)]
pub struct SeriesMacros {
    /// The step that each makes.
    steps: [Option<SeriesStep>; SERIES_MACROS],
    /// The place of the one whose ID is set, if one's is.
    set: Option<usize>,
    /// The place of the one that is defined next.
    next: usize,
}

impl SeriesMacros {
    /// After a reset.
    pub fn new() -> SeriesMacros {
        SeriesMacros {
            steps: [None; SERIES_MACROS],
            set: None,
            next: 0,
        }
    }

    /// At the start of a page, where the ID of another macro may be set.
    pub fn on_page(self) -> SeriesMacros {
        let mut macros = self;
        macros.set = None;
        macros
    }

    /// The place of the macro that makes a step, if there is one.
    fn place_of(self, step: SeriesStep) -> Option<usize> {
        self.steps.iter().position(|made| *made == Some(step))
    }

    /// Holds a macro that makes a step, in place of the oldest one, and its ID is set.
    fn hold(&mut self, step: SeriesStep) {
        if let Some(oldest) = self.steps.get_mut(self.next) {
            *oldest = Some(step);
        }
        self.set = Some(self.next);
        self.next = self.next.saturating_add(1) % SERIES_MACROS;
    }

    /// The ID that is set, of those from this one down.
    fn set_id(self, first_id: u32) -> u32 {
        let place = self.set.unwrap_or(0);
        first_id.saturating_sub(u32::try_from(place).unwrap_or(0))
    }
}

/// Appends the definition of a macro that makes a step and a rectangle of the size that is set. Its ID stays set.
fn append_definition(step: SeriesStep, id: u32, out: &mut Vec<u8>) -> Result<(), AllocError> {
    append_labelled(b"\x1b&f", id, out)?;
    out.extend_from_slice(b"y0X")?;
    step.append(out)?;
    out.extend_from_slice(b"\x1b*cP\x1b&f1X")
}

/// Rules of a page, of which some were written.
#[derive(Drop)]
pub struct RulesLeft<'a> {
    rules: &'a [Rule],
    are_left: Vec<bool>,
}

impl<'a> RulesLeft<'a> {
    /// None was written.
    pub fn new(alloc: Global, rules: &'a [Rule]) -> Result<RulesLeft<'a>, AllocError> {
        Ok(RulesLeft {
            rules,
            are_left: vec![in alloc; true; rules.len()]?,
        })
    }

    /// Whether the rule in a place is left.
    fn has(&self, place: usize) -> bool {
        self.are_left.get(place) == Some(&true)
    }

    /// Takes the rule in a place, and says whether it was left.
    pub fn take(&mut self, place: usize) -> bool {
        let was_left = self.has(place);
        if let Some(is_left) = self.are_left.get_mut(place) {
            *is_left = false;
        }
        was_left
    }

    /// Where a rule is among those that are left.
    fn place_of(&self, rule: Rule) -> Option<usize> {
        let place = self.rules.iter().position(|other| *other == rule)?;
        self.has(place).then_some(place)
    }

    /// The series of rules that are left that saves the most after a rule, whose place this is, if one saves any.
    pub fn longest_series(&self, rule: Rule, place: usize, macros: SeriesMacros) -> Option<Series> {
        let mut longest = None;
        let mut most: usize = 0;
        let start = place.saturating_add(1);
        for next in start..start.saturating_add(AHEAD) {
            if let Some(series) = self.series_to(rule, next) {
                let saved = series.saved(macros).unwrap_or(0);
                if saved > most {
                    most = saved;
                    longest = Some(series);
                }
            }
        }
        longest
    }

    /// The series after a rule whose second one is in a place.
    fn series_to(&self, rule: Rule, next: usize) -> Option<Series> {
        if !self.has(next) {
            return None;
        }
        let step = SeriesStep::between(rule, *self.rules.get(next)?)?;
        Some(Series {
            step,
            count: self.count_steps(rule, step),
        })
    }

    /// How many times a step leads from a rule to one that is left.
    fn count_steps(&self, rule: Rule, step: SeriesStep) -> usize {
        let mut count: usize = 0;
        let mut last = rule;
        for _ in 0..self.rules.len() {
            last = step.from(last);
            if self.place_of(last).is_none() {
                break;
            }
            count = count.saturating_add(1);
        }
        count
    }

    /// Takes the rules of a series after a rule, and gives the last one.
    pub fn take_series(&mut self, rule: Rule, series: Series) -> Rule {
        let mut last = rule;
        for _ in 0..series.count {
            last = series.step.from(last);
            if let Some(place) = self.place_of(last) {
                self.take(place);
            }
        }
        last
    }
}
