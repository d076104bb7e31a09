//! How glyphs stand on their lines.
//!
//! On which row a line seems to stand differs by a dot with what is on it: bold letters may end a row lower than others do. So patterns are
//! taken in turn, those with the most shapes first, and each stands as it mostly does beside those before it. A pattern that often stands
//! otherwise, as an apostrophe that has the dots of a comma, is another glyph there.

use crate::frequency::{Frequency, count_uses};
use glyph_patterns::{LetterGlyph, Patterns, number_of_place};
use glyph_shapes::{Collection, PlacedShape};
use indexmap::IndexMap;
use std::alloc::{AllocError, Global};

/// About how many bytes a glyph of its own saves each time: those of moves to another row and back.
const MOVED_BYTES: usize = 8;

/// A shape of a pattern whose shapes are letters. Their order is that of their patterns, those with the most shapes first.
#[derive(Clone, Copy, PartialEq, Eq, PartialOrd, Ord)]
struct LetterShape {
    /// The place of its pattern in that order.
    rank: u32,
    /// The number of its line.
    line: u32,
    /// Its topmost row.
    top: u32,
}

/// A line of shapes.
#[derive(Clone, Copy)]
struct Line {
    /// The row on which it seems to stand.
    baseline: u32,
    /// The row on which it stands, if that is known.
    row: Option<u32>,
}

/// The lines of a job, in the order of printing.
#[derive(Drop)]
struct Lines {
    lines: Vec<Line>,
}

impl Lines {
    /// Those of the shapes of a collection. On which rows they stand isn't known yet.
    fn of(alloc: Global, collection: &Collection) -> Result<Lines, AllocError> {
        let mut lines = Vec::new(alloc);
        let mut count = LineCount::new();
        for shape in collection.placed.iter() {
            if count.number_of(shape) as usize == lines.len() {
                lines.push(Line {
                    baseline: u32::from(shape.baseline),
                    row: None,
                })?;
            }
        }
        Ok(Lines { lines })
    }

    /// How far a row lies above that of the line of this number, or below it under 0, if that is known.
    fn top_of(&self, line: u32, row: u32) -> Option<i32> {
        let stands = self.lines.get(line as usize)?.row;
        Some(rows_above(stands?, row))
    }

    /// How far the topmost row of a shape seems to lie above the row of its line, or below it under 0.
    fn stand_of(&self, shape: &LetterShape) -> i32 {
        match self.lines.get(shape.line as usize) {
            Some(line) => rows_above(line.baseline, shape.top),
            None => 0,
        }
    }

    /// Has the line of a shape stand where that shape does, whose topmost row lies so far above, unless it is known.
    fn add(&mut self, shape: &LetterShape, top: i32) {
        if let Some(line) = self.lines.get_mut(shape.line as usize) {
            if line.row.is_none() {
                line.row = Some(shape.top.saturating_add_signed(top));
            }
        }
    }

    /// Has the lines of shapes stand where these do, unless they are known.
    fn add_all(&mut self, shapes: &[LetterShape], top: i32) {
        for shape in shapes {
            self.add(shape, top);
        }
    }

    /// How often the topmost rows of shapes lie so far above the rows of their lines, as far as these are known.
    fn count_tops(
        &self,
        shapes: &[LetterShape],
        counts: &mut IndexMap<i32, u32>,
    ) -> Result<(), AllocError> {
        for shape in shapes {
            if let Some(top) = self.top_of(shape.line, shape.top) {
                count(top, counts)?;
            }
        }
        Ok(())
    }

    /// How often the topmost rows of shapes seem to lie so far above the rows of their lines.
    fn count_stands(
        &self,
        shapes: &[LetterShape],
        counts: &mut IndexMap<i32, u32>,
    ) -> Result<(), AllocError> {
        for shape in shapes {
            count(self.stand_of(shape), counts)?;
        }
        Ok(())
    }

    /// How far the topmost rows of shapes mostly lie above the rows of their lines, or seem to where none of these is known.
    fn usual_top(&self, alloc: Global, shapes: &[LetterShape]) -> Result<i32, AllocError> {
        let mut counts = IndexMap::new(alloc);
        self.count_tops(shapes, &mut counts)?;
        if counts.is_empty() {
            self.count_stands(shapes, &mut counts)?;
        }
        Ok(most_frequent(&counts))
    }
}

/// The shapes that are letters, in order.
#[derive(Drop)]
struct LetterShapes {
    shapes: Vec<LetterShape>,
    /// The patterns, those with the most shapes first.
    patterns: Vec<u32>,
}

impl LetterShapes {
    /// Those of a collection.
    fn of(
        alloc: Global,
        collection: &Collection,
        frequency: &Frequency,
    ) -> Result<LetterShapes, AllocError> {
        let patterns = sorted_patterns(alloc, collection)?;
        let ranks = ranks_of(alloc, &patterns)?;
        let mut shapes = Vec::new(alloc);
        let mut lines = LineCount::new();
        for shape in collection.placed.iter() {
            let line = lines.number_of(shape);
            if frequency.is_letter(shape.pattern) {
                shapes.push(LetterShape {
                    rank: ranks.get(shape.pattern as usize).copied().unwrap_or(0),
                    line,
                    top: u32::from(shape.top),
                })?;
            }
        }
        shapes.sort_unstable();
        Ok(LetterShapes { shapes, patterns })
    }

    /// The pattern of one of the shapes.
    fn pattern_of(&self, shape: &LetterShape) -> u32 {
        self.patterns.get(shape.rank as usize).copied().unwrap_or(0)
    }
}

/// The patterns of a collection, those with the most shapes first.
fn sorted_patterns(alloc: Global, collection: &Collection) -> Result<Vec<u32>, AllocError> {
    let uses = count_uses(alloc, collection)?;
    let mut patterns = Vec::new(alloc);
    for place in 0..uses.len() {
        patterns.push(number_of_place(place))?;
    }
    patterns.sort_by_key(|pattern| {
        let count = uses.get(*pattern as usize).copied().unwrap_or(0);
        usize::MAX.saturating_sub(count)
    })?;
    Ok(patterns)
}

/// For each pattern its place among these.
fn ranks_of(alloc: Global, patterns: &[u32]) -> Result<Vec<u32>, AllocError> {
    let mut ranks = vec![in alloc; 0u32; patterns.len()]?;
    for (rank, pattern) in patterns.iter().enumerate() {
        if let Some(place) = ranks.get_mut(*pattern as usize) {
            *place = number_of_place(rank);
        }
    }
    Ok(ranks)
}

/// How shapes that are letters stand on their lines.
#[derive(Drop)]
pub struct Standing {
    /// For each pattern, how far its topmost row mostly lies above the row of its line, or below it under 0.
    tops: Vec<i32>,
    lines: Lines,
    /// The glyphs that stand otherwise than their patterns mostly do, and how often they do.
    others: IndexMap<LetterGlyph, u32>,
}

impl Standing {
    /// How the shapes of a collection stand that are letters.
    pub fn new(
        alloc: Global,
        collection: &Collection,
        frequency: &Frequency,
    ) -> Result<Standing, AllocError> {
        let letters = LetterShapes::of(alloc, collection, frequency)?;
        let mut lines = Lines::of(alloc, collection)?;
        let tops = find_tops(alloc, &letters, &mut lines)?;
        let others = find_others(alloc, &letters, &collection.patterns, &tops, &lines)?;
        Ok(Standing {
            tops,
            lines,
            others,
        })
    }

    /// How far the topmost row of a shape on the line of this number lies above the baseline, or below it under 0.
    pub fn top_of(&self, shape: &PlacedShape, line: u32) -> i32 {
        let pattern = shape.pattern;
        if let Some(top) = self.lines.top_of(line, u32::from(shape.top)) {
            if self.others.contains_key(&LetterGlyph { pattern, top }) {
                return top;
            }
        }
        usual_top(&self.tops, pattern)
    }
}

/// How far the topmost row of a pattern mostly lies above the row of its line.
fn usual_top(tops: &[i32], pattern: u32) -> i32 {
    tops.get(pattern as usize).copied().unwrap_or(0)
}

/// The glyphs that stand otherwise than their patterns mostly do, where they save more bytes than they take.
fn find_others(
    alloc: Global,
    letters: &LetterShapes,
    patterns: &Patterns,
    tops: &[i32],
    lines: &Lines,
) -> Result<IndexMap<LetterGlyph, u32>, AllocError> {
    let mut others = IndexMap::new(alloc);
    for shape in letters.shapes.iter() {
        let pattern = letters.pattern_of(shape);
        if let Some(top) = lines.top_of(shape.line, shape.top) {
            if top != usual_top(tops, pattern) {
                let count = others.entry(LetterGlyph { pattern, top })?.or_insert(0u32);
                *count = count.saturating_add(1);
            }
        }
    }
    others.retain(|glyph: &LetterGlyph, count: &mut u32| -> bool {
        let saved = (*count as usize).saturating_mul(MOVED_BYTES);
        saved > patterns.definition_bytes(glyph.pattern)
    });
    Ok(others)
}

/// For each pattern whose shapes are letters, how far its topmost row mostly lies above the row of its line. Finds these rows.
fn find_tops(
    alloc: Global,
    letters: &LetterShapes,
    lines: &mut Lines,
) -> Result<Vec<i32>, AllocError> {
    let mut tops = vec![in alloc; 0i32; letters.patterns.len()]?;
    let mut rest = letters.shapes.as_slice();
    for _ in 0..tops.len() {
        let Some(first) = rest.first() else {
            break;
        };
        let rank = first.rank;
        let count = rest.partition_point(|shape| shape.rank == rank);
        let shapes = rest.get(..count).unwrap_or(&[]);
        let top = lines.usual_top(alloc, shapes)?;
        lines.add_all(shapes, top);
        set_top(&mut tops, letters.pattern_of(first), top);
        rest = rest.get(count..).unwrap_or(&[]);
    }
    Ok(tops)
}

/// Sets the number of a pattern.
fn set_top(tops: &mut [i32], pattern: u32, top: i32) {
    if let Some(number) = tops.get_mut(pattern as usize) {
        *number = top;
    }
}

/// Numbers the lines of shapes, which come in turn.
#[derive(Clone, Copy)]
pub struct LineCount<'a> {
    number: u32,
    before: Option<&'a PlacedShape>,
}

impl<'a> LineCount<'a> {
    /// Before the first shape.
    pub fn new() -> LineCount<'a> {
        LineCount {
            number: 0,
            before: None,
        }
    }

    /// The number of the line of the next shape, from 0.
    pub fn number_of(&mut self, shape: &'a PlacedShape) -> u32 {
        let is_next = self.before.is_some() && !is_on_line(self.before, shape);
        self.number = self.number.saturating_add(u32::from(is_next));
        self.before = Some(shape);
        self.number
    }
}

/// Whether a shape is on the line of the one before it.
fn is_on_line(before: Option<&PlacedShape>, shape: &PlacedShape) -> bool {
    match before {
        Some(before) => before.page == shape.page && before.baseline == shape.baseline,
        None => false,
    }
}

/// How far a row lies above that of a line, or below it under 0.
fn rows_above(line: u32, row: u32) -> i32 {
    let line = i32::try_from(line).unwrap_or(0);
    line.saturating_sub_unsigned(row)
}

/// Counts a number.
fn count(number: i32, counts: &mut IndexMap<i32, u32>) -> Result<(), AllocError> {
    let count = counts.entry(number)?.or_insert(0u32);
    *count = count.saturating_add(1);
    Ok(())
}

/// The number that is there most often, or 0 where there is none.
fn most_frequent(counts: &IndexMap<i32, u32>) -> i32 {
    let mut most: u32 = 0;
    let mut found: i32 = 0;
    for (number, count) in counts.iter() {
        if *count > most {
            most = *count;
            found = *number;
        }
    }
    found
}
