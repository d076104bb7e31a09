//! Which patterns take fewer bytes as letters than in the rasters of their pages.
//!
//! What shapes take in a row depends on what else is in it: they share the bytes around its data, and many small ones share each byte of
//! these. So each row is taken to cost what its data take, and each shape its part of that. A row from which letters went costs those
//! that are left more, which is why patterns are looked at in rounds.
//!
//! At last all letters are looked at together, by what the rows save that they leave: a row of a picture saves nothing where others fill
//! the same bytes. Characters past the first two fonts take a selection each time.

use glyph_patterns::{
    FINE, FontUses, Form, Row, RowParts, SELECTION_BYTES, add, in_fine_parts, number_of,
    number_of_place, quotient, short_number, sum_parts, sum_saved,
};
use glyph_shapes::{Collection, PlacedShape};
use std::alloc::{AllocError, Global};

/// How often all patterns are looked at, at most.
const ROUNDS: u32 = 4;

/// How often all letters are looked at together.
const LETTER_ROUNDS: u32 = 3;

/// Letters go back to the raster where they take more than this many times the bytes that they save, which are estimated.
const LEFT_TIMES: i64 = 2;

/// What the shapes of each pattern take.
#[derive(Drop)]
pub struct Frequency {
    /// For each pattern, whether all its shapes take fewer bytes as letters than in rasters.
    are_letters: Vec<bool>,
    /// For each pattern, about how many bytes its shapes take in rasters, in fine parts, unless they are letters.
    costs: Vec<i64>,
}

impl Frequency {
    /// Whether the shapes of a pattern are letters. Those of a pattern that came later are.
    pub fn is_letter(&self, pattern: u32) -> bool {
        self.are_letters
            .get(pattern as usize)
            .copied()
            .unwrap_or(true)
    }

    /// About how many bytes this many of all shapes of a pattern take in rasters, which are no letters.
    pub fn raster_bytes(&self, pattern: u32, count: usize, all: usize) -> usize {
        let count = i64::try_from(count).unwrap_or(0);
        let all = i64::try_from(all).unwrap_or(0);
        let cost = number_of(&self.costs, pattern as usize).saturating_mul(count);
        usize::try_from(quotient(cost, all.saturating_mul(FINE))).unwrap_or(0)
    }

    /// About how many bytes all shapes take at least: the letters a code each, and what prints them; the others what they take in rasters.
    pub fn bytes_of_shapes(
        &self,
        alloc: Global,
        collection: &Collection,
    ) -> Result<usize, AllocError> {
        let mut bytes: usize = 0;
        for (place, count) in count_uses(alloc, collection)?.iter().enumerate() {
            let pattern = number_of_place(place);
            let taken = if self.is_letter(pattern) {
                collection
                    .patterns
                    .definition_bytes(pattern)
                    .saturating_add(*count)
            } else {
                self.raster_bytes(pattern, *count, *count)
            };
            bytes = bytes.saturating_add(taken);
        }
        Ok(bytes)
    }

    /// How many shapes are letters.
    pub fn letter_count(
        &self,
        alloc: Global,
        collection: &Collection,
    ) -> Result<usize, AllocError> {
        let mut letters: usize = 0;
        for (place, count) in count_uses(alloc, collection)?.iter().enumerate() {
            if self.is_letter(number_of_place(place)) {
                letters = letters.saturating_add(*count);
            }
        }
        Ok(letters)
    }

    /// Looks at all patterns once more, which have this many shapes. Says whether there are new letters.
    fn look_again(
        &mut self,
        alloc: Global,
        collection: &Collection,
        uses: &[usize],
    ) -> Result<bool, AllocError> {
        self.costs = shape_bytes(alloc, collection, self, Side::Raster)?;
        let are_letters = find_cheaper(alloc, collection, uses, self)?;
        let has_new = are_letters
            .iter()
            .zip(self.are_letters.iter())
            .any(|(new, old)| *new && !*old);
        self.are_letters = are_letters;
        Ok(has_new)
    }

    /// Looks at all letters together: those of a pattern that save too little are none. Says whether there are such.
    fn look_at_letters(
        &mut self,
        alloc: Global,
        collection: &Collection,
        uses: &[usize],
    ) -> Result<bool, AllocError> {
        let saved = shape_bytes(alloc, collection, self, Side::Letters)?;
        let near_uses = self.near_uses(alloc, collection.form, uses)?;
        let mut is_left = false;
        for (place, count) in uses.iter().enumerate() {
            let bytes = in_fine_parts(letter_bytes(collection, place, *count, near_uses));
            if number_of(&saved, place).saturating_mul(LEFT_TIMES) < bytes {
                is_left |= self.leave(place);
            }
        }
        Ok(is_left)
    }

    /// Has the shapes of a pattern be no letters. Says whether they were.
    fn leave(&mut self, place: usize) -> bool {
        match self.are_letters.get_mut(place) {
            Some(is_letter) => {
                let was_letter = *is_letter;
                *is_letter = false;
                was_letter
            }
            None => false,
        }
    }

    /// How many shapes each pattern of letters has at least that has its code in the first two fonts.
    fn near_uses(&self, alloc: Global, form: Form, uses: &[usize]) -> Result<usize, AllocError> {
        let Form::Characters(_) = form else {
            return Ok(0);
        };
        let mut letters = FontUses::new(alloc)?;
        for (place, count) in uses.iter().enumerate() {
            if self.is_letter(number_of_place(place)) {
                letters.add(*count);
            }
        }
        Ok(letters.least_of_fonts(2))
    }
}

/// About how many bytes as many shapes of a pattern take as letters. Where they are fewer than this, each takes a selection.
fn letter_bytes(collection: &Collection, place: usize, count: usize, near_uses: usize) -> usize {
    let definition = collection.patterns.definition_bytes(number_of_place(place));
    let bytes = collection.form.bytes_of_letters(definition, count);
    if count < near_uses {
        bytes.saturating_add(count.saturating_mul(SELECTION_BYTES))
    } else {
        bytes
    }
}

/// What the shapes of each pattern take.
pub fn find_frequency(alloc: Global, collection: &Collection) -> Result<Frequency, AllocError> {
    let uses = count_uses(alloc, collection)?;
    let mut frequency = Frequency {
        are_letters: vec![in alloc; false; uses.len()]?,
        costs: vec![in alloc; 0i64; uses.len()]?,
    };
    for _ in 0..ROUNDS {
        if !frequency.look_again(alloc, collection, &uses)? {
            break;
        }
    }
    for _ in 0..LETTER_ROUNDS {
        if !frequency.look_at_letters(alloc, collection, &uses)? {
            return Ok(frequency);
        }
    }
    frequency.costs = shape_bytes(alloc, collection, &frequency, Side::Raster)?;
    Ok(frequency)
}

/// How many shapes each pattern has.
pub fn count_uses(alloc: Global, collection: &Collection) -> Result<Vec<usize>, AllocError> {
    let mut uses = vec![in alloc; 0usize; collection.patterns.len()]?;
    for shape in collection.placed.iter() {
        if let Some(count) = uses.get_mut(shape.pattern as usize) {
            *count = count.saturating_add(1);
        }
    }
    Ok(uses)
}

/// The shapes of a page, and its rows with the white one below them.
#[derive(Clone, Copy)]
struct PageShapes<'a> {
    placed: &'a [PlacedShape],
    rows: &'a [Row],
}

impl<'a> PageShapes<'a> {
    /// Those of a page, of the shapes from this place on, which are of this page and later ones.
    fn of(collection: &'a Collection, page: usize, from: usize) -> PageShapes<'a> {
        let placed = collection.placed.get(from..).unwrap_or(&[]);
        let count = placed.partition_point(|shape| usize::from(shape.page) <= page);
        let start = collection.starts.get(page).copied().unwrap_or(0);
        PageShapes {
            placed: placed.get(..count).unwrap_or(&[]),
            rows: collection.rows.get(start..).unwrap_or(&[]),
        }
    }

    /// The rows of the page, which has this height.
    fn rows_of(self, height: u32) -> &'a [Row] {
        let count = (height as usize).saturating_add(1);
        self.rows.get(..count).unwrap_or(self.rows)
    }
}

/// Which shapes are looked at.
#[derive(Clone, Copy, PartialEq, Eq)]
enum Side {
    /// Those that aren't letters, by what they take.
    Raster,
    /// The letters, by what the rows save that all of them leave.
    Letters,
}

impl Side {
    /// Whether a shape is one of those.
    fn has(self, frequency: &Frequency, shape: &PlacedShape) -> bool {
        frequency.is_letter(shape.pattern) == (self == Side::Letters)
    }
}

/// For each pattern, about how many bytes its shapes of this side take in rasters, or save there, in fine parts.
fn shape_bytes(
    alloc: Global,
    collection: &Collection,
    frequency: &Frequency,
    side: Side,
) -> Result<Vec<i64>, AllocError> {
    let mut bytes = vec![in alloc; 0i64; collection.patterns.len()]?;
    let mut place: usize = 0;
    for page in 0..collection.starts.len() {
        let shapes = PageShapes::of(collection, page, place);
        place = place.saturating_add(shapes.placed.len());
        if !shapes.placed.is_empty() {
            let height = collection.height_of(short_number(number_of_place(page)));
            let rows = shapes.rows_of(height);
            let sums = sums_on_page(alloc, collection, frequency, shapes, rows, side)?;
            add_bytes(collection, frequency, shapes, side, &sums, &mut bytes);
        }
    }
    Ok(bytes)
}

/// What all rows of a page before each one together take or save.
fn sums_on_page(
    alloc: Global,
    collection: &Collection,
    frequency: &Frequency,
    shapes: PageShapes<'_>,
    rows: &[Row],
    side: Side,
) -> Result<Vec<RowParts>, AllocError> {
    let raster = changes_of(
        alloc,
        collection,
        frequency,
        shapes,
        rows.len(),
        Side::Raster,
    )?;
    match side {
        Side::Raster => sum_parts(alloc, rows, &raster),
        Side::Letters => {
            let letters = changes_of(alloc, collection, frequency, shapes, rows.len(), side)?;
            sum_saved(alloc, rows, &raster, &letters)
        }
    }
}

/// By how much the weights of the shapes of a page of this side are more in each of its rows together than in the row before it.
fn changes_of(
    alloc: Global,
    collection: &Collection,
    frequency: &Frequency,
    shapes: PageShapes<'_>,
    rows: usize,
    side: Side,
) -> Result<Vec<i64>, AllocError> {
    let mut changes = vec![in alloc; 0i64; rows.saturating_add(1)]?;
    for shape in shapes.placed {
        if side.has(frequency, shape) {
            let weight = collection.patterns.weight(shape.pattern);
            add(&mut changes, usize::from(shape.top), weight);
            add(
                &mut changes,
                row_past(collection, shape),
                0i64.saturating_sub(weight),
            );
        }
    }
    Ok(changes)
}

/// Adds about how many bytes the shapes of a page of this side take or save to those of their patterns, in fine parts.
fn add_bytes(
    collection: &Collection,
    frequency: &Frequency,
    shapes: PageShapes<'_>,
    side: Side,
    sums: &[RowParts],
    bytes: &mut [i64],
) {
    for shape in shapes.placed {
        if side.has(frequency, shape) {
            let weight = collection.patterns.weight(shape.pattern);
            let top = usize::from(shape.top);
            let parts = RowParts::between(sums, top, row_past(collection, shape), weight);
            add(bytes, shape.pattern as usize, parts);
        }
    }
}

/// The row past the white one below a shape.
fn row_past(collection: &Collection, shape: &PlacedShape) -> usize {
    usize::from(shape.top).saturating_add(collection.patterns.row_count(shape.pattern))
}

/// For each pattern, whether its shapes are letters already, or take fewer bytes so.
fn find_cheaper(
    alloc: Global,
    collection: &Collection,
    uses: &[usize],
    frequency: &Frequency,
) -> Result<Vec<bool>, AllocError> {
    let mut are_letters = Vec::new(alloc);
    for (place, count) in uses.iter().enumerate() {
        let number = number_of_place(place);
        let cost = number_of(&frequency.costs, place);
        let bytes = letter_bytes(collection, place, *count, 0);
        let is_cheaper = cost > in_fine_parts(bytes) && collection.patterns.get(number).is_some();
        are_letters.push(frequency.is_letter(number) || is_cheaper)?;
    }
    Ok(are_letters)
}
