//! How far letters advance and where they stand from the cursor.
//!
//! Whoever placed the letters of a text added up widths that are no whole dots, and rounded each place. The distance from one
//! letter to the next is fitted, in parts of a dot, as a number of the first and one of the second, and these are rounded then:
//! so most letters follow from where the one before them stands, and the others are a dot off.

use crate::letters::Letter;
use crate::lists::{add, number_of, quotient};
use indexmap::IndexMap;
use std::alloc::{AllocError, Global};

/// The parts of a dot in which distances are fitted.
const DOT_PARTS: i64 = 64;

/// How often medians are taken, which distances across a space don't disturb, and then means of what is near.
const MEDIAN_ROUNDS: u32 = 8;

const MEAN_ROUNDS: u32 = 12;

/// Where there are more pairs of glyphs than this, as those of hundreds of rare ones, only those that come again are fitted.
const PAIR_LIMIT: usize = 8_192;

/// How letters advance and stand.
#[derive(Drop)]
pub struct Metrics {
    /// For each glyph, how far the cursor moves, in dots.
    pub advances: Vec<i32>,
    /// For each glyph, how far right of the cursor its left edge stands, in dots.
    pub bearings: Vec<i32>,
}

impl Metrics {
    /// How far the cursor moves after a glyph, in dots.
    pub fn advance(&self, glyph: u32) -> i32 {
        self.advances.get(glyph as usize).copied().unwrap_or(0)
    }

    /// How far right of the cursor the left edge of a glyph stands, in dots.
    pub fn bearing(&self, glyph: u32) -> i32 {
        self.bearings.get(glyph as usize).copied().unwrap_or(0)
    }

    /// The dot of the cursor where it prints a letter.
    pub fn place_of(&self, letter: &Letter) -> i32 {
        let x = i32::from(letter.x);
        x.saturating_sub(self.bearing(letter.glyph))
    }
}

/// The metrics that fit the letters of a job best, where `widths` are those of its pages. The place of the cursor at a letter is
/// on the page.
pub fn find_metrics(
    alloc: Global,
    widths: &[u32],
    letters: &[Letter],
    glyphs: usize,
) -> Result<Metrics, AllocError> {
    let mut pairs = find_pairs(alloc, letters)?;
    if pairs.len() > PAIR_LIMIT {
        pairs.retain(|pair: &Pair| -> bool { pair.count > 1 });
    }
    let mut fit = Fit::new(alloc, glyphs)?;
    fit.fit(alloc, &pairs)?;
    let shift = whole_shift(&pairs, &fit);
    let bearings = find_bearings(alloc, widths, letters, &fit, shift)?;
    fit.set_places(&bearings, shift);
    let advances = find_advances(alloc, &pairs, &fit, &bearings)?;
    Ok(Metrics { advances, bearings })
}

/// Two letters in turn, and how far apart they stand.
#[derive(Clone, Copy, PartialEq, Eq, PartialOrd, Ord, Hash)]
struct Step {
    left: u32,
    right: u32,
    /// In dots.
    distance: u32,
}

/// Two glyphs, and how far apart they mostly stand in turn.
#[derive(Clone, Copy)]
struct Pair {
    left: u32,
    right: u32,
    /// In fine parts of a dot.
    distance: i64,
    /// How often they stand so.
    count: u32,
}

/// How often letters stand so in turn.
fn count_steps(alloc: Global, letters: &[Letter]) -> Result<IndexMap<Step, u32>, AllocError> {
    let mut steps = IndexMap::new(alloc);
    add_steps(letters, &mut steps)?;
    Ok(steps)
}

/// Counts how letters stand in turn, and sorts the steps.
fn add_steps(letters: &[Letter], steps: &mut IndexMap<Step, u32>) -> Result<(), AllocError> {
    for (place, letter) in letters.iter().enumerate() {
        if let Some(next) = letters.get(place.saturating_add(1)) {
            add_step(letter, next, steps)?;
        }
    }
    steps.sort_keys()
}

/// Counts how two letters stand in turn, if they are on one line.
fn add_step(
    letter: &Letter,
    next: &Letter,
    steps: &mut IndexMap<Step, u32>,
) -> Result<(), AllocError> {
    if let Some(distance) = letter.gap_to(next) {
        let left = letter.glyph;
        let right = next.glyph;
        let step = Step {
            left,
            right,
            distance,
        };
        let count = steps.entry(step)?.or_insert(0u32);
        *count = count.saturating_add(1);
    }
    Ok(())
}

/// The pairs of glyphs that stand in turn: each with the mean of the two distances next to each other that are the most frequent
/// together.
fn find_pairs(alloc: Global, letters: &[Letter]) -> Result<Vec<Pair>, AllocError> {
    let steps = count_steps(alloc, letters)?;
    let mut pairs = Vec::new(alloc);
    add_pairs(&steps, &mut pairs)?;
    Ok(pairs)
}

/// Adds the pairs of steps, which are in order.
fn add_pairs(steps: &IndexMap<Step, u32>, pairs: &mut Vec<Pair>) -> Result<(), AllocError> {
    for (place, (step, count)) in steps.iter().enumerate() {
        let next = steps.get_index(place.saturating_add(1));
        add_pair(pair_of(*step, *count, next), pairs)?;
    }
    Ok(())
}

/// Adds a pair, or puts it in place of the last one if that is of the same glyphs and less frequent.
fn add_pair(pair: Pair, pairs: &mut Vec<Pair>) -> Result<(), AllocError> {
    match pairs.last_mut() {
        Some(last) if last.left == pair.left && last.right == pair.right => {
            if pair.count > last.count {
                *last = pair;
            }
        }
        _ => pairs.push(pair)?,
    }
    Ok(())
}

/// The pair of a step, and of the next one if it is a dot longer.
fn pair_of(step: Step, count: u32, next: Option<(&Step, &u32)>) -> Pair {
    let longer = Step {
        left: step.left,
        right: step.right,
        distance: step.distance.saturating_add(1),
    };
    let more = match next {
        Some((next, more)) if *next == longer => *more,
        _ => 0,
    };
    let all = count.saturating_add(more);
    let part = quotient(i64::from(more).saturating_mul(DOT_PARTS), i64::from(all));
    Pair {
        left: step.left,
        right: step.right,
        distance: i64::from(step.distance)
            .saturating_mul(DOT_PARTS)
            .saturating_add(part),
        count: all,
    }
}

/// One of the two glyphs of a pair.
#[derive(Clone, Copy, PartialEq, Eq)]
enum Side {
    Left,
    Right,
}

/// What is fitted so far: the distance of a pair is that of its left glyph and the place of its right one, in fine parts of a dot.
#[derive(Drop)]
struct Fit {
    /// For each glyph, how far its left edge lies left of the next letter's cursor.
    distances: Vec<i64>,
    /// For each glyph, how far right of the cursor it stands.
    places: Vec<i64>,
}

impl Fit {
    fn new(alloc: Global, glyphs: usize) -> Result<Fit, AllocError> {
        Ok(Fit {
            distances: vec![in alloc; 0i64; glyphs]?,
            places: vec![in alloc; 0i64; glyphs]?,
        })
    }

    /// Fits all pairs: by medians, and then by means, as long as these change anything.
    fn fit(&mut self, alloc: Global, pairs: &[Pair]) -> Result<(), AllocError> {
        for _ in 0..MEDIAN_ROUNDS {
            if !self.take_medians(alloc, pairs)? {
                break;
            }
        }
        for _ in 0..MEAN_ROUNDS {
            if !self.take_means(alloc, pairs)? {
                break;
            }
        }
        Ok(())
    }

    /// Takes the medians on both sides, and says whether any are new.
    fn take_medians(&mut self, alloc: Global, pairs: &[Pair]) -> Result<bool, AllocError> {
        let distances = medians(alloc, pairs, self, Side::Left)?;
        let has_new_distances = self.set_side(Side::Left, distances);
        let places = medians(alloc, pairs, self, Side::Right)?;
        Ok(self.set_side(Side::Right, places) || has_new_distances)
    }

    /// Takes the means on both sides, and says whether any are new.
    fn take_means(&mut self, alloc: Global, pairs: &[Pair]) -> Result<bool, AllocError> {
        let distances = means(alloc, pairs, self, Side::Left)?;
        let has_new_distances = self.set_side(Side::Left, distances);
        let places = means(alloc, pairs, self, Side::Right)?;
        Ok(self.set_side(Side::Right, places) || has_new_distances)
    }

    /// Sets the numbers of a side, and says whether any are new.
    fn set_side(&mut self, side: Side, numbers: Vec<i64>) -> bool {
        let old = self.side(side);
        let has_new = old
            .iter()
            .zip(numbers.iter())
            .any(|(old, new)| *old != *new);
        match side {
            Side::Left => {
                self.distances = numbers;
            }
            Side::Right => {
                self.places = numbers;
            }
        }
        has_new
    }

    /// The numbers of a side.
    fn side(&self, side: Side) -> &[i64] {
        match side {
            Side::Left => &self.distances,
            Side::Right => &self.places,
        }
    }

    /// What a pair says of the glyph on a side.
    fn sample(&self, pair: &Pair, side: Side) -> Sample {
        let (glyph, other) = match side {
            Side::Left => (pair.left, number_of(&self.places, pair.right as usize)),
            Side::Right => (pair.right, number_of(&self.distances, pair.left as usize)),
        };
        Sample {
            glyph,
            value: pair.distance.saturating_sub(other),
            count: pair.count,
        }
    }

    /// Sets the places to whole dots, and the distances so that their sums stay.
    fn set_places(&mut self, bearings: &[i32], shift: i64) {
        set_to_whole(bearings, &mut self.places);
        for distance in self.distances.iter_mut() {
            *distance = distance.saturating_add(shift);
        }
    }
}

/// Sets places to these, in dots.
fn set_to_whole(bearings: &[i32], places: &mut [i64]) {
    for (glyph, bearing) in bearings.iter().enumerate() {
        set(places, glyph, i64::from(*bearing).saturating_mul(DOT_PARTS));
    }
}

/// What a pair says of a glyph. Their order is that of glyphs, and of values.
#[derive(Clone, Copy, PartialEq, Eq, PartialOrd, Ord)]
struct Sample {
    glyph: u32,
    value: i64,
    count: u32,
}

/// For each glyph, the median of what the pairs say of it on a side.
fn medians(alloc: Global, pairs: &[Pair], fit: &Fit, side: Side) -> Result<Vec<i64>, AllocError> {
    let mut found = Vec::from_slice(alloc, fit.side(side))?;
    let mut samples = Vec::new(alloc);
    let mut left = vec![in alloc; 0i64; found.len()]?;
    for pair in pairs {
        let sample = fit.sample(pair, side);
        samples.push(sample)?;
        add(&mut left, sample.glyph as usize, i64::from(sample.count));
    }
    samples.sort_unstable();
    // Each sample takes its count twice from that of its glyph: the median is the first that brings it to 0.
    for sample in samples.iter() {
        let before = number_of(&left, sample.glyph as usize);
        let after = before.saturating_sub(i64::from(sample.count).saturating_mul(2));
        set(&mut left, sample.glyph as usize, after);
        if before > 0 && after <= 0 {
            set(&mut found, sample.glyph as usize, sample.value);
        }
    }
    Ok(found)
}

/// For each glyph, the mean of what the pairs say of it on a side, of those that lie within a dot of what is fitted so far.
fn means(alloc: Global, pairs: &[Pair], fit: &Fit, side: Side) -> Result<Vec<i64>, AllocError> {
    let old = fit.side(side);
    let mut sums = vec![in alloc; 0i64; old.len()]?;
    let mut counts = vec![in alloc; 0i64; old.len()]?;
    add_changes(pairs, fit, side, &mut sums, &mut counts);
    with_means(alloc, old, &sums, &counts)
}

/// Adds up what the pairs say of each glyph on a side, beyond what is fitted so far, where that is within a dot, and how often they
/// do.
fn add_changes(pairs: &[Pair], fit: &Fit, side: Side, sums: &mut [i64], counts: &mut [i64]) {
    let old = fit.side(side);
    for pair in pairs {
        let sample = fit.sample(pair, side);
        let change = sample
            .value
            .saturating_sub(number_of(old, sample.glyph as usize));
        if -DOT_PARTS <= change && change <= DOT_PARTS {
            let count = i64::from(sample.count);
            add(sums, sample.glyph as usize, change.saturating_mul(count));
            add(counts, sample.glyph as usize, count);
        }
    }
}

/// Each number with the mean of this many changes added to it, of which these are the sums.
fn with_means(
    alloc: Global,
    old: &[i64],
    sums: &[i64],
    counts: &[i64],
) -> Result<Vec<i64>, AllocError> {
    let mut found = Vec::new(alloc);
    for (glyph, number) in old.iter().enumerate() {
        let change = quotient(number_of(sums, glyph), number_of(counts, glyph));
        found.push(number.saturating_add(change))?;
    }
    Ok(found)
}

/// Sets the number of a glyph.
fn set(numbers: &mut [i64], glyph: usize, new: i64) {
    if let Some(number) = numbers.get_mut(glyph) {
        *number = new;
    }
}

/// The part of a dot by which all places are moved so that they are nearest to whole dots. What is fitted says nothing of it,
/// since distances make up for it.
fn whole_shift(pairs: &[Pair], fit: &Fit) -> i64 {
    let mut best = 0;
    let mut least = i64::MAX;
    for shift in 0..DOT_PARTS {
        let sum = distance_to_whole(pairs, fit, shift);
        if sum < least {
            best = shift;
            least = sum;
        }
    }
    best
}

/// How far places are from whole dots, of all pairs together, where they are moved to the left so far.
fn distance_to_whole(pairs: &[Pair], fit: &Fit, shift: i64) -> i64 {
    let mut sum: i64 = 0;
    for pair in pairs {
        let moved = number_of(&fit.places, pair.right as usize).saturating_sub(shift);
        let part = moved.rem_euclid(DOT_PARTS);
        let off = part.min(DOT_PARTS.saturating_sub(part));
        sum = sum.saturating_add(off.saturating_mul(i64::from(pair.count)));
    }
    sum
}

/// The whole dots of a number of fine parts, rounded to the nearest.
fn nearest_whole(number: i64) -> i32 {
    let half = DOT_PARTS / 2;
    i32::try_from(number.saturating_add(half).div_euclid(DOT_PARTS)).unwrap_or(0)
}

/// For each glyph, how far right of the cursor it stands, in dots, on pages of these widths.
fn find_bearings(
    alloc: Global,
    widths: &[u32],
    letters: &[Letter],
    fit: &Fit,
    shift: i64,
) -> Result<Vec<i32>, AllocError> {
    let rooms = find_room(alloc, widths, letters, fit.places.len())?;
    whole_places(alloc, fit, shift, &rooms)
}

/// For each glyph, how far the cursor moves, in dots, where the glyphs stand so from the cursor.
fn find_advances(
    alloc: Global,
    pairs: &[Pair],
    fit: &Fit,
    bearings: &[i32],
) -> Result<Vec<i32>, AllocError> {
    let distances = means(alloc, pairs, fit, Side::Left)?;
    whole_advances(alloc, &distances, bearings)
}

/// The places that a glyph may have, in dots.
#[derive(Clone, Copy)]
struct Room {
    least: i32,
    most: i32,
}

/// For each glyph, the places that it may have where the cursor is to be on the page at all its letters.
fn find_room(
    alloc: Global,
    widths: &[u32],
    letters: &[Letter],
    glyphs: usize,
) -> Result<Vec<Room>, AllocError> {
    let all = Room {
        least: i32::MIN,
        most: i32::MAX,
    };
    let mut rooms = vec![in alloc; all; glyphs]?;
    for letter in letters {
        let width = widths.get(usize::from(letter.page)).copied().unwrap_or(0);
        let width = i32::try_from(width).unwrap_or(0);
        let x = i32::from(letter.x);
        if let Some(room) = rooms.get_mut(letter.glyph as usize) {
            room.most = room.most.min(x);
            room.least = room.least.max(x.saturating_add(1).saturating_sub(width));
        }
    }
    Ok(rooms)
}

/// For each glyph, how far right of the cursor it stands, in dots.
fn whole_places(
    alloc: Global,
    fit: &Fit,
    shift: i64,
    rooms: &[Room],
) -> Result<Vec<i32>, AllocError> {
    let mut bearings = Vec::new(alloc);
    for (glyph, room) in rooms.iter().enumerate() {
        let bearing = nearest_whole(number_of(&fit.places, glyph).saturating_sub(shift));
        bearings.push(bearing.max(room.least).min(room.most))?;
    }
    Ok(bearings)
}

/// For each glyph, how far the cursor moves, in dots.
fn whole_advances(
    alloc: Global,
    distances: &[i64],
    bearings: &[i32],
) -> Result<Vec<i32>, AllocError> {
    let mut advances = Vec::new(alloc);
    for (glyph, bearing) in bearings.iter().enumerate() {
        let place = i64::from(*bearing).saturating_mul(DOT_PARTS);
        let advance = number_of(distances, glyph).saturating_add(place);
        advances.push(nearest_whole(advance))?;
    }
    Ok(advances)
}
