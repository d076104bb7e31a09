//! Shapes that stand above each other on a line, as the dot and the stem of an i do, joined to one where that takes fewer bytes.

use crate::frequency::{Frequency, count_uses};
use glyph_patterns::{Drawing, Form, Pattern, Patterns, short_number};
use glyph_shapes::{Collection, PlacedShape};
use indexmap::IndexMap;
use std::alloc::{AllocError, Global};

/// How often shapes are joined two by two, in rounds: one of the last round has up to eight parts.
const ROUNDS: u32 = 3;

/// About how many bytes a letter takes that is joined to another: its code, and a part of the way to it; in macros less than the five
/// that run one, since phrases join letters too.
const CODE_BYTES: usize = 2;

/// Where there are more kinds of pairs than this no shapes are joined: a text has some hundreds, a crowd of specks as many as shapes.
const PAIR_LIMIT: usize = 8_192;

/// Two patterns in turn on a line that have columns in common, and how they stand. The first one begins further left.
#[derive(Clone, Copy, PartialEq, Eq, Hash)]
struct Pair {
    /// The number of the first pattern.
    first: u32,
    second: u32,
    /// How far right of the first pattern's left edge that of the second lies, in dots.
    right: u32,
    /// How far below the topmost row of both that of the first lies, in dots.
    first_down: u32,
    second_down: u32,
}

/// What the patterns of a job take before some are joined.
#[derive(Clone, Copy)]
struct Apart<'a> {
    frequency: &'a Frequency,
    /// How many shapes each pattern has.
    uses: &'a [usize],
}

/// Joins shapes that stand above each other on a line, where that takes fewer bytes: two by two until there are none to join, or they have
/// as many parts as they may. `frequency` is what the shapes of each pattern took before any were divided. Says whether any were joined.
pub fn join_shapes(
    alloc: Global,
    collection: &mut Collection,
    frequency: &Frequency,
) -> Result<bool, AllocError> {
    for round in 0..ROUNDS {
        if !join_once(alloc, collection, frequency)? {
            return Ok(round > 0);
        }
    }
    Ok(true)
}

/// Joins shapes two by two, and says whether there were any to join.
fn join_once(
    alloc: Global,
    collection: &mut Collection,
    frequency: &Frequency,
) -> Result<bool, AllocError> {
    collection.placed.sort()?;
    let mut pairs = find_pairs(alloc, collection, frequency)?;
    join(alloc, collection, &mut pairs)?;
    Ok(!pairs.is_empty())
}

/// The pairs that take fewer bytes as one, and how often each is joined.
fn find_pairs(
    alloc: Global,
    collection: &Collection,
    frequency: &Frequency,
) -> Result<IndexMap<Pair, usize>, AllocError> {
    let uses = count_uses(alloc, collection)?;
    let apart = Apart {
        frequency,
        uses: &uses,
    };
    let pairs = joined_pairs(alloc, collection, apart)?;
    shorter_pairs(alloc, collection, apart, &pairs)
}

/// The first pairs, and how often each would be joined.
fn joined_pairs(
    alloc: Global,
    collection: &Collection,
    apart: Apart<'_>,
) -> Result<IndexMap<Pair, usize>, AllocError> {
    let pairs = first_pairs(alloc, collection, apart)?;
    // A pair may overlap another that is more frequent: what counts is how often it would be joined.
    count_joined(alloc, collection, &pairs)
}

/// The pairs that would take fewer bytes as one if all of them were joined.
fn first_pairs(
    alloc: Global,
    collection: &Collection,
    apart: Apart<'_>,
) -> Result<IndexMap<Pair, usize>, AllocError> {
    let pairs = count_pairs(alloc, collection)?;
    shorter_pairs(alloc, collection, apart, &pairs)
}

/// How often each pair is there: none where there are too many kinds.
fn count_pairs(
    alloc: Global,
    collection: &Collection,
) -> Result<IndexMap<Pair, usize>, AllocError> {
    let mut counts = IndexMap::new(alloc);
    for place in 0..collection.placed.len() {
        if let Some(pair) = two_at(collection, place) {
            count_pair(pair, &mut counts)?;
        }
        if counts.len() > PAIR_LIMIT {
            return Ok(IndexMap::new(alloc));
        }
    }
    Ok(counts)
}

/// Counts a pair.
fn count_pair(pair: Pair, counts: &mut IndexMap<Pair, usize>) -> Result<(), AllocError> {
    let count = counts.entry(pair)?.or_insert(0usize);
    *count = count.saturating_add(1);
    Ok(())
}

/// The pair of two shapes, the first of which begins no further right: none where they stand on two lines, or beside each other.
fn pair_of(patterns: &Patterns, first: &PlacedShape, second: &PlacedShape) -> Option<Pair> {
    if first.page != second.page || first.baseline != second.baseline {
        return None;
    }
    let right = u32::from(second.x.checked_sub(first.x)?);
    let width = patterns.width_of(first.pattern)?;
    (right < width).then_some(Pair {
        first: first.pattern,
        second: second.pattern,
        right,
        first_down: u32::from(first.top.saturating_sub(second.top)),
        second_down: u32::from(second.top.saturating_sub(first.top)),
    })
}

/// Those of some pairs that take fewer bytes as one, where they are joined so often.
fn shorter_pairs(
    alloc: Global,
    collection: &Collection,
    apart: Apart<'_>,
    counts: &IndexMap<Pair, usize>,
) -> Result<IndexMap<Pair, usize>, AllocError> {
    let mut kept = IndexMap::new(alloc);
    keep_shorter(alloc, collection, apart, counts, &mut kept)?;
    Ok(kept)
}

/// Keeps those of some pairs that take fewer bytes as one, where they are joined so often.
fn keep_shorter(
    alloc: Global,
    collection: &Collection,
    apart: Apart<'_>,
    counts: &IndexMap<Pair, usize>,
    kept: &mut IndexMap<Pair, usize>,
) -> Result<(), AllocError> {
    for (pair, count) in counts.iter() {
        if apart.is_longer(alloc, collection, *pair, *count)? {
            kept.insert(*pair, *count)?;
        }
    }
    Ok(())
}

impl<'a> Apart<'a> {
    /// Whether a pair takes more bytes apart than it does where it is joined so often.
    fn is_longer(
        self,
        alloc: Global,
        collection: &Collection,
        pair: Pair,
        count: usize,
    ) -> Result<bool, AllocError> {
        let patterns = &collection.patterns;
        let freed = self.freed_by_pair(collection, pair, count);
        // What prints both is taken to need no fewer bytes than what prints one of them.
        let least = patterns.definition_bytes(pair.first);
        if freed <= least.max(patterns.definition_bytes(pair.second)) {
            return Ok(false);
        }
        match draw_pair(alloc, collection, pair)? {
            Some(joined) => Ok(
                self.joined_bytes(collection.form, pair, joined.pattern(), count) < freed,
            ),
            None => Ok(false),
        }
    }

    /// About how many bytes a pair takes that is joined so often to this pattern.
    fn joined_bytes(self, form: Form, pair: Pair, joined: Pattern<'_>, count: usize) -> usize {
        let definition = form.definition_bytes(joined, joined.changes());
        let is_letter = self.frequency.is_letter(pair.first)
            || self.frequency.is_letter(pair.second);
        if is_letter {
            count.saturating_mul(CODE_BYTES).saturating_add(definition)
        } else {
            form.bytes_of_letters(definition, count)
        }
    }

    /// About how many bytes fewer the patterns of a pair take where it is joined so often.
    fn freed_by_pair(self, collection: &Collection, pair: Pair, count: usize) -> usize {
        if pair.first == pair.second {
            return self.freed(collection, pair.first, count.saturating_mul(2));
        }
        self.freed(collection, pair.first, count)
            .saturating_add(self.freed(collection, pair.second, count))
    }

    /// About how many bytes fewer a pattern takes without this many of its shapes: what prints it isn't sent where none is left.
    fn freed(self, collection: &Collection, pattern: u32, count: usize) -> usize {
        let all = self.uses.get(pattern as usize).copied().unwrap_or(0);
        if !self.frequency.is_letter(pattern) {
            return self.frequency.raster_bytes(pattern, count, all);
        }
        let definition = if all <= count {
            collection.patterns.definition_bytes(pattern)
        } else {
            0
        };
        definition.saturating_add(count.saturating_mul(CODE_BYTES))
    }
}

/// The dots of a pair: none where a pattern would be too large.
fn draw_pair(
    alloc: Global,
    collection: &Collection,
    pair: Pair,
) -> Result<Option<Drawing>, AllocError> {
    let patterns = &collection.patterns;
    let (Some(first), Some(second)) = (patterns.get(pair.first), patterns.get(pair.second)) else {
        return Ok(None);
    };
    let width = first.width.max(second.width.saturating_add(pair.right));
    let upper = first.height.saturating_add(pair.first_down);
    let height = upper.max(second.height.saturating_add(pair.second_down));
    let scale = collection.form.scale();
    let Some(mut joined) = Drawing::white(alloc, width, height, scale)? else {
        return Ok(None);
    };
    joined.blacken_with(first, 0, pair.first_down);
    joined.blacken_with(second, pair.right, pair.second_down);
    Ok(Some(joined))
}

/// How often each of these pairs would be joined.
fn count_joined(
    alloc: Global,
    collection: &Collection,
    pairs: &IndexMap<Pair, usize>,
) -> Result<IndexMap<Pair, usize>, AllocError> {
    let mut counts = IndexMap::new(alloc);
    if pairs.is_empty() {
        return Ok(counts);
    }
    let mut walk = PairWalk::new(collection, pairs);
    for place in 0..collection.placed.len() {
        if let Part::First(pair) = walk.part_at(collection, place, pairs) {
            count_pair(pair, &mut counts)?;
        }
    }
    Ok(counts)
}

/// One of the pairs that may be joined, and how often it is there.
#[derive(Clone, Copy)]
struct Counted {
    pair: Pair,
    count: usize,
}

impl Counted {
    /// The pair at a place, if it is one of these.
    fn at(collection: &Collection, place: usize, pairs: &IndexMap<Pair, usize>) -> Option<Counted> {
        let pair = two_at(collection, place)?;
        let count = *pairs.get(&pair)?;
        Some(Counted { pair, count })
    }

    /// Whether it is less frequent than the next one, which overlaps it.
    fn is_rarer_than(self, next: Option<Counted>) -> bool {
        match next {
            Some(next) => self.count < next.count,
            None => false,
        }
    }
}

/// Which part a shape has where pairs are joined.
#[derive(Clone, Copy)]
enum Part {
    Alone,
    /// It is the first one of this pair.
    First(Pair),
    /// It is the second one of the pair that the shape before it is the first of.
    Second,
}

/// Goes from shape to shape, and says which are joined.
#[derive(Clone, Copy)]
struct PairWalk {
    /// The pair at the next place, if it is one of those that may be joined.
    next: Option<Counted>,
    /// Whether the shape at the next place is the second one of a pair.
    is_joined: bool,
}

impl PairWalk {
    /// Before the first shape.
    fn new(collection: &Collection, pairs: &IndexMap<Pair, usize>) -> PairWalk {
        PairWalk {
            next: Counted::at(collection, 0, pairs),
            is_joined: false,
        }
    }

    /// The part of the shape at the next place, which this is, where these pairs may be joined.
    fn part_at(
        &mut self,
        collection: &Collection,
        place: usize,
        pairs: &IndexMap<Pair, usize>,
    ) -> Part {
        let here = self.next;
        self.next = Counted::at(collection, place.saturating_add(1), pairs);
        if self.is_joined {
            self.is_joined = false;
            return Part::Second;
        }
        match here {
            Some(here) if !here.is_rarer_than(self.next) => {
                self.is_joined = true;
                Part::First(here.pair)
            }
            _ => Part::Alone,
        }
    }
}

/// The pair of the two shapes from a place on.
fn two_at(collection: &Collection, place: usize) -> Option<Pair> {
    let first = collection.placed.get(place)?;
    let second = collection.placed.get(place.saturating_add(1))?;
    pair_of(&collection.patterns, first, second)
}

/// Joins these pairs, if there are any, and drops those for whose patterns there is no room.
fn join(
    alloc: Global,
    collection: &mut Collection,
    pairs: &mut IndexMap<Pair, usize>,
) -> Result<(), AllocError> {
    if pairs.is_empty() {
        return Ok(());
    }
    let mut numbers = IndexMap::new(alloc);
    add_patterns(alloc, collection, pairs, &mut numbers)?;
    pairs.retain(|pair: &Pair, _count: &mut usize| -> bool { numbers.contains_key(pair) });
    join_items(collection, pairs, &numbers);
    Ok(())
}

/// Adds the patterns of these pairs, and their numbers.
fn add_patterns(
    alloc: Global,
    collection: &mut Collection,
    pairs: &IndexMap<Pair, usize>,
    numbers: &mut IndexMap<Pair, u32>,
) -> Result<(), AllocError> {
    for pair in pairs.keys() {
        add_pattern(alloc, collection, *pair, numbers)?;
    }
    Ok(())
}

/// Adds the pattern of a pair, and its number.
fn add_pattern(
    alloc: Global,
    collection: &mut Collection,
    pair: Pair,
    numbers: &mut IndexMap<Pair, u32>,
) -> Result<(), AllocError> {
    if let Some(joined) = draw_pair(alloc, collection, pair)? {
        let number = collection
            .patterns
            .number_of_dots(joined.pattern(), collection.form)?;
        if let Some(number) = number {
            numbers.insert(pair, number)?;
        }
    }
    Ok(())
}

/// Joins these pairs of shapes to patterns of these numbers. What is left moves to the front, after what was looked at.
fn join_items(
    collection: &mut Collection,
    pairs: &IndexMap<Pair, usize>,
    numbers: &IndexMap<Pair, u32>,
) {
    let mut count: usize = 0;
    let mut walk = PairWalk::new(collection, pairs);
    for place in 0..collection.placed.len() {
        let pair = match walk.part_at(collection, place, pairs) {
            Part::Alone => None,
            Part::First(pair) => Some(pair),
            Part::Second => continue,
        };
        if let Some(shape) = collection.placed.get(place).copied() {
            if let Some(free) = collection.placed.get_mut(count) {
                *free = joined_shape(shape, pair, numbers);
            }
            count = count.saturating_add(1);
        }
    }
    collection.placed.truncate(count);
}

/// The shape that a pair becomes, whose first shape this is; the shape itself where there is none.
fn joined_shape(
    first: PlacedShape,
    pair: Option<Pair>,
    numbers: &IndexMap<Pair, u32>,
) -> PlacedShape {
    let Some(pair) = pair else {
        return first;
    };
    PlacedShape {
        page: first.page,
        baseline: first.baseline,
        x: first.x,
        top: first.top.saturating_sub(short_number(pair.first_down)),
        pattern: numbers.get(&pair).copied().unwrap_or(first.pattern),
    }
}
