//! Letters that touch, as two t in turn may: their dots are one shape, which is divided into the two where that takes fewer bytes.

use crate::frequency::{Frequency, count_uses};
use glyph_patterns::{Drawing, Pattern, Patterns, number_of_place, short_number};
use glyph_shapes::{Collection, PlacedShape};
use indexmap::IndexMap;
use std::alloc::{AllocError, Global};

/// How often shapes are divided in two: one of the first round has up to eight letters.
const ROUNDS: u32 = 3;

/// No more letters than these are tried for each side of a shape, the most frequent ones of those with its edge.
const TRIED: usize = 32;

/// A byte of letters is looked at for this many of the pages, at most: else hostile jobs take long.
const BYTES_FOR_A_BYTE: usize = 8;

/// Where a column of a pattern has dots. Their order is that of how they are looked for.
#[derive(Clone, Copy, PartialEq, Eq, PartialOrd, Ord)]
struct Edge {
    /// How many rows there are from its topmost dot to its lowest.
    rows: u32,
    /// How many of them have a dot.
    dots: u32,
}

/// The column at one side of a pattern.
#[derive(Clone, Copy)]
struct Column {
    edge: Edge,
    /// The row of its topmost dot.
    top: u32,
}

/// A letter by the column at one of its sides. Their order is by edges, and then by how frequent they are.
#[derive(Clone, Copy, PartialEq, Eq, PartialOrd, Ord)]
struct EdgeLetter {
    edge: Edge,
    /// The fewer shapes its pattern has the more this is.
    rareness: usize,
    pattern: u32,
    /// The row of the topmost dot of the column.
    top: u32,
}

/// The left or the right side of a shape.
#[derive(Clone, Copy)]
enum Flank {
    Left,
    Right,
}

/// A shape seen from one side.
#[derive(Clone, Copy)]
struct Seen<'a> {
    whole: Pattern<'a>,
    flank: Flank,
    /// Its outermost column there.
    column: Column,
}

/// The letters of a job by their edges, in order.
#[derive(Drop)]
struct LetterEdges {
    left: Vec<EdgeLetter>,
    right: Vec<EdgeLetter>,
}

/// A letter within a shape.
#[derive(Clone, Copy)]
struct Part {
    pattern: u32,
    /// How far right and down in the shape its left upper dot is.
    right: u32,
    down: u32,
}

/// The two letters that a shape is of.
#[derive(Clone, Copy)]
struct Division {
    left: Part,
    right: Part,
}

/// How many bytes of letters may still be looked at.
#[derive(Clone, Copy)]
struct Room {
    bytes: usize,
}

impl Room {
    /// Before the first letter, for the pages of a job.
    fn for_pages(collection: &Collection) -> Room {
        let mut bytes: usize = 0;
        for (width, height) in collection.widths.iter().zip(collection.heights.iter()) {
            let row_bytes = width.div_ceil(8) as usize;
            bytes = bytes.saturating_add(row_bytes.saturating_mul(*height as usize));
        }
        Room {
            bytes: bytes / BYTES_FOR_A_BYTE,
        }
    }

    /// Takes room for this many bytes, and says whether there was as much.
    fn take(&mut self, bytes: usize) -> bool {
        let has_room = bytes <= self.bytes;
        self.bytes = self.bytes.saturating_sub(bytes);
        has_room
    }
}

/// Divides shapes of two letters that touch, where that takes fewer bytes. `frequency` is what the shapes of each pattern take. Says
/// whether any were divided.
pub fn divide_shapes(
    alloc: Global,
    collection: &mut Collection,
    frequency: &Frequency,
) -> Result<bool, AllocError> {
    let divisions = find_divisions(alloc, collection, frequency)?;
    if divisions.is_empty() {
        return Ok(false);
    }
    for _ in 0..ROUNDS {
        divide_once(collection, &divisions)?;
    }
    collection.placed.sort_unstable();
    Ok(true)
}

/// Divides the shapes of these patterns. The right parts come after all others.
fn divide_once(
    collection: &mut Collection,
    divisions: &IndexMap<u32, Division>,
) -> Result<(), AllocError> {
    let count = collection.placed.len();
    let divided = collection
        .placed
        .iter()
        .filter(|shape| divisions.contains_key(&shape.pattern))
        .count();
    collection.placed.reserve_exact(divided)?;
    for place in 0..count {
        let Some(shape) = collection.placed.get(place).copied() else {
            break;
        };
        let Some(division) = divisions.get(&shape.pattern) else {
            continue;
        };
        collection.placed.push(division.right.within(shape))?;
        if let Some(here) = collection.placed.get_mut(place) {
            *here = division.left.within(shape);
        }
    }
    Ok(())
}

/// The patterns that take fewer bytes as two letters, and these.
fn find_divisions(
    alloc: Global,
    collection: &Collection,
    frequency: &Frequency,
) -> Result<IndexMap<u32, Division>, AllocError> {
    let uses = count_uses(alloc, collection)?;
    let letters = LetterEdges::new(alloc, &collection.patterns, frequency, &uses)?;
    let mut room = Room::for_pages(collection);
    let mut divisions = IndexMap::new(alloc);
    for (place, count) in uses.iter().enumerate() {
        let pattern = number_of_place(place);
        if *count > 0 && is_longer(collection, frequency, pattern, *count) {
            if let Some(division) = letters.division_of(collection, pattern, &mut room)? {
                divisions.insert(pattern, division)?;
            }
        }
    }
    Ok(divisions)
}

/// Whether a pattern that has as many shapes takes more bytes than they do as two letters each.
fn is_longer(collection: &Collection, frequency: &Frequency, pattern: u32, count: usize) -> bool {
    if frequency.is_letter(pattern) {
        let more = collection.form.bytes_of_letters(0, count);
        collection.patterns.definition_bytes(pattern) > more
    } else {
        let both = collection.form.bytes_of_letters(0, count.saturating_mul(2));
        frequency.raster_bytes(pattern, count, count) > both
    }
}

impl Part {
    /// This part of a shape.
    fn within(self, shape: PlacedShape) -> PlacedShape {
        PlacedShape {
            page: shape.page,
            baseline: shape.baseline,
            x: shape.x.saturating_add(short_number(self.right)),
            top: shape.top.saturating_add(short_number(self.down)),
            pattern: self.pattern,
        }
    }
}

impl LetterEdges {
    /// Those of the letters among these patterns, which have as many shapes.
    fn new(
        alloc: Global,
        patterns: &Patterns,
        frequency: &Frequency,
        uses: &[usize],
    ) -> Result<LetterEdges, AllocError> {
        let mut left = Vec::new(alloc);
        let mut right = Vec::new(alloc);
        for (place, count) in uses.iter().enumerate() {
            let number = number_of_place(place);
            if *count > 1 && frequency.is_letter(number) {
                if let Some(pattern) = patterns.get(number) {
                    let rareness = usize::MAX - *count;
                    left.push(EdgeLetter::new(number, rareness, Flank::Left.column_of(pattern)))?;
                    right.push(EdgeLetter::new(number, rareness, Flank::Right.column_of(pattern)))?;
                }
            }
        }
        left.sort_unstable();
        right.sort_unstable();
        Ok(LetterEdges { left, right })
    }

    /// The two letters that a pattern is of, if such are found.
    fn division_of(
        &self,
        collection: &Collection,
        pattern: u32,
        room: &mut Room,
    ) -> Result<Option<Division>, AllocError> {
        let patterns = &collection.patterns;
        let Some(whole) = patterns.get(pattern) else {
            return Ok(None);
        };
        let lefts = self.parts_of(whole, Flank::Left, patterns, room)?;
        if lefts.is_empty() {
            return Ok(None);
        }
        let rights = self.parts_of(whole, Flank::Right, patterns, room)?;
        for left in lefts.iter() {
            for right in rights.iter() {
                let division = Division {
                    left: *left,
                    right: *right,
                };
                if room.take(whole.rows.len()) && division.is_of(self.alloc(), collection, whole)? {
                    return Ok(Some(division));
                }
            }
        }
        Ok(None)
    }

    /// The letters whose dots a pattern has at one of its sides, where it has no others in its outermost column.
    fn parts_of(
        &self,
        whole: Pattern<'_>,
        flank: Flank,
        patterns: &Patterns,
        room: &mut Room,
    ) -> Result<Vec<Part>, AllocError> {
        let mut parts = Vec::new(self.alloc());
        if !room.take(whole.height as usize) {
            return Ok(parts);
        }
        let seen = Seen::from_side(whole, flank);
        for letter in self.with_edge(seen).iter().take(TRIED) {
            if let Some(part) = letter.part_of(seen, patterns, room) {
                parts.push(part)?;
            }
        }
        Ok(parts)
    }

    /// Where lists of parts go.
    fn alloc(&self) -> Global {
        *self.left.allocator()
    }

    /// The letters that have the edge of a shape at its side.
    fn with_edge(&self, seen: Seen<'_>) -> &[EdgeLetter] {
        let letters: &[EdgeLetter] = match seen.flank {
            Flank::Left => &self.left,
            Flank::Right => &self.right,
        };
        let edge = seen.column.edge;
        let start = letters.partition_point(|letter| letter.edge < edge);
        let letters = letters.get(start..).unwrap_or(&[]);
        let count = letters.partition_point(|letter| letter.edge <= edge);
        letters.get(..count).unwrap_or(&[])
    }
}

impl<'a> Seen<'a> {
    /// A pattern from this side.
    fn from_side(whole: Pattern<'a>, flank: Flank) -> Seen<'a> {
        Seen {
            whole,
            flank,
            column: flank.column_of(whole),
        }
    }

    /// How far right in the shape a letter of this width begins that ends at the side.
    fn right_of(self, width: u32) -> u32 {
        match self.flank {
            Flank::Left => 0,
            Flank::Right => self.whole.width.saturating_sub(width),
        }
    }
}

impl EdgeLetter {
    /// A letter with this column at a side.
    fn new(pattern: u32, rareness: usize, column: Column) -> EdgeLetter {
        EdgeLetter {
            edge: column.edge,
            rareness,
            pattern,
            top: column.top,
        }
    }

    /// This letter within a shape, at the side from which it is seen, if all its dots are there.
    fn part_of(self, seen: Seen<'_>, patterns: &Patterns, room: &mut Room) -> Option<Part> {
        let whole = seen.whole;
        let letter = patterns.get(self.pattern)?;
        let down = seen.column.top.checked_sub(self.top)?;
        if letter.width >= whole.width || down.saturating_add(letter.height) > whole.height {
            return None;
        }
        let part = Part {
            pattern: self.pattern,
            right: seen.right_of(letter.width),
            down,
        };
        is_within(letter, whole, part, room).then_some(part)
    }
}

impl Division {
    /// Whether the dots of its letters are all that a pattern has.
    fn is_of(
        self,
        alloc: Global,
        collection: &Collection,
        whole: Pattern<'_>,
    ) -> Result<bool, AllocError> {
        let patterns = &collection.patterns;
        let scale = collection.form.scale();
        let Some(mut both) = Drawing::white(alloc, whole.width, whole.height, scale)? else {
            return Ok(false);
        };
        for part in [self.left, self.right] {
            if let Some(letter) = patterns.get(part.pattern) {
                both.blacken_with(letter, part.right, part.down);
            }
        }
        Ok(both.pattern().rows == whole.rows)
    }
}

impl Flank {
    /// The outermost column of a pattern at this side.
    fn column_of(self, pattern: Pattern<'_>) -> Column {
        let place = match self {
            Flank::Left => 0,
            Flank::Right => pattern.width.saturating_sub(1),
        };
        let mut top = None;
        let mut end: u32 = 0;
        let mut dots: u32 = 0;
        for (y, row) in pattern.rows.chunks(pattern.row_bytes()).enumerate() {
            if bits_at(row, place) & 0x80 != 0 {
                let y = number_of_place(y);
                top = top.or(Some(y));
                end = y.saturating_add(1);
                dots = dots.saturating_add(1);
            }
        }
        let top = top.unwrap_or(0);
        let edge = Edge {
            rows: end.saturating_sub(top),
            dots,
        };
        Column { edge, top }
    }
}

/// Whether a pattern has all dots of a letter at the place of a part: no where there is no room to look.
fn is_within(letter: Pattern<'_>, whole: Pattern<'_>, part: Part, room: &mut Room) -> bool {
    let rows = whole.rows_from(part.down);
    let rows = rows.bytes.chunks(rows.row_bytes.max(1));
    for (dots, there) in letter.rows.chunks(letter.row_bytes()).zip(rows) {
        if !room.take(dots.len()) || !has_dots(there, dots, part.right) {
            return false;
        }
    }
    true
}

/// Whether a row has all these dots, of which the first is so far right.
fn has_dots(row: &[u8], dots: &[u8], right: u32) -> bool {
    let mut place = right;
    for byte in dots {
        if *byte & !bits_at(row, place) != 0 {
            return false;
        }
        place = place.saturating_add(8);
    }
    true
}

/// Eight dots of a row from a place on: white ones past its end.
fn bits_at(row: &[u8], place: u32) -> u8 {
    let first = (place / 8) as usize;
    let left = row.get(first).copied().unwrap_or(0);
    let right = row.get(first.saturating_add(1)).copied().unwrap_or(0);
    let [bits, _] = (u16::from_be_bytes([left, right]) << (place % 8)).to_be_bytes();
    bits
}
