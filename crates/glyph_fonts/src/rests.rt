//! Rests: what advances leave of the way to the next letter. Blanks make them, characters of one white dot, or else moves of the cursor.

use crate::codes::blank_code;
use glyph_patterns::append_signed;
use indexmap::IndexMap;
use std::alloc::{AllocError, Global};

/// How many blanks a job has, at most.
const BLANK_LIMIT: usize = 60;

/// About how many bytes a blank takes, once for the job.
const BLANK_BYTES: u32 = 31;

/// How many blanks make a rest, at most: a move takes six bytes and more.
const MOST_BLANKS: u8 = 4;

/// The bytes of a move, `ESC*p+#X`, besides its digits.
const MOVE_BYTES: u32 = 5;

/// A longer rest, in dots, is made by a move.
const LONGEST: u32 = 8_191;

/// How a rest is made of blanks.
#[derive(Clone, Copy)]
struct Way {
    /// How many there are; more than the most where none make it.
    count: u8,
    /// The number of one of them.
    blank: u8,
}

/// How rests are made.
#[derive(Drop)]
pub struct Rests {
    /// How far each blank advances, in dots. The first is the space.
    blanks: Vec<u32>,
    /// How each rest is made of them, from none on.
    ways: Vec<Way>,
}

impl Rests {
    /// How rests are made on pages as wide as this, where each rest to the right is there so often, the most frequent first: by blanks that
    /// are worth their bytes. `pitch` is the first one, if that is given.
    pub fn new(
        alloc: Global,
        width: u32,
        counts: &IndexMap<u32, u32>,
        pitch: Option<u32>,
    ) -> Result<Rests, AllocError> {
        let mut rests = Rests::by_moves(alloc, width)?;
        if let Some(pitch) = pitch {
            rests.add_blank(pitch)?;
        }
        for (rest, count) in counts.iter() {
            if rests.blanks.len() < BLANK_LIMIT && rests.lacks(*rest, *count) {
                rests.add_blank(*rest)?;
            }
        }
        Ok(rests)
    }

    /// There are no blanks: only a rest of no dots is made of them.
    fn by_moves(alloc: Global, width: u32) -> Result<Rests, AllocError> {
        let count = (width.min(LONGEST) as usize).saturating_add(1);
        let none = Way {
            count: MOST_BLANKS.saturating_add(1),
            blank: 0,
        };
        let mut ways = vec![in alloc; none; count]?;
        if let Some(way) = ways.first_mut() {
            way.count = 0;
        }
        Ok(Rests {
            blanks: Vec::new(alloc),
            ways,
        })
    }

    /// Whether a blank of its own saves more bytes than it takes, for a rest that is there so often.
    fn lacks(&self, rest: u32, count: u32) -> bool {
        let saved = self.bytes_of(rest).saturating_sub(1);
        saved.saturating_mul(count) > BLANK_BYTES
    }

    /// Adds a blank that advances so far.
    fn add_blank(&mut self, advance: u32) -> Result<(), AllocError> {
        let blank = u8::try_from(self.blanks.len()).unwrap_or(u8::MAX);
        self.blanks.push(advance)?;
        for rest in advance as usize..self.ways.len() {
            let count = self
                .count_of(rest.saturating_sub(advance as usize))
                .saturating_add(1);
            if let Some(way) = self.ways.get_mut(rest) {
                if count < way.count {
                    *way = Way { count, blank };
                }
            }
        }
        Ok(())
    }

    /// How many blanks make a rest; more than the most where none do.
    fn count_of(&self, rest: usize) -> u8 {
        self.ways.get(rest).map_or(u8::MAX, |way| way.count)
    }

    /// How many bytes a rest to the right takes.
    fn bytes_of(&self, rest: u32) -> u32 {
        let count = self.count_of(rest as usize);
        if count <= MOST_BLANKS {
            u32::from(count)
        } else {
            move_bytes(rest)
        }
    }

    /// How many bytes a rest takes, which is to the left below 0.
    pub fn bytes(&self, rest: i32) -> u32 {
        match u32::try_from(rest) {
            Ok(dots) => self.bytes_of(dots),
            Err(_) => move_bytes(rest.unsigned_abs()),
        }
    }

    /// The number of a blank of those that make a rest, and what of the rest it leaves; none where a move makes it, or it has no dots.
    fn step_of(&self, rest: i32) -> Option<(usize, i32)> {
        let way = self.ways.get(usize::try_from(rest).ok()?)?;
        if way.count == 0 || way.count > MOST_BLANKS {
            return None;
        }
        let number = usize::from(way.blank);
        let advance = self.blanks.get(number)?;
        Some((number, rest.saturating_sub_unsigned(*advance)))
    }

    /// Whether characters of the first font make a rest: all blanks but the space are such.
    pub fn needs_first_font(&self, rest: i32) -> bool {
        let mut rest = rest;
        for _ in 0..MOST_BLANKS {
            match self.step_of(rest) {
                Some((0, left)) => rest = left,
                Some(_) => return true,
                None => return false,
            }
        }
        false
    }

    /// Appends what moves the cursor by a rest: blanks, or else a move.
    pub fn append(&self, rest: i32, out: &mut Vec<u8>) -> Result<(), AllocError> {
        let mut rest = rest;
        for _ in 0..MOST_BLANKS {
            if let Some((number, left)) = self.step_of(rest) {
                out.push(blank_code(number))?;
                rest = left;
            }
        }
        if rest == 0 {
            Ok(())
        } else {
            append_move(rest, out)
        }
    }

    /// How far each blank advances, in dots, the space first.
    pub fn blanks(&self) -> &[u32] {
        &self.blanks
    }

    /// How far a space advances, in dots: the pitch of the fonts.
    pub fn pitch(&self) -> u32 {
        self.blanks.first().copied().unwrap_or(1)
    }
}

/// How many bytes a move by as many dots takes.
fn move_bytes(dots: u32) -> u32 {
    let digits = match dots {
        0..=9 => 1,
        10..=99 => 2,
        100..=999 => 3,
        _ => 4,
    };
    MOVE_BYTES.saturating_add(digits)
}

/// Appends a move by a rest.
fn append_move(rest: i32, out: &mut Vec<u8>) -> Result<(), AllocError> {
    out.extend_from_slice(b"\x1b*p")?;
    append_signed(rest, out)?;
    out.extend_from_slice(b"X")
}
