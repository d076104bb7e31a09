//! The notation in which tables write bytes.
//!
//! | Notation | Bytes |
//! |---|---|
//! | `ESC` | 27 |
//! | `[80 FF]` | 80 and FF, in hexadecimal, by capitals |
//! | `{@PJL EOJ}` | what stands in the braces as it stands, blanks too |
//! | `60*[0A]` | what stands in the brackets, 60 times |
//! | `20*<ESC&f0S [0C]>` | what stands between the angles, 20 times; brackets, braces and repetitions may stand there |
//! | in brackets `3*FF`, `2*<80 FF>` | one byte three times, and what stands between the angles twice |
//! | a blank | nothing: it only separates |
//! | any other character | its byte |
//!
//! So `ESC*p0x0Y 2*<ESC*b2W [80 3*00]>` is right, though its rows say that they have two bytes and have four.

use std::alloc::{AllocError, AllocFailed, Global};
use thiserror::Error;

/// The byte that `ESC` stands for.
pub const ESC: u8 = 0x1B;

/// What is wrong with a notation.
#[derive(Clone, Copy, Debug, Error)]
pub enum NotationFault {
    #[error("a bracket, a brace or a repetition isn't closed")]
    Unclosed,
    #[error("what is closed wasn't open")]
    Unopened,
    #[error("a byte has no two hexadecimal digits")]
    Digits,
    #[error(transparent)]
    Memory(AllocError),
}

impl From<AllocError> for NotationFault {
    fn from(error: AllocError) -> Self {
        NotationFault::Memory(error)
    }
}

impl<T: Drop> From<AllocFailed<T>> for NotationFault {
    fn from(error: AllocFailed<T>) -> Self {
        NotationFault::Memory(AllocError::from(error))
    }
}

/// What is repeated, which says what ends it.
#[derive(Clone, Copy, PartialEq, Eq)]
enum Repeated {
    /// A byte in brackets.
    Byte,
    /// Brackets.
    Brackets,
    /// What stands between angles.
    Angles,
}

/// A repetition that isn't closed yet.
#[derive(Clone, Copy)]
struct Repetition {
    /// How often.
    times: usize,
    /// How many bytes stand before it.
    start: usize,
    /// What is repeated.
    repeated: Repeated,
}

/// Reads a notation from left to right.
#[derive(Drop)]
struct Reader<'a> {
    /// What is still to be read.
    rest: &'a [u8],
    /// Whether brackets are open.
    in_brackets: bool,
    /// The bytes so far.
    bytes: Vec<u8>,
    /// The repetitions that are open, the innermost last.
    open: Vec<Repetition>,
}

/// The bytes that a notation stands for.
pub fn bytes_of(alloc: Global, notation: &str) -> Result<Vec<u8>, NotationFault> {
    read(alloc, notation, false)
}

/// The bytes of a notation that stands as if in brackets.
pub fn bracketed_bytes_of(alloc: Global, notation: &str) -> Result<Vec<u8>, NotationFault> {
    read(alloc, notation, true)
}

fn read(alloc: Global, notation: &str, in_brackets: bool) -> Result<Vec<u8>, NotationFault> {
    let mut reader = Reader {
        rest: notation.as_bytes(),
        in_brackets,
        bytes: Vec::new(alloc),
        open: Vec::new(alloc),
    };
    for _ in 0..notation.len() {
        reader.step(alloc)?;
    }
    if reader.in_brackets != in_brackets || !reader.open.is_empty() {
        return Err(NotationFault::Unclosed);
    }
    Ok(reader.bytes)
}

impl<'a> Reader<'a> {
    /// Reads what comes next, if anything.
    fn step(&mut self, alloc: Global) -> Result<(), NotationFault> {
        if let Some((times, after)) = repetition_at(self.rest, self.in_brackets) {
            return self.begin(times, after);
        }
        let Some((first, after)) = self.rest.split_first() else {
            return Ok(());
        };
        self.rest = after;
        match (*first, self.in_brackets) {
            (b' ', _) => Ok(()),
            (b'<', _) => Err(NotationFault::Unopened),
            (b'>', _) => {
                let ended = self.end(alloc, Repeated::Angles)?;
                ended.then_some(()).ok_or(NotationFault::Unopened)
            }
            (b']', true) => {
                self.in_brackets = false;
                self.end(alloc, Repeated::Brackets)?;
                Ok(())
            }
            (high, true) => self.byte(alloc, high),
            (b'[', false) => {
                self.in_brackets = true;
                Ok(())
            }
            (b'{', false) => self.verbatim(),
            (character, false) => self.character(character),
        }
    }

    /// Begins a repetition of what stands after its count.
    fn begin(&mut self, times: usize, after: &'a [u8]) -> Result<(), NotationFault> {
        let (repeated, rest) = match after.split_first() {
            Some((b'<', inside)) => (Repeated::Angles, inside),
            Some((b'[', _)) => (Repeated::Brackets, after),
            _ => (Repeated::Byte, after),
        };
        self.open.push(Repetition {
            times,
            start: self.bytes.len(),
            repeated,
        })?;
        self.rest = rest;
        Ok(())
    }

    /// Ends the innermost repetition, and says whether it is one of such.
    fn end(&mut self, alloc: Global, repeated: Repeated) -> Result<bool, NotationFault> {
        let Some(last) = self.open.last().copied() else {
            return Ok(false);
        };
        if last.repeated != repeated {
            return Ok(false);
        }
        self.open.pop();
        let once = Vec::from_slice(alloc, self.bytes.get(last.start..).unwrap_or(&[]))?;
        self.bytes.truncate(last.start);
        for _ in 0..last.times {
            self.bytes.extend_from_slice(&once)?;
        }
        Ok(true)
    }

    /// Reads the second digit of a byte whose first was read.
    fn byte(&mut self, alloc: Global, high: u8) -> Result<(), NotationFault> {
        let (low, after) = self.rest.split_first().ok_or(NotationFault::Digits)?;
        let high = hex_digit(high).ok_or(NotationFault::Digits)?;
        let low = hex_digit(*low).ok_or(NotationFault::Digits)?;
        self.rest = after;
        self.bytes.push(high << 4 | low)?;
        self.end(alloc, Repeated::Byte)?;
        Ok(())
    }

    /// Reads what stands as it stands, up to its closing brace.
    fn verbatim(&mut self) -> Result<(), NotationFault> {
        let len = self
            .rest
            .iter()
            .position(|byte| *byte == b'}')
            .ok_or(NotationFault::Unclosed)?;
        let (inside, after) = self
            .rest
            .split_at_checked(len)
            .ok_or(NotationFault::Unclosed)?;
        self.bytes.extend_from_slice(inside)?;
        self.rest = after.strip_prefix(b"}").ok_or(NotationFault::Unclosed)?;
        Ok(())
    }

    /// Reads what begins with a character that was read: `ESC`, or the character alone.
    fn character(&mut self, character: u8) -> Result<(), NotationFault> {
        match (character, self.rest.strip_prefix(b"SC")) {
            (b'E', Some(after)) => {
                self.bytes.push(ESC)?;
                self.rest = after;
            }
            _ => self.bytes.push(character)?,
        }
        Ok(())
    }
}

/// The count of a repetition that begins here, and what stands after its star.
fn repetition_at(rest: &[u8], in_brackets: bool) -> Option<(usize, &[u8])> {
    let digits = rest.iter().take_while(|byte| byte.is_ascii_digit()).count();
    let (count, after) = rest.split_at_checked(digits)?;
    let after = after.strip_prefix(b"*")?;
    let is_repeated = match after.first()? {
        b'<' => true,
        b'[' => !in_brackets,
        other => in_brackets && hex_digit(*other).is_some(),
    };
    let times = std::str::from_utf8(count).ok()?.parse().ok()?;
    is_repeated.then_some((times, after))
}

/// The value of a hexadecimal digit.
fn hex_digit(digit: u8) -> Option<u8> {
    match digit {
        b'0'..=b'9' => Some(digit - b'0'),
        b'A'..=b'F' => Some(digit - b'A' + 10),
        _ => None,
    }
}
