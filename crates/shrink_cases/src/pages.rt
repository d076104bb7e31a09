//! Pages of letters, in lines, and of rectangles, as a case of a table tells them by numbers.
//!
//! A letter is a stroke of four dots in each of its rows, which goes to the left or to the right from row to row as the bits of its
//! number say. So with nine rows there are 256 letters, each one shape, and no row is like the one above; with thirteen rows 4,096.
//!
//! What a case says of its pages, in any order. What stands here is what they have where it says nothing: a letter forty times.
//!
//! ```text
//! start                              what stands before each page, in the notation of `case_tables`
//! pages 1                            how many pages
//! lines 1                            lines on a page
//! letters 40                         letters in a line
//! kinds 1                            how many letters there are, in turn
//! first 90                           and the number of the first
//! rows 9                             how many rows a letter has
//! x 100                              the place of the first letter, in dots
//! y 100
//! step 24                            from one letter to the next, in dots
//! leading 40                         and from line to line
//! shifts 0                           how many dots each letter stands further right, in turn
//! dots 0                             a dot stands above each of this many letters, from the first on; none for 0
//! rectangles                         these are on each page too, four numbers each: the left upper dot, the width, the height
//! series                             and these, at one distance: how many, how far right and down each from the one before, and the
//!                                    first one's four numbers
//! ```
//!
//! So `series 3 0 50 100 300 600 2` is `rectangles 100 300 600 2  100 350 600 2  100 400 600 2`. Each such line has more of them, in the
//! order in which they are sent.

use crate::letters::{Rectangle, append_dot, append_letter, append_rectangle};
use case_tables::{TableFault, bytes_of, number};
use pcl_base::Dpi;
use std::alloc::{AllocError, Global};

/// Pages of letters and of rectangles.
#[derive(Clone, Drop)]
pub struct LetterPages {
    start: Vec<u8>,
    pages: u32,
    lines: u32,
    letters: u32,
    kinds: u32,
    first: u32,
    rows: u32,
    x: u32,
    y: u32,
    step: u32,
    leading: u32,
    shifts: Vec<u32>,
    dots: u32,
    rectangles: Vec<Rectangle>,
}

impl LetterPages {
    /// A line of letters in the middle of a page.
    pub fn new(alloc: Global) -> LetterPages {
        LetterPages {
            start: Vec::new(alloc),
            pages: 1,
            lines: 1,
            letters: 40,
            kinds: 1,
            first: 0b0101_1010,
            rows: 9,
            x: 100,
            y: 100,
            step: 24,
            leading: 40,
            shifts: Vec::new(alloc),
            dots: 0,
            rectangles: Vec::new(alloc),
        }
    }

    /// Takes what a line says.
    pub fn set(&mut self, alloc: Global, word: &str, rest: &str) -> Result<(), TableFault> {
        match word {
            "start" => self.start = bytes_of(alloc, rest)?,
            "shifts" => self.shifts = numbers(alloc, rest)?,
            "rectangles" => self.add_rectangles(&numbers(alloc, rest)?)?,
            "series" => self.add_series(&numbers(alloc, rest)?)?,
            _ => {
                let field = self.field(word).ok_or(TableFault::Unknown)?;
                *field = small_number(rest)?;
            }
        }
        Ok(())
    }

    /// What a word counts or measures.
    fn field(&mut self, word: &str) -> Option<&mut u32> {
        match word {
            "pages" => Some(&mut self.pages),
            "lines" => Some(&mut self.lines),
            "letters" => Some(&mut self.letters),
            "kinds" => Some(&mut self.kinds),
            "first" => Some(&mut self.first),
            "rows" => Some(&mut self.rows),
            "x" => Some(&mut self.x),
            "y" => Some(&mut self.y),
            "step" => Some(&mut self.step),
            "leading" => Some(&mut self.leading),
            "dots" => Some(&mut self.dots),
            _ => None,
        }
    }

    /// Adds rectangles, each by four numbers.
    fn add_rectangles(&mut self, numbers: &[u32]) -> Result<(), TableFault> {
        for four in numbers.chunks(4) {
            let [x, y, width, height] = four else {
                return Err(TableFault::Number);
            };
            self.rectangles.push(Rectangle {
                x: *x,
                y: *y,
                width: *width,
                height: *height,
            })?;
        }
        Ok(())
    }

    /// Adds rectangles of one size at one distance.
    fn add_series(&mut self, numbers: &[u32]) -> Result<(), TableFault> {
        let [count, right, down, x, y, width, height] = numbers else {
            return Err(TableFault::Number);
        };
        let mut rectangle = Rectangle {
            x: *x,
            y: *y,
            width: *width,
            height: *height,
        };
        for _ in 0..*count {
            self.rectangles.push(rectangle)?;
            rectangle.x = rectangle.x.saturating_add(*right);
            rectangle.y = rectangle.y.saturating_add(*down);
        }
        Ok(())
    }

    /// The job of these pages, whose dots are of this resolution.
    pub fn job(&self, alloc: Global, dpi: Dpi) -> Result<Vec<u8>, AllocError> {
        let mut job = Vec::new(alloc);
        for _ in 0..self.pages {
            job.extend_from_slice(&self.start)?;
            job.extend_from_slice(b"\x1b&l0E")?;
            job.extend_from_slice(unit_of(dpi))?;
            for rectangle in self.rectangles.iter() {
                append_rectangle(*rectangle, &mut job)?;
            }
            for line in 0..self.lines {
                self.append_line(line, &mut job)?;
            }
            job.push(12)?;
        }
        Ok(job)
    }

    /// Appends the letters of a line.
    fn append_line(&self, line: u32, job: &mut Vec<u8>) -> Result<(), AllocError> {
        let y = self.y.saturating_add(line.saturating_mul(self.leading));
        let mut turn = line.saturating_mul(self.letters);
        let mut x = self.x;
        for place in 0..self.letters {
            let number = self.first.saturating_add(turn % self.kinds.max(1));
            let shifted = x.saturating_add(self.shift_of(place));
            if place.checked_rem(self.dots) == Some(0) {
                append_dot(shifted, y.saturating_sub(8), job)?;
            }
            append_letter(number, self.rows, shifted, y, job)?;
            turn = turn.saturating_add(1);
            x = x.saturating_add(self.step);
        }
        Ok(())
    }

    /// How many dots a letter of a line stands further right.
    fn shift_of(&self, place: u32) -> u32 {
        let turn = place as usize % self.shifts.len().max(1);
        self.shifts.get(turn).copied().unwrap_or(0)
    }
}

/// What makes a raster dot, and a PCL unit, a dot of the page.
fn unit_of(dpi: Dpi) -> &'static [u8] {
    match dpi {
        Dpi::Dpi300 => b"\x1b*t300R",
        Dpi::Dpi600 => b"\x1b*t600R\x1b&u600D",
    }
}

/// The numbers of a line.
fn numbers(alloc: Global, text: &str) -> Result<Vec<u32>, TableFault> {
    let mut numbers = Vec::new(alloc);
    for word in text.split_whitespace() {
        numbers.push(small_number(word)?)?;
    }
    Ok(numbers)
}

/// A number of a count or of dots.
fn small_number(text: &str) -> Result<u32, TableFault> {
    u32::try_from(number(text)?).map_err(|_| TableFault::Number)
}
