//! Lines of letters as what macros print.

use glyph_patterns::{Letter, Metrics};
use std::alloc::{AllocError, Global};

/// What a macro prints.
#[derive(Clone, Copy, PartialEq, Eq, Hash)]
pub enum Mark {
    /// The glyph of this number. Then the cursor advances.
    Glyph(u32),
    /// Nothing: the cursor moves this many dots to the right, or to the left below 0.
    Gap(i32),
    /// The marks of the phrase of this number.
    Phrase(u32),
}

impl Mark {
    /// Whether it prints nothing.
    pub fn is_gap(self) -> bool {
        match self {
            Mark::Gap(_) => true,
            Mark::Glyph(_) | Mark::Phrase(_) => false,
        }
    }
}

/// A line of letters.
#[derive(Clone, Copy)]
pub struct Line {
    /// The number of its page, from 0.
    pub page: u32,
    /// The dot row of the cursor.
    pub row: u32,
    /// The dot of the cursor at its start.
    pub start: i32,
    /// How many marks there are up to its end.
    pub end: usize,
}

/// The lines of a job, in the order of printing, with the marks of all of them.
#[derive(Drop)]
pub struct Script {
    pub lines: Vec<Line>,
    pub marks: Vec<Mark>,
}

impl Script {
    pub fn new(alloc: Global) -> Script {
        Script {
            lines: Vec::new(alloc),
            marks: Vec::new(alloc),
        }
    }

    /// Ends a line where this one stands, after all marks so far.
    pub fn end_line(&mut self, line: &Line) -> Result<(), AllocError> {
        self.lines.push(Line {
            page: line.page,
            row: line.row,
            start: line.start,
            end: self.marks.len(),
        })?;
        Ok(())
    }

    /// The marks of a line, which begin at this place.
    pub fn marks_of(&self, line: &Line, start: usize) -> &[Mark] {
        let marks = self.marks.get(..line.end).unwrap_or(&[]);
        marks.get(start..).unwrap_or(&[])
    }

    /// The lines of a page, of those from this place on, which are of this page and later ones.
    pub fn of_page(&self, page: u32, from: usize) -> &[Line] {
        let lines = self.lines.get(from..).unwrap_or(&[]);
        let count = lines.partition_point(|line| line.page <= page);
        lines.get(..count).unwrap_or(&[])
    }

    /// Appends a mark to the last line.
    fn push(&mut self, mark: Mark) -> Result<(), AllocError> {
        self.marks.push(mark)?;
        let end = self.marks.len();
        if let Some(line) = self.lines.last_mut() {
            line.end = end;
        }
        Ok(())
    }

    /// Appends a letter, where the cursor is to be at this dot for it. `cursor` is where it is, which begins a line if it is
    /// on another one.
    fn append_letter(
        &mut self,
        letter: &Letter,
        place: i32,
        cursor: Option<Cursor>,
    ) -> Result<(), AllocError> {
        match cursor {
            Some(cursor) if cursor.is_on_line_of(letter) => {
                if place != cursor.x {
                    self.push(Mark::Gap(place.saturating_sub(cursor.x)))?;
                }
            }
            _ => self.lines.push(Line {
                page: u32::from(letter.page),
                row: u32::from(letter.baseline),
                start: place,
                end: self.marks.len(),
            })?,
        }
        self.push(Mark::Glyph(letter.glyph))
    }
}

/// Where the cursor is.
#[derive(Clone, Copy)]
struct Cursor {
    page: u32,
    row: u32,
    x: i32,
}

impl Cursor {
    /// Whether it is on the line of a letter.
    fn is_on_line_of(&self, letter: &Letter) -> bool {
        self.page == u32::from(letter.page) && self.row == u32::from(letter.baseline)
    }
}

/// The lines of these letters, on pages of these widths.
pub fn find_script(
    alloc: Global,
    widths: &[u32],
    letters: &[Letter],
    metrics: &Metrics,
) -> Result<Script, AllocError> {
    let mut script = Script::new(alloc);
    let mut cursor: Option<Cursor> = None;
    for letter in letters {
        let width = widths.get(usize::from(letter.page)).copied().unwrap_or(0);
        let place = metrics.place_of(letter);
        script.append_letter(letter, place, cursor)?;
        cursor = Some(after(letter, metrics, place, width));
    }
    Ok(script)
}

/// Where the cursor is after a letter at which it was in this place. It stays on the page.
fn after(letter: &Letter, metrics: &Metrics, place: i32, width: u32) -> Cursor {
    let edge = i32::try_from(width).unwrap_or(0);
    let x = place.saturating_add(metrics.advance(letter.glyph));
    Cursor {
        page: u32::from(letter.page),
        row: u32::from(letter.baseline),
        x: x.min(edge).max(0),
    }
}
