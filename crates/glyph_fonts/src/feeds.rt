//! Lines that start by a line feed: it puts the cursor at the left margin, a number of rows lower, where moves take some twelve bytes.

use crate::spacing::Spacing;
use glyph_patterns::{Letter, append_labelled};
use indexmap::IndexMap;
use std::alloc::{AllocError, Global};

/// A line feed is used where lines stand at its distance so often on a page.
const FEED_USES: u32 = 4;

/// Fonts have the pitch of a dot, by which margins count, where lines of a job stand at one distance so often: a blank of another width
/// takes some 31 bytes then.
const JOB_USES: u32 = 8;

/// How many line feeds start a line, at most.
const MOST_FEEDS: u32 = 8;

/// A line feed to this much of a page's lower end, in dots at 300 per inch, may end the page: half an inch.
const END_DOTS: u32 = 150;

/// Hundredths of 1/48 inch in a dot at 300 per inch.
const SPACING_PARTS: u32 = 16;

/// What a line feed does on a page.
#[derive(Clone, Copy)]
pub struct Feed {
    /// How far it moves the cursor down, in dots.
    pub rows: u32,
    /// The dot of the left margin, where it puts the cursor.
    pub margin: u32,
    /// The lowest dot row that it may go to.
    pub last: u32,
    /// How many dots are one at 300 per inch.
    pub scale: u32,
}

impl Feed {
    /// How many line feeds go from one row to another, if they do.
    pub fn count(self, from: u32, to: u32) -> Option<u32> {
        let rows = to.checked_sub(from)?;
        let count = rows.checked_div(self.rows)?;
        let is_whole = count.checked_mul(self.rows) == Some(rows);
        (is_whole && 0 < count && count <= MOST_FEEDS && to <= self.last).then_some(count)
    }

    /// Appends the line spacing, in 1/48 inch.
    pub fn append_spacing(self, out: &mut Vec<u8>) -> Result<(), AllocError> {
        let parts = self.rows.saturating_mul(SPACING_PARTS / self.scale.max(1));
        append_labelled(b"\x1b&l", parts / 100, out)?;
        let part = parts % 100;
        if part > 0 {
            append_labelled(if part < 10 { b".0" } else { b"." }, part, out)?;
        }
        out.extend_from_slice(b"C")
    }
}

/// The starts of lines of a page.
#[derive(Drop)]
struct Starts {
    /// How often the next line stands a number of rows lower, by that number.
    rows: IndexMap<u32, u32>,
    /// How often a line starts with the cursor at this dot.
    places: IndexMap<u32, u32>,
}

impl Starts {
    /// The starts of the lines of these letters.
    fn of(alloc: Global, spacing: &Spacing, letters: &[Letter]) -> Result<Starts, AllocError> {
        let mut starts = Starts {
            rows: IndexMap::new(alloc),
            places: IndexMap::new(alloc),
        };
        let mut before: Option<&Letter> = None;
        for letter in letters {
            starts.add(spacing, before, letter)?;
            before = Some(letter);
        }
        Ok(starts)
    }

    /// Adds a letter, where it starts a line after another one of its page.
    fn add(
        &mut self,
        spacing: &Spacing,
        before: Option<&Letter>,
        letter: &Letter,
    ) -> Result<(), AllocError> {
        let Some(rows) = rows_between(before, letter) else {
            return Ok(());
        };
        count(rows, &mut self.rows)?;
        let place = u32::try_from(spacing.metrics.place_of(letter)).unwrap_or(0);
        count(place, &mut self.places)
    }
}

/// How far below a letter another one stands, if it starts a line of the same page.
fn rows_between(before: Option<&Letter>, letter: &Letter) -> Option<u32> {
    let before = before?;
    if before.page != letter.page || before.baseline == letter.baseline {
        return None;
    }
    u32::from(letter.baseline).checked_sub(u32::from(before.baseline))
}

/// Counts a number.
fn count(number: u32, counts: &mut IndexMap<u32, u32>) -> Result<(), AllocError> {
    let count = counts.entry(number)?.or_insert(0u32);
    *count = count.saturating_add(1);
    Ok(())
}

/// The number that is there most often, if it is there so often.
fn most_frequent(counts: &IndexMap<u32, u32>, least: u32) -> Option<u32> {
    let mut most = least;
    let mut found = None;
    for (number, count) in counts.iter() {
        if *count >= most {
            most = count.saturating_add(1);
            found = Some(*number);
        }
    }
    found
}

/// The line feed that starts most lines of a page of this height, if it starts enough of them. `scale` dots are one at 300 per inch.
pub fn find_feed(
    alloc: Global,
    spacing: &Spacing,
    letters: &[Letter],
    height: u32,
    scale: u32,
) -> Result<Option<Feed>, AllocError> {
    let starts = Starts::of(alloc, spacing, letters)?;
    let Some(rows) = most_frequent(&starts.rows, FEED_USES) else {
        return Ok(None);
    };
    Ok(most_frequent(&starts.places, FEED_USES).map(|margin: u32| -> Feed {
        Feed {
            rows,
            margin,
            last: height
                .saturating_sub(END_DOTS.saturating_mul(scale))
                .saturating_sub(1),
            scale,
        }
    }))
}

/// Whether lines of a job stand at one distance so often that line feeds may start them.
pub fn has_feeds(alloc: Global, letters: &[Letter]) -> Result<bool, AllocError> {
    let mut rows = IndexMap::new(alloc);
    let mut before: Option<&Letter> = None;
    for letter in letters {
        if let Some(distance) = rows_between(before, letter) {
            count(distance, &mut rows)?;
        }
        before = Some(letter);
    }
    Ok(most_frequent(&rows, JOB_USES).is_some())
}
