//! How often characters are used. The most used ones have their codes in the first fonts.

use std::alloc::{AllocError, Global};

/// How many characters have their codes in one font.
pub const FONT_CODES: usize = 221;

/// About how many bytes select a font, where it isn't one of the first two.
pub const SELECTION_BYTES: usize = 9;

/// What is used more often than this is counted as if it were used as often as this.
const MOST_USES: usize = 1_024;

/// How many characters are used as often as each number says.
#[derive(Drop)]
pub struct FontUses {
    numbers: Vec<usize>,
}

impl FontUses {
    /// None are used.
    pub fn new(alloc: Global) -> Result<FontUses, AllocError> {
        Ok(FontUses {
            numbers: vec![in alloc; 0usize; MOST_USES]?,
        })
    }

    /// Adds a character that is used so often.
    pub fn add(&mut self, count: usize) {
        let place = count.min(MOST_USES.saturating_sub(1));
        if let Some(number) = self.numbers.get_mut(place) {
            *number = number.saturating_add(1);
        }
    }

    /// How often each character of as many fonts is used at least, from the first font on.
    pub fn least_of_fonts(&self, fonts: usize) -> usize {
        let mut rest = fonts.saturating_mul(FONT_CODES);
        for passed in 1..MOST_USES {
            let uses = MOST_USES.saturating_sub(passed);
            let number = self.numbers.get(uses).copied().unwrap_or(0);
            if number > rest {
                return uses.saturating_add(1);
            }
            rest = rest.saturating_sub(number);
        }
        0
    }
}
