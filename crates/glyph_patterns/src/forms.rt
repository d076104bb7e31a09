//! How letters are printed, and what that takes.

use crate::compression::compressed_len;
use crate::parts::ROW_BYTES;
use crate::patterns::{Changes, Pattern};

/// The bytes around a pattern where it is sent as a character: the commands, with the descriptor's 16 bytes.
const CHARACTER_BYTES: usize = 29;

/// The bytes around the rows of a pattern where it is sent as a macro: the commands that begin and end it, and those that lead to
/// the raster and away from it.
const MACRO_BYTES: usize = 50;

/// The most bytes of the rows of a character: its data have no more than 32,767 bytes.
const CHARACTER_LIMIT: usize = 32_000;

/// How letters are printed.
#[derive(Clone, Copy)]
pub enum Form {
    /// By characters of soft fonts.
    Characters(FontKind),
    /// By macros that send rasters, where `scale` dots are one at 300 dots per inch.
    Macros { scale: u32 },
}

/// What soft fonts are sent.
#[derive(Clone, Copy)]
pub struct FontKind {
    /// How many bits of a character, each of which is a dot, are one dot at 300 dots per inch.
    pub scale: u32,
    /// Whether characters may be compressed.
    pub compresses: bool,
}

impl Form {
    /// How many dots at this resolution are one at 300 dots per inch.
    pub fn scale(self) -> u32 {
        match self {
            Form::Characters(kind) => kind.scale,
            Form::Macros { scale } => scale,
        }
    }

    /// About how many bytes each letter takes: one for the code and two for the way to it, or those that run a macro.
    fn letter_bytes(self) -> usize {
        match self {
            Form::Characters(_) => 3,
            Form::Macros { .. } => 5,
        }
    }

    /// How many bytes what prints a pattern takes, once for the job, where this differs from row to row.
    pub fn definition_bytes(self, pattern: Pattern<'_>, changes: Changes) -> usize {
        match self {
            Form::Characters(kind) => kind.character_bytes(pattern),
            Form::Macros { .. } => {
                let rows = changes.rows.saturating_mul(ROW_BYTES);
                let bytes = changes.bytes.saturating_add(pattern.height as usize);
                rows.saturating_add(bytes).saturating_add(MACRO_BYTES)
            }
        }
    }

    /// About how many bytes this many letters of a pattern take, where what prints it takes this many.
    pub fn bytes_of_letters(self, definition: usize, count: usize) -> usize {
        count
            .saturating_mul(self.letter_bytes())
            .saturating_add(definition)
    }
}

impl FontKind {
    /// About how many bytes a character takes: too many where a printer has no place for it.
    fn character_bytes(self, pattern: Pattern<'_>) -> usize {
        let plain = pattern.rows.len();
        if plain > CHARACTER_LIMIT {
            return usize::MAX;
        }
        let rows = if self.compresses {
            compressed_len(pattern).min(plain)
        } else {
            plain
        };
        rows.saturating_add(CHARACTER_BYTES)
    }
}
