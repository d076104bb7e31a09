//! The characters of fonts.

ghost use Rattle.std.specs.Prelude.{◌≡◌, true};
ghost use Rattle.pcl_fonts.specs.SentRows.{is_whole};

use crate::fields::{signed_word, word};
use crate::sent_rows::{GlyphRows, SentRows};
use pcl_base::{CallFault, Kind, Profile};
use std::alloc::{AllocError, Global};

/// A character of a font. Offsets, width and height are in bits of its pattern, which are dots of the font.
#[derive(Clone, Copy, Debug)]
pub struct Glyph<'a> {
    /// How far the pattern's left edge lies right of the cursor.
    pub left: i16,
    /// How far the pattern's first row lies above the cursor.
    pub top: i16,
    /// The width of the pattern.
    pub width: u16,
    /// The height of the pattern.
    pub height: u16,
    /// The advance of the character in a proportional font, in quarter dots.
    pub delta: i16,
    /// The rows of the pattern, as a part of the job.
    pub sent: SentRows<'a>,
    pub ghost whole: { is_whole width height sent ≡ true },
}

impl<'a> Glyph<'a> {
    ghost use Rattle.std.specs.Prelude.{◌≤◌, length, IfOk};
    ghost use Rattle.pcl_fonts.specs.Fields.{pattern_bytes};
    ghost use Rattle.pcl_fonts.specs.SentRows.{bytes_of_rows};
    ghost use Rattle.pcl_fonts.specs.Table.{character_in};
    ghost use Rattle.pcl_fonts.specs.inner.Glyphs.{HasGlyph};

    /// Reads a character. CharacterData where data are none that the profile takes.
    pub(crate) fn read(
        alloc: Global,
        bytes: &'a [u8],
        profile: Profile,
    ) -> Result<Glyph<'a>, CallFault>
        ensures { HasGlyph profile bytes.now result }
    {
        let Some(sent) = SentRows::read(alloc, bytes, profile)? else {
            return Err(CallFault::Refused(Kind::CharacterData));
        };
        Ok(Glyph {
            left: signed_word(bytes, 6),
            top: signed_word(bytes, 8),
            width: word(bytes, 10),
            height: word(bytes, 12),
            delta: signed_word(bytes, 14),
            sent,
        })
    }

    /// The rows of the pattern, one after the other, each of whole bytes, the left bit the highest.
    pub fn rows(&self, alloc: Global) -> Result<GlyphRows<'a>, AllocError>
        ensures rows { IfOk result (λ rows. bytes_of_rows rows ≡ (character_in self.now).rows) }
        ensures whole { IfOk result (λ rows. pattern_bytes self.now.width self.now.height ≤ length (bytes_of_rows rows)) }
    {
        self.sent.expanded(alloc, self.width, self.height)
    }
}
