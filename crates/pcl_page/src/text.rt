//! Text, printed in soft fonts.

ghost use Rattle.std.specs.Prelude.{◌≡◌, ◌<◌, ◌≤◌, ◌^◌, pos, negsuc, ◌+ℤ◌, ◌-ℤ◌, ◌*ℤ◌, ◌≤ℤ◌};

use crate::observing::{Event, Observer, seen_character};
use crate::performer::Performer;
use pcl_base::{CallFault, Dpi, Kind};
use pcl_fonts::{FontInfo, Glyph};
use std::alloc::AllocError;

/// The code of a space.
const SPACE: u8 = b' ';

/// A character on the page: its code, and the cursor's dot when it was printed.
#[derive(Clone, Copy, Debug, PartialEq, Eq)]
pub struct Printed {
    pub code: u8,
    pub x: u32,
    pub y: u32,
}

impl<'a> Performer<'a> {
    ghost use Rattle.std.specs.Prelude.{ℕ, Some, IsTrue, OnOk};
    ghost use Rattle.std.specs.Option.{option_map};
    ghost use Rattle.pcl_env.specs.Settings.{font_in_use};
    ghost use Rattle.pcl_fonts.specs.Fields.{info_of};
    ghost use Rattle.pcl_fonts.specs.Table.{character_in};
    ghost use Rattle.pcl_page.specs.Text.{prints, text_refusal, after_character, after_blank};
    ghost use Rattle.pcl_page.specs.Situation.{Situation, font_now, text_in, code_printed, codes_printed, blank_passed, blanks_passed};
    ghost use Rattle.pcl_page.specs.inner.Reflecting.{drawn_character, IsIn, IsDrawn, IsInked, IsAtCursor, HasSettings, Draws};

    /// Prints the codes in the font that is selected and in use. Without one a code above that of a space is refused.
    pub fn print_text<O: Observer>(
        &mut self,
        codes: &[u8],
        dpi: Dpi,
        observer: &mut O,
    ) -> Result<(), CallFault>
        ensures { (s : Situation) → IsIn dpi s self.old
            → Draws dpi (text_refusal codes.now (font_now s)) (text_in dpi codes.now (info_of (font_now s)) s) result self.new }
    {
        match self.font_in_use() {
            Some(font) => Ok(self.print_codes(codes, font, dpi, observer)?),
            None if are_spaces(codes) => {
                self.pass_blanks(codes, observer);
                Ok(())
            }
            None => Err(CallFault::Refused(Kind::NoFont)),
        }
    }

    /// The font that is selected and in use, if it is there.
    fn font_in_use(&self) -> Option<FontInfo>
        ensures { (dpi : Dpi) (s : Situation) → IsIn dpi s self.now → result ≡ info_of (font_now s) }
    {
        match self.environment.font_in_use() {
            Some(id) => self.fonts.font(id),
            None => None,
        }
    }

    /// Prints one code after the other in the font. A character that is printed once more at its dot is inked there already.
    fn print_codes<O: Observer>(
        &mut self,
        codes: &[u8],
        font: FontInfo,
        dpi: Dpi,
        observer: &mut O,
    ) -> Result<(), AllocError>
        ensures { (s : Situation) → IsIn dpi s self.old → OnOk result
            (IsIn dpi (codes_printed dpi font (prints s.fonts (font_in_use s.settings)) codes.now s) self.new) }
    {
        let mut last = None;
        for code in codes {
            match self.glyph(*code) {
                Some(glyph) => {
                    self.tell_character(&glyph, font, observer);
                    let here = self.at_cursor(*code, dpi);
                    self.print_glyph(&glyph, here, last == Some(here), font, dpi)?;
                    last = Some(here);
                }
                None => {
                    observer.see(Event::Blank(*code), &self.environment);
                    self.pass_blank(*code);
                }
            }
        }
        Ok(())
    }

    /// Tells of a character of the font that is about to be printed.
    fn tell_character<O: Observer>(&self, glyph: &Glyph<'_>, font: FontInfo, observer: &mut O) {
        let mark = seen_character(glyph, font, &self.environment, self.is_marked);
        observer.see(Event::Marks(mark), &self.environment);
    }

    /// Moves on after one code after the other that prints no character, as without a font.
    fn pass_blanks<O: Observer>(&mut self, codes: &[u8], observer: &mut O)
        ensures { (dpi : Dpi) (s : Situation) → IsIn dpi s self.old → IsIn dpi (blanks_passed codes.now s) self.new }
    {
        for code in codes {
            observer.see(Event::Blank(*code), &self.environment);
            self.pass_blank(*code);
        }
    }

    /// A code at the cursor's dot.
    fn at_cursor(&self, code: u8, dpi: Dpi) -> Printed
        ensures code { result.code ≡ code }
        ensures here { IsAtCursor dpi result self.now.environment }
    {
        Printed {
            code,
            x: self.environment.x() / dpi.unit(),
            y: self.environment.y() / dpi.unit(),
        }
    }

    /// The character that a code prints in the font in use.
    fn glyph(&self, code: u8) -> Option<Glyph<'a>>
        ensures { (dpi : Dpi) (s : Situation) → IsIn dpi s self.now
            → option_map character_in result ≡ prints s.fonts (font_in_use s.settings) code }
    {
        match self.environment.font_in_use() {
            Some(id) => self.fonts.glyph(id, code),
            None => None,
        }
    }

    /// Prints a character of the font at the cursor, whose dot is given, and moves on. Whether it is inked there is given, too.
    fn print_glyph(
        &mut self,
        glyph: &Glyph<'a>,
        here: Printed,
        is_inked: bool,
        font: FontInfo,
        dpi: Dpi,
    ) -> Result<(), AllocError>
        requires { IsAtCursor dpi here self.old.environment }
        ensures printed { (s : Situation) (code : ℕ) → IsIn dpi s self.old
            → (IsTrue is_inked → IsInked (drawn_character dpi font (character_in glyph.now) here.x here.y) self.old)
            → OnOk result (IsIn dpi (code_printed dpi font (Some (character_in glyph.now)) code s) self.new) }
        ensures inked { (IsTrue is_inked → IsInked (drawn_character dpi font (character_in glyph.now) here.x here.y) self.old)
            → OnOk result (IsInked (drawn_character dpi font (character_in glyph.now) here.x here.y) self.new) }
    {
        if !is_inked {
            let size = self.environment.size();
            self.follow_size(size)?;
            self.ink_glyph(glyph, here, font, dpi)?;
        }
        self.pass_glyph(glyph, font);
        Ok(())
    }

    /// Inks a character of the font at the dot where it is printed.
    fn ink_glyph(
        &mut self,
        glyph: &Glyph<'a>,
        here: Printed,
        font: FontInfo,
        dpi: Dpi,
    ) -> Result<(), AllocError>
        requires { IsAtCursor dpi here self.old.environment }
        ensures drawn { OnOk result (IsDrawn (drawn_character dpi font (character_in glyph.now) here.x here.y) self.old self.new) }
        ensures raster { OnOk result (self.new.raster ≡ self.old.raster) }
    {
        let rows = glyph.rows(self.alloc)?;
        let x = right_of(here.x, glyph.left, font, dpi);
        let y = above(here.y, glyph.top, font, dpi);
        let scale = dots_per_bit(font, dpi);
        self.page
            .bitmap
            .blit(x, y, glyph.width, glyph.height, rows.as_slice(), scale);
        self.is_marked = true;
        Ok(())
    }

    /// Moves on after a character of the font.
    fn pass_glyph(&mut self, glyph: &Glyph<'a>, font: FontInfo)
        ensures { HasSettings (after_character font (character_in glyph.now) self.old.environment) self.old self.new }
    {
        let units = if font.proportional {
            font.advance(glyph.delta)
        } else {
            i64::from(self.environment.hmi())
        };
        self.environment.advance(units);
    }

    /// Moves on where the code is a space, since it prints no character.
    fn pass_blank(&mut self, code: u8)
        ensures { HasSettings (after_blank code self.old.environment) self.old self.new }
    {
        if code == SPACE {
            let units = i64::from(self.environment.hmi());
            self.environment.advance(units);
        }
    }
}

ghost use Rattle.pcl_page.specs.Text.{are_spaces, dots_per_bit};

/// How many dots wide and high a bit of a pattern is.
fn dots_per_bit(font: FontInfo, dpi: Dpi) -> u32
    ensures value { result ≡ dots_per_bit dpi font.resolution }
    ensures small { (1 ≤ result) × (result ≤ 2) }
{
    match (dpi, font.resolution) {
        (Dpi::Dpi600, Dpi::Dpi300) => 2,
        _ => 1,
    }
}

/// The dot that lies this many bits of a pattern right of a dot.
fn right_of(dot: u32, bits: i16, font: FontInfo, dpi: Dpi) -> i32
    requires { dot < 2 ^ 30 }
    ensures { result ≡ pos dot +ℤ bits *ℤ pos (dots_per_bit dpi font.resolution) }
{
    dot as i32 + spread(bits, font, dpi)
}

/// The dot that lies this many bits of a pattern above a dot.
fn above(dot: u32, bits: i16, font: FontInfo, dpi: Dpi) -> i32
    requires { dot < 2 ^ 30 }
    ensures { result ≡ pos dot -ℤ bits *ℤ pos (dots_per_bit dpi font.resolution) }
{
    dot as i32 - spread(bits, font, dpi)
}

/// How many dots some bits of a pattern are.
fn spread(bits: i16, font: FontInfo, dpi: Dpi) -> i32
    ensures value { result ≡ bits *ℤ pos (dots_per_bit dpi font.resolution) }
    ensures small { (negsuc 65535 ≤ℤ result) × (result ≤ℤ pos 65535) }
{
    match (dpi, font.resolution) {
        (Dpi::Dpi600, Dpi::Dpi300) => i32::from(bits) * 2,
        _ => i32::from(bits),
    }
}

/// Whether no code is above that of a space.
fn are_spaces(codes: &[u8]) -> bool
    ensures { result ≡ are_spaces codes.now }
{
    codes.iter().all(|code| *code <= SPACE)
}
