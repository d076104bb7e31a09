//! Soft fonts: what commands send, control and select.

ghost use Rattle.std.specs.Prelude.{◌≡◌};
ghost use Rattle.pcl_base.specs.Value.{whole_of};
ghost use Rattle.pcl_page.specs.Text.{control_of};

use crate::performer::Performer;
use pcl_base::{CallFault, Dpi, Kind, Side, Value};
use pcl_fonts::FontControl;

impl<'a> Performer<'a> {
    ghost use Rattle.std.specs.Prelude.{is_some, if◌then◌else◌, Some, None};
    ghost use Rattle.pcl_base.specs.declared.kind.Kind.TheVariants.{UnsupportedValue};
    ghost use Rattle.pcl_base.specs.declared.dpi.Dpi.{Dpi};
    ghost use Rattle.pcl_fonts.specs.History.{control, font_after};
    ghost use Rattle.pcl_page.specs.Text.{select_by_id, header_refusal, character_refusal};
    ghost use Rattle.pcl_page.specs.Situation.{Situation, with_font, with_character, with_lasting, font_lasts, fonts_controlled};
    ghost use Rattle.pcl_page.specs.inner.Reflecting.{IsIn, HasEvent, HasSettings, Draws};

    /// Takes the header of a font for the ID that is meant. Without data nothing happens.
    pub fn download_font(&mut self, bytes: &'a [u8], dpi: Dpi) -> Result<(), CallFault>
        ensures { (s : Situation) → IsIn dpi s self.old
            → Draws dpi (header_refusal s.settings.profile dpi bytes.now) (with_font bytes.now s) result self.new }
    {
        if bytes.is_empty() {
            return Ok(());
        }
        let id = self.environment.font_id();
        self.fonts
            .header(id, bytes, self.environment.profile(), dpi)
    }

    /// Takes a character for the ID and the code that are meant. Without data, or without a font of the ID, nothing happens.
    pub fn download_character(&mut self, bytes: &'a [u8]) -> Result<(), CallFault>
        ensures { (dpi : Dpi) (s : Situation) → IsIn dpi s self.old
            → Draws dpi (character_refusal s.settings.profile bytes.now (font_after s.fonts s.settings.font_id))
            (with_character bytes.now s) result self.new }
    {
        if bytes.is_empty() {
            return Ok(());
        }
        let id = self.environment.font_id();
        let code = self.environment.character_code();
        self.fonts
            .character(id, code, bytes, self.environment.profile())
    }

    /// Does what a font control says to the font and the character that are meant. A number that says nothing is refused.
    pub fn control_fonts(&mut self, value: Value) -> Result<(), CallFault>
        ensures { (dpi : Dpi) (s : Situation) → IsIn dpi s self.old
            → Draws dpi (if is_some (control_of value) then None else Some UnsupportedValue) (fonts_controlled (control_of value) s)
            result self.new }
    {
        let Some(what) = control_of(value) else {
            return Err(CallFault::Refused(Kind::UnsupportedValue));
        };
        self.note_control(what);
        let code = self.environment.character_code();
        self.fonts.control(self.environment.font_id(), code, what);
        Ok(())
    }

    /// Notes whether a font control changes what stays in the printer.
    fn note_control(&mut self, what: FontControl)
        ensures { (dpi : Dpi) (s : Situation) → IsIn dpi s self.old
            → IsIn dpi (with_lasting (font_lasts what (is_some (font_after s.fonts s.settings.font_id))) s) self.new }
    {
        let is_sent = self.fonts.font(self.environment.font_id()).is_some();
        self.last_if(font_lasts(what, is_sent));
    }

    /// Deletes the temporary fonts, as a reset does.
    pub fn delete_temporary_fonts(&mut self)
        ensures { HasEvent (control FontControl.Temporary 0 0) self.old self.new }
    {
        self.fonts.control(0, 0, FontControl::Temporary);
    }

    /// Selects the font of an ID for a side, where it is there.
    pub fn select_font(&mut self, side: Side, value: Value)
        ensures { (dpi : Dpi) (s : Situation) → IsIn dpi s self.old
            → HasSettings (select_by_id side (whole_of value) s.fonts s.settings) self.old self.new }
    {
        let Ok(id) = u16::try_from(value.whole().unsigned_abs()) else {
            return;
        };
        if let Some(font) = self.fonts.font(id) {
            self.environment.select(side, id, font.column());
        }
    }
}

ghost use Rattle.pcl_page.specs.Situation.{font_lasts};

/// Whether a font control changes fonts that stay in the printer, by whether the job sent the font of the ID.
fn font_lasts(what: FontControl, is_sent: bool) -> bool
    ensures { result ≡ font_lasts what is_sent }
{
    match what {
        FontControl::Temporary => false,
        FontControl::All => true,
        FontControl::One
        | FontControl::Character
        | FontControl::MakeTemporary
        | FontControl::MakePermanent => !is_sent,
    }
}

/// What a font control does (`ESC*c#F`), by its value.
fn control_of(value: Value) -> Option<FontControl>
    ensures { result ≡ control_of value }
{
    Some(match value.count()? {
        0 => FontControl::All,
        1 => FontControl::Temporary,
        2 => FontControl::One,
        3 => FontControl::Character,
        4 => FontControl::MakeTemporary,
        5 => FontControl::MakePermanent,
        _ => return None,
    })
}
