//! Fonts, characters and macros that are meant, and fonts that are selected.

ghost use Rattle.std.specs.Prelude.{◌≡◌, false};
ghost use Rattle.pcl_base.specs.Value.{zero_value};
ghost use Rattle.pcl_base.specs.declared.operation.Operation.TheVariants.{Shift, MacroId, FontId, CharacterCode};
ghost use Rattle.pcl_env.specs.Settings.{select};
ghost use Rattle.pcl_base.specs.declared.dpi.Dpi.TheVariants.{Dpi300};
ghost use Rattle.pcl_env.specs.Outcome.{outcome, AnswersAs};

use super::Env;
use crate::{Effect, Unsupported};
use pcl_base::{ID_LIMIT, Side, Value};

impl Env {
    /// Takes the primary or the secondary font into use (PCL 5 manual, "Shift In", "Shift Out").
    #[tactic(auto, unfolding(crate::specs::Outcome::outcome))]
    pub fn shift(&mut self, side: Side) -> Result<Effect, Unsupported>
        ensures { AnswersAs (outcome Dpi300 (Shift side) zero_value false self.old) result self.old self.new }
    {
        self.setup.in_use = side;
        Ok(Effect::Stay)
    }

    /// Sets the ID of the macro that is meant ("Macro ID").
    #[tactic(auto, unfolding(crate::specs::Outcome::outcome))]
    pub fn set_macro_id(&mut self, value: Value) -> Result<Effect, Unsupported>
        ensures { AnswersAs (outcome Dpi300 MacroId value false self.old) result self.old self.new }
    {
        match value.count() {
            Some(id @ 0..=ID_LIMIT) => {
                self.setup.macro_id = id as u16;
                Ok(Effect::Stay)
            }
            _ => Err(Unsupported),
        }
    }

    /// Sets the ID of the font that is meant ("Font ID").
    #[tactic(auto, unfolding(crate::specs::Outcome::outcome))]
    pub fn set_font_id(&mut self, value: Value) -> Result<Effect, Unsupported>
        ensures { AnswersAs (outcome Dpi300 FontId value false self.old) result self.old self.new }
    {
        match value.count() {
            Some(id @ 0..=ID_LIMIT) => {
                self.setup.font_id = id as u16;
                Ok(Effect::Stay)
            }
            _ => Err(Unsupported),
        }
    }

    /// Sets the code of the character that is meant ("Character Code").
    #[tactic(auto, unfolding(crate::specs::Outcome::outcome))]
    pub fn set_character_code(&mut self, value: Value) -> Result<Effect, Unsupported>
        ensures { AnswersAs (outcome Dpi300 CharacterCode value false self.old) result self.old self.new }
    {
        match value.count() {
            Some(code @ 0..=255) => {
                self.setup.character_code = code as u8;
                Ok(Effect::Stay)
            }
            _ => Err(Unsupported),
        }
    }

    /// Selects a font by its ID for a side. The column width (HMI) becomes that of the font, which is given in units of
    /// 1/7200 inch.
    pub fn select(&mut self, side: Side, id: u16, width: u32)
        ensures { self.new ≡ select side id width self.old }
    {
        match side {
            Side::Primary => self.setup.primary = Some(id),
            Side::Secondary => self.setup.secondary = Some(id),
        }
        self.setup.hmi = width;
    }
}
