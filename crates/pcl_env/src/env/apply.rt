//! What each command does to the settings.

ghost use Rattle.std.specs.Prelude.{◌≡◌, Ok, Err, if◌then◌else◌};
ghost use Rattle.pcl_env.specs.declared.effect.Effect.TheVariants.{Stay};
ghost use Rattle.pcl_env.specs.Outcome.{outcome, AnswersAs};

use super::Env;
use crate::{Effect, Unsupported};
use pcl_base::{Dpi, Operation, Value};

impl Env {
    /// Does what the command does to the settings and the cursor, on a page that is marked or not, at a
    /// resolution of the page, and says what becomes of the page. A value that the command doesn't take
    /// changes nothing.
    #[tactic(auto, unfolding(crate::specs::Outcome::outcome))]
    pub fn apply(
        &mut self,
        operation: Operation,
        value: Value,
        is_marked: bool,
        dpi: Dpi,
    ) -> Result<Effect, Unsupported>
        ensures { AnswersAs (outcome dpi operation value is_marked self.old) result self.old self.new }
    {
        match operation {
            Operation::Reset => self.reset(),
            Operation::UniversalExit => self.universal_exit(value),
            Operation::ClearMargins => self.clear_margins(),
            Operation::HalfLineFeed => self.half_line_feed(),
            Operation::HorizontalTab => self.horizontal_tab(),
            Operation::LineFeed => self.line_feed(),
            Operation::FormFeed => self.form_feed(),
            Operation::CarriageReturn => self.carriage_return(),
            Operation::Shift(side) => self.shift(side),
            Operation::PageSize => self.set_page_size(value),
            Operation::Copies => self.set_copies(value),
            Operation::VerticalMotionIndex => self.set_vertical_motion_index(value),
            Operation::LineSpacing => self.set_line_spacing(value),
            Operation::TopMargin => self.set_top_margin(value, is_marked),
            Operation::TextLength => self.set_text_length(value),
            Operation::PerforationSkip => self.set_perforation_skip(value),
            Operation::OnlyZero | Operation::SeedRowSource => stay_if(value.whole() == 0),
            Operation::Ask(what) => self.ask(what, value, is_marked),
            Operation::UnitOfMeasure => self.set_unit_of_measure(value),
            Operation::HorizontalMotionIndex => self.set_horizontal_motion_index(value),
            Operation::LineTermination => self.set_line_termination(value),
            Operation::LeftMargin => self.set_left_margin(value),
            Operation::Move(axis, unit) => self.move_cursor(axis, unit, value),
            Operation::CursorStack => self.cursor_stack(value),
            Operation::MacroId => self.set_macro_id(value),
            Operation::RectangleSize(axis, unit) => self.set_rectangle_size(axis, unit, value),
            Operation::FontId => self.set_font_id(value),
            Operation::CharacterCode => self.set_character_code(value),
            Operation::DownloadFont
            | Operation::DownloadCharacter
            | Operation::SelectFont(_)
            | Operation::PrintText
            | Operation::RasterOffset
            | Operation::RasterRow => stay_if(value.count().is_some()),
            Operation::RasterResolution => self.set_raster_resolution(value, dpi),
            Operation::RasterWidth => self.set_raster_width(value),
            Operation::RasterHeight => self.set_raster_height(value),
            Operation::RasterPresentation => stay_if(matches!(value.count(), Some(0 | 3))),
            Operation::StartRaster => stay_if(matches!(value.count(), Some(0 | 1))),
            Operation::ControlMacros
            | Operation::ControlFonts
            | Operation::FillRectangle
            | Operation::EndRaster
            | Operation::NoEffect => Ok(Effect::Stay),
            Operation::EndRasterResetMethod => self.reset_raster_method(),
            Operation::RasterMethod => self.set_raster_method(value),
        }
    }
}

/// The answer to a command that looks at its value and changes nothing.
fn stay_if(is_taken: bool) -> Result<Effect, Unsupported>
    ensures { result ≡ (if is_taken then Ok Stay else Err record {}) }
{
    if is_taken {
        Ok(Effect::Stay)
    } else {
        Err(Unsupported)
    }
}
