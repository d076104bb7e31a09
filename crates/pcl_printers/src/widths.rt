//! The column width, where it may be another font's.

use crate::doubts::Doubt;
use crate::places::{has_part_of_unit, has_rest, is_selected};
use crate::printers::Printers;
use pcl_base::{Axis, Operation, Unit};
use pcl_env::Env;
use pcl_page::SeenCommand;

/// What printers make of the column width.
#[derive(Default, Drop)]
pub struct Width {
    /// Whether it may be that of the font in use.
    is_open: bool,
    /// Whether it is the pitch of a selected font.
    is_pitch: bool,
    /// Whether a selected font was sent anew since a reset.
    is_font_anew: bool,
}

impl Width {
    /// It may be another font's.
    pub fn open(&mut self) {
        self.is_open = true;
    }

    /// A macro ended: a call's return may leave it to a font that was sent anew.
    pub fn end_macro(&mut self) {
        self.is_open |= self.is_font_anew;
    }
}

impl Printers {
    /// Looks at what a command does to the column width, or by it.
    pub fn see_width(&mut self, command: &SeenCommand<'_>, environment: &Env) {
        match command.operation {
            Operation::Reset | Operation::UniversalExit => self.width = Width::default(),
            Operation::HorizontalMotionIndex => {
                self.width.is_open = has_rest(command.value, HMI_UNIT);
                self.width.is_pitch = false;
            }
            Operation::Shift(_) => self.width.is_open = true,
            Operation::SelectFont(side) => {
                self.width.is_open = side != environment.in_use();
                self.width.is_pitch = true;
            }
            Operation::DownloadFont if is_selected(environment) => {
                self.width.is_open = true;
                self.width.is_font_anew = true;
            }
            Operation::HorizontalTab
            | Operation::LeftMargin
            | Operation::Move(Axis::Horizontal, Unit::Column) => self.see_column(environment),
            _ => {}
        }
    }

    /// Looks at something that goes by the column width. Where that is a font's pitch, printers may round it to PCL units.
    pub fn see_column(&mut self, environment: &Env) {
        let is_rounded = self.width.is_pitch
            && has_part_of_unit(i64::from(environment.hmi()), environment);
        self.note_if(self.width.is_open || is_rounded, Doubt::ColumnWidth);
    }
}

/// Units of 1/7200 inch in the unit of a column width, 1/120 inch.
const HMI_UNIT: u32 = 60;
