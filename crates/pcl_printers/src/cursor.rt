//! Where the cursor may stand elsewhere.

use crate::asking::may_have_back;
use crate::doubts::Doubt;
use crate::places::{
    WHOLE, has_rest, is_at_end, is_at_right_end, is_home, is_on_first_line, unit_of,
};
use crate::printers::Printers;
use pcl_base::{Asking, Axis, Operation, Sign, Unit, Value};
use pcl_env::{Asked, Env};
use pcl_page::SeenCommand;

/// What printers make of the cursor's place.
#[derive(Default, Drop)]
pub struct Cursor {
    /// Why it may stand in another column, or another row.
    pub column: Option<Doubt>,
    pub row: Option<Doubt>,
    /// The same of a place on the cursor's stack.
    stack: Option<Doubt>,
    /// Why the line spacing may be another.
    spacing: Option<Doubt>,
    /// Whether it may stand half a dot lower, since a raster left it there.
    pub is_row_half: bool,
    /// Whether the page that is ejected next leaves it in its row.
    pub is_row_kept: bool,
    /// Whether it was at the left end of the first line before the command.
    was_home: bool,
}

impl Cursor {
    /// Its place is sure.
    fn settle(&mut self) {
        self.settle_along(Axis::Horizontal);
        self.settle_along(Axis::Vertical);
    }

    /// It was taken to a place along an axis.
    fn settle_along(&mut self, axis: Axis) {
        match axis {
            Axis::Horizontal => self.column = None,
            Axis::Vertical => {
                self.row = None;
                self.is_row_half = false;
            }
        }
    }

    /// It was moved by rows.
    fn go_by_rows(&mut self) {
        self.row = self.row.or(self.spacing);
    }

    /// A page was ejected: it is on the first line.
    pub fn eject(&mut self) {
        self.row = if self.is_row_kept {
            Some(Doubt::FirstLine)
        } else {
            self.spacing
        };
        self.is_row_kept = false;
        self.is_row_half = false;
    }

    /// A top margin was set on an unmarked page: where it was moved, it may stay.
    fn take_margin(&mut self) {
        self.row = if self.was_home {
            self.row.or(self.spacing)
        } else {
            Some(Doubt::FirstLine)
        };
    }

    /// Its place goes to its stack, or comes from it.
    fn push_or_pop(&mut self, value: Value) {
        if value.whole() == 0 {
            self.stack = self.stack.or(self.column).or(self.row);
        } else {
            self.column = self.column.or(self.stack);
            self.row = self.row.or(self.stack);
        }
    }

    /// It may go to the left end of the first line.
    pub fn doubt_home(&mut self, environment: &Env) {
        if !is_on_first_line(environment) {
            self.row = Some(Doubt::FirstLine);
        }
        self.doubt_column(environment);
    }

    /// It may go to the left margin.
    pub fn doubt_column(&mut self, environment: &Env) {
        if environment.x() != environment.left_margin() {
            self.column = Some(Doubt::FirstLine);
        }
    }
}

impl Printers {
    /// Looks at a command before it sets anything.
    pub fn see_begin(&mut self, environment: &Env) {
        self.sheets.begin(environment.asked());
        self.cursor.was_home = is_home(environment);
    }

    /// Looks at what a command has done to the cursor.
    pub fn see_cursor(&mut self, command: &SeenCommand<'_>, environment: &Env) {
        match command.operation {
            Operation::Reset | Operation::UniversalExit | Operation::PageSize => {
                self.cursor.settle();
            }
            Operation::CarriageReturn => self.cursor.column = None,
            Operation::TopMargin if !command.is_marked => {
                self.see_lines_of_0(environment);
                self.cursor.take_margin();
            }
            Operation::TopMargin | Operation::TextLength => self.see_lines_of_0(environment),
            Operation::Move(axis, unit) => {
                self.see_move(axis, unit, command.value.sign, environment);
                self.see_stop(environment);
            }
            Operation::HorizontalTab => {
                self.note_if(is_at_right_end(environment), Doubt::PastEnd);
                self.see_right_of_margin(environment);
                self.see_stop(environment);
            }
            Operation::LineFeed | Operation::HalfLineFeed => self.cursor.go_by_rows(),
            Operation::CursorStack => self.cursor.push_or_pop(command.value),
            Operation::VerticalMotionIndex | Operation::LineSpacing if self.cursor.was_home => {
                self.cursor.doubt_home(environment);
            }
            _ => {}
        }
    }

    /// Looks at a margin or a text length, by a line spacing of 0: printers may ignore it.
    fn see_lines_of_0(&mut self, environment: &Env) {
        self.note_if(environment.vmi() == 0, Doubt::FirstLine);
    }

    /// Looks at a move that was made.
    fn see_move(&mut self, axis: Axis, unit: Unit, sign: Sign, environment: &Env) {
        if sign == Sign::Absent {
            self.cursor.settle_along(axis);
        }
        if axis == Axis::Vertical && unit == Unit::Column {
            self.cursor.go_by_rows();
            let is_past = sign == Sign::Plus && is_at_end(environment);
            self.note_if(is_past, Doubt::PastEnd);
        }
    }

    /// Looks at a value of which a part may be dropped.
    pub fn see_parts(&mut self, command: &SeenCommand<'_>, environment: &Env) {
        let value = command.value;
        let has_parts = match command.operation {
            Operation::RectangleSize(_, Unit::Decipoint) => value.parts % WHOLE != 0,
            Operation::Move(axis, unit) | Operation::RectangleSize(axis, unit) => {
                (unit == Unit::PclUnit && value.parts % WHOLE != 0)
                    || has_rest(value, unit_of(axis, unit, environment))
            }
            Operation::Ask(Asking::LeftOffset | Asking::TopOffset) => {
                value.whole() == 0 && value.parts != 0
            }
            _ => false,
        };
        self.note_if(has_parts, Doubt::PartOfUnit);
    }

    /// Looks at what a command has done to the line spacing.
    pub fn see_spacing(&mut self, command: &SeenCommand<'_>, environment: &Env) {
        match command.operation {
            Operation::Reset | Operation::UniversalExit | Operation::LineSpacing => {
                self.cursor.spacing = None;
            }
            Operation::VerticalMotionIndex => {
                let has_parts = has_rest(command.value, VMI_UNIT);
                self.cursor.spacing = has_parts.then_some(Doubt::PartOfUnit);
                let is_past = environment.vmi() > environment.size().units_high();
                self.note_if(is_past, Doubt::PastEnd);
            }
            _ => {}
        }
    }

    /// Looks at a page that was ejected, and was asked with this.
    pub fn see_ejection(&mut self, asked: Asked, environment: &Env) {
        let may_turn = self.calls.is_called && may_have_back(asked);
        self.note_if(may_turn, Doubt::CalledMacro);
        self.cursor.eject();
        self.sheets.eject(asked);
        self.rasters.has_begun = false;
        self.see_page_end(environment);
    }
}

/// Units of 1/7200 inch in the unit of a line spacing, 1/48 inch.
const VMI_UNIT: u32 = 150;
