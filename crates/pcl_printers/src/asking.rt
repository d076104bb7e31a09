//! What is asked of the printer, where that may eject a page, move the cursor or turn a page's offset.

use crate::doubts::Doubt;
use crate::places::{OFFSET_PARTS, offset_units};
use crate::printers::Printers;
use pcl_base::{Asking, Operation, Value};
use pcl_env::{Asked, Env};
use pcl_page::SeenCommand;

/// What printers make of sheets.
#[derive(Default, Drop)]
pub struct Sheets {
    /// Whether the page was moved on its sheet since a reset.
    has_offset: bool,
    /// Whether a page was ejected since a reset whose sheet may have a back.
    has_back: bool,
    /// Whether the last command was a reset or a universal exit.
    is_reset: bool,
    /// The sides that were said before the command, and whether an orientation was.
    sides: Option<i64>,
    is_turned: bool,
    /// Whether an odd number of pages was ejected since a reset or other sides, and whether one was since a reset.
    is_odd: bool,
    has_page: bool,
    /// Whether the side of the sheet that the next page has isn't counted from these, and whether printers differ in it.
    is_side_asked: bool,
    is_side_open: bool,
}

impl Sheets {
    /// A command begins while this is asked.
    pub fn begin(&mut self, asked: Asked) {
        self.sides = asked.sides;
        self.is_turned = asked.orientation.is_some();
    }

    /// A page was ejected that was asked with this.
    pub fn eject(&mut self, asked: Asked) {
        self.has_back |= !self.is_reset && may_have_back(asked);
        self.has_page = !self.is_reset;
        self.is_odd = !self.is_reset && !self.is_odd;
    }

    /// Whether sides that are said again may end a sheet: they do after a front.
    fn may_end_sheet(&self, asked: Asked) -> bool {
        let is_said_again = self.sides == asked.sides && asked.sides != Some(0);
        is_said_again && (self.is_odd || self.is_side_asked)
    }

    /// Sides are said: others begin a sheet.
    fn say_sides(&mut self, asked: Asked) {
        if self.sides != asked.sides {
            self.is_odd = false;
            self.is_side_asked = false;
        }
    }

    /// A command was performed: where it is a reset, no page was moved or ejected since.
    fn pass(&mut self, operation: Operation) {
        self.is_reset = matches!(operation, Operation::Reset | Operation::UniversalExit);
        if self.is_reset {
            *self = Sheets {
                is_reset: true,
                ..Sheets::default()
            };
        }
    }
}

impl Printers {
    /// Looks at what a command asks of the printer.
    pub fn see_asking(&mut self, command: &SeenCommand<'_>, environment: &Env) {
        self.sheets.pass(command.operation);
        let Operation::Ask(what) = command.operation else {
            return;
        };
        let is_scaled = what == Asking::TextScale && command.value.whole() != 0;
        self.note_if(is_scaled, Doubt::TextScale);
        self.see_back(what, command, environment.asked());
        self.see_side(what, command, environment.asked());
        self.see_asked(what, command, environment);
    }

    /// Looks at what is asked: on a marked page it may eject that, on an unmarked one it may take the cursor to the first line.
    fn see_asked(&mut self, what: Asking, command: &SeenCommand<'_>, environment: &Env) {
        let is_marked = command.is_marked;
        match what {
            Asking::OutputBin
            | Asking::JobSeparation
            | Asking::TextScale
            | Asking::PrintQuality
            | Asking::Shingling
            | Asking::Depletion
            | Asking::RasterQuality => {}
            Asking::LeftOffset => self.see_offset(environment.asked().left_offset),
            Asking::TopOffset => self.see_offset(environment.asked().top_offset),
            Asking::Orientation if self.sheets.is_turned => {}
            Asking::Sides | Asking::MediaType | Asking::PageLength | Asking::Orientation
                if is_marked => {
                self.note(Doubt::Ejection);
            }
            Asking::SheetSide if is_marked && !is_side(command.value) => {
                self.cursor.is_row_kept = true;
            }
            Asking::PaperSource | Asking::SheetSide if is_marked => {
                self.cursor.doubt_column(environment);
            }
            _ => self.cursor.doubt_home(environment),
        }
    }

    /// Looks at sides, a side of the sheet and a paper source: after a page printers count the next side in several ways.
    fn see_side(&mut self, what: Asking, command: &SeenCommand<'_>, asked: Asked) {
        match what {
            Asking::Sides => {
                let ends = !command.is_marked && self.sheets.may_end_sheet(asked);
                self.note_if(ends, Doubt::Sides);
                self.sheets.say_sides(asked);
            }
            Asking::SheetSide | Asking::PaperSource => {
                let is_odd = self.sheets.is_odd;
                let may_turn = is_odd || what == Asking::SheetSide && self.sheets.has_page;
                self.sheets.is_side_asked |= command.is_marked || may_turn;
                self.sheets.is_side_open |= command.is_marked && may_have_back(asked);
            }
            _ => {}
        }
    }

    /// Looks at a mark: it stands on the next page.
    pub fn see_on_sheet(&mut self) {
        self.note_if(self.sheets.is_side_open, Doubt::Sides);
    }

    /// Looks at what is asked for after a page on a two-sided sheet: where the page is moved, its back may be moved the other way.
    fn see_back(&mut self, what: Asking, command: &SeenCommand<'_>, asked: Asked) {
        let follows_back = self.sheets.has_back || command.is_marked && may_have_back(asked);
        let turns = match what {
            Asking::Sides | Asking::SheetSide => true,
            Asking::PaperSource => command.value.whole() != 0,
            _ => false,
        };
        let is_turned = turns && follows_back && self.sheets.has_offset;
        self.note_if(is_turned, Doubt::Back);
        self.sheets.has_offset |= !asked.lies_with(Asked::NOTHING);
    }

    /// Looks at an offset of the page that was set: a page that lies between the dots of its sheet, or far from it.
    fn see_offset(&mut self, offset: Option<i64>) {
        let units = offset_units(offset);
        let is_whole = offset.unwrap_or(0) % OFFSET_PARTS == 0;
        let is_between = !is_whole || units % i64::from(self.dpi.unit()) != 0;
        self.note_if(is_between, Doubt::BetweenDots);
        self.note_if(units.unsigned_abs() > OFFSET_LIMIT, Doubt::Edge);
    }
}

/// Whether the sheet of a page that was asked with this may have a back: it does where the printer is set so and no sides are said.
pub fn may_have_back(asked: Asked) -> bool {
    asked.sides != Some(0)
}

/// Whether a value is a side of a sheet that is asked for: the next one, a front, a back.
fn is_side(value: Value) -> bool {
    matches!(value.whole(), 0 | 1 | 2)
}

/// The longest offset of a page in units of 1/7200 inch, an inch: past it edges aren't looked at.
const OFFSET_LIMIT: u64 = 7_200;
