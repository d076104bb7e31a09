//! The selected fonts, where they may be others than those that the rules select.

use crate::doubts::Doubt;
use crate::places::is_selected;
use crate::printers::Printers;
use pcl_base::{Name, Operation, Side};
use pcl_env::Env;
use pcl_page::SeenCommand;

/// Which of the selected fonts may be others.
#[derive(Default, Drop)]
pub struct SelectedFonts {
    is_primary_open: bool,
    is_secondary_open: bool,
    /// Which of them may have been others since a reset.
    was_primary_open: bool,
    was_secondary_open: bool,
}

impl SelectedFonts {
    /// Whether the one of a side may be another.
    pub fn is_open(&self, side: Side) -> bool {
        match side {
            Side::Primary => self.is_primary_open,
            Side::Secondary => self.is_secondary_open,
        }
    }

    /// The one of a side may be another, or is sure.
    fn set_open(&mut self, side: Side, is_open: bool) {
        match side {
            Side::Primary => self.is_primary_open = is_open,
            Side::Secondary => self.is_secondary_open = is_open,
        }
        self.was_primary_open |= self.is_primary_open;
        self.was_secondary_open |= self.is_secondary_open;
    }

    /// A called macro has ended: those are selected that were selected before.
    pub fn put_back(&mut self) {
        self.is_primary_open = self.was_primary_open;
        self.is_secondary_open = self.was_secondary_open;
    }
}

impl Printers {
    /// Looks at what a command does to the selected fonts.
    pub fn see_fonts(&mut self, command: &SeenCommand<'_>, environment: &Env) {
        match command.operation {
            Operation::Reset | Operation::UniversalExit => {
                self.fonts = SelectedFonts::default();
            }
            Operation::SelectFont(side) if command.has_font => self.fonts.set_open(side, false),
            Operation::SelectFont(side) => self.open_font(side),
            Operation::NoEffect => self.see_characteristic(command.name),
            Operation::ControlFonts => self.see_deletion(command, environment),
            Operation::DownloadCharacter if !command.has_font => {
                self.note_if(!command.bytes.is_empty(), Doubt::OtherFont);
            }
            _ => {}
        }
    }

    /// Looks at a command without effect: it may say a characteristic of a font, by which printers select another one.
    fn see_characteristic(&mut self, name: Name) {
        match name {
            Name::Two(b'(', _) | Name::Three(b'(', b's', _) => self.open_font(Side::Primary),
            Name::Two(b')', _) | Name::Three(b')', b's', _) => self.open_font(Side::Secondary),
            _ => {}
        }
    }

    /// Looks at a font control that may delete a selected font: printers then select another one.
    fn see_deletion(&mut self, command: &SeenCommand<'_>, environment: &Env) {
        let deletes = match command.value.whole() {
            0 | 1 => true,
            2 => is_selected(environment),
            _ => false,
        };
        if deletes {
            self.open_selected(Side::Primary, environment);
            self.open_selected(Side::Secondary, environment);
        }
    }

    /// The font of a side may be another, where one is selected.
    fn open_selected(&mut self, side: Side, environment: &Env) {
        if environment.font_of(side).is_some() {
            self.open_font(side);
        }
    }

    /// The font of a side may be another, and the column width its pitch.
    fn open_font(&mut self, side: Side) {
        self.fonts.set_open(side, true);
        self.width.open();
    }

    /// Looks at text in the font in use.
    pub fn see_text(&mut self, environment: &Env) {
        let is_open = self.fonts.is_open(environment.in_use());
        self.note_if(is_open, Doubt::OtherFont);
    }
}
