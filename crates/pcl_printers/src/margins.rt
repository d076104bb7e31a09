//! A right margin, and end-of-line wrap: the rules know neither.

use crate::doubts::Doubt;
use crate::printers::Printers;
use pcl_base::{Name, Operation};
use pcl_env::Env;
use pcl_page::SeenCommand;

/// What was said of the right end of lines since a reset.
#[derive(Default, Drop)]
pub struct RightMargin {
    /// The leftmost right margin, in units of 1/7200 inch, if one was set on the page.
    place: Option<u32>,
    /// Whether lines may wrap.
    wraps: bool,
}

impl RightMargin {
    /// A right margin was set at a place on a page of this width.
    fn set(&mut self, place: u32, width: u32) {
        if place < width {
            let leftmost = self.place.unwrap_or(place).min(place);
            self.place = Some(leftmost);
        }
    }

    /// Whether a place lies right of it.
    fn is_left_of(&self, place: i64) -> bool {
        self.place.is_some_and(|margin| i64::from(margin) < place)
    }
}

impl Printers {
    /// Looks at a command that may set a right margin, or have lines wrap.
    pub fn see_margin(&mut self, command: &SeenCommand<'_>, environment: &Env) {
        match command.operation {
            Operation::Reset | Operation::UniversalExit => self.margin = RightMargin::default(),
            Operation::NoEffect => match command.name {
                Name::Three(b'&', b'a', b'M') => {
                    let columns = u32::try_from(command.value.whole()).unwrap_or(0);
                    let place = columns.saturating_mul(environment.hmi());
                    self.margin.set(place, environment.size().units_wide());
                    self.see_right_of_margin(environment);
                }
                Name::Three(b'&', b's', b'C') => {
                    self.margin.wraps |= command.value.whole() != 1;
                }
                _ => {}
            },
            _ => {}
        }
    }

    /// Looks at the cursor's place, where the margin may stop it.
    pub fn see_right_of_margin(&mut self, environment: &Env) {
        if self.margin.is_left_of(i64::from(environment.x())) {
            self.cursor.column = Some(Doubt::RightMargin);
        }
    }

    /// Looks at text that goes on to a place.
    pub fn see_line(&mut self, end: i64, environment: &Env) {
        let width = i64::from(environment.size().units_wide());
        let is_past = self.margin.wraps && end > width || self.margin.is_left_of(end);
        self.note_if(is_past, Doubt::RightMargin);
    }
}
