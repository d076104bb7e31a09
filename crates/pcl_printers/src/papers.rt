//! The paper, where a job says no size: the printer's may be Letter, A4 or Legal, and the job language may have set another.

use crate::doubts::Doubt;
use crate::printers::Printers;
use pcl_base::{Dpi, Operation, Size};
use pcl_env::Env;
use pcl_page::SeenMark;

/// Whether a page size was said since a reset.
pub fn is_paper_said(environment: &Env) -> bool {
    environment.asked().page_size.is_some()
}

/// How many dots wide the page is on every paper that the job may get.
pub fn shared_width(environment: &Env, dpi: Dpi) -> u32 {
    shared(
        environment,
        environment.size().width(dpi),
        Size::A4.width(dpi),
    )
}

/// How many units of 1/7200 inch.
fn shared_units(environment: &Env) -> u32 {
    shared(
        environment,
        environment.size().units_wide(),
        Size::A4.units_wide(),
    )
}

/// The lesser width of that of the page and that of A4, unless a size is said.
fn shared(environment: &Env, width: u32, of_a4: u32) -> u32 {
    if is_paper_said(environment) {
        width
    } else {
        width.min(of_a4)
    }
}

/// Whether a mark goes past what Letter, A4 and Legal share.
pub fn is_past_shared(mark: &SeenMark<'_>, environment: &Env) -> bool {
    mark.right > i64::from(shared_units(environment))
        || mark.bottom > i64::from(environment.size().units_high())
}

impl Printers {
    /// Looks at a mark, or a page that is ejected, where no size is said. Whether it differs on Letter, A4 and Legal is given.
    pub fn see_on_paper(&mut self, differs: bool, environment: &Env) {
        if !is_paper_said(environment) {
            self.note_if(self.lines.sets_paper, Doubt::JobLine);
            self.note_if(differs, Doubt::Paper);
        }
    }

    /// Looks at where a move has taken the cursor: on another paper an edge may stop it elsewhere.
    pub fn see_stop(&mut self, environment: &Env) {
        if is_paper_said(environment) {
            return;
        }
        if environment.x() >= shared_units(environment) {
            self.cursor.column = Some(Doubt::Paper);
        }
        if environment.y() >= environment.size().units_high() {
            self.cursor.row = Some(Doubt::Paper);
        }
    }

    /// Looks at a page that a command ejected: on another paper a line feed may not eject it, and without perforation skip printers may
    /// begin the next one elsewhere.
    pub fn see_page_end(&mut self, environment: &Env) {
        let is_fed = matches!(
            self.last,
            Operation::LineFeed | Operation::HalfLineFeed | Operation::CarriageReturn
        );
        self.see_on_paper(is_fed, environment);
        if is_fed && !environment.skips_perforation() {
            self.cursor.row = Some(Doubt::FirstLine);
        }
    }
}
