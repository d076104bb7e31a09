//! Printers, as they may read what is performed.

use crate::asking::Sheets;
use crate::calls::Calls;
use crate::cursor::Cursor;
use crate::doubts::Doubt;
use crate::fonts::SelectedFonts;
use crate::job_lines::JobLines;
use crate::margins::RightMargin;
use crate::rasters::Rasters;
use crate::widths::Width;
use pcl_base::{Asking, Dpi, Operation};
use pcl_env::{Asked, Env};
use pcl_page::{Event, Observer, SeenCommand, SeenRaster};

/// Printers, which look for what some of them read otherwise in a job that is performed.
#[derive(Drop)]
pub struct Printers {
    /// At which resolution the job is performed.
    pub(crate) dpi: Dpi,
    /// The first of what they read otherwise.
    first: Option<Doubt>,
    /// What they make of the cursor's place.
    pub(crate) cursor: Cursor,
    /// What they make of rasters.
    pub(crate) rasters: Rasters,
    /// What they make of the column width.
    pub(crate) width: Width,
    /// What they make of the selected fonts.
    pub(crate) fonts: SelectedFonts,
    /// What they make of a right margin.
    pub(crate) margin: RightMargin,
    /// What they make of sheets.
    pub(crate) sheets: Sheets,
    /// What they make of lines of the job language.
    pub(crate) lines: JobLines,
    /// In which macros they are.
    pub(crate) calls: Calls,
    /// The command that was performed last.
    pub(crate) last: Operation,
    /// Whether a page was ejected, and whether something was said since then, or since a reset, that no reset has put back.
    has_page: bool,
    is_open: bool,
}

impl Printers {
    /// Nothing was performed yet. At which resolution the job is performed is given.
    pub fn new(dpi: Dpi) -> Printers {
        Printers {
            dpi,
            first: None,
            cursor: Cursor::default(),
            rasters: Rasters::default(),
            width: Width::default(),
            fonts: SelectedFonts::default(),
            margin: RightMargin::default(),
            sheets: Sheets::default(),
            lines: JobLines::default(),
            calls: Calls::default(),
            last: Operation::Reset,
            has_page: false,
            is_open: false,
        }
    }

    /// The first of what they may read otherwise, if there is anything.
    pub fn doubt(&self) -> Option<Doubt> {
        self.first
    }

    /// Notes something, unless something was noted before.
    pub(crate) fn note(&mut self, doubt: Doubt) {
        self.note_any(Some(doubt));
    }

    /// Notes something where the test holds.
    pub(crate) fn note_if(&mut self, test: bool, doubt: Doubt) {
        if test {
            self.note(doubt);
        }
    }

    /// Notes something if there is anything.
    pub(crate) fn note_any(&mut self, doubt: Option<Doubt>) {
        self.first = self.first.or(doubt);
    }

    /// Looks at a command that comes, with the raster that has begun.
    fn see_coming(
        &mut self,
        operation: Operation,
        raster: Option<SeenRaster<'_>>,
        environment: &Env,
    ) {
        self.calls.take_command();
        self.last = operation;
        if let Some(raster) = &raster {
            self.see_raster_end(operation, raster, environment);
        }
    }

    /// Looks at a command that has set what it sets.
    fn see_command(&mut self, command: &SeenCommand<'_>, environment: &Env) {
        self.is_open = leaves_open(command, self.is_open);
        self.see_parts(command, environment);
        self.see_width(command, environment);
        self.see_fonts(command, environment);
        self.see_margin(command, environment);
        self.see_spacing(command, environment);
        self.see_feed(command.operation);
        self.see_unmarked(command);
        self.see_cursor(command, environment);
        self.see_called(command.operation);
        self.see_asking(command, environment);
        self.see_raster(command, environment);
        self.see_lines(command);
    }

    /// Looks at the end of a job whose last page is marked or not.
    fn see_job_end(&mut self, is_marked: bool) {
        self.note_if(!is_marked && self.rasters.has_begun, Doubt::EmptyMark);
        self.note_if(!is_marked && !self.has_page, Doubt::NoPage);
        self.note_if(is_marked || self.is_open, Doubt::OpenEnd);
    }

    /// Looks at a page that was ejected and was asked with this.
    fn see_page(&mut self, asked: Asked, environment: &Env) {
        self.has_page = true;
        self.is_open = false;
        self.see_ejection(asked, environment);
    }

    /// Looks at a command that ejects a page if that is marked, where it isn't.
    fn see_unmarked(&mut self, command: &SeenCommand<'_>) {
        let is_kept = !command.is_marked && ejects_marked(command.operation);
        self.note_if(is_kept && self.rasters.has_begun, Doubt::EmptyMark);
    }
}

impl Observer for Printers {
    fn see(&mut self, event: Event<'_>, environment: &Env) {
        match event {
            Event::Comes(operation, raster) => self.see_coming(operation, raster, environment),
            Event::Begins(_) => self.see_begin(environment),
            Event::Sets(command) => self.see_command(&command, environment),
            Event::Ejects(asked) => self.see_page(asked, environment),
            Event::Marks(mark) => self.see_mark(&mark, environment),
            Event::Blank(code) => self.see_blank(code, environment),
            Event::InMacro { is_called } => self.calls.go_on(is_called),
            Event::MacroEnds(end) => self.see_macro_end(&end, environment),
            Event::JobEnds { is_marked } => self.see_job_end(is_marked),
        }
    }
}

/// Whether something is left that no reset has put back after a command, by whether it was before: paper source 0 sets nothing.
fn leaves_open(command: &SeenCommand<'_>, is_open: bool) -> bool {
    match command.operation {
        Operation::Reset | Operation::UniversalExit => false,
        Operation::Ask(Asking::PaperSource) => is_open || command.value.whole() != 0,
        _ => true,
    }
}

/// Whether a command ejects a page that is marked.
fn ejects_marked(operation: Operation) -> bool {
    matches!(
        operation,
        Operation::Reset
            | Operation::UniversalExit
            | Operation::PageSize
            | Operation::Ask(Asking::PaperSource | Asking::SheetSide)
    )
}
