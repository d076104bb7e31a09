//! Rasters: where they begin and end, and where their rows are cut.

use crate::doubts::Doubt;
use crate::edges::SheetRows;
use crate::papers::is_paper_said;
use crate::places::{is_at_right_end, is_more_than_half_past, is_raised};
use crate::printers::Printers;
use crate::row_data::end_in_offset;
use pcl_base::{Asking, Dpi, Method, Operation};
use pcl_env::Env;
use pcl_page::{SeenCommand, SeenEnd, SeenRaster};

/// What printers make of rasters.
#[derive(Default, Drop)]
pub struct Rasters {
    /// Why the rows of the raster that has begun may stand elsewhere.
    doubt: Option<Doubt>,
    /// Whether a raster has begun on the page.
    pub has_begun: bool,
    /// Whether that raster starts between two rows of dots, or the page is moved up on its sheet.
    is_low: bool,
    /// Whether it starts between two rows of dots, or between two columns.
    is_between_rows: bool,
    is_between_columns: bool,
    /// Whether a macro that began it has ended.
    has_macro_ended: bool,
    /// Whether rows were sent or skipped past its height.
    is_past_height: bool,
    /// Whether a text that has printed no code yet ended it.
    pub is_text_next: bool,
    /// Whether the seed row may have dots that were cleared.
    is_seed_open: bool,
    /// Whether a row outside a raster may begin where the last raster did, away from the left edge.
    is_left_open: bool,
    /// The rows of the raster that has begun, where they may go past the page's edge.
    rows: Option<SheetRows>,
}

impl Printers {
    /// Looks at a command before it ends the raster that has begun, if it ends it.
    pub fn see_raster_end(
        &mut self,
        operation: Operation,
        raster: &SeenRaster<'_>,
        environment: &Env,
    ) {
        if goes_on(operation) {
            return;
        }
        self.note_if(may_go_on(operation), Doubt::OpenRaster);
        self.rasters.is_text_next = operation == Operation::PrintText;
        self.rasters.is_seed_open = false;
        self.rasters.rows = None;
        self.cursor.is_row_half |= self.rasters.is_between_rows;
        if self.rasters.is_between_columns {
            self.cursor.column = Some(Doubt::BetweenDots);
        }
        if is_short(raster) || self.rasters.is_past_height {
            self.cursor.row = Some(Doubt::ShortRaster);
        } else if lines_end(raster, 0) > end_of_page(environment, self.dpi) {
            self.cursor.row = Some(Doubt::PastEnd);
        }
    }

    /// Looks at the end of a macro: it may end a raster that has begun, and a call's does.
    pub fn see_macro_end(&mut self, end: &SeenEnd<'_>, environment: &Env) {
        self.rasters.has_macro_ended = true;
        self.width.end_macro();
        self.calls.end_macro();
        if end.is_call {
            self.fonts.put_back();
        }
        if let (true, Some(raster)) = (end.is_call, &end.raster) {
            self.see_raster_end(Operation::EndRaster, raster, environment);
        }
    }

    /// Looks at what a command does to rasters.
    pub fn see_raster(&mut self, command: &SeenCommand<'_>, environment: &Env) {
        match command.operation {
            Operation::Reset | Operation::UniversalExit | Operation::EndRasterResetMethod => {
                self.rasters.is_left_open = false;
            }
            Operation::RasterWidth | Operation::RasterHeight if command.value.whole() == 0 => {
                self.note(Doubt::RasterSize);
            }
            Operation::StartRaster if command.value.whole() == 0 => {
                self.see_start(0, environment, false);
            }
            Operation::StartRaster => {
                self.see_start(environment.x() / self.dpi.unit(), environment, true);
            }
            Operation::RasterOffset => self.see_skip(command),
            Operation::RasterRow => self.see_row(command, environment),
            _ => {}
        }
    }

    /// Looks at a raster that starts in the cursor's row at a dot, which is in the cursor's column or not.
    fn see_start(&mut self, left: u32, environment: &Env, is_at_cursor: bool) {
        let dpi = self.dpi;
        let is_between_rows = environment.y() % dpi.unit() != 0;
        let is_low = is_between_rows || is_raised(environment) || is_cut_low(environment, dpi);
        let is_unseen = is_at_right_end(environment);
        let mut doubt = self.cursor.row.or(between_dots(environment.y(), dpi));
        doubt = doubt.or(is_unseen.then_some(Doubt::Edge));
        if is_at_cursor {
            let column = self.cursor.column.or(between_dots(environment.x(), dpi));
            doubt = doubt.or(column);
        }
        self.rasters = Rasters {
            doubt,
            has_begun: true,
            is_low,
            is_between_rows,
            is_between_columns: is_at_cursor && environment.x() % dpi.unit() != 0,
            has_macro_ended: false,
            is_past_height: false,
            is_text_next: self.rasters.is_text_next,
            is_seed_open: false,
            is_left_open: left != 0,
            rows: SheetRows::start(
                left,
                is_low || !is_paper_said(environment),
                environment,
                dpi,
            ),
        };
    }

    /// Looks at rows that are skipped in a raster.
    fn see_skip(&mut self, command: &SeenCommand<'_>) {
        let Some(raster) = &command.raster else {
            return;
        };
        self.rasters.is_seed_open = command.value.whole() == 0
            && (self.rasters.is_seed_open || has_seed(raster));
        self.rasters.is_past_height |= is_past_height(raster, command.value.whole());
        if let Some(rows) = &mut self.rasters.rows {
            rows.skip();
        }
    }

    /// Looks at a row of the raster that has begun, or of one that starts at the page's left edge.
    fn see_row(&mut self, command: &SeenCommand<'_>, environment: &Env) {
        if command.raster.is_none() {
            self.note_if(self.rasters.is_left_open, Doubt::RowStart);
            self.see_start(0, environment, false);
        }
        self.note_any(self.rasters.doubt);
        self.note_if(self.rasters.has_macro_ended, Doubt::OpenRaster);
        let method = environment.method();
        let is_delta = method == Method::Delta;
        self.note_if(is_delta && end_in_offset(command.bytes), Doubt::RowData);
        self.note_if(self.rasters.is_seed_open && is_delta, Doubt::SeedRow);
        self.rasters.is_seed_open = false;
        let is_lowest = self.rasters.is_low && reaches_end(&command.raster, environment, self.dpi);
        let is_below = is_below_end(&command.raster, environment, self.dpi);
        let (is_cut, is_past) = match &mut self.rasters.rows {
            Some(rows) => (
                rows.is_cut(method, command.bytes) || (is_lowest && rows.has_dots()),
                rows.is_past_shared() || (is_below && rows.has_dots()),
            ),
            None => (false, false),
        };
        self.note_if(is_cut, Doubt::Edge);
        self.see_on_sheet();
        self.see_on_paper(is_past, environment);
        if let Some(raster) = &command.raster {
            self.rasters.is_past_height |= is_past_height(raster, 1);
        }
    }
}

/// Whether a raster that starts in the cursor's row has a row that the page's lower edge cuts.
fn is_cut_low(environment: &Env, dpi: Dpi) -> bool {
    let scale = (dpi.dots() / environment.resolution().max(1)).max(1);
    let top = environment.y() / dpi.unit();
    environment.size().height(dpi).saturating_sub(top) % scale != 0
}

/// Whether so many rows more go past the height of a raster.
fn is_past_height(raster: &SeenRaster<'_>, count: i32) -> bool {
    let rows = raster.rows.saturating_add(u64::from(count.unsigned_abs()));
    raster.height.is_some_and(|height| rows > u64::from(height))
}

/// The dot row below so many rows more of a raster.
fn lines_end(raster: &SeenRaster<'_>, count: u64) -> u64 {
    let rows = raster.rows.saturating_add(count);
    rows.saturating_mul(u64::from(raster.scale))
        .saturating_add(u64::from(raster.top))
}

/// The dot row below the page.
fn end_of_page(environment: &Env, dpi: Dpi) -> u64 {
    u64::from(environment.size().height(dpi))
}

/// Whether the next row of a raster that has begun lies below the page, in part or whole.
fn is_below_end(raster: &Option<SeenRaster<'_>>, environment: &Env, dpi: Dpi) -> bool {
    match raster {
        Some(raster) => lines_end(raster, 1) > end_of_page(environment, dpi),
        None => false,
    }
}

/// Whether a raster goes on over a command, or ignores it.
fn goes_on(operation: Operation) -> bool {
    matches!(
        operation,
        Operation::RasterMethod
            | Operation::SeedRowSource
            | Operation::RasterOffset
            | Operation::RasterRow
    )
}

/// Whether a raster may go on after a command that ends it: printers may not know the command.
fn may_go_on(operation: Operation) -> bool {
    matches!(
        operation,
        Operation::Ask(
            Asking::TextScale | Asking::PrintQuality | Asking::Depletion | Asking::RasterQuality
        )
    )
}

/// Whether a raster has fewer rows than its height.
fn is_short(raster: &SeenRaster<'_>) -> bool {
    raster
        .height
        .is_some_and(|height| raster.rows < u64::from(height))
}

/// Whether the seed row of a raster has dots.
fn has_seed(raster: &SeenRaster<'_>) -> bool {
    raster.seed.iter().any(|byte| *byte != 0)
}

/// Whether the next row of a raster that has begun is the last of the page, or below it.
fn reaches_end(raster: &Option<SeenRaster<'_>>, environment: &Env, dpi: Dpi) -> bool {
    match raster {
        Some(raster) => lines_end(raster, 1) >= end_of_page(environment, dpi),
        None => false,
    }
}

/// Why a raster that starts at a place may stand elsewhere, if that lies more than half a dot past a dot.
fn between_dots(place: u32, dpi: Dpi) -> Option<Doubt> {
    is_more_than_half_past(place, dpi).then_some(Doubt::BetweenDots)
}
