//! Rectangles and characters.

use crate::doubts::Doubt;
use crate::papers::is_past_shared;
use crate::places::{
    has_part_of_unit, is_at_end, is_at_right_end, is_half_past_or_more, is_lowered,
    is_more_than_half_past, is_raised,
};
use crate::printers::Printers;
use pcl_bitmap::Ink;
use pcl_env::Env;
use pcl_fonts::{FontInfo, Glyph};
use pcl_page::{MarkShape, SeenMark};

impl Printers {
    /// Looks at a rectangle or a character that is about to be painted at the cursor.
    pub fn see_mark(&mut self, mark: &SeenMark<'_>, environment: &Env) {
        match mark.shape {
            MarkShape::Rectangle(ink) => self.see_rectangle(ink, mark, environment),
            MarkShape::Character(glyph, font) => {
                self.see_character(glyph, font, mark, environment);
            }
        }
        self.see_on_sheet();
        self.see_on_paper(is_past_shared(mark, environment), environment);
    }

    /// Looks at a rectangle.
    fn see_rectangle(&mut self, ink: Ink, mark: &SeenMark<'_>, environment: &Env) {
        if is_empty(mark) || is_at_end(environment) || is_at_right_end(environment) {
            self.note_if(!mark.is_marked, Doubt::EmptyMark);
            return;
        }
        self.see_at_cursor();
        let is_moved = is_raised(environment) || is_lowered(environment);
        let is_between = is_half_past_or_more(environment.x(), self.dpi)
            || is_more_than_half_past(environment.y(), self.dpi)
            || (is_moved && is_half_past_or_more(environment.y(), self.dpi));
        self.note_if(is_between, Doubt::BetweenDots);
        let unit = u64::from(self.dpi.unit());
        let size = environment.size();
        let right = u64::from(environment.x()) / unit
            + environment.rectangle_width().div_ceil(unit);
        let bottom = u64::from(environment.y()) / unit
            + environment.rectangle_height().div_ceil(unit);
        let is_cut = right > u64::from(size.width(self.dpi))
            || (is_raised(environment) && bottom > u64::from(size.height(self.dpi)));
        self.note_if(is_cut && ink == Ink::Black, Doubt::Edge);
    }

    /// Looks at a character of a font.
    fn see_character(
        &mut self,
        glyph: &Glyph<'_>,
        font: FontInfo,
        mark: &SeenMark<'_>,
        environment: &Env,
    ) {
        let is_unseen = !mark.is_marked && !is_on_page(mark, environment);
        self.note_if(is_unseen, Doubt::EmptyMark);
        self.rasters.is_text_next = false;
        self.see_text(environment);
        self.see_line(end_of(glyph, font, mark, environment), environment);
        self.note_if(font.proportional && glyph.delta < 0, Doubt::Advance);
        if !font.proportional {
            self.see_column(environment);
        }
        if !is_empty(mark) {
            self.see_pattern(mark, environment);
        }
        if font.proportional && has_part_of_unit(font.advance(glyph.delta), environment) {
            self.cursor.column = self.cursor.column.or(Some(Doubt::PartOfUnit));
        }
    }

    /// Looks at a pattern with dots.
    fn see_pattern(&mut self, mark: &SeenMark<'_>, environment: &Env) {
        self.see_at_cursor();
        let is_between = is_half_past_or_more(environment.x(), self.dpi)
            || is_half_past_or_more(environment.y(), self.dpi);
        self.note_if(is_between || self.cursor.is_row_half, Doubt::BetweenDots);
        self.note_if(is_cut(mark, environment), Doubt::Edge);
    }

    /// Looks at a code that prints no character.
    pub fn see_blank(&mut self, code: u8, environment: &Env) {
        self.note_if(code != b' ', Doubt::Code);
        self.note_if(self.rasters.is_text_next, Doubt::OpenRaster);
        self.rasters.is_text_next = false;
        self.see_text(environment);
        let end = i64::from(environment.x()).saturating_add(i64::from(environment.hmi()));
        self.see_line(end, environment);
        self.see_column(environment);
    }

    /// Looks at a mark at the cursor.
    fn see_at_cursor(&mut self) {
        self.note_any(self.cursor.column);
        self.note_any(self.cursor.row);
    }
}

/// How far a character and its advance go along the line.
fn end_of(glyph: &Glyph<'_>, font: FontInfo, mark: &SeenMark<'_>, environment: &Env) -> i64 {
    let advance = if font.proportional {
        font.advance(glyph.delta)
    } else {
        i64::from(environment.hmi())
    };
    mark.right
        .max(i64::from(environment.x()).saturating_add(advance))
}

/// Whether a mark has no dots.
fn is_empty(mark: &SeenMark<'_>) -> bool {
    mark.left == mark.right || mark.top == mark.bottom
}

/// Whether a part of a pattern is off the page, and may be on its sheet.
fn is_cut(mark: &SeenMark<'_>, environment: &Env) -> bool {
    let size = environment.size();
    mark.left < 0
        || mark.right > i64::from(size.units_wide())
        || (mark.top < 0 && is_lowered(environment))
        || (mark.bottom > i64::from(size.units_high()) && is_raised(environment))
}

/// Whether a part of a pattern is on the page.
fn is_on_page(mark: &SeenMark<'_>, environment: &Env) -> bool {
    let size = environment.size();
    mark.left.max(0) < mark.right.min(i64::from(size.units_wide()))
        && mark.top.max(0) < mark.bottom.min(i64::from(size.units_high()))
}
