//! Places on the page and lengths, in units of 1/7200 inch, and what is left of them.

use pcl_base::{Axis, Dpi, Side, Unit, Value};
use pcl_env::Env;

/// The parts of a whole number, of which a value is counted.
pub const WHOLE: u32 = 10_000;

/// Units in a tenth of a point.
const DECIPOINT: u32 = 10;

/// Ten-thousandths of a decipoint in a unit.
pub const OFFSET_PARTS: i64 = 1_000;

/// An offset in units.
pub fn offset_units(offset: Option<i64>) -> i64 {
    offset.unwrap_or(0) / OFFSET_PARTS
}

/// Whether the page is moved up on its sheet.
pub fn is_raised(environment: &Env) -> bool {
    offset_units(environment.asked().top_offset) < 0
}

/// Whether the page is moved down on its sheet.
pub fn is_lowered(environment: &Env) -> bool {
    offset_units(environment.asked().top_offset) > 0
}

/// Whether the cursor is at the left end of the first line.
pub fn is_home(environment: &Env) -> bool {
    environment.x() == environment.left_margin() && is_on_first_line(environment)
}

/// Whether the cursor is on the first line.
pub fn is_on_first_line(environment: &Env) -> bool {
    let first_line = u64::from(environment.top_margin()) + 3 * u64::from(environment.vmi()) / 4;
    u64::from(environment.y()) == first_line
}

/// Whether the cursor is at the lower end of the page.
pub fn is_at_end(environment: &Env) -> bool {
    environment.y() >= environment.size().units_high()
}

/// Whether the cursor is at the right end of the page.
pub fn is_at_right_end(environment: &Env) -> bool {
    environment.x() >= environment.size().units_wide()
}

/// Whether the font that is meant is selected.
pub fn is_selected(environment: &Env) -> bool {
    let id = Some(environment.font_id());
    environment.font_of(Side::Primary) == id || environment.font_of(Side::Secondary) == id
}

/// The length of one of the unit.
pub fn unit_of(axis: Axis, unit: Unit, environment: &Env) -> u32 {
    match (unit, axis) {
        (Unit::PclUnit, _) => environment.pcl_unit(),
        (Unit::Decipoint, _) => DECIPOINT,
        (Unit::Column, Axis::Horizontal) => environment.hmi(),
        (Unit::Column, Axis::Vertical) => environment.vmi(),
    }
}

/// Whether a value times a length is no whole number of units.
pub fn has_rest(value: Value, length: u32) -> bool {
    u64::from(value.parts) * u64::from(length) % u64::from(WHOLE) != 0
}

/// Whether a length is no whole number of PCL units.
pub fn has_part_of_unit(length: i64, environment: &Env) -> bool {
    let unit = u64::from(environment.pcl_unit());
    length.unsigned_abs().checked_rem(unit) != Some(0)
}

/// Whether a place lies half a dot past a dot or more.
pub fn is_half_past_or_more(place: u32, dpi: Dpi) -> bool {
    2 * (place % dpi.unit()) >= dpi.unit()
}

/// Whether a place lies more than half a dot past a dot.
pub fn is_more_than_half_past(place: u32, dpi: Dpi) -> bool {
    2 * (place % dpi.unit()) > dpi.unit()
}
