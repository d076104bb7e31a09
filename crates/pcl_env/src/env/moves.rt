//! Moves of the cursor, and its stack.

ghost use Rattle.std.specs.Prelude.{◌≡◌, ◌<◌, ◌^◌, false};
ghost use Rattle.pcl_base.specs.Value.{scaled_by};
ghost use Rattle.pcl_base.specs.declared.operation.Operation.TheVariants.{Move, CursorStack, UnitOfMeasure};
ghost use Rattle.pcl_env.specs.Settings.{put_x, put_y, put, first_line, advance};
ghost use Rattle.pcl_env.specs.Outcome.{unit_of, origin_of, moved, push, pop, move_along, units_of_measure, is_one_of};
ghost use Rattle.pcl_base.specs.declared.dpi.Dpi.TheVariants.{Dpi300};
ghost use Rattle.pcl_env.specs.Outcome.{outcome, AnswersAs};

use super::{Env, INCH};
use crate::{Effect, Unsupported};
use pcl_base::{Axis, Sign, Unit, Value};

/// Units of 1/7200 inch in a tenth of a point.
const DECIPOINT: u32 = 10;

impl Env {
    /// Sets the PCL unit, by how many of them are in an inch (PCL 5 manual, "Unit of Measure").
    #[tactic(auto, unfolding(crate::specs::Outcome::outcome))]
    pub fn set_unit_of_measure(&mut self, value: Value) -> Result<Effect, Unsupported>
        ensures { AnswersAs (outcome Dpi300 UnitOfMeasure value false self.old) result self.old self.new }
    {
        let units = value.count().ok_or(Unsupported)?;
        if !is_unit_of_measure(units) {
            return Err(Unsupported);
        }
        self.setup.pcl_unit = INCH / units;
        Ok(Effect::Stay)
    }

    /// Moves the cursor: with a sign from where it is, without one from the left edge or the top margin
    /// ("Cursor Positioning").
    #[tactic(auto, unfolding(crate::specs::Outcome::outcome))]
    pub fn move_cursor(
        &mut self,
        axis: Axis,
        unit: Unit,
        value: Value,
    ) -> Result<Effect, Unsupported>
        ensures { AnswersAs (outcome Dpi300 (Move axis unit) value false self.old) result self.old self.new }
    {
        let amount = scaled(value, self.unit_of(axis, unit));
        let origin = self.origin_of(axis, unit);
        match axis {
            Axis::Horizontal => self.put_x(moved(value.sign, origin, self.cursor.x, amount)),
            Axis::Vertical => self.put_y(moved(value.sign, origin, self.cursor.y, amount)),
        }
        Ok(Effect::Stay)
    }

    /// Keeps the cursor on the stack, or takes the newest place back ("Push/Pop Cursor Position").
    #[tactic(auto, unfolding(crate::specs::Outcome::outcome))]
    pub fn cursor_stack(&mut self, value: Value) -> Result<Effect, Unsupported>
        ensures { AnswersAs (outcome Dpi300 CursorStack value false self.old) result self.old self.new }
    {
        match value.count() {
            Some(0) => self.push(),
            Some(1) => self.pop(),
            _ => return Err(Unsupported),
        }
        Ok(Effect::Stay)
    }

    /// Moves the cursor along the line by this many units, to the left where they are below 0.
    pub fn advance(&mut self, units: i64)
        ensures { self.new ≡ advance units self.old }
    {
        let x = u64::from(self.cursor.x);
        if units < 0 {
            self.put_x(x.saturating_sub(units.unsigned_abs()));
        } else {
            self.put_x(x + units.unsigned_abs());
        }
    }

    /// Moves the cursor to a place, in units from the page's upper left corner.
    pub fn move_to(&mut self, x: u64, y: u64)
        ensures { self.new ≡ put record { x = x; y = y } self.old }
    {
        self.put_x(x);
        self.put_y(y);
    }

    /// Moves the cursor along the line, held within the page.
    pub(super) fn put_x(&mut self, x: u64)
        ensures { self.new ≡ put_x x self.old }
    {
        self.cursor.x = x.min(u64::from(self.size.units_wide())) as u32;
    }

    /// Moves the cursor down or up, held within the page.
    pub(super) fn put_y(&mut self, y: u64)
        ensures { self.new ≡ put_y y self.old }
    {
        self.cursor.y = y.min(u64::from(self.size.units_high())) as u32;
    }

    /// Where the first line stands.
    pub(super) fn first_line(&self) -> u64
        ensures value { result ≡ first_line self.now }
        ensures bound { result < 2 ^ 35 }
    {
        u64::from(self.setup.top) + 3 * u64::from(self.setup.vmi) / 4
    }

    /// The length of one of the unit.
    pub(super) fn unit_of(&self, axis: Axis, unit: Unit) -> u32
        ensures { result ≡ unit_of axis unit self.now }
    {
        match (axis, unit) {
            (_, Unit::PclUnit) => self.setup.pcl_unit,
            (_, Unit::Decipoint) => DECIPOINT,
            (Axis::Horizontal, Unit::Column) => self.setup.hmi,
            (Axis::Vertical, Unit::Column) => self.setup.vmi,
        }
    }

    /// From where a move without a sign counts.
    fn origin_of(&self, axis: Axis, unit: Unit) -> u64
        ensures value { result ≡ origin_of axis unit self.now }
        ensures bound { result < 2 ^ 35 }
    {
        match (axis, unit) {
            (Axis::Horizontal, _) => 0,
            (Axis::Vertical, Unit::Column) => self.first_line(),
            (Axis::Vertical, _) => u64::from(self.setup.top),
        }
    }

    fn push(&mut self)
        ensures { self.new ≡ push self.old }
    {
        self.stack.push(self.cursor);
    }

    fn pop(&mut self)
        ensures { self.new ≡ pop self.old }
    {
        if let Some(place) = self.stack.pop() {
            self.move_to(u64::from(place.x), u64::from(place.y));
        }
    }
}

/// The value's magnitude times a length, rounded down.
pub(super) fn scaled(value: Value, length: u32) -> u64
    ensures value { result ≡ scaled_by length value }
    ensures bound { result < 2 ^ 51 }
{
    u64::from(value.parts) * u64::from(length) / 10_000
}

/// Where a move ends, before it is held within the page.
fn moved(sign: Sign, origin: u64, cursor: u32, amount: u64) -> u64
    requires origin { origin < 2 ^ 35 }
    requires amount { amount < 2 ^ 51 }
    ensures { result ≡ moved sign origin cursor amount }
{
    match sign {
        Sign::Absent => origin + amount,
        Sign::Plus => u64::from(cursor) + amount,
        Sign::Minus => u64::from(cursor).saturating_sub(amount),
    }
}

/// Whether a PCL unit can be so small that an inch has this many of them.
fn is_unit_of_measure(units: u32) -> bool
    ensures { result ≡ is_one_of units_of_measure units }
{
    matches!(
        units,
        96 | 100
            | 120
            | 144
            | 150
            | 160
            | 180
            | 200
            | 225
            | 240
            | 288
            | 300
            | 360
            | 400
            | 450
            | 480
            | 600
            | 720
            | 800
            | 900
            | 1200
            | 1440
            | 1800
            | 2400
            | 3600
            | 7200
    )
}
