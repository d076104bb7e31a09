//! Settings of rectangles and of rasters.

ghost use Rattle.std.specs.Prelude.{◌≡◌, false, IsTrue};
ghost use Rattle.pcl_base.specs.Value.{zero_value};
ghost use Rattle.pcl_base.specs.declared.operation.Operation.TheVariants.{RectangleSize, RasterResolution, RasterWidth, RasterHeight, EndRasterResetMethod, RasterMethod};
ghost use Rattle.pcl_env.specs.Settings.{Settings};
ghost use Rattle.pcl_env.specs.Outcome.{resolutions, is_one_of, none_if_zero};
ghost use Rattle.pcl_env.specs.Usable.{is_raster_resolution};
ghost use Rattle.pcl_base.specs.declared.dpi.Dpi.TheVariants.{Dpi300};
ghost use Rattle.pcl_env.specs.Outcome.{outcome, AnswersAs};

use super::Env;
use super::moves::scaled;
use crate::{Effect, Unsupported};
use pcl_base::{Axis, Dpi, Method, Unit, Value};

impl Env {
    /// Sets the width or the height of the rectangle (PCL 5 manual, "Rectangle Size").
    #[tactic(auto, unfolding(crate::specs::Outcome::outcome))]
    pub fn set_rectangle_size(
        &mut self,
        axis: Axis,
        unit: Unit,
        value: Value,
    ) -> Result<Effect, Unsupported>
        ensures { AnswersAs (outcome Dpi300 (RectangleSize axis unit) value false self.old) result self.old self.new }
    {
        value.count().ok_or(Unsupported)?;
        let length = scaled(value, self.unit_of(axis, unit));
        match axis {
            Axis::Horizontal => self.setup.rectangle_width = length,
            Axis::Vertical => self.setup.rectangle_height = length,
        }
        Ok(Effect::Stay)
    }

    /// Sets the raster resolution ("Raster Resolution").
    #[tactic(auto, unfolding(crate::specs::Outcome::outcome))]
    pub fn set_raster_resolution(&mut self, value: Value, dpi: Dpi) -> Result<Effect, Unsupported>
        ensures { AnswersAs (outcome dpi RasterResolution value false self.old) result self.old self.new }
    {
        let resolution = value.count().ok_or(Unsupported)?;
        if !is_resolution(resolution, dpi) {
            return Err(Unsupported);
        }
        self.setup.resolution = resolution;
        Ok(Effect::Stay)
    }

    /// Sets the raster width in raster dots, or with 0 that there is none ("Source Raster Width").
    #[tactic(auto, unfolding(crate::specs::Outcome::outcome))]
    pub fn set_raster_width(&mut self, value: Value) -> Result<Effect, Unsupported>
        ensures { AnswersAs (outcome Dpi300 RasterWidth value false self.old) result self.old self.new }
    {
        let width = value.count().ok_or(Unsupported)?;
        self.setup.raster_width = none_if_zero(width);
        Ok(Effect::Stay)
    }

    /// Sets the raster height in raster dots, or with 0 that there is none ("Source Raster Height").
    #[tactic(auto, unfolding(crate::specs::Outcome::outcome))]
    pub fn set_raster_height(&mut self, value: Value) -> Result<Effect, Unsupported>
        ensures { AnswersAs (outcome Dpi300 RasterHeight value false self.old) result self.old self.new }
    {
        let height = value.count().ok_or(Unsupported)?;
        self.setup.raster_height = none_if_zero(height);
        Ok(Effect::Stay)
    }

    /// Sets the method of row data by its number ("Set Compression Method").
    #[tactic(auto, unfolding(crate::specs::Outcome::outcome))]
    pub fn set_raster_method(&mut self, value: Value) -> Result<Effect, Unsupported>
        ensures { AnswersAs (outcome Dpi300 RasterMethod value false self.old) result self.old self.new }
    {
        let method = value
            .count()
            .and_then(Method::from_code)
            .ok_or(Unsupported)?;
        self.set_method(method);
        Ok(Effect::Stay)
    }

    /// Sets method 0, as the end of a raster by one of its two commands does ("End Raster Graphics").
    #[tactic(auto, unfolding(crate::specs::Outcome::outcome))]
    pub fn reset_raster_method(&mut self) -> Result<Effect, Unsupported>
        ensures { AnswersAs (outcome Dpi300 EndRasterResetMethod zero_value false self.old) result self.old self.new }
    {
        self.set_method(Method::Plain);
        Ok(Effect::Stay)
    }

    /// Sets the method of row data.
    pub fn set_method(&mut self, method: Method)
        ensures { self.new ≡ record self.old { method = method } }
    {
        self.setup.method = method;
    }
}

/// Whether rasters can have this many dots per inch.
fn is_resolution(dots: u32, dpi: Dpi) -> bool
    ensures value { result ≡ is_one_of (resolutions dpi) dots }
    ensures one { IsTrue result → IsTrue (is_raster_resolution dots) }
{
    match dpi {
        Dpi::Dpi300 => matches!(dots, 75 | 100 | 150 | 300),
        Dpi::Dpi600 => matches!(dots, 75 | 100 | 150 | 200 | 300 | 600),
    }
}

fn none_if_zero(length: u32) -> Option<u32>
    ensures { result ≡ none_if_zero length }
{
    match length {
        0 => None,
        _ => Some(length),
    }
}
