//! The margins.

ghost use Rattle.std.specs.Prelude.{◌≡◌, false};
ghost use Rattle.pcl_base.specs.Value.{zero_value};
ghost use Rattle.pcl_base.specs.declared.operation.Operation.TheVariants.{ClearMargins, TopMargin, TextLength, LeftMargin};
ghost use Rattle.pcl_env.specs.Outcome.{set_top, set_bottom, set_left};
ghost use Rattle.pcl_base.specs.declared.dpi.Dpi.TheVariants.{Dpi300};
ghost use Rattle.pcl_env.specs.Outcome.{outcome, AnswersAs};

use super::{Env, MARGIN};
use crate::{Effect, Unsupported};
use pcl_base::Value;

impl Env {
    /// Sets the left margin to the page's left edge (PCL 5 manual, "Clear Horizontal Margins").
    #[tactic(auto, unfolding(crate::specs::Outcome::outcome))]
    pub fn clear_margins(&mut self) -> Result<Effect, Unsupported>
        ensures { AnswersAs (outcome Dpi300 ClearMargins zero_value false self.old) result self.old self.new }
    {
        self.setup.left = 0;
        Ok(Effect::Stay)
    }

    /// Sets the top margin in lines; on an unmarked page the cursor goes to the first line ("Top Margin").
    #[tactic(auto, unfolding(crate::specs::Outcome::outcome))]
    pub fn set_top_margin(&mut self, value: Value, is_marked: bool) -> Result<Effect, Unsupported>
        ensures { AnswersAs (outcome Dpi300 TopMargin value is_marked self.old) result self.old self.new }
    {
        let lines = value.count().ok_or(Unsupported)?;
        self.set_top(u64::from(lines) * u64::from(self.setup.vmi), is_marked);
        Ok(Effect::Stay)
    }

    /// Sets the bottom margin, this many lines below the top margin ("Text Length").
    #[tactic(auto, unfolding(crate::specs::Outcome::outcome))]
    pub fn set_text_length(&mut self, value: Value) -> Result<Effect, Unsupported>
        ensures { AnswersAs (outcome Dpi300 TextLength value false self.old) result self.old self.new }
    {
        let Some(lines @ 1..) = value.count() else {
            return Err(Unsupported);
        };
        self.set_bottom(u64::from(self.setup.top) + u64::from(lines) * u64::from(self.setup.vmi));
        Ok(Effect::Stay)
    }

    /// Sets the left margin in columns; a cursor left of it goes to it ("Left Margin").
    #[tactic(auto, unfolding(crate::specs::Outcome::outcome))]
    pub fn set_left_margin(&mut self, value: Value) -> Result<Effect, Unsupported>
        ensures { AnswersAs (outcome Dpi300 LeftMargin value false self.old) result self.old self.new }
    {
        let columns = value.count().ok_or(Unsupported)?;
        self.set_left(u64::from(columns) * u64::from(self.setup.hmi));
        Ok(Effect::Stay)
    }

    fn set_top(&mut self, top: u64, is_marked: bool)
        ensures { self.new ≡ set_top top is_marked self.old }
    {
        let high = self.size.units_high();
        if top > u64::from(high) {
            return;
        }
        self.setup.top = top as u32;
        self.setup.bottom = high - MARGIN;
        if !is_marked {
            self.new_page();
        }
    }

    fn set_bottom(&mut self, bottom: u64)
        ensures { self.new ≡ set_bottom bottom self.old }
    {
        if bottom <= u64::from(self.size.units_high()) {
            self.setup.bottom = bottom as u32;
        }
    }

    fn set_left(&mut self, left: u64)
        ensures { self.new ≡ set_left left self.old }
    {
        if left < u64::from(self.size.units_wide()) {
            self.setup.left = left as u32;
            let x = u64::from(self.cursor.x).max(left);
            self.put_x(x);
        }
    }
}
