//! Columns and lines: their spacing, and the moves from one to the next.

ghost use Rattle.std.specs.Prelude.{◌≡◌, ◌<◌, ◌^◌, Some, false};
ghost use Rattle.pcl_base.specs.Value.{zero_value};
ghost use Rattle.pcl_base.specs.declared.operation.Operation.TheVariants.{HalfLineFeed, HorizontalTab, LineFeed, FormFeed, CarriageReturn, VerticalMotionIndex, LineSpacing, PerforationSkip, HorizontalMotionIndex, LineTermination};
ghost use Rattle.pcl_env.specs.Outcome.{return_carriage, before_feed, feed_limit, feed, tab_stop, line_spacings, is_one_of};
ghost use Rattle.pcl_base.specs.declared.dpi.Dpi.TheVariants.{Dpi300};
ghost use Rattle.pcl_env.specs.Outcome.{outcome, AnswersAs};

use super::{Env, INCH};
use crate::{Effect, Unsupported};
use pcl_base::Value;

/// Columns from one tab stop to the next.
const TAB: u64 = 8;

/// The unit in which a line spacing is set: 1/48 inch.
const VMI_UNIT: u64 = 150;

/// The unit in which a column width is set: 1/120 inch.
const HMI_UNIT: u64 = 60;

impl Env {
    /// Sets the line spacing (VMI) in 1/48 inch (PCL 5 manual, "Vertical Motion Index").
    #[tactic(auto, unfolding(crate::specs::Outcome::outcome))]
    pub fn set_vertical_motion_index(&mut self, value: Value) -> Result<Effect, Unsupported>
        ensures { AnswersAs (outcome Dpi300 VerticalMotionIndex value false self.old) result self.old self.new }
    {
        value.count().ok_or(Unsupported)?;
        self.setup.vmi = value.scaled(VMI_UNIT) as u32;
        Ok(Effect::Stay)
    }

    /// Sets the line spacing (VMI) in lines per inch ("Line Spacing").
    #[tactic(auto, unfolding(crate::specs::Outcome::outcome))]
    pub fn set_line_spacing(&mut self, value: Value) -> Result<Effect, Unsupported>
        ensures { AnswersAs (outcome Dpi300 LineSpacing value false self.old) result self.old self.new }
    {
        let lines = value.count().ok_or(Unsupported)?;
        if !is_line_spacing(lines) {
            return Err(Unsupported);
        }
        self.setup.vmi = INCH / lines;
        Ok(Effect::Stay)
    }

    /// Sets the column width (HMI) in 1/120 inch ("Horizontal Motion Index").
    #[tactic(auto, unfolding(crate::specs::Outcome::outcome))]
    pub fn set_horizontal_motion_index(&mut self, value: Value) -> Result<Effect, Unsupported>
        ensures { AnswersAs (outcome Dpi300 HorizontalMotionIndex value false self.old) result self.old self.new }
    {
        value.count().ok_or(Unsupported)?;
        self.setup.hmi = value.scaled(HMI_UNIT) as u32;
        Ok(Effect::Stay)
    }

    /// Sets what else CR, LF and FF do: with 1 CR also does LF, with 2 LF and FF do CR first, with 3 both
    /// ("Line Termination").
    #[tactic(auto, unfolding(crate::specs::Outcome::outcome))]
    pub fn set_line_termination(&mut self, value: Value) -> Result<Effect, Unsupported>
        ensures { AnswersAs (outcome Dpi300 LineTermination value false self.old) result self.old self.new }
    {
        let (return_feeds, feed_returns) = match value.count() {
            Some(0) => (false, false),
            Some(1) => (true, false),
            Some(2) => (false, true),
            Some(3) => (true, true),
            _ => return Err(Unsupported),
        };
        self.setup.return_feeds = return_feeds;
        self.setup.feed_returns = feed_returns;
        Ok(Effect::Stay)
    }

    /// Sets whether a line feed past the bottom margin ejects the page ("Perforation Skip").
    #[tactic(auto, unfolding(crate::specs::Outcome::outcome))]
    pub fn set_perforation_skip(&mut self, value: Value) -> Result<Effect, Unsupported>
        ensures { AnswersAs (outcome Dpi300 PerforationSkip value false self.old) result self.old self.new }
    {
        self.setup.skips = match value.count() {
            Some(0) => false,
            Some(1) => true,
            _ => return Err(Unsupported),
        };
        Ok(Effect::Stay)
    }

    /// HT: moves the cursor to the next tab stop, each eight columns from the left margin on.
    #[tactic(auto, unfolding(crate::specs::Outcome::outcome))]
    pub fn horizontal_tab(&mut self) -> Result<Effect, Unsupported>
        ensures { AnswersAs (outcome Dpi300 HorizontalTab zero_value false self.old) result self.old self.new }
    {
        let stop = self.tab_stop();
        self.put_x(stop);
        Ok(Effect::Stay)
    }

    /// CR: moves the cursor to the left margin, and down by a line where the line termination says so.
    #[tactic(auto, unfolding(crate::specs::Outcome::outcome))]
    pub fn carriage_return(&mut self) -> Result<Effect, Unsupported>
        ensures { AnswersAs (outcome Dpi300 CarriageReturn zero_value false self.old) result self.old self.new }
    {
        let line = self.setup.vmi;
        let feeds = self.setup.return_feeds;
        self.return_carriage();
        if feeds {
            Ok(self.feed(line))
        } else {
            Ok(Effect::Stay)
        }
    }

    /// LF: moves the cursor down by a line, or ejects the page.
    #[tactic(auto, unfolding(crate::specs::Outcome::outcome))]
    pub fn line_feed(&mut self) -> Result<Effect, Unsupported>
        ensures { AnswersAs (outcome Dpi300 LineFeed zero_value false self.old) result self.old self.new }
    {
        let line = self.setup.vmi;
        self.before_feed();
        Ok(self.feed(line))
    }

    /// Moves the cursor down by half a line, or ejects the page ("Half-Line Feed").
    #[tactic(auto, unfolding(crate::specs::Outcome::outcome))]
    pub fn half_line_feed(&mut self) -> Result<Effect, Unsupported>
        ensures { AnswersAs (outcome Dpi300 HalfLineFeed zero_value false self.old) result self.old self.new }
    {
        let half_line = self.setup.vmi / 2;
        Ok(self.feed(half_line))
    }

    /// FF: ejects the page.
    #[tactic(auto, unfolding(crate::specs::Outcome::outcome))]
    pub fn form_feed(&mut self) -> Result<Effect, Unsupported>
        ensures { AnswersAs (outcome Dpi300 FormFeed zero_value false self.old) result self.old self.new }
    {
        self.before_feed();
        Ok(Effect::Eject)
    }

    /// Moves the cursor down by so much; where that is past the limit it stays, and the page is ejected.
    fn feed(&mut self, by: u32) -> Effect
        ensures { feed by self.old ≡ Some (self.new, result) }
    {
        let y = u64::from(self.cursor.y) + u64::from(by);
        if y > u64::from(self.feed_limit()) {
            return Effect::Eject;
        }
        self.put_y(y);
        Effect::Stay
    }

    /// How far down a line feed may go.
    fn feed_limit(&self) -> u32
        ensures { result ≡ feed_limit self.now }
    {
        let high = self.size.units_high();
        if self.setup.skips {
            self.setup.bottom.min(high)
        } else {
            high
        }
    }

    fn return_carriage(&mut self)
        ensures { self.new ≡ return_carriage self.old }
    {
        let left = u64::from(self.setup.left);
        self.put_x(left);
    }

    fn before_feed(&mut self)
        ensures { self.new ≡ before_feed self.old }
    {
        if self.setup.feed_returns {
            self.return_carriage();
        }
    }

    fn tab_stop(&self) -> u64
        ensures { result ≡ tab_stop self.now }
    {
        let x = u64::from(self.cursor.x);
        let left = u64::from(self.setup.left);
        let tab = TAB * u64::from(self.setup.hmi);
        if x < left {
            left
        } else if tab == 0 {
            x
        } else {
            left + ((x - left) / tab + 1) * tab
        }
    }
}

/// Whether lines can be spaced so that an inch has this many of them.
fn is_line_spacing(lines: u32) -> bool
    ensures { result ≡ is_one_of line_spacings lines }
{
    matches!(lines, 1 | 2 | 3 | 4 | 6 | 8 | 12 | 16 | 24 | 48)
}
