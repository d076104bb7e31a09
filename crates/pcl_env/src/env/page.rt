//! Resets, page sizes and copies.

ghost use Rattle.std.specs.Prelude.{◌≡◌, false};
ghost use Rattle.pcl_base.specs.Value.{zero_value};
ghost use Rattle.pcl_base.specs.declared.operation.Operation.TheVariants.{Reset, UniversalExit, PageSize, Copies, FormFeed, Ask};
ghost use Rattle.pcl_env.specs.Settings.{to_first_line, with_size};
ghost use Rattle.pcl_base.specs.declared.dpi.Dpi.TheVariants.{Dpi300};
ghost use Rattle.pcl_env.specs.Outcome.{outcome, is_asking_taken, is_offset_taken, AnswersAs};

use super::{Env, MARGIN};
use crate::offset::{lies_at, page_offset};
use crate::stack::Position;
use crate::{Effect, Unsupported};
use pcl_base::{Asking, COPIES_LIMIT, Profile, Size, Value};

/// The most copies of a page.
const MOST_COPIES: u32 = COPIES_LIMIT as u32;

impl Env {
    /// Sets what a job begins with (PCL 5 manual, "Printer Reset").
    #[tactic(auto, unfolding(crate::specs::Outcome::outcome))]
    pub fn reset(&mut self) -> Result<Effect, Unsupported>
        ensures { AnswersAs (outcome Dpi300 Reset zero_value false self.old) result self.old self.new }
    {
        *self = Env::new(self.setup.profile);
        Ok(Effect::EjectMarked)
    }

    /// Sets what a job begins with, where the value is -12345 ("Universal Exit Language").
    #[tactic(auto, unfolding(crate::specs::Outcome::outcome))]
    pub fn universal_exit(&mut self, value: Value) -> Result<Effect, Unsupported>
        ensures { AnswersAs (outcome Dpi300 UniversalExit value false self.old) result self.old self.new }
    {
        if value.is_exit_number() {
            self.reset()
        } else {
            Err(Unsupported)
        }
    }

    /// Sets the page size by its number, and with it the margins and the cursor ("Page Size").
    #[tactic(auto, unfolding(crate::specs::Outcome::outcome))]
    pub fn set_page_size(&mut self, value: Value) -> Result<Effect, Unsupported>
        ensures { AnswersAs (outcome Dpi300 PageSize value false self.old) result self.old self.new }
    {
        match value.count().and_then(Size::from_code) {
            Some(size) => {
                self.set_size(size);
                Ok(Effect::EjectMarked)
            }
            None => Err(Unsupported),
        }
    }

    /// Sets the copies of each page ("Number of Copies").
    #[tactic(auto, unfolding(crate::specs::Outcome::outcome))]
    pub fn set_copies(&mut self, value: Value) -> Result<Effect, Unsupported>
        ensures { AnswersAs (outcome Dpi300 Copies value false self.old) result self.old self.new }
    {
        match value.count() {
            Some(copies @ 1..=MOST_COPIES) => {
                self.setup.copies = copies as u8;
                self.setup.asked = self.setup.asked.with_copies(copies as u8);
                Ok(Effect::Stay)
            }
            _ => Err(Unsupported),
        }
    }

    /// Sets what the page is asked with, if it is marked or not; another paper source and another side of the sheet are for the next page
    /// ("Paper Source", "Duplex Page Side Selection").
    #[tactic(auto, unfolding(crate::specs::Outcome::outcome))]
    pub fn ask(
        &mut self,
        what: Asking,
        value: Value,
        is_marked: bool,
    ) -> Result<Effect, Unsupported>
        ensures { AnswersAs (outcome Dpi300 (Ask what) value is_marked self.old) result self.old self.new }
    {
        if !self.is_asking_taken(what, value, is_marked) {
            return Err(Unsupported);
        }
        self.setup.asked = self.setup.asked.with(what, value, self.setup.vmi);
        Ok(match what {
            Asking::Sides
            | Asking::OutputBin
            | Asking::MediaType
            | Asking::PageLength
            | Asking::Orientation
            | Asking::LeftOffset
            | Asking::TopOffset
            | Asking::JobSeparation
            | Asking::TextScale
            | Asking::PrintQuality
            | Asking::Shingling
            | Asking::Depletion
            | Asking::RasterQuality => Effect::Stay,
            Asking::PaperSource | Asking::SheetSide => Effect::EjectMarked,
        })
    }

    /// Whether the page can be asked with the value.
    fn is_asking_taken(&self, what: Asking, value: Value, is_marked: bool) -> bool
        ensures { result ≡ is_asking_taken what value is_marked self.now }
    {
        let profile = self.setup.profile;
        match what {
            Asking::Orientation => value.whole() == 0,
            Asking::LeftOffset => {
                is_offset_taken(profile, value, is_marked, self.setup.asked.left_offset)
            }
            Asking::TopOffset => {
                is_offset_taken(profile, value, is_marked, self.setup.asked.top_offset)
            }
            Asking::Sides
            | Asking::OutputBin
            | Asking::MediaType
            | Asking::PaperSource
            | Asking::SheetSide
            | Asking::PageLength
            | Asking::JobSeparation
            | Asking::TextScale
            | Asking::PrintQuality
            | Asking::Shingling
            | Asking::Depletion
            | Asking::RasterQuality => true,
        }
    }

    /// Puts the cursor on the first line, as each eject does. It keeps its place along the line.
    pub fn new_page(&mut self)
        ensures { self.new ≡ to_first_line self.old }
    {
        let first_line = self.first_line();
        self.put_y(first_line);
    }

    fn set_size(&mut self, size: Size)
        ensures { self.new ≡ with_size size self.old }
    {
        self.size = size;
        self.cursor = Position { x: 0, y: 0 };
        self.setup.top = MARGIN;
        self.setup.bottom = size.units_high() - MARGIN;
        self.setup.left = 0;
        self.setup.asked = self.setup.asked.with_size(size);
        self.new_page();
    }
}

/// Whether an offset is taken where this one was said before: a page that is marked stays at its offset.
fn is_offset_taken(profile: Profile, value: Value, is_marked: bool, said: Option<i64>) -> bool
    ensures { result ≡ is_offset_taken profile value is_marked said }
{
    match profile {
        Profile::Stated => value.whole() == 0,
        Profile::Drivers => !is_marked || page_offset(value) == lies_at(said),
    }
}
