//! Performing one command after the other.

ghost use Rattle.std.specs.Prelude.{◌≤◌, ◌*◌, ◌^◌};
ghost use Rattle.pcl_base.specs.Limits.{command_limit, copies_limit, page_limit};
ghost use Rattle.pcl_page.specs.Raster.{raster_rows};

use crate::asks::Asks;
use crate::observing::{Event, Observer, SeenCommand, seen_raster, seen_rectangle};
use crate::raster::{Raster, ends_raster, is_ignored_in_raster};
use crate::{Page, PageSink};
use pcl_base::{
    Asking, COMMAND_LIMIT, CallFault, Dpi, JobFault, Kind, Name, Operation, PAGE_LIMIT, Profile,
    Refusal, Size, Value,
};
use pcl_bitmap::{Bitmap, Ink};
use pcl_env::{Asked, Effect, Env, Saved};
use pcl_escape::Command;
use pcl_fonts::Fonts;
use std::alloc::{AllocError, Global};

/// How far the performing of a job has come.
#[derive(Drop)]
pub struct Performer<'a> {
    /// What is set, and the cursor.
    pub environment: Env,
    /// The raster that has begun, if one has.
    pub raster: Option<Raster>,
    /// The soft fonts that are there.
    pub fonts: Fonts<'a>,
    /// The page that is being painted. Its copies are those of the page before until it is ejected, and so may its size be until
    /// something marks it.
    pub page: Page,
    /// Whether something on the page marks it.
    pub is_marked: bool,
    /// How many pages were ejected.
    pub ejected: u32,
    /// How many commands were performed.
    pub performed: u32,
    /// What the ejected pages were asked with, and the universal exits.
    pub asks: Asks<'a>,
    /// Where pages and rasters take their memory.
    pub alloc: Global,
    ghost few_pages: { ejected ≤ page_limit },
    ghost few_commands: { performed ≤ command_limit },
    ghost few_rows: { raster_rows raster ≤ 2 ^ 20 * performed },
}

impl<'a> Performer<'a> {
    ghost use Rattle.std.specs.Prelude.{◌≡◌, ◌<◌, ◌==◌, ◌&&◌, not, is_some, ◌≤◌, ◌+◌, ◌*◌, ◌^◌, if◌then◌else◌, Some, IfOk, OnOk, OnErr};
    ghost use Rattle.pcl_base.specs.declared.kind.Kind.TheVariants.{UnsupportedValue};
    ghost use Rattle.pcl_base.specs.Value.{whole_of, signed_whole};
    ghost use Rattle.std.specs.Option.{option_map};
    ghost use Rattle.pcl_page.specs.Marks.{dot_at};
    ghost use Rattle.pcl_page.specs.Raster.{raster_from, raster_rows, skipped, is_ignored_in_raster};
    ghost use Rattle.pcl_base.specs.declared.dpi.Dpi.{Dpi};
    ghost use Rattle.pcl_escape.specs.Said.{Said, view};
    ghost use Rattle.pcl_env.specs.Offset.{lie_together};
    ghost use Rattle.pcl_env.specs.Outcome.{outcome};
    ghost use Rattle.pcl_page.specs.Situation.{Situation, at_start, is_marked, drawn, draw_refusal, asked_for, ink_of, filled_with, rectangle_mark, exited, put_back, with_lasting};
    ghost use Rattle.pcl_page.specs.Macros.{macro_ended};
    ghost use Rattle.std.specs.Prelude.{List};
    ghost use Rattle.pcl_fonts.specs.History.{FontEvent, has_permanent};
    ghost use Rattle.pcl_fonts.specs.Table.{Holds};
    ghost use Rattle.pcl_macros.specs.History.{has_permanent as is_kept};
    ghost use Rattle.pcl_page.specs.Asks.{asks_of, restarted, with_reset, with_said_sides, with_separation, lasting_if};
    ghost use Rattle.pcl_bitmap.specs.declared.page.Page.{Page};
    ghost use Rattle.pcl_page.specs.inner.Reflecting.{IsIn, IsPrepared, HasRaster, Takes, IsFollowed, IsEjected, IsDrawn, Draws, IsSent, IsTurned, IsHandled, EndDone};

    /// The start of a job that is read by this profile: a white page, and the defaults.
    pub fn new(alloc: Global, profile: Profile, dpi: Dpi) -> Result<Performer<'a>, AllocError>
        ensures { IfOk result (λ performer. IsIn dpi (at_start profile) performer) }
    {
        let environment = Env::new(profile);
        let page = Page {
            size: Size::Letter,
            copies: 1,
            dpi,
            bitmap: Bitmap::new(alloc, Size::Letter, dpi)?,
        };
        Ok(Performer {
            environment,
            raster: None,
            fonts: Fonts::new(alloc),
            page,
            is_marked: false,
            ejected: 0,
            performed: 0,
            asks: Asks::new(alloc),
            alloc,
        })
    }

    /// Performs a command, but for what it does to macros, and hands over the page that it ejects. Gives what the command
    /// does, or why it is refused.
    pub fn try_command<O: Observer, S: PageSink>(
        &mut self,
        command: &Command<'a>,
        dpi: Dpi,
        observer: &mut O,
        sink: &mut S,
    ) -> Result<Operation, CallFault>
        ensures { (s : Situation) → IsIn dpi s self.old → IsHandled S.takes dpi (view command.now) s result self.new sink.old sink.new }
    {
        if self.performed >= COMMAND_LIMIT {
            return Err(CallFault::Refused(Kind::TooManyCommands));
        }
        let Some(operation) = Operation::with_name(command.name) else {
            return Err(CallFault::Refused(Kind::UnsupportedCommand));
        };
        self.performed += 1;
        if self.is_ignored(operation) {
            return Ok(operation);
        }
        self.tell_comes(operation, observer);
        self.prepare(operation, dpi);
        self.turn(operation, command, dpi, observer, sink)?;
        self.draw(operation, command, dpi, observer)?;
        Ok(operation)
    }

    /// Tells of a command that comes.
    fn tell_comes<O: Observer>(&self, operation: Operation, observer: &mut O) {
        let event = Event::Comes(operation, seen_raster(&self.raster));
        observer.see(event, &self.environment);
    }

    /// Tells of a command that has set what it sets.
    fn tell_set<O: Observer>(&self, operation: Operation, command: &Command<'_>, observer: &mut O) {
        let seen = SeenCommand {
            name: command.name,
            operation,
            value: command.value,
            bytes: command.bytes,
            is_marked: self.is_marked,
            raster: seen_raster(&self.raster),
            has_font: self.has_font(operation, command.value),
        };
        observer.see(Event::Sets(seen), &self.environment);
    }

    /// Whether the font that a command names is there.
    fn has_font(&self, operation: Operation, value: Value) -> bool {
        let id = match operation {
            Operation::SelectFont(_) => u16::try_from(value.whole().unsigned_abs()).ok(),
            Operation::DownloadFont | Operation::DownloadCharacter | Operation::ControlFonts => {
                Some(self.environment.font_id())
            }
            _ => None,
        };
        match id {
            Some(id) => self.fonts.font(id).is_some(),
            None => false,
        }
    }

    /// Tells of a rectangle that is about to be filled, if the value names an ink.
    fn tell_rectangle<O: Observer>(&self, value: Value, observer: &mut O) {
        if let Some(ink) = ink_of(value) {
            let mark = seen_rectangle(ink, &self.environment, self.is_marked);
            observer.see(Event::Marks(mark), &self.environment);
        }
    }

    /// Whether a raster has begun that ignores the command.
    fn is_ignored(&self, operation: Operation) -> bool
        ensures { result ≡ (is_some self.now.raster && is_ignored_in_raster operation) }
    {
        self.raster.is_some() && is_ignored_in_raster(operation)
    }

    /// Ends a raster that has begun and that the command ends: the cursor stands below its last row.
    pub fn prepare(&mut self, operation: Operation, dpi: Dpi)
        ensures { IsPrepared dpi operation self.old self.new }
    {
        if !ends_raster(operation) {
            return;
        }
        if let Some(raster) = &self.raster {
            let (x, y) = raster.below(dpi);
            self.environment.move_to(x, y);
        }
        self.raster = None;
    }

    /// Does what the end of a macro call does: it ends a raster, and puts back what was set before the call. A marked page that this moves
    /// has dots at two offsets.
    pub fn end_call(&mut self, saved: Saved, dpi: Dpi)
        ensures situation { (s : Situation) → IsIn dpi s self.old → IsIn dpi (macro_ended dpi (Some saved) s) self.new }
        ensures counts { self.new.performed ≡ self.old.performed }
    {
        let asked = self.environment.asked();
        self.prepare(Operation::EndRaster, dpi);
        self.environment.restore(saved);
        self.note_moved(asked);
    }

    /// Notes that a marked page was moved, where it was asked with this before.
    fn note_moved(&mut self, asked: Asked)
        ensures situation { (dpi : Dpi) (s : Situation) → IsIn dpi s self.old
            → IsIn dpi (with_lasting (is_marked s && not (lie_together asked s.settings.asked)) s) self.new }
        ensures rest { self.new.performed ≡ self.old.performed }
    {
        let is_moved = self.is_moved(asked);
        self.last_if(is_moved);
    }

    /// Whether the page is marked, and lies elsewhere than where this puts it.
    fn is_moved(&self, asked: Asked) -> bool
        ensures { result ≡ (self.now.is_marked && not (lie_together asked self.now.environment.asked)) }
    {
        self.is_marked && !asked.lies_with(self.environment.asked())
    }

    /// Sets what a command sets, and ejects the page where it says so: the page has the size and the
    /// copies from before. After a refusal or where memory runs out the sink is as before.
    fn turn<O: Observer, S: PageSink>(
        &mut self,
        operation: Operation,
        command: &Command<'_>,
        dpi: Dpi,
        observer: &mut O,
        sink: &mut S,
    ) -> Result<(), CallFault>
        ensures turned { (s : Situation) → IsIn dpi s self.old
            → IsTurned S.takes dpi (outcome dpi operation command.now.value (is_marked s) s.settings) s result self.new sink.old sink.new }
        ensures rest { OnOk result ((self.new.performed ≡ self.old.performed) × (self.new.raster ≡ self.old.raster)) }
    {
        let size = self.environment.size();
        let copies = self.environment.copies();
        let asked = self.environment.asked();
        observer.see(Event::Begins(operation), &self.environment);
        let Ok(effect) = self
            .environment
            .apply(operation, command.value, self.is_marked, dpi)
        else {
            return Err(CallFault::Refused(Kind::UnsupportedValue));
        };
        self.tell_set(operation, command, observer);
        if ejects(effect, self.is_marked) {
            if self.ejected >= PAGE_LIMIT {
                return Err(CallFault::Refused(Kind::TooManyPages));
            }
            self.follow_size(size)?;
            self.eject(copies, asked, sink)?;
            observer.see(Event::Ejects(asked), &self.environment);
        }
        Ok(())
    }

    /// Hands over the page with these copies, which was asked with this, and begins a white one, with the cursor on the first
    /// line.
    fn eject<S: PageSink>(
        &mut self,
        copies: u8,
        asked: Asked,
        sink: &mut S,
    ) -> Result<(), AllocError>
        requires few { self.old.ejected < page_limit }
        requires copies { (1 ≤ copies) × (copies ≤ copies_limit) }
        ensures ok { OnOk result (IsEjected asked self.old self.new × Takes S.takes copies self.old sink.old sink.new) }
        ensures err { OnErr result (sink.new ≡ sink.old) }
    {
        self.asks.push_page(asked)?;
        self.page.copies = copies;
        sink.page(&self.page)?;
        self.page.bitmap.clear();
        self.is_marked = false;
        self.ejected += 1;
        self.environment.new_page();
        Ok(())
    }

    /// Makes the page one of this size, where it isn't yet. A page that nothing was painted on is as good as new, so it follows
    /// the size that is set once something is painted, or it is ejected, and not with each command that sets one.
    pub fn follow_size(&mut self, size: Size) -> Result<(), AllocError>
        ensures { OnOk result (IsFollowed size self.old self.new) }
    {
        if size != self.page.size {
            let dpi = self.page.dpi;
            self.page = Page {
                size,
                copies: self.page.copies,
                dpi,
                bitmap: Bitmap::new(self.alloc, size, dpi)?,
            };
        }
        Ok(())
    }

    /// Draws what a command draws, and does to the raster and to fonts what it does, or says why it is refused.
    fn draw<O: Observer>(
        &mut self,
        operation: Operation,
        command: &Command<'a>,
        dpi: Dpi,
        observer: &mut O,
    ) -> Result<(), CallFault>
        requires rows { raster_rows self.old.raster + 2 ^ 20 ≤ 2 ^ 20 * self.old.performed }
        ensures { (s : Situation) → IsIn dpi s self.old
            → Draws dpi (draw_refusal dpi operation (view command.now) s) (drawn dpi operation (view command.now) s) result self.new }
    {
        match operation {
            Operation::Reset => self.reset(),
            Operation::UniversalExit => self.leave(command.bytes)?,
            Operation::PageSize => self.asks.say_size(i64::from(command.value.whole())),
            Operation::Ask(what) => self.ask(what, command.value),
            Operation::ControlFonts => return self.control_fonts(command.value),
            Operation::DownloadFont => return self.download_font(command.bytes, dpi),
            Operation::DownloadCharacter => return self.download_character(command.bytes),
            Operation::SelectFont(side) => self.select_font(side, command.value),
            Operation::PrintText => return self.print_text(command.bytes, dpi, observer),
            Operation::FillRectangle => {
                self.tell_rectangle(command.value, observer);
                return self.fill_rectangle(command.value, dpi);
            }
            Operation::StartRaster => self.start_raster(command.value, dpi)?,
            Operation::RasterOffset => self.skip_rows(command.value),
            Operation::RasterRow => self.send_row(command.bytes, dpi)?,
            _ => {}
        }
        Ok(())
    }

    /// Does what an asking does besides what it sets.
    fn ask(&mut self, what: Asking, value: Value)
        ensures { (dpi : Dpi) (s : Situation) → IsIn dpi s self.old → IsIn dpi (asked_for what value s) self.new }
    {
        match what {
            Asking::SheetSide => self.asks.ask_side(i64::from(value.whole())),
            Asking::PaperSource => self.asks.say_source(i64::from(value.whole())),
            Asking::Sides => {
                self.say_sides(value);
                self.last_if(self.is_marked);
            }
            Asking::MediaType | Asking::Orientation => self.last_if(self.is_marked),
            Asking::JobSeparation => {
                self.separate(value);
                self.last_if(self.is_marked);
            }
            Asking::TextScale
            | Asking::PrintQuality
            | Asking::Shingling
            | Asking::Depletion
            | Asking::RasterQuality => self.last_if(self.is_marked),
            Asking::OutputBin | Asking::PageLength | Asking::LeftOffset | Asking::TopOffset => {}
        }
    }

    /// Notes sides that were said.
    fn say_sides(&mut self, value: Value)
        ensures { (dpi : Dpi) (s : Situation) → IsIn dpi s self.old
            → IsIn dpi (record s { asks = with_said_sides (signed_whole value) s.asks }) self.new }
    {
        self.asks.say_sides(i64::from(value.whole()));
    }

    /// Separates the job from the next.
    fn separate(&mut self, value: Value)
        ensures { (dpi : Dpi) (s : Situation) → IsIn dpi s self.old
            → IsIn dpi (record s { asks = with_separation (signed_whole value) s.asks }) self.new }
    {
        self.asks.separate(i64::from(value.whole()));
    }

    /// Does what a universal exit with these lines does but for the reset of the settings.
    fn leave(&mut self, lines: &'a [u8]) -> Result<(), AllocError>
        ensures { (dpi : Dpi) (s : Situation) → IsIn dpi s self.old
            → OnOk result (IsIn dpi (put_back (exited lines.now s)) self.new) }
    {
        self.asks.push_exit(self.ejected, lines)?;
        self.put_back();
        Ok(())
    }

    /// Does what a reset does but for that of the settings.
    fn reset(&mut self)
        ensures { (dpi : Dpi) (s : Situation) → IsIn dpi s self.old → IsIn dpi (put_back (record s { asks = with_reset s.asks })) self.new }
    {
        self.asks.reset();
        self.put_back();
    }

    /// Puts the printer back to its defaults, but for the settings.
    fn put_back(&mut self)
        ensures { (dpi : Dpi) (s : Situation) → IsIn dpi s self.old → IsIn dpi (put_back s) self.new }
    {
        self.asks.restart();
        self.delete_temporary_fonts();
    }

    /// Notes that a command counts on what stays in the printer or changes it, or ejects a page on some printers, where the test holds.
    pub fn last_if(&mut self, test: bool)
        ensures situation { (dpi : Dpi) (s : Situation) → IsIn dpi s self.old → IsIn dpi (with_lasting test s) self.new }
        ensures rest { self.new.performed ≡ self.old.performed }
    {
        self.asks.last_if(test);
    }

    /// Fills a rectangle. A number that names no ink is refused.
    fn fill_rectangle(&mut self, value: Value, dpi: Dpi) -> Result<(), CallFault>
        ensures { (s : Situation) → IsIn dpi s self.old
            → Draws dpi (if is_some (ink_of value) then None else Some UnsupportedValue) (filled_with dpi (ink_of value) s)
            result self.new }
    {
        let Some(ink) = ink_of(value) else {
            return Err(CallFault::Refused(Kind::UnsupportedValue));
        };
        let size = self.environment.size();
        self.follow_size(size)?;
        self.ink_rectangle(ink, dpi);
        Ok(())
    }

    /// Inks the rectangle whose upper left corner is the cursor's dot.
    fn ink_rectangle(&mut self, ink: Ink, dpi: Dpi)
        ensures drawn { IsDrawn (rectangle_mark dpi ink self.old.environment) self.old self.new }
        ensures raster { self.new.raster ≡ self.old.raster }
    {
        let unit = u64::from(dpi.unit());
        let width = self.environment.rectangle_width().div_ceil(unit);
        let height = self.environment.rectangle_height().div_ceil(unit);
        let x = self.environment.x() / dpi.unit();
        let y = self.environment.y() / dpi.unit();
        self.page.bitmap.fill(x, y, width, height, ink);
        self.is_marked = true;
    }

    /// Starts a raster at the page's left edge or at the cursor.
    fn start_raster(&mut self, value: Value, dpi: Dpi) -> Result<(), AllocError>
        ensures { OnOk result (HasRaster (Some (raster_from dpi
            (if whole_of value == 0 then 0 else dot_at dpi self.old.environment.cursor.x) self.old.environment)) self.old self.new) }
    {
        let left = match value.whole() {
            0 => 0,
            _ => self.environment.x() / dpi.unit(),
        };
        self.raster = Some(Raster::start(self.alloc, left, &self.environment, dpi)?);
        Ok(())
    }

    /// Skips rows of the raster that has begun; outside one it does nothing.
    fn skip_rows(&mut self, value: Value)
        requires rows { raster_rows self.old.raster + 2 ^ 20 ≤ 2 ^ 20 * self.old.performed }
        ensures { HasRaster (option_map (skipped (whole_of value)) self.old.raster) self.old self.new }
    {
        if let Some(raster) = &mut self.raster {
            let count = value.whole().unsigned_abs();
            raster.skip(count);
        }
    }

    /// Sends a row to the raster that has begun, or to one that starts at the page's left edge.
    fn send_row(&mut self, bytes: &[u8], dpi: Dpi) -> Result<(), AllocError>
        requires rows { raster_rows self.old.raster + 2 ^ 20 ≤ 2 ^ 20 * self.old.performed }
        ensures { OnOk result (IsSent dpi bytes.now self.old self.new) }
    {
        let size = self.environment.size();
        self.follow_size(size)?;
        let mut raster = match self.raster.take() {
            Some(raster) => raster,
            None => Raster::start(self.alloc, 0, &self.environment, dpi)?,
        };
        raster.send(self.environment.method(), bytes, &mut self.page.bitmap);
        self.raster = Some(raster);
        self.is_marked = true;
        Ok(())
    }

    /// Does what the end of the input does, `end` bytes from its start: it acts as a reset. Whether a macro is permanent is given.
    pub fn finish<S: PageSink>(
        &mut self,
        end: usize,
        is_macro_permanent: bool,
        sink: &mut S,
    ) -> Result<(), JobFault>
        ensures { (dpi : Dpi) (s : Situation) → IsIn dpi s self.old → is_macro_permanent ≡ is_kept s.macros
            → EndDone S.takes dpi end s result self.new sink.old sink.new }
    {
        if self.is_marked {
            if self.ejected >= PAGE_LIMIT {
                return Err(JobFault::Refused(Refusal::new(Kind::TooManyPages, end, Name::Empty)));
            }
            let copies = self.environment.copies();
            let asked = self.environment.asked();
            self.eject(copies, asked, sink)?;
            self.end_asks(is_macro_permanent);
            return Ok(());
        }
        self.end_asks(is_macro_permanent);
        Ok(())
    }

    /// Notes whether fonts or macros of the job stay in the printer, which is then put back to its defaults.
    fn end_asks(&mut self, is_macro_permanent: bool)
        ensures { (fonts : List FontEvent) → Holds self.old.fonts fonts → asks_of self.new.asks
            ≡ restarted (lasting_if is_macro_permanent (lasting_if (has_permanent fonts) (asks_of self.old.asks))) }
    {
        self.asks.last_if(self.fonts.has_permanent());
        self.asks.last_if(is_macro_permanent);
        self.asks.restart();
    }
}

ghost use Rattle.std.specs.Prelude.{◌≡◌};
ghost use Rattle.pcl_page.specs.Situation.{ejects, ink_of};

/// Whether a page is ejected that is marked or not.
fn ejects(effect: Effect, is_marked: bool) -> bool
    ensures { result ≡ ejects effect is_marked }
{
    match effect {
        Effect::Stay => false,
        Effect::Eject => true,
        Effect::EjectMarked => is_marked,
    }
}

/// What a rectangle is filled with (`ESC*c#P`), by the value of its command.
fn ink_of(value: Value) -> Option<Ink>
    ensures { result ≡ ink_of value }
{
    match value.count()? {
        0 | 5 => Some(Ink::Black),
        1 => Some(Ink::White),
        _ => None,
    }
}
