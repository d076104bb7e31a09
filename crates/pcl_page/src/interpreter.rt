//! Performing commands in their order, and those of macros where these run.

ghost use Rattle.std.specs.Prelude.{◌≡◌};

use crate::PageSink;
use crate::macros::{Action, Keeping, action_of, keeping_of, macro_lasts};
use crate::observing::{Event, Observer, SeenEnd, seen_raster};
use crate::performer::Performer;
use arrayvec::ArrayVec;
use pcl_base::{
    CallFault, Dpi, JobFault, Kind, MACRO_LIMIT, Name, Operation, Profile, Refusal, Value,
};
use pcl_env::Saved;
use pcl_escape::{Command, CommandList};
use pcl_macros::{MacroControl, Macros};
use std::alloc::{AllocError, Global};

/// A macro that runs.
#[derive(Default, Drop)]
pub struct Running {
    /// The place of its next command in the list of commands.
    pub next: usize,
    /// The place after its last command.
    pub end: usize,
    /// What is set again at its end, where it was called.
    pub saved: Option<Saved>,
}

/// A job whose commands are performed, one place of their list after the other.
#[derive(Drop)]
pub struct Interpreter<'a> {
    /// What is set, and the page that is painted.
    pub performer: Performer<'a>,
    /// The macros that are there, and the definition that is open.
    pub macros: Macros,
    /// The macros that run, each started by the one before it.
    pub running: ArrayVec<Running, MACRO_LIMIT>,
}

impl<'a> Interpreter<'a> {
    ghost use Rattle.std.specs.Prelude.{◌≡◌, ◌<◌, ◌≤◌, ◌+◌, ◌++◌, ◌⊎◌, ◌^◌, ℕ, List, [], ◌∷◌, length, true, false, Some, IfOk, OnOk};
    ghost use Rattle.std.specs.Option.{option_map};
    ghost use Rattle.pcl_base.specs.declared.dpi.Dpi.{Dpi};
    ghost use Rattle.pcl_base.specs.Limits.{macro_limit};
    ghost use Rattle.pcl_base.specs.Operation.{operation_of};
    ghost use Rattle.pcl_escape.specs.Said.{Said, view};
    ghost use Rattle.pcl_macros.specs.Table.{is_begun, macro_at};
    ghost use Rattle.pcl_page.specs.Performing.{performance};
    ghost use Rattle.pcl_page.specs.Delivering.{HandsOver};
    ghost use Rattle.pcl_page.specs.Situation.{Situation, at_start};
    ghost use Rattle.pcl_page.specs.Macros.{action_of, keeping_of, lasting_by, acted, after_macros, after_counted, after_command, run_by, run_from, run_of, run_with, macro_ended};
    ghost use Rattle.pcl_page.specs.inner.Reflecting.{EndDone};
    ghost use Rattle.pcl_page.specs.inner.Unfolding.{IsAt, IsSomewhere, resumed, begun_among, work_left, GoesOn, IsStepped, IsActed, IsEntered, InterpreterEnds, IsAsking};

    /// The start of a job that is read by this profile.
    pub fn new(alloc: Global, profile: Profile, dpi: Dpi) -> Result<Interpreter<'a>, AllocError>
        ensures { IfOk result (λ interpreter. IsAt dpi (at_start profile) interpreter × (interpreter.running.items ≡ [])) }
    {
        Ok(Interpreter {
            performer: Performer::new(alloc, profile, dpi)?,
            macros: Macros::new(alloc),
            running: ArrayVec::new(),
        })
    }

    /// Performs the commands of a job of `end` bytes from its start to its end.
    pub fn perform_all<L: CommandList<'a>, O: Observer, S: PageSink>(
        &mut self,
        commands: &L,
        end: usize,
        dpi: Dpi,
        observer: &mut O,
        sink: &mut S,
    ) -> Result<(), JobFault>
        requires begin { IsAt dpi (at_start self.old.performer.environment.profile) self.old }
        requires idle { self.old.running.items ≡ [] }
        ensures { HandsOver S.takes dpi (performance self.old.performer.environment.profile dpi end (L.commands commands.now))
            result sink.old sink.new
            × IsAsking (performance self.old.performer.environment.profile dpi end (L.commands commands.now)) result self.new.performer }
    {
        let mut place = 0;
        while let Some(command) = commands.command_at(place) {
            self.perform_at(&command, place, dpi, observer, sink)?;
            self.run_macros(commands, dpi, observer, sink)?;
            place += 1;
        }
        self.tell_job_end(observer);
        self.finish(end, sink)
    }

    /// Tells of the end of the job.
    fn tell_job_end<O: Observer>(&self, observer: &mut O) {
        let event = Event::JobEnds {
            is_marked: self.performer.is_marked,
        };
        observer.see(event, &self.performer.environment);
    }

    /// Performs what the macros that run have left.
    fn run_macros<L: CommandList<'a>, O: Observer, S: PageSink>(
        &mut self,
        commands: &L,
        dpi: Dpi,
        observer: &mut O,
        sink: &mut S,
    ) -> Result<(), JobFault>
        requires somewhere { IsSomewhere dpi self.old }
        requires few { length self.old.running.items ≤ macro_limit }
        ensures done { (s : Situation) → IsAt dpi s self.old → GoesOn S.takes dpi (L.commands commands.now)
            (resumed macro_limit dpi (L.commands commands.now) self.old.running.items s) s result self.new sink.old sink.new }
        ensures idle { OnOk result (self.new.running.items ≡ []) }
    {
        while let Some(macro_run) = self.running.pop() {
            self.go_on(macro_run, commands, dpi, observer, sink)?;
        }
        Ok(())
    }

    /// Performs the next command of a macro that runs, or does what its end does.
    fn go_on<L: CommandList<'a>, O: Observer, S: PageSink>(
        &mut self,
        newest: Running,
        commands: &L,
        dpi: Dpi,
        observer: &mut O,
        sink: &mut S,
    ) -> Result<(), JobFault>
        requires level { length self.old.running.items < macro_limit }
        requires somewhere { IsSomewhere dpi self.old }
        ensures done { (s : Situation) → IsAt dpi s self.old → GoesOn S.takes dpi (L.commands commands.now)
            (resumed macro_limit dpi (L.commands commands.now) (self.old.running.items ++ newest ∷ []) s)
            s result self.new sink.old sink.new }
        ensures few { OnOk result (length self.new.running.items ≤ macro_limit) }
        ensures less { OnOk result (work_left (length (L.commands commands.now)) self.new.performer.performed self.new.running.items
            < work_left (length (L.commands commands.now)) self.old.performer.performed (self.old.running.items ++ newest ∷ [])) }
    {
        let place = newest.next;
        match commands.command_at(place) {
            Some(command) if place < newest.end => {
                self.running.push(Running {
                    next: place + 1,
                    end: newest.end,
                    saved: newest.saved,
                });
                self.tell_macro(observer);
                self.perform_at(&command, place, dpi, observer, sink)
            }
            _ => {
                self.tell_macro_end(&newest, observer);
                self.leave(newest.saved, dpi);
                Ok(())
            }
        }
    }

    /// Tells of a command of a macro.
    fn tell_macro<O: Observer>(&self, observer: &mut O) {
        let event = Event::InMacro {
            is_called: self
                .running
                .iter()
                .any(|macro_run| macro_run.saved.is_some()),
        };
        observer.see(event, &self.performer.environment);
    }

    /// Tells of the end of a macro.
    fn tell_macro_end<O: Observer>(&self, newest: &Running, observer: &mut O) {
        let seen = SeenEnd {
            is_call: newest.saved.is_some(),
            raster: seen_raster(&self.performer.raster),
        };
        observer.see(Event::MacroEnds(seen), &self.performer.environment);
    }

    /// Does what the end of a macro does: a call's ends the raster and puts back what was set.
    fn leave(&mut self, saved: Option<Saved>, dpi: Dpi)
        ensures situation { (s : Situation) → IsAt dpi s self.old → IsAt dpi (macro_ended dpi saved s) self.new }
        ensures rest { (self.new.running ≡ self.old.running) × (self.new.performer.performed ≡ self.old.performer.performed) }
    {
        if let Some(saved) = saved {
            self.performer.end_call(saved, dpi);
        }
    }

    /// Performs the command at a place, up to the start of a macro that it runs.
    fn perform_at<O: Observer, S: PageSink>(
        &mut self,
        command: &Command<'a>,
        place: usize,
        dpi: Dpi,
        observer: &mut O,
        sink: &mut S,
    ) -> Result<(), JobFault>
        requires place { place < 2 ^ 63 }
        requires somewhere { IsSomewhere dpi self.old }
        requires few { length self.old.running.items ≤ macro_limit }
        ensures done { (all : List Said) (s : Situation) → IsAt dpi s self.old → GoesOn S.takes dpi all
            (begun_among dpi all place (view command.now) self.old.running.items s) s result self.new sink.old sink.new }
        ensures few { OnOk result (length self.new.running.items ≤ macro_limit) }
        ensures no_more { (count : ℕ) → OnOk result (work_left count self.new.performer.performed self.new.running.items
            ≤ work_left count self.old.performer.performed self.old.running.items) }
    {
        match self.try_command(command, place, dpi, observer, sink) {
            Ok(()) => Ok(()),
            Err(CallFault::Refused(kind)) => Err(JobFault::Refused(Refusal::new(
                kind,
                command.at,
                command.name,
            ))),
            Err(CallFault::Memory) => Err(JobFault::Memory),
        }
    }

    /// Performs a command, or says why it is refused.
    fn try_command<O: Observer, S: PageSink>(
        &mut self,
        command: &Command<'a>,
        place: usize,
        dpi: Dpi,
        observer: &mut O,
        sink: &mut S,
    ) -> Result<(), CallFault>
        requires { place < 2 ^ 63 }
        ensures { (s : Situation) → IsAt dpi s self.old
            → IsStepped S.takes dpi (after_command dpi place (view command.now) s) (run_of (view command.now) s)
            s result self.old self.new sink.old sink.new }
    {
        if !self.macros.is_begun() {
            return self.try_counted(command, place, dpi, observer, sink);
        }
        match keeping_of(command) {
            Keeping::Kept => Ok(()),
            Keeping::Refused(kind) => Err(CallFault::Refused(kind)),
            Keeping::Ends => self.try_counted(command, place, dpi, observer, sink),
        }
    }

    /// Performs a command that counts: while no definition is open, or to end it.
    fn try_counted<O: Observer, S: PageSink>(
        &mut self,
        command: &Command<'a>,
        place: usize,
        dpi: Dpi,
        observer: &mut O,
        sink: &mut S,
    ) -> Result<(), CallFault>
        requires place { place < 2 ^ 63 }
        requires begun { (is_begun self.old.macros ≡ false)
            ⊎ (keeping_of (operation_of command.now.name) command.now.value ≡ Keeping.Ends) }
        ensures { (s : Situation) → IsAt dpi s self.old
            → IsStepped S.takes dpi (after_counted dpi place (view command.now) s)
            (run_from (operation_of command.now.name) command.now.value) s result self.old self.new sink.old sink.new }
    {
        let operation = self.performer.try_command(command, dpi, observer, sink)?;
        self.manage(operation, command.value, place)
    }

    /// Does to macros what a command at a place does.
    fn manage(&mut self, operation: Operation, value: Value, place: usize) -> Result<(), CallFault>
        requires begun { (is_begun self.old.macros ≡ false) ⊎ (action_of value ≡ Some Action.End) }
        requires place { place < 2 ^ 63 }
        ensures { (dpi : Dpi) (s : Situation) → IsAt dpi s self.old
            → IsActed dpi (after_macros place (Some operation) value s) (run_from (Some operation) value) result self.old self.new }
    {
        match operation {
            Operation::Reset | Operation::UniversalExit => self
                .macros
                .control(0, MacroControl::Temporary),
            Operation::ControlMacros => {
                return match action_of(value) {
                    Some(action) => {
                        self.note(action);
                        self.act(action, place)
                    }
                    None => Err(CallFault::Refused(Kind::UnsupportedValue)),
                };
            }
            _ => {}
        }
        Ok(())
    }

    /// Notes whether a macro control counts on what stays in the printer, or changes it.
    fn note(&mut self, action: Action)
        ensures situation { (dpi : Dpi) (s : Situation) → IsAt dpi s self.old → IsAt dpi (lasting_by (Some action) s) self.new }
        ensures rest { (self.new.running ≡ self.old.running) × (self.new.macros ≡ self.old.macros) }
    {
        let id = self.performer.environment.macro_id();
        let is_defined = self.macros.body(id).is_some();
        self.performer.last_if(macro_lasts(action, is_defined));
    }

    /// Does what a macro control at a place does. None begins a definition while one is open.
    fn act(&mut self, action: Action, place: usize) -> Result<(), CallFault>
        requires begun { (is_begun self.old.macros ≡ false) ⊎ (action ≡ Action.End) }
        requires place { place < 2 ^ 63 }
        ensures { (dpi : Dpi) (s : Situation) → IsAt dpi s self.old
            → IsActed dpi (acted place (Some action) s) (run_by (Some action)) result self.old self.new }
    {
        let id = self.performer.environment.macro_id();
        match action {
            Action::Begin => self.macros.begin(id, place + 1),
            Action::End => return self.macros.end(place),
            Action::Execute => return self.enter(id, None),
            Action::Call => {
                let saved = self.performer.environment.save();
                return self.enter(id, Some(saved));
            }
            Action::Control(what) => self.macros.control(id, what),
        }
        Ok(())
    }

    /// Begins to run a macro, if it is there.
    fn enter(&mut self, id: u16, saved: Option<Saved>) -> Result<(), CallFault>
        ensures { IsEntered (option_map (run_with saved) (macro_at self.old.macros id)) result self.old self.new }
    {
        let Some(body) = self.macros.body(id) else {
            return Ok(());
        };
        let newest = Running {
            next: body.start,
            end: body.end,
            saved,
        };
        match self.running.try_push(newest) {
            Ok(()) => Ok(()),
            Err(_) => Err(CallFault::Refused(Kind::MacroDepth)),
        }
    }

    /// Does what the end of the input does, `end` bytes from its start.
    fn finish<S: PageSink>(&mut self, end: usize, sink: &mut S) -> Result<(), JobFault>
        ensures { (dpi : Dpi) (s : Situation) → IsAt dpi s self.old
            → InterpreterEnds S.takes dpi end s result self.new.performer sink.old sink.new }
    {
        if self.macros.is_begun() {
            return Err(JobFault::Refused(Refusal::new(Kind::MacroOpen, end, Name::Empty)));
        }
        let is_macro_permanent = self.macros.has_permanent();
        self.performer.finish(end, is_macro_permanent, sink)
    }
}
