//! What commands do to macros.

ghost use Rattle.std.specs.Prelude.{◌≡◌};
ghost use Rattle.pcl_base.specs.Operation.{operation_of};
ghost use Rattle.pcl_escape.specs.Said.{view};
ghost use Rattle.pcl_page.specs.Macros.{action_of, macro_lasts, keeping_of};

use pcl_base::{Kind, Operation, Value};
use pcl_escape::Command;
use pcl_macros::MacroControl;

/// What a macro control does (`ESC&f#X`).
#[derive(Clone, Copy, Debug, PartialEq, Eq)]
pub enum Action {
    /// Begins a definition.
    Begin,
    /// Ends the definition that is open.
    End,
    /// Runs a macro, and keeps what it sets.
    Execute,
    /// Runs a macro, and puts back what was set before.
    Call,
    /// Deletes macros, or makes one temporary or permanent.
    Control(MacroControl),
}

/// What a definition that is open does with a command.
#[derive(Clone, Copy, Debug, PartialEq, Eq)]
pub enum Keeping {
    /// It keeps the command, which isn't performed.
    Kept,
    /// It ends.
    Ends,
    /// It refuses the command.
    Refused(Kind),
}

/// What a macro control does, by its value.
pub fn action_of(value: Value) -> Option<Action>
    ensures { result ≡ action_of value }
{
    Some(match value.count()? {
        0 => Action::Begin,
        1 => Action::End,
        2 => Action::Execute,
        3 => Action::Call,
        6 => Action::Control(MacroControl::All),
        7 => Action::Control(MacroControl::Temporary),
        8 => Action::Control(MacroControl::One),
        9 => Action::Control(MacroControl::MakeTemporary),
        10 => Action::Control(MacroControl::MakePermanent),
        _ => return None,
    })
}

/// Whether a macro control changes macros that stay in the printer, or counts on one there, by whether the job defined the macro of the
/// ID.
pub fn macro_lasts(action: Action, is_defined: bool) -> bool
    ensures { result ≡ macro_lasts action is_defined }
{
    match action {
        Action::Begin | Action::End | Action::Control(MacroControl::Temporary) => false,
        Action::Control(MacroControl::All) => true,
        Action::Execute
        | Action::Call
        | Action::Control(
            MacroControl::One | MacroControl::MakeTemporary | MacroControl::MakePermanent,
        ) => !is_defined,
    }
}

/// What a definition that is open does with a command.
pub fn keeping_of(command: &Command<'_>) -> Keeping
    ensures { result ≡ keeping_of (operation_of (view command.now).name) (view command.now).value }
{
    match Operation::with_name(command.name) {
        Some(Operation::Reset | Operation::UniversalExit) => Keeping::Refused(Kind::MacroOpen),
        Some(Operation::ControlMacros) => match action_of(command.value) {
            Some(Action::End) => Keeping::Ends,
            Some(Action::Execute | Action::Call) => Keeping::Kept,
            _ => Keeping::Refused(Kind::MacroControl),
        },
        _ => Keeping::Kept,
    }
}
