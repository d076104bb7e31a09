//! Called macros: what the end of one puts back.

use crate::doubts::Doubt;
use crate::printers::Printers;
use pcl_base::Operation;

/// In which macros the job is.
#[derive(Default, Drop)]
pub struct Calls {
    /// Whether the command that comes stands in a macro, and that was called, or one that runs it.
    comes_called: bool,
    /// The same of the command that has come.
    pub is_called: bool,
}

impl Calls {
    /// A command of a macro is about to come.
    pub fn go_on(&mut self, is_called: bool) {
        self.comes_called = is_called;
    }

    /// A command has come.
    pub fn take_command(&mut self) {
        self.is_called = self.comes_called;
        self.comes_called = false;
    }

    /// A macro has ended.
    pub fn end_macro(&mut self) {
        *self = Calls::default();
    }
}

impl Printers {
    /// Looks at a page size in a called macro: its end may put back the one before.
    pub fn see_called(&mut self, operation: Operation) {
        let is_size = operation == Operation::PageSize;
        self.note_if(is_size && self.calls.is_called, Doubt::CalledMacro);
    }
}
