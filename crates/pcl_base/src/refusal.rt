//! Refusals of a job.

ghost use Rattle.std.specs.Prelude.{◌≡◌, ◌++◌, length, take, OnOk, OnErr};
ghost use Rattle.pcl_base.specs.Refusal.{refusal, refusal_text};

use crate::{Kind, Name};
use itoa::Buffer;
use std::alloc::AllocError;

/// Why and where a job is refused.
#[derive(Clone, Copy, Debug, PartialEq, Eq)]
pub struct Refusal {
    /// What is wrong.
    pub kind: Kind,
    /// The place of the refused command, in bytes from the input's start.
    pub at: usize,
    /// The name of the refused command, as far as it was read.
    pub name: Name,
}

impl Refusal {
    /// The refusal of a command of this name at this place.
    pub fn new(kind: Kind, at: usize, name: Name) -> Refusal
        ensures { result ≡ refusal kind at name }
    {
        Refusal { kind, at, name }
    }

    /// Appends the refusal as messages print it. That is the kind, ` at `, the place in decimal, a
    /// space and the name. Where memory runs out `out` stays as it was.
    pub fn write_text(&self, out: &mut Vec<u8>) -> Result<(), AllocError>
        ensures ok { OnOk result (out.new.items ≡ out.old.items ++ refusal_text self.now) }
        ensures err { OnErr result (out.new.items ≡ out.old.items) }
    {
        let before = out.len();
        let written = self.append_text(out);
        if written.is_err() {
            out.truncate(before);
        }
        written
    }

    /// Appends the text, or a prefix of it where memory runs out.
    fn append_text(&self, out: &mut Vec<u8>) -> Result<(), AllocError>
        ensures ok { OnOk result (out.new.items ≡ out.old.items ++ refusal_text self.now) }
        ensures front { take (length out.old.items) out.new.items ≡ out.old.items }
    {
        let mut digits = Buffer::new();
        out.extend_from_slice(self.kind.name().as_bytes())?;
        out.extend_from_slice(b" at ")?;
        out.extend_from_slice(digits.format(self.at).as_bytes())?;
        out.extend_from_slice(b" ")?;
        self.name.write_text(out)
    }
}
