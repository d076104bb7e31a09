//! The names of commands.

ghost use Rattle.std.specs.Prelude.{◌≡◌, ◌++◌, ◌==◌, if◌then◌else◌, is_ok};
ghost use Rattle.pcl_base.specs.Name.{name_text, name_len, name_bytes};

use std::alloc::AllocError;

/// The name of a command: what its sequence has of the byte after ESC, the group byte and the parameter
/// or ending byte, this last as an upper-case byte, as far as they were read.
#[derive(Clone, Copy, Debug, PartialEq, Eq)]
pub enum Name {
    /// The name of a lone ESC and of the end of the input.
    Empty,
    /// The byte after ESC, a control code, or the byte 32 for text.
    One(u8),
    /// The bytes after ESC of a sequence.
    Two(u8, u8),
    /// The bytes after ESC of a sequence, and the letter of a parameter.
    Three(u8, u8, u8),
}

impl Name {
    /// The name of text.
    pub const TEXT: Name = Name::One(32);

    /// How many bytes the name has, 0 to 3.
    pub fn len(self) -> u8
        ensures { result ≡ name_len self }
    {
        match self {
            Name::Empty => 0,
            Name::One(_) => 1,
            Name::Two(_, _) => 2,
            Name::Three(_, _, _) => 3,
        }
    }

    /// Whether nothing of a name was read.
    pub fn is_empty(self) -> bool
        ensures { result ≡ (name_len self == 0) }
    {
        matches!(self, Name::Empty)
    }

    /// The bytes of the name; those past its length are 0.
    pub fn bytes(self) -> [u8; 3]
        ensures { result ≡ name_bytes self }
    {
        match self {
            Name::Empty => [0, 0, 0],
            Name::One(first) => [first, 0, 0],
            Name::Two(first, second) => [first, second, 0],
            Name::Three(first, second, third) => [first, second, third],
        }
    }

    /// Appends the name as messages print it. That is its bytes, `text` for text, the code's own
    /// name for a control code, and `-` for the empty name. Where memory runs out `out` stays as it
    /// was.
    pub fn write_text(&self, out: &mut Vec<u8>) -> Result<(), AllocError>
        ensures { out.new.items ≡ (if is_ok result then out.old.items ++ name_text self.now else out.old.items) }
    {
        match *self {
            Name::Empty => out.extend_from_slice(b"-"),
            Name::One(8) => out.extend_from_slice(b"BS"),
            Name::One(9) => out.extend_from_slice(b"HT"),
            Name::One(10) => out.extend_from_slice(b"LF"),
            Name::One(12) => out.extend_from_slice(b"FF"),
            Name::One(13) => out.extend_from_slice(b"CR"),
            Name::One(14) => out.extend_from_slice(b"SO"),
            Name::One(15) => out.extend_from_slice(b"SI"),
            Name::One(32) => out.extend_from_slice(b"text"),
            Name::One(first) => out.extend_from_slice(&[first]),
            Name::Two(first, second) => out.extend_from_slice(&[first, second]),
            Name::Three(first, second, third) => out.extend_from_slice(&[first, second, third]),
        }
    }
}
