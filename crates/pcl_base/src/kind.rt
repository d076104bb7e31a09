//! The kinds of refusal.

ghost use Rattle.std.specs.Prelude.{◌≡◌};
ghost use Rattle.pcl_base.specs.Kind.{kind_number, kind_name};

/// Why a job is refused. docs/LANGUAGE.md says when each comes.
#[derive(Clone, Copy, Debug, PartialEq, Eq)]
pub enum Kind {
    /// The input ends inside a sequence or its data.
    Truncated = 1,
    /// A byte has no place in a sequence.
    BadSequence = 2,
    /// A number is out of range.
    ValueRange = 3,
    /// No command of this name is performed.
    UnsupportedCommand = 4,
    /// The command doesn't take this value.
    UnsupportedValue = 5,
    /// The header of a soft font is malformed.
    FontHeader = 6,
    /// The data of a character is malformed.
    CharacterData = 7,
    /// Text is printed with no font selected.
    NoFont = 8,
    /// A reset or the end of the input comes inside a macro definition.
    MacroOpen = 9,
    /// A macro command has no place here.
    MacroControl = 10,
    /// A fourth macro would run at once.
    MacroDepth = 11,
    /// More than 100,000,000 commands would be performed.
    TooManyCommands = 12,
    /// More than 256 pages would be ejected.
    TooManyPages = 13,
    /// The job asks for another language.
    NotPcl = 14,
}

impl Kind {
    /// The number of the kind, from 1.
    pub fn number(self) -> u8
        ensures { result ≡ kind_number self }
    {
        self as u8
    }

    /// The name of the kind, as messages print it.
    pub fn name(self) -> &'static str
        ensures { result.now ≡ kind_name self }
    {
        match self {
            Kind::Truncated => "Truncated",
            Kind::BadSequence => "BadSequence",
            Kind::ValueRange => "ValueRange",
            Kind::UnsupportedCommand => "UnsupportedCommand",
            Kind::UnsupportedValue => "UnsupportedValue",
            Kind::FontHeader => "FontHeader",
            Kind::CharacterData => "CharacterData",
            Kind::NoFont => "NoFont",
            Kind::MacroOpen => "MacroOpen",
            Kind::MacroControl => "MacroControl",
            Kind::MacroDepth => "MacroDepth",
            Kind::TooManyCommands => "TooManyCommands",
            Kind::TooManyPages => "TooManyPages",
            Kind::NotPcl => "NotPcl",
        }
    }
}
