//! What a command answers.

/// What becomes of the page after a command.
#[derive(Clone, Copy, Debug, PartialEq, Eq)]
pub enum Effect {
    /// The page stays.
    Stay,
    /// The page is ejected, whether something marks it or not.
    Eject,
    /// The page is ejected where something marks it.
    EjectMarked,
}

/// The command doesn't take the value.
#[derive(Clone, Copy, Debug, PartialEq, Eq)]
pub struct Unsupported;
