//! The two inks.

/// What a mark leaves on the dots that it covers.
#[derive(Clone, Copy, Debug, PartialEq, Eq)]
pub enum Ink {
    Black,
    White,
}
