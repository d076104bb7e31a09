//! Which shapes of a job are printed as letters: those that take fewer bytes so than in the rasters of their pages (docs/GLYPHS.md).
//! Nothing is promised of the choice.
#![tactic(auto)]

mod finding;
mod frequency;
mod joining;
mod standing;
mod touching;

pub use finding::find_letters;
