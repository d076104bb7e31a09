//! All that the rules refuse in a job, and what can be done about it (docs/DRIVERS.md).
//!
//! `find_refusals` goes on after the refusal of a job with the commands that are refused left out, so that one run names them
//! all, and `explanation` says what each means and what to set instead.
#![tactic(auto)]

mod advice;
mod finding;
mod kinds;
mod languages;
mod lines;
mod objects;
mod refusals;
mod sequences;
mod values;

pub use finding::{Finding, Findings};
pub use kinds::{kind_explanation, kind_named, nearest_kind};
pub use languages::{Language, language_of};
pub use lines::explanation;
pub use objects::{explanation_object, kind_object};
pub use refusals::find_refusals;
