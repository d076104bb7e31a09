//! Macros: lists of commands that a job keeps under an ID, to run them later (PCL 5 Printer Language Technical Reference
//! Manual, "Macros").
#![tactic(auto)]

mod table;

pub use table::{MacroControl, Macros};
