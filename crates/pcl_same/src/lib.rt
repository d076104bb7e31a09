//! Two jobs compared: whether they print the same pages, and where not.
//!
//! `same` performs both by the rules of docs/LANGUAGE.md, at one resolution. Pages are the same where they have one size, as
//! many copies and the same dots; what draws the dots, and what else a job says, doesn't matter. `same_asked` goes on, where the
//! pages are the same, with what the jobs ask of the printer besides dots; and `keep_job` and `compare_kept` are its two halves, for
//! one job that is compared with many.
#![tactic(auto)]

mod asking;
mod bits;
mod comparing;
mod comparison;
mod fault;
mod images;
mod jobs;
mod keeping;
mod kept_bitmap;
mod laws;
mod row_data;

pub use comparing::compare_kept;
pub use comparison::{
    AskedComparison, AskedDifference, AsksDifference, Difference, ExitDifference, PageComparison,
    PagesDifference, Setting, SettingDifference,
};
pub use fault::{SameFault, Which};
pub use images::differing_dots;
pub use jobs::{read_by, same, same_asked};
pub use keeping::{KeptJob, PageKeeper, keep_job};
pub use laws::{one_answer, one_asked_answer};
