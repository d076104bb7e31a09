//! The words that every crate of the filter shares: numbers of a job, names of commands, page sizes,
//! resolutions, methods of row data, and refusals.
#![tactic(auto)]

mod dpi;
mod fault;
mod kind;
mod laws;
mod limits;
mod method;
mod name;
mod operation;
mod profile;
mod refusal;
mod size;
mod value;

pub use dpi::Dpi;
pub use fault::{CallFault, JobFault};
pub use kind::Kind;
pub use laws::codes_lead_back;
pub use limits::{
    COMMAND_LIMIT, COPIES_LIMIT, DOT_UNITS, ID_LIMIT, INPUT_LIMIT, MACRO_LIMIT, PAGE_LIMIT,
    ROW_LIMIT, STACK_LIMIT,
};
pub use method::Method;
pub use name::Name;
pub use operation::{Asking, Axis, Operation, Side, Unit};
pub use profile::Profile;
pub use refusal::Refusal;
pub use size::Size;
pub use value::{Sign, Value};
