//! What a job has set so far, its cursor, and what each command does to them.
#![tactic(auto)]

mod asked;
mod effect;
mod env;
mod offset;
mod stack;

pub use asked::Asked;
pub use effect::{Effect, Unsupported};
pub use env::{Env, Saved};
pub use offset::append_offset;
