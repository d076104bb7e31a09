//! Files by their names, over whatever has them, and what a run works with.
#![tactic(auto)]

mod files;
mod standing;
mod surroundings;
mod whole_files;

pub use files::{FileFault, FileKind, JobFiles};
pub use standing::{
    Descriptor, FileState, begun_beside, descriptor_at, is_as_seen, kept_rights, new_rights,
    part_ending,
};
pub use surroundings::{Outlet, Surroundings};
pub use whole_files::{read_file, read_plain, settle, settle_aside, settle_both, write_file};
