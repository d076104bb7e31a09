//! What a run works with.

use std::alloc::Global;

/// What a run works with: the files, the reader of its job, the writer of what it makes, memory, and the reporter of how far it has come.
#[derive(Drop)]
pub struct Surroundings<'f, 'r, 'w, F, R, W, P> {
    pub files: &'f mut F,
    pub reader: &'r mut R,
    pub out: &'w mut W,
    pub alloc: Global,
    pub reporter: P,
}

/// What is left of the surroundings to a task whose job is read.
#[derive(Drop)]
pub struct Outlet<'w, W, P> {
    pub out: &'w mut W,
    pub alloc: Global,
    pub reporter: P,
}
