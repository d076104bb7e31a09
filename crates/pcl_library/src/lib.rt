//! `pclmin` for programs: its calls for C, and for all that can call C (docs/LIBRARY.md).
//!
//! A call reads its jobs from memory and fills an answer that the caller lends. lib/pclmin.c is the C in front of these exports:
//! it sees to pointers that are null, and frees what an answer has.
#![tactic(auto)]

mod answer;
mod arguments;
mod checking;
mod comparing;
mod describing;
mod failure;
mod lines;
mod making;
mod showing;
