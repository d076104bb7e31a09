//! What the pages of a job are: a line of text for each, or one object of JSON.
#![tactic(auto)]

mod describing;
mod facts;
mod lines;

pub use describing::describe_pages;
