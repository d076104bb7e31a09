//! Writing a page as a raster job of the output grammar (docs/OUTPUT.md).
#![tactic(auto)]

mod body;
mod number;
mod text;

pub use text::{write_frame, write_page};
