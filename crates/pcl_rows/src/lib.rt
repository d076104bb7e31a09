//! Row data of raster graphics, read: methods 0 to 3 of PCL 5.
#![tactic(auto)]

mod decoding;
mod front;
mod head;
mod laws;
mod whole;

pub use decoding::decode;
pub use laws::{data_makes_one_row, row_is_decoded};
pub use whole::is_whole;
