//! Row data of raster graphics, written: four coders whose data is of least length.
#![tactic(auto)]

mod choice;
mod coder;
mod fill;
mod laws;
mod shape;
mod table;
mod window;

pub use coder::{Delta, Packed, Plain, RowCoder, Runs};
pub use laws::{
    first_number_is_least, latest_start_is_as_good, numbers_are_least, row_table_bounds_data,
};
pub use table::base_row;
pub use window::Window;
