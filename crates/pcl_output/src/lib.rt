//! The output language: what page texts say of the rows of a page, the nodes between their tokens, what tokens cost, and
//! tables that bound from below what is still to come (docs/OUTPUT.md, "Page texts").
#![tactic(auto)]

mod around;
mod bitmap_rows;
mod by_method;
mod costs;
mod laws;
mod node;
mod step;
mod table;

pub use around::{END_PAGE, RESET};
pub use bitmap_rows::row_above;
pub use by_method::ByMethod;
pub use costs::{digits, row_cost};
pub use laws::{feasible_numbers_bound_texts, least_walk_is_least_text, printing_is_walking};
pub use node::Node;
pub use step::Step;
pub use table::{RowNumbers, Table};
