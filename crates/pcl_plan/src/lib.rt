//! The least plan of a page: which rows a page text skips, by which methods it sends the others, and a table of
//! least costs that shows that no page text is shorter (docs/OUTPUT.md, "Page texts").
#![tactic(auto)]

mod fill;
mod lengths;
mod page_plan;
mod planner;
mod rows;
mod steps;

pub use page_plan::Plan;
pub use pcl_output::{Step, Table};
pub use planner::plan;
