//! What the program says, and its status: how a run ends, of faults, and of jobs that were checked, compared or shrunk.
#![tactic(auto)]

mod compare_fault;
mod comparison_lines;
mod endings;
mod failures;
mod faults;
mod layouts;
mod passes;
mod shrunk_reports;
mod texts;
mod verdicts;

pub use compare_fault::CompareFault;
pub use comparison_lines::{compare_fault_line, comparison_line};
pub use endings::Ending;
pub use failures::{Failure, refuse_arguments, refuse_clash, refuse_terminal};
pub use faults::{
    TROUBLE_STATUS, UNREAD, UNWRITTEN, USAGE_STATUS, fault_line, fault_status, text_in,
};
pub use passes::pass_name;
pub use shrunk_reports::{NO_PAGE, shrunk_report};
pub use verdicts::answer_line;
