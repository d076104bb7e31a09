//! How a run ends.

ghost use Rattle.pcl_messages.specs.Endings.{IsStatus};

use crate::comparison_lines::comparison_status;
use crate::failures::Failure;
use crate::verdicts::answer_status;
use pcl_same::AskedComparison;
use pcl_tool::CheckAnswer;

/// How a run ended, and what is left to be printed.
#[derive(Drop)]
pub enum Ending {
    /// The run that was asked for is done.
    Done,
    /// A job was checked, and the line of this answer was written.
    Checked(CheckAnswer),
    /// Two jobs were compared, and the line of this comparison was written.
    Compared(AskedComparison),
    /// It failed, and this is to be said of it.
    Failed(Failure),
}

impl Ending {
    /// The status of the program.
    pub fn status(&self) -> u8
        ensures { IsStatus self.now result }
    {
        match self {
            Ending::Done => 0,
            Ending::Checked(answer) => answer_status(answer),
            Ending::Compared(comparison) => comparison_status(comparison),
            Ending::Failed(failure) => failure.status(),
        }
    }
}
