//! What reading appends commands to.

use crate::Command;
use crate::item::Item;
use std::alloc::AllocError;

/// What reading appends the commands of a job to, in their order.
pub trait CommandStore<'a> {
    ghost use Rattle.std.specs.Prelude.{◌≡◌, ◌++◌, ◌∷◌, [], List, ℕ, OnOk};
    ghost use Rattle.pcl_escape.specs.Said.{Said, view};
    ghost use Rattle.pcl_escape.specs.inner.Scan.{IsPlaced};

    /// The commands of a job that it keeps.
    ghost kept: { List ℕ → Self → List Said };

    /// Appends a command of a job, after whose data this many bytes are left.
    fn append(&mut self, command: Command<'a>, job: &'a [u8], left: usize) -> Result<(), AllocError>
        requires { IsPlaced job.now left (view command) }
        ensures { OnOk result (kept job.now self.new ≡ kept job.now self.old ++ view command.entry ∷ []) };
}

impl<'a> CommandStore<'a> for Vec<Command<'a>> {
    ghost use Rattle.pcl_escape.specs.Said.{views};

    ghost kept = { λ _ commands. views commands.items };

    fn append(
        &mut self,
        command: Command<'a>,
        _job: &'a [u8],
        _left: usize,
    ) -> Result<(), AllocError> {
        Ok(self.push(command)?)
    }
}

impl<'a> CommandStore<'a> for Vec<Item> {
    ghost use Rattle.pcl_escape.specs.Items.{all_said_in};

    ghost kept = { λ job items. all_said_in job items.items };

    fn append(
        &mut self,
        command: Command<'a>,
        job: &'a [u8],
        left: usize,
    ) -> Result<(), AllocError> {
        let begin = job.len() - left - command.bytes.len();
        let item = Item::new(&command, begin)?;
        Ok(self.push(item)?)
    }
}
