//! Lists of commands.

use crate::Command;
use crate::item::Item;
use std::marker::Model;

/// A list of commands, each of which is read by its place.
pub trait CommandList<'a> {
    ghost use Rattle.std.specs.Prelude.{◌≡◌, ◌<◌, ◌^◌, List, IfSome, slice_get};
    ghost use Rattle.std.specs.Option.{option_map};
    ghost use Rattle.pcl_escape.specs.Said.{Said, view};

    /// Its commands, in order.
    ghost commands: { Self → List Said };

    /// The command at a place of the list, from 0, or none past its end.
    fn command_at(&self, place: usize) -> Option<Command<'a>>
        ensures command { option_map view result ≡ slice_get (commands self.now) place }
        ensures fits { IfSome result (λ _. place < 2 ^ 63) };
}

impl<'a, 'b> CommandList<'a> for &'b [Command<'a>] {
    ghost use Rattle.pcl_escape.specs.Said.{views};

    ghost commands = { λ list. views list.now };

    fn command_at(&self, place: usize) -> Option<Command<'a>> {
        match self.get(place) {
            Some(command) => Some(*command),
            None => None,
        }
    }
}

/// The commands of a job, each in 20 bytes: places in the job stand for their data.
#[derive(Drop)]
pub struct Commands<'a> {
    job: &'a [u8],
    items: Vec<Item>,
}

impl<'a> Model for Commands<'a> {
    ghost use Rattle.std.specs.Prelude.{List};
    ghost use Rattle.pcl_escape.specs.Said.{Said};
    ghost use Rattle.pcl_escape.specs.Items.{all_said_in};

    ghost Value = { List Said };

    ghost view = { λ list. all_said_in list.job.now list.items.items };
}

impl<'a> Commands<'a> {
    ghost use Rattle.std.specs.Prelude.{◌≡◌};
    ghost use Rattle.pcl_escape.specs.Items.{all_said_in};

    /// The commands of a job by its items.
    pub(crate) fn new(job: &'a [u8], items: Vec<Item>) -> Commands<'a>
        ensures { result ≡ all_said_in job.now items.items }
    {
        Commands { job, items }
    }
}

impl<'a> CommandList<'a> for Commands<'a> {
    ghost commands = { λ list. list };

    fn command_at(&self, place: usize) -> Option<Command<'a>> {
        match self.items.get(place) {
            Some(item) => Some(item.command(self.job)),
            None => None,
        }
    }
}
