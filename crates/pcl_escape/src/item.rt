//! Commands in few bytes.

ghost use Rattle.std.specs.Prelude.{◌≡◌, length, IfOk};
ghost use Rattle.pcl_base.specs.Name.{name_bytes};
ghost use Rattle.pcl_escape.specs.Items.{name_with, bytes_in};

use crate::Command;
use pcl_base::{Name, Sign, Value};
use std::alloc::AllocError;

/// A command in 20 bytes: two places in the job stand for its data.
#[derive(Clone, Copy, Debug)]
pub struct Item {
    /// Where the command stands.
    at: u32,
    /// Where its data begin.
    begin: u32,
    /// How many bytes they have.
    len: u32,
    /// The magnitude of its value, in ten-thousandths.
    parts: u32,
    /// The sign of its value.
    sign: Sign,
    /// The bytes of its name; those past its length are 0.
    name: [u8; 3],
}

impl Item {
    ghost use Rattle.std.specs.Prelude.{◌≡◌, length, IfOk};
    ghost use Rattle.pcl_base.specs.Name.{name_bytes};
    ghost use Rattle.pcl_escape.specs.Said.{view};
    ghost use Rattle.pcl_escape.specs.Items.{said_in};

    /// The item of a command whose data begin at a place of the job; or out of memory where a place has more than 32 bits.
    pub fn new(command: &Command<'_>, begin: usize) -> Result<Item, AllocError>
        ensures { IfOk result (λ item. item ≡ record {
          at = command.now.at;
          begin = begin;
          len = length command.now.bytes.now;
          parts = command.now.value.parts;
          sign = command.now.value.sign;
          name = name_bytes command.now.name;
        }) }
    {
        Ok(Item {
            at: narrow(command.at)?,
            begin: narrow(begin)?,
            len: narrow(command.bytes.len())?,
            parts: command.value.parts,
            sign: command.value.sign,
            name: command.name.bytes(),
        })
    }

    /// The command of an item of the job.
    pub fn command<'a>(&self, job: &'a [u8]) -> Command<'a>
        ensures { view result ≡ said_in job.now self.now }
    {
        Command {
            at: self.at as usize,
            name: name_with(self.name),
            value: Value {
                sign: self.sign,
                parts: self.parts,
            },
            bytes: bytes_in(job, self.begin as usize, self.len as usize),
        }
    }
}

/// A place in 32 bits, or out of memory where it has more.
fn narrow(place: usize) -> Result<u32, AllocError>
    ensures { IfOk result (λ narrow. narrow ≡ place) }
{
    match u32::try_from(place) {
        Ok(narrow) => Ok(narrow),
        Err(_) => Err(AllocError),
    }
}

/// The name of one byte or more with these bytes.
fn name_with(bytes: [u8; 3]) -> Name
    ensures { result ≡ name_with bytes }
{
    match bytes {
        [first, 0, 0] => Name::One(first),
        [first, second, 0] => Name::Two(first, second),
        [first, second, third] => Name::Three(first, second, third),
    }
}

/// The bytes of the job from a place on, this many of them, as far as there are any.
fn bytes_in(job: &[u8], begin: usize, len: usize) -> &[u8]
    ensures { result.now ≡ bytes_in job.now begin len }
{
    let (_, rest) = job.split_at(begin.min(job.len()));
    let (bytes, _) = rest.split_at(len.min(rest.len()));
    bytes
}
