//! Values of commands that are refused by themselves.

use crate::Finding;
use crate::refusals::{ReadAs, refusal_of};
use pcl_base::{Kind, Name, Refusal, Value};
use pcl_escape::Command;
use std::alloc::{AllocError, Global};

/// How many values of a name are looked at, at most.
const VALUE_LIMIT: usize = 100;

/// A value of a name, and how many commands have it.
#[derive(Clone, Copy)]
struct Counted {
    /// Where the first of them stands.
    at: usize,
    value: Value,
    times: usize,
}

/// What is found of the commands of a name with values that are refused by themselves, each value once, in the order of the commands.
pub fn refused_values(
    alloc: Global,
    commands: &[Command<'_>],
    name: Name,
    read_as: ReadAs,
) -> Result<Vec<Finding>, AllocError> {
    let mut found = Vec::new(alloc);
    for counted in count_values(alloc, commands, name)?.iter() {
        if is_refused(alloc, name, *counted, read_as)? {
            found.push(Finding {
                refusal: Refusal::new(Kind::UnsupportedValue, counted.at, name),
                value: Some(counted.value),
                times: counted.times,
            })?;
        }
    }
    Ok(found)
}

/// The values of the commands of a name, in the order in which they come, up to the limit.
fn count_values(
    alloc: Global,
    commands: &[Command<'_>],
    name: Name,
) -> Result<Vec<Counted>, AllocError> {
    let mut values = Vec::new(alloc);
    for command in commands {
        if command.name == name {
            count_value(command, &mut values)?;
        }
    }
    Ok(values)
}

/// Counts the value of a command, unless it is one too many.
fn count_value(command: &Command<'_>, values: &mut Vec<Counted>) -> Result<(), AllocError> {
    for counted in values.iter_mut() {
        if counted.value == command.value {
            counted.times = counted.times.saturating_add(1);
            return Ok(());
        }
    }
    if values.len() < VALUE_LIMIT {
        values.push(Counted {
            at: command.at,
            value: command.value,
            times: 1,
        })?;
    }
    Ok(())
}

/// Whether a command of a name and a value is refused for its value where it stands alone.
fn is_refused(
    alloc: Global,
    name: Name,
    counted: Counted,
    read_as: ReadAs,
) -> Result<bool, AllocError> {
    let alone = Command {
        at: counted.at,
        name,
        value: counted.value,
        bytes: &[],
    };
    match refusal_of(alloc, &[alone], counted.at.saturating_add(1), read_as)? {
        Some(refusal) => Ok(refusal.kind == Kind::UnsupportedValue),
        None => Ok(false),
    }
}

/// Leaves out the commands whose names and values were found.
pub fn leave_out_like_ones(commands: &mut Vec<Command<'_>>, found: &[Finding]) {
    if !found.is_empty() {
        commands.retain(|command| !is_found(command, found));
    }
}

/// Whether a command has the name and the value of a finding.
fn is_found(command: &Command<'_>, found: &[Finding]) -> bool {
    for finding in found {
        if command.name == finding.refusal.name && Some(command.value) == finding.value {
            return true;
        }
    }
    false
}
