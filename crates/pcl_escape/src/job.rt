//! Whole jobs.

ghost use Rattle.std.specs.Prelude.{◌≡◌, ◌++◌, ◌⊎◌, [], List, ℕ, IfSome, IfOk, IfErr, OnOk};
ghost use Rattle.pcl_base.specs.declared.profile.Profile.{Profile};
ghost use Rattle.pcl_base.specs.declared.profile.Profile.TheVariants.{Stated, Drivers};
ghost use Rattle.pcl_base.specs.declared.refusal.Refusal.{Refusal};
ghost use Rattle.pcl_escape.specs.Said.{Said, views};
ghost use Rattle.pcl_escape.specs.Pieces.{IsReading};
ghost use Rattle.pcl_escape.specs.Faults.{IsFault, IsFaultOf};
ghost use Rattle.pcl_escape.specs.inner.Scan.{IsPlaced, Yields, scan_outcome, commands_said, said_of};

use crate::item::Item;
use crate::step::read_step;
use crate::store::CommandStore;
use crate::{Command, Commands};
use pcl_base::{JobFault, Profile};
use std::alloc::{AllocError, Global};

/// The commands of a job by a profile, or its first fault. A fault has kind, place and name; the other one is out
/// of memory. The data of a command are a slice of the job (docs/LANGUAGE.md, "Reading").
pub fn read_job<'a>(
    alloc: Global,
    profile: Profile,
    job: &'a [u8],
) -> Result<Vec<Command<'a>>, JobFault>
    // The commands are those of a reading of the job.
    ensures reading { IfOk result (λ commands. IsReading profile job.now (views commands.items)) }
    // A refusal is the first fault of the job.
    ensures fault { IfErr result (λ fault. IsFaultOf profile job.now fault) }
{
    let mut commands: Vec<Command<'a>> = Vec::new(alloc);
    match scan(profile, job, &mut commands) {
        Ok(()) => Ok(commands),
        Err(fault) => Err(fault),
    }
}

/// The commands of a job as [`read_job`] gives them, in half of the memory. Each is made anew where it is asked for. A job of
/// 4,294,967,296 bytes or more, whose places need more than 32 bits, is out of memory.
pub fn read_commands<'a>(
    alloc: Global,
    profile: Profile,
    job: &'a [u8],
) -> Result<Commands<'a>, JobFault>
    ensures reading { IfOk result (λ commands. IsReading profile job.now commands) }
    ensures fault { IfErr result (λ fault. IsFaultOf profile job.now fault) }
{
    let mut items: Vec<Item> = Vec::new(alloc);
    match scan(profile, job, &mut items) {
        Ok(()) => Ok(Commands::new(job, items)),
        Err(fault) => Err(fault),
    }
}

/// By a profile a job has one reading at most, and one first fault at most, and never both. So with memory enough
/// `read_job` gives the reading exactly where there is one. A law: the call does nothing.
pub fn one_outcome()
    ensures reading { (profile : Profile) (job : List ℕ) (commands others : List Said) → IsReading profile job commands
        → IsReading profile job others → commands ≡ others }
    ensures fault { (profile : Profile) (job : List ℕ) (fault other : Refusal) → IsFault profile job fault → IsFault profile job other
        → fault ≡ other }
    ensures apart { (profile : Profile) (job : List ℕ) (commands : List Said) (fault : Refusal) → IsReading profile job commands
        → IsFault profile job fault → ⊥ }
{}

/// By a profile a job has a reading or a first fault, whatever its bytes are. A law: the call does nothing.
pub fn some_outcome()
    ensures { (profile : Profile) (job : List ℕ)
        → ((commands : List Said) × IsReading profile job commands) ⊎ ((fault : Refusal) × IsFault profile job fault) }
{}

/// What the stated profile reads, the drivers' reads too, as the same commands. A law: the call does nothing.
pub fn read_by_drivers()
    ensures { (job : List ℕ) (commands : List Said) → IsReading Stated job commands → IsReading Drivers job commands }
{}

/// Appends the commands of a job to an empty store, step by step, up to its first fault.
fn scan<'a, S: CommandStore<'a>>(
    profile: Profile,
    job: &'a [u8],
    store: &mut S,
) -> Result<(), JobFault>
    requires { S.kept job.now store.old ≡ [] }
    ensures { Yields result (S.kept job.now store.new) (scan_outcome profile job.now) }
{
    let mut rest = job;
    let mut inside = None;
    while !rest.is_empty() || inside.is_some() {
        let at = job.len() - rest.len();
        let step = match read_step(profile, inside, at, rest) {
            Ok(step) => step,
            Err(refusal) => return Err(JobFault::Refused(refusal)),
        };
        append(store, step.command, job, step.rest.len())?;
        rest = step.rest;
        inside = step.inside;
    }
    Ok(())
}

/// Appends the command of a step, if it gave one, after which this many bytes are left.
fn append<'a, S: CommandStore<'a>>(
    store: &mut S,
    command: Option<Command<'a>>,
    job: &'a [u8],
    left: usize,
) -> Result<(), AllocError>
    requires { IfSome (said_of command) (IsPlaced job.now left) }
    ensures { OnOk result (S.kept job.now store.new ≡ S.kept job.now store.old ++ commands_said (said_of command.entry)) }
{
    match command {
        None => Ok(()),
        Some(command) => store.append(command, job, left),
    }
}
