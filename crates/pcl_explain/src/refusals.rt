//! One refusal of a job after the other.

ghost use Rattle.std.specs.Prelude.{◌≡◌, IfOk};
ghost use Rattle.pcl_explain.specs.Findings.{AreFindings, IsFirstRefusal};

use crate::sequences::blank_sequence;
use crate::values::{leave_out_like_ones, refused_values};
use crate::{Finding, Findings};
use pcl_base::{Dpi, JobFault, Kind, Profile, Refusal};
use pcl_escape::{Command, read_job};
use pcl_page::{Page, PageSink, page_count, run_asked};
use std::alloc::{AllocError, Global};

/// How many findings there are at most.
const FINDING_LIMIT: usize = 100;

/// How often a job is performed at most after its first refusal.
const PERFORMING_LIMIT: usize = 32;

/// By which rules a job is read.
#[derive(Clone, Copy)]
pub struct ReadAs {
    /// Which commands it may have.
    pub profile: Profile,
    /// The resolution at which it is seen.
    pub dpi: Dpi,
}

/// What the rules of a profile refuse in a job. That is the refusal of the job, and then that of the job without the commands that were
/// refused before and those from there on that are like them, up to 100 in all. Where a value is refused, the commands of its name with
/// other values that are refused by themselves are found with it, so that the job is performed once for each name, and 32 times at most.
/// None exactly where the job is accepted.
pub fn find_refusals(
    alloc: Global,
    job: &[u8],
    profile: Profile,
    dpi: Dpi,
) -> Result<Option<Findings>, AllocError>
    ensures { IfOk result (λ findings. AreFindings profile dpi job.now findings) }
{
    let read_as = ReadAs { profile, dpi };
    match first_refusal(alloc, job, read_as)? {
        None => Ok(None),
        Some(refusal) => Ok(Some(findings_from(alloc, job, read_as, refusal)?)),
    }
}

/// The refusal of a job, if it has one.
fn first_refusal(alloc: Global, job: &[u8], read_as: ReadAs) -> Result<Option<Refusal>, AllocError>
    ensures { IfOk result (λ refusal. IsFirstRefusal read_as.profile read_as.dpi job.now refusal) }
{
    match page_count(alloc, job, read_as.profile, read_as.dpi) {
        Ok(_) => Ok(None),
        Err(JobFault::Refused(refusal)) => Ok(Some(refusal)),
        Err(JobFault::Memory) => Err(AllocError),
    }
}

/// The findings of a job whose refusal is known.
fn findings_from(
    alloc: Global,
    job: &[u8],
    read_as: ReadAs,
    refusal: Refusal,
) -> Result<Findings, AllocError>
    ensures { IfOk result (λ findings. findings.first.refusal ≡ refusal) }
{
    match read_job(alloc, read_as.profile, job) {
        Ok(commands) => found_in(alloc, commands, job.len(), read_as, refusal),
        Err(JobFault::Refused(_)) => read_on(alloc, job, refusal, read_as),
        Err(JobFault::Memory) => Err(AllocError),
    }
}

/// What is found in commands whose first refusal is known. At the job's end no command is refused, and nothing more is found.
fn found_in(
    alloc: Global,
    mut commands: Vec<Command<'_>>,
    end: usize,
    read_as: ReadAs,
    refusal: Refusal,
) -> Result<Findings, AllocError>
    ensures { IfOk result (λ findings. findings.first.refusal ≡ refusal) }
{
    let first = leave_out(&mut commands, refusal);
    let mut found = Findings::of(alloc, first);
    if first.value.is_none() {
        return Ok(found);
    }
    let values = leave_out_values(alloc, &mut commands, &first, read_as)?;
    found.add_all(&values)?;
    later_findings(alloc, commands, end, read_as, found)
}

/// Reads a job on after a sequence that can't be read, with it and later ones left out, as long as it is known where they end.
fn read_on(
    alloc: Global,
    job: &[u8],
    first: Refusal,
    read_as: ReadAs,
) -> Result<Findings, AllocError>
    ensures { IfOk result (λ findings. findings.first.refusal ≡ first) }
{
    let mut bytes = Vec::from_slice(alloc, job)?;
    let mut found = Findings::of(alloc, Finding::without_command(first));
    let mut refused = first;
    for _ in 0..job.len() {
        if !is_of_one_sequence(refused.kind) {
            return Ok(found);
        }
        let start = blank_sequence(&mut bytes, refused.at);
        match next_fault(alloc, &bytes, start, read_as.profile)? {
            Some(refusal) => refused = refusal,
            None => return findings_of(alloc, &bytes, read_as, found),
        }
        found.add(Finding::without_command(refused))?;
    }
    Ok(found)
}

/// The next fault of reading from a place on at which a sequence begins, if there is one: what stands before isn't read again.
fn next_fault(
    alloc: Global,
    bytes: &[u8],
    from: usize,
    profile: Profile,
) -> Result<Option<Refusal>, AllocError> {
    match read_job(alloc, profile, bytes.get(from..).unwrap_or(&[])) {
        Ok(_) => Ok(None),
        Err(JobFault::Refused(refusal)) => {
            let at = refusal.at.saturating_add(from);
            Ok(Some(Refusal::new(refusal.kind, at, refusal.name)))
        }
        Err(JobFault::Memory) => Err(AllocError),
    }
}

/// What is found in a job that can be read, with what was found before.
fn findings_of(
    alloc: Global,
    job: &[u8],
    read_as: ReadAs,
    before: Findings,
) -> Result<Findings, AllocError>
    ensures { IfOk result (λ findings. findings.first.refusal ≡ before.first.refusal) }
{
    match read_job(alloc, read_as.profile, job) {
        Ok(commands) => later_findings(alloc, commands, job.len(), read_as, before),
        Err(JobFault::Refused(_)) => Ok(before),
        Err(JobFault::Memory) => Err(AllocError),
    }
}

/// Whether a refusal of reading is that of one sequence, so that reading can go on after it.
fn is_of_one_sequence(kind: Kind) -> bool {
    matches!(kind, Kind::UnsupportedCommand | Kind::ValueRange)
}

/// What is found in commands, one after the other, each without those that were found before.
fn later_findings(
    alloc: Global,
    mut commands: Vec<Command<'_>>,
    end: usize,
    read_as: ReadAs,
    mut found: Findings,
) -> Result<Findings, AllocError>
    ensures { IfOk result (λ findings. findings.first.refusal ≡ found.first.refusal) }
{
    for _ in 0..PERFORMING_LIMIT {
        if found.later.len() >= FINDING_LIMIT {
            break;
        }
        let Some(refusal) = refusal_of(alloc, &commands, end, read_as)? else {
            break;
        };
        let finding = leave_out(&mut commands, refusal);
        found.add(finding)?;
        if finding.value.is_none() {
            break;
        }
        let values = leave_out_values(alloc, &mut commands, &finding, read_as)?;
        found.add_all(&values)?;
    }
    found.later.truncate(FINDING_LIMIT - 1);
    Ok(found)
}

/// Leaves out the commands of the name of a finding with other values that are refused by themselves, where it is its value that is
/// refused, and says what was left out.
fn leave_out_values(
    alloc: Global,
    commands: &mut Vec<Command<'_>>,
    finding: &Finding,
    read_as: ReadAs,
) -> Result<Vec<Finding>, AllocError> {
    if finding.refusal.kind != Kind::UnsupportedValue {
        return Ok(Vec::new(alloc));
    }
    let found = refused_values(alloc, commands, finding.refusal.name, read_as)?;
    leave_out_like_ones(commands, &found);
    Ok(found)
}

/// The refusal of commands, if they have one.
pub fn refusal_of(
    alloc: Global,
    commands: &[Command<'_>],
    end: usize,
    read_as: ReadAs,
) -> Result<Option<Refusal>, AllocError> {
    match run_asked(
        alloc,
        commands,
        end,
        read_as.profile,
        read_as.dpi,
        &mut Unseen,
    ) {
        Ok(_) => Ok(None),
        Err(JobFault::Refused(refusal)) => Ok(Some(refusal)),
        Err(JobFault::Memory) => Err(AllocError),
    }
}

/// Leaves out the command that is refused, and those from there on that are like it, and says what was refused. Where there are more than
/// there may be, those before it are left out too, so that what follows can be performed.
fn leave_out(commands: &mut Vec<Command<'_>>, refusal: Refusal) -> Finding
    ensures { result.refusal ≡ refusal }
{
    let Some(refused) = refused_command(commands, refusal) else {
        return Finding::without_command(refusal);
    };
    let times = commands
        .iter()
        .filter(|command| is_like(refusal, &refused, command))
        .count();
    let is_too_many = matches!(refusal.kind, Kind::TooManyPages | Kind::TooManyCommands);
    commands.retain(|command| {
        !(is_too_many && command.name == refused.name || is_like(refusal, &refused, command))
    });
    Finding {
        refusal,
        value: Some(refused.value),
        times,
    }
}

/// The command that a refusal names.
fn refused_command<'a>(commands: &[Command<'a>], refusal: Refusal) -> Option<Command<'a>> {
    commands
        .iter()
        .find(|command| command.at == refusal.at && command.name == refusal.name)
        .copied()
}

/// Whether a command stands where one was refused or after it, and would be refused as that one is. It has its name, and its value or its
/// data where these are what is refused. Of those that begin, end or run macros each counts alone.
fn is_like(refusal: Refusal, refused: &Command<'_>, command: &Command<'_>) -> bool {
    command.at >= refusal.at
        && command.name == refused.name
        && match refusal.kind {
            Kind::UnsupportedValue => command.value == refused.value,
            Kind::FontHeader | Kind::CharacterData => command.bytes == refused.bytes,
            Kind::MacroControl | Kind::MacroOpen | Kind::MacroDepth => command.at == refused.at,
            _ => true,
        }
}

/// Takes pages, and does nothing with them.
#[derive(Drop)]
struct Unseen;

impl PageSink for Unseen {
    ghost takes = { λ _ _ _. Unit {0} };

    fn page(&mut self, _page: &Page) -> Result<(), AllocError> {
        Ok(())
    }
}
