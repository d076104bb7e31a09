//! What is to be said of a run that failed.

ghost use Rattle.std.specs.Prelude.{◌≡◌, None, IfOk};
ghost use Rattle.pcl_messages.specs.Failures.{FailsUnlessDone, HasFailed, HasFailedFile, IsComparisonFailure, IsFailureOf, IsFailureStatus, IsUnwritten, IsUsageFailure};
ghost use Rattle.pcl_messages.specs.Failures.{arguments_line, clash_line, failed_fault, jobs_line, line_said, terminal_line};

use crate::compare_fault::CompareFault;
use crate::comparison_lines::{compare_fault_line, compare_fault_status};
use crate::faults::{NO_MEMORY, TROUBLE_STATUS, USAGE_STATUS, fault_line, fault_status};
use crate::texts::append_labelled;
use pcl_files::FileFault;
use pcl_request::Request;
use pcl_streams::Fault;
use std::alloc::{AllocError, Global};

/// What is to be said of a run that failed.
#[derive(Drop)]
pub enum Failure {
    /// The line for standard error, with its line feed, the status, and the fault that the line is of, where it is one of the run.
    Said {
        line: Vec<u8>,
        status: u8,
        fault: Option<Fault>,
    },
    /// Memory ran out, for the line too.
    NoMemory,
}

impl Failure {
    /// The failure for a fault of a run that was asked for a page.
    pub fn of(alloc: Global, fault: &Fault, page: usize) -> Failure
        ensures { IsFailureOf fault.now page result }
    {
        match fault_line(alloc, fault, page) {
            Ok(line) => Failure::Said {
                line,
                status: fault_status(fault),
                fault: Some(*fault),
            },
            Err(_) => Failure::NoMemory,
        }
    }

    /// The failure for the fault of a run that was asked for a page, unless the run is done.
    pub fn unless_done(alloc: Global, done: Result<(), Fault>, page: usize) -> Result<(), Failure>
        ensures { FailsUnlessDone page done result }
    {
        match done {
            Ok(()) => Ok(()),
            Err(fault) => Err(Failure::of(alloc, &fault, page)),
        }
    }

    /// The failure for two jobs that aren't compared.
    pub fn of_comparison(alloc: Global, fault: &CompareFault) -> Failure
        ensures { IsComparisonFailure fault.now result }
    {
        match compare_fault_line(alloc, fault) {
            Ok(line) => Failure::Said {
                line,
                status: compare_fault_status(fault),
                fault: fault.run_fault(),
            },
            Err(_) => Failure::NoMemory,
        }
    }

    /// The failure for a file that can't be begun.
    pub fn of_file(alloc: Global, why: FileFault) -> Failure
        ensures { HasFailedFile why result }
    {
        match why {
            FileFault::Memory => Failure::NoMemory,
            FileFault::Folder => Failure::unwritten(
                alloc,
                b"pclmin: cannot write: the file's folder takes no new file, which would be put in its place\n",
            ),
            FileFault::Owner => Failure::unwritten(
                alloc,
                b"pclmin: cannot write: the file is another user's, and would become this one's\n",
            ),
            FileFault::Changed => Failure::unwritten(
                alloc,
                b"pclmin: cannot write: another program has changed it meanwhile\n",
            ),
            FileFault::Nameless => Failure::unwritten(
                alloc,
                b"pclmin: cannot write: a descriptor leads to this file: give the name of the file itself\n",
            ),
            FileFault::System => Failure::unwritten(alloc, b"pclmin: cannot write\n"),
        }
    }

    /// The failure of a batch in which as many of the jobs failed, with the status of the first of these.
    pub fn of_jobs(alloc: Global, failed: usize, jobs: usize, status: u8) -> Failure
        ensures { HasFailed (jobs_line failed jobs) status None result }
    {
        match jobs_failed(alloc, failed, jobs) {
            Ok(line) => Failure::Said {
                line,
                status,
                fault: None,
            },
            Err(_) => Failure::NoMemory,
        }
    }

    /// The failure for a usage fault, with its line.
    fn usage(alloc: Global, said: &[u8]) -> Failure
        ensures { IsUsageFailure said.now result }
    {
        Failure::said(alloc, said, USAGE_STATUS, None)
    }

    /// The failure for a file that can't be written, with its line.
    fn unwritten(alloc: Global, said: &[u8]) -> Failure
        ensures { IsUnwritten said.now result }
    {
        Failure::said(alloc, said, TROUBLE_STATUS, Some(Fault::WriteFault))
    }

    /// With this line and this status, of this fault.
    fn said(alloc: Global, said: &[u8], status: u8, fault: Option<Fault>) -> Failure
        ensures { HasFailed said.now status fault result }
    {
        match Vec::from_slice(alloc, said) {
            Ok(line) => Failure::Said {
                line,
                status,
                fault,
            },
            Err(_) => Failure::NoMemory,
        }
    }

    /// The line for standard error, with its line feed.
    pub fn line(&self) -> &[u8]
        ensures { result.now ≡ line_said self.now }
    {
        match self {
            Failure::Said { line, .. } => line,
            Failure::NoMemory => NO_MEMORY,
        }
    }

    /// The status of the program.
    pub fn status(&self) -> u8
        ensures { IsFailureStatus self.now result }
    {
        match self {
            Failure::Said { status, .. } => *status,
            Failure::NoMemory => TROUBLE_STATUS,
        }
    }

    /// The fault of the run that it is, if it is one.
    pub fn fault(&self) -> Option<Fault>
        ensures { result ≡ failed_fault self.now }
    {
        match self {
            Failure::Said { fault, .. } => *fault,
            Failure::NoMemory => Some(Fault::Memory),
        }
    }
}

/// The line of a batch in which as many of the jobs failed, with its line feed.
fn jobs_failed(alloc: Global, failed: usize, jobs: usize) -> Result<Vec<u8>, AllocError>
    ensures { IfOk result (λ line. line.items ≡ jobs_line failed jobs) }
{
    let mut line = Vec::new(alloc);
    append_labelled(b"pclmin: ", failed, &mut line)?;
    append_labelled(b" of ", jobs, &mut line)?;
    line.extend_from_slice(b" jobs failed\n")?;
    Ok(line)
}

/// What is said where a job or an image would be written to a terminal.
pub fn refuse_terminal(alloc: Global) -> Failure
    ensures { IsUsageFailure terminal_line result }
{
    Failure::usage(
        alloc,
        b"pclmin: nothing is written to a terminal: send standard output to a file, or give -o FILE\n",
    )
}

/// What is said where the file of a certificate or of an image is that of a job.
pub fn refuse_clash(alloc: Global, request: Request<'_>) -> Failure
    ensures { IsUsageFailure (clash_line request.entry) result }
{
    match request {
        Request::Compare(_) => Failure::usage(
            alloc,
            b"pclmin: --image names the file of a job: give it a file of its own\n",
        ),
        Request::Run(_) | Request::Check(_) => Failure::usage(
            alloc,
            b"pclmin: --cert names the file of a job: give it a file of its own\n",
        ),
    }
}

/// What is said where an argument isn't text.
pub fn refuse_arguments(alloc: Global) -> Failure
    ensures { IsUsageFailure arguments_line result }
{
    Failure::usage(alloc, b"pclmin: the arguments aren't text\n")
}
