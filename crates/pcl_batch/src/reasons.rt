//! What is said of a job that isn't written.

ghost use Rattle.std.specs.Prelude.{◌≡◌, ◌≢◌, IfOk};
ghost use Rattle.pcl_messages.specs.Faults.{status_for};
ghost use Rattle.pcl_batch.specs.Failing.{HasFailingStatus};
ghost use Rattle.pcl_batch.specs.inner.Jobs.{IsFailing};

use pcl_files::FileFault;
use pcl_messages::{
    Failure, TROUBLE_STATUS, UNREAD, USAGE_STATUS, fault_line, fault_status, text_in,
};
use pcl_streams::Fault;
use std::alloc::{AllocError, Global};

/// Why a job isn't written, and the status for it alone.
#[derive(Drop)]
pub(crate) struct Reason {
    pub(crate) status: u8,
    pub(crate) said: String,
}

/// Why nothing is tried with a job.
#[derive(Clone, Copy)]
pub(crate) enum Obstacle {
    /// It has no place of its own: a job before it has its names.
    Taken,
    /// It has no place below the folder.
    LeadsOut,
    /// It is a folder, a device or a pipe.
    NoFile,
    /// What would be written is the job itself.
    Itself,
    /// A file is in its place that no digests say to be of it.
    Foreign,
    /// A certificate is there that would not be of what is written: its digests don't name it, or none is asked for now.
    ForeignCertificate,
    /// A file is in the place of its digests that has none, or those of another job.
    ForeignSums,
}

impl Obstacle {
    fn status(self) -> u8
        ensures { result ≢ 0 }
    {
        match self {
            Obstacle::NoFile => TROUBLE_STATUS,
            _ => USAGE_STATUS,
        }
    }

    fn text(self) -> &'static str {
        match self {
            Obstacle::Taken =>
                "a job before this one has its name, or the name of a file that is written with it",
            Obstacle::LeadsOut => "a path with .. has no place below the folder",
            Obstacle::NoFile => "cannot read: no file, but a folder, a device or a pipe",
            Obstacle::Itself => "it would be written over the job itself, which --in-place does",
            Obstacle::Foreign => "a file is there that isn't known to be of this job",
            Obstacle::ForeignCertificate =>
                "a certificate is there that would not be of what is written",
            Obstacle::ForeignSums =>
                "a file is there in place of the digests, or digests of another job",
        }
    }
}

impl Reason {
    pub(crate) fn of(alloc: Global, obstacle: Obstacle) -> Result<Reason, AllocError>
        ensures { IfOk result IsFailing }
    {
        Ok(Reason {
            status: obstacle.status(),
            said: String::from_str(alloc, obstacle.text())?,
        })
    }

    /// Of a line of this number that should name it and isn't text.
    pub(crate) fn of_no_text(alloc: Global, line: usize) -> Result<Reason, AllocError>
        ensures { IfOk result IsFailing }
    {
        Ok(Reason {
            status: TROUBLE_STATUS,
            said: format!(in alloc; "{UNREAD}: the name on line {line} isn't text")?,
        })
    }

    /// Of a fault of reading or writing.
    pub(crate) fn of_fault(alloc: Global, fault: &Fault) -> Result<Reason, AllocError>
        ensures failing { IfOk result IsFailing }
        ensures status { IfOk result (λ reason. reason.status ≡ status_for fault.now) }
    {
        let line = fault_line(alloc, fault, 0)?;
        Ok(Reason {
            status: fault_status(fault),
            said: String::from_str(alloc, text_in(&line))?,
        })
    }

    /// Of a run that failed.
    pub(crate) fn of_failure(alloc: Global, failure: &Failure) -> Result<Reason, AllocError>
        ensures { IfOk result (λ reason. HasFailingStatus failure.now → IsFailing reason) }
    {
        Ok(Reason {
            status: failure.status(),
            said: String::from_str(alloc, text_in(failure.line()))?,
        })
    }

    /// Of a file that can't be begun or put in its place.
    pub(crate) fn of_file(alloc: Global, why: FileFault) -> Result<Reason, AllocError>
        ensures { IfOk result IsFailing }
    {
        Reason::of_failure(alloc, &Failure::of_file(alloc, why))
    }

    /// With what is left of an earlier batch.
    pub(crate) fn beside_earlier(mut self) -> Result<Reason, AllocError>
        ensures { IfOk result (λ reason. reason.status ≡ self.status) }
    {
        self.said
            .push_str("; what an earlier batch wrote is still there")?;
        Ok(self)
    }
}
