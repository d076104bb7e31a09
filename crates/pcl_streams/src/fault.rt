//! Why a run fails.

ghost use Rattle.std.specs.Prelude.{◌≡◌};
ghost use Rattle.pcl_streams.specs.declared.fault.Fault.TheVariants.{Memory};
ghost use Rattle.pcl_streams.specs.JobFaults.{fault_of};

use pcl_base::{JobFault, Refusal};
use std::alloc::{AllocError, AllocFailed};
use thiserror::Error;

/// Why a run fails. What a reader has given and a writer holds then, each call says.
#[derive(Clone, Copy, Debug, PartialEq, Eq, Error)]
pub enum Fault {
    /// The rules refuse the job.
    #[error("the job is refused")]
    Refused(Refusal),
    /// Memory ran out.
    #[error("out of memory")]
    Memory,
    /// A read failed.
    #[error("a read failed")]
    ReadFault,
    /// The input is longer than the limit.
    #[error("the input is too long")]
    TooLong,
    /// The certificate is longer than the limit of inputs, so that no check would read it.
    #[error("the certificate is too long")]
    CertificateTooLong,
    /// A write failed, or took nothing.
    #[error("a write failed")]
    WriteFault,
    /// The job has no page of that number.
    #[error("no such page")]
    NoSuchPage,
}

impl From<AllocError> for Fault {
    ghost from_gives = { λ _ e. e ≡ Memory };

    fn from(_e: AllocError) -> Fault {
        Fault::Memory
    }
}

impl<T: Drop> From<AllocFailed<T>> for Fault {
    ghost from_gives = { λ _ e. e ≡ Memory };

    fn from(_e: AllocFailed<T>) -> Fault {
        Fault::Memory
    }
}

impl From<JobFault> for Fault {
    ghost from_gives = { λ fault e. e ≡ fault_of fault };

    fn from(fault: JobFault) -> Fault {
        match fault {
            JobFault::Refused(refusal) => Fault::Refused(refusal),
            JobFault::Memory => Fault::Memory,
        }
    }
}
