//! What the calls that read a job answer.

ghost use Rattle.std.specs.Prelude.{◌≡◌};
ghost use Rattle.pcl_base.specs.declared.fault.JobFault.TheVariants.{Memory};
ghost use Rattle.pcl_base.specs.declared.fault.CallFault.TheVariants as call;

use crate::{Kind, Refusal};
use std::alloc::{AllocError, AllocFailed};
use thiserror::Error;

/// Why a job could not be read or performed.
#[derive(Clone, Copy, Debug, PartialEq, Eq, Error)]
pub enum JobFault {
    /// The rules refuse the job.
    #[error("the job is refused")]
    Refused(Refusal),
    /// Memory ran out.
    #[error("out of memory")]
    Memory,
}

impl From<AllocError> for JobFault {
    ghost from_gives = { λ _ e. e ≡ Memory };

    fn from(_e: AllocError) -> JobFault {
        JobFault::Memory
    }
}

impl<T: Drop> From<AllocFailed<T>> for JobFault {
    ghost from_gives = { λ _ e. e ≡ Memory };

    fn from(_e: AllocFailed<T>) -> JobFault {
        JobFault::Memory
    }
}

/// Why a call on behalf of one command failed.
#[derive(Clone, Copy, Debug, PartialEq, Eq, Error)]
pub enum CallFault {
    /// The command is refused, for this reason.
    #[error("the command is refused")]
    Refused(Kind),
    /// Memory ran out.
    #[error("out of memory")]
    Memory,
}

impl From<AllocError> for CallFault {
    ghost from_gives = { λ _ e. e ≡ call.Memory };

    fn from(_e: AllocError) -> CallFault {
        CallFault::Memory
    }
}
