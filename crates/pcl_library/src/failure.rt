//! Why a call fails.

ghost use Rattle.std.specs.Prelude.{◌≡◌, IfOk, IsTrue, IsOk, IsErr};
ghost use Rattle.pcl_streams.specs.declared.fault.Fault.TheVariants.{Memory};
ghost use Rattle.pcl_library.specs.declared.failure.CallFailure.TheVariants.{Run};
ghost use Rattle.pcl_library.specs.Failures.{argument_line, failure_line, failure_of_job, failure_of_jobs, is_said_at_once, outcome_of};
ghost use Rattle.pcl_library.specs.Lines.{c_string};

use crate::lines::ended;
use pcl_base::{JobFault, Refusal};
use pcl_messages::{CompareFault, compare_fault_line, fault_line};
use pcl_same::{SameFault, Which};
use pcl_tool::Fault;
use std::alloc::{AllocError, Global};

/// An argument that is a number.
#[derive(Clone, Copy, Debug, PartialEq, Eq)]
pub enum Argument {
    /// The resolution: 300, 600 or 0.
    Resolution,
    /// The first and the last page: 1 to 256, or 0 and 0.
    Pages,
    /// The scale: 1 to 32.
    Scale,
    /// The format of a certificate: 1, 2 or 0.
    Format,
}

impl Argument {
    /// What is said where it has another value, with a zero byte.
    fn line(self) -> &'static [u8]
        ensures { result.now ≡ c_string (argument_line self) }
    {
        match self {
            Argument::Resolution =>
                b"pclmin: the resolution is 300 or 600, or 0 for the first at which the job is accepted\n\0",
            Argument::Pages =>
                b"pclmin: pages are 1 to 256, the last no earlier than the first, or 0 and 0 for all\n\0",
            Argument::Scale => b"pclmin: a scale is 1 to 32\n\0",
            Argument::Format => b"pclmin: the format of a certificate is 1 or 2, or 0 for none\n\0",
        }
    }
}

/// Why a call fails.
#[derive(Clone, Copy, Debug)]
pub enum CallFailure {
    /// An argument has a value that the call doesn't take.
    Wrong(Argument),
    /// The call fails as a run of the program does.
    Run(Fault),
    /// One of two jobs is refused.
    OneRefused { which: Which, refusal: Refusal },
}

impl CallFailure {
    /// The number of the failure, as lib/pclmin.h has it.
    pub fn outcome(&self) -> u32
        ensures { result ≡ outcome_of self.now }
    {
        match self {
            CallFailure::Run(Fault::Refused(_)) | CallFailure::OneRefused { .. } => 1,
            CallFailure::Run(Fault::NoSuchPage) => 2,
            CallFailure::Wrong(_) => 3,
            CallFailure::Run(Fault::TooLong) => 4,
            CallFailure::Run(Fault::Memory | Fault::ReadFault | Fault::WriteFault) => 5,
            CallFailure::Run(Fault::CertificateTooLong) => 5,
        }
    }

    /// What is said of it, with a line feed and a zero byte; `page` is the last page that was asked for. That an argument is
    /// wrong or an input too long is always said, by a line that nobody frees. That memory ran out is left to C.
    pub fn line(&self, alloc: Global, page: usize) -> Result<&'static [u8], AllocError>
        ensures said { IfOk result (λ line. line.now ≡ c_string (failure_line self.now page)) }
        ensures at_once { IsTrue (is_said_at_once self.now) → IsOk result }
        ensures memory { self.now ≡ Run Memory → IsErr result }
    {
        match self {
            CallFailure::Wrong(argument) => Ok(argument.line()),
            CallFailure::Run(Fault::TooLong) => Ok(b"pclmin: input too long\n\0"),
            CallFailure::Run(Fault::Memory) => Err(AllocError),
            CallFailure::Run(fault) => ended(fault_line(alloc, fault, page)),
            CallFailure::OneRefused { which, refusal } => {
                let refused = CompareFault::Refused {
                    which: *which,
                    refusal: *refusal,
                };
                ended(compare_fault_line(alloc, &refused))
            }
        }
    }
}

impl From<AllocError> for CallFailure {
    ghost from_gives = { λ _ e. e ≡ Run Memory };

    fn from(_e: AllocError) -> CallFailure {
        CallFailure::Run(Fault::Memory)
    }
}

impl From<JobFault> for CallFailure {
    ghost from_gives = { λ fault e. e ≡ failure_of_job fault };

    fn from(fault: JobFault) -> CallFailure {
        CallFailure::Run(Fault::from(fault))
    }
}

impl From<SameFault> for CallFailure {
    ghost from_gives = { λ fault e. e ≡ failure_of_jobs fault };

    fn from(fault: SameFault) -> CallFailure {
        match fault {
            SameFault::Refused { which, refusal } => CallFailure::OneRefused { which, refusal },
            SameFault::Memory => CallFailure::Run(Fault::Memory),
        }
    }
}
