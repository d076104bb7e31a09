//! Why two jobs can't be compared.

ghost use Rattle.std.specs.Prelude.{◌≡◌};
ghost use Rattle.pcl_same.specs.Comparing.{fault_of_one};

use pcl_base::{JobFault, Refusal};
use thiserror::Error;

/// One of two jobs.
#[derive(Clone, Copy, Debug, PartialEq, Eq)]
pub enum Which {
    First,
    Second,
}

/// Why two jobs can't be compared.
#[derive(Clone, Copy, Debug, PartialEq, Eq, Error)]
pub enum SameFault {
    /// The rules refuse one of them; the second is looked at only where they accept the first.
    #[error("a job is refused")]
    Refused { which: Which, refusal: Refusal },
    /// Memory ran out.
    #[error("out of memory")]
    Memory,
}

impl SameFault {
    /// The fault of one of the jobs.
    pub fn of(which: Which, fault: JobFault) -> SameFault
        ensures { result ≡ fault_of_one which fault }
    {
        match fault {
            JobFault::Refused(refusal) => SameFault::Refused { which, refusal },
            JobFault::Memory => SameFault::Memory,
        }
    }
}
