//! Why two jobs aren't compared.

ghost use Rattle.std.specs.Prelude.{◌≡◌};
ghost use Rattle.pcl_streams.specs.declared.fault.Fault.TheVariants.{Memory};
ghost use Rattle.pcl_messages.specs.declared.compare_fault.CompareFault.TheVariants.{Failed};
ghost use Rattle.pcl_messages.specs.ComparisonLines.{compare_fault_of, run_fault};

use pcl_base::Refusal;
use pcl_same::{SameFault, Which};
use pcl_streams::Fault;
use std::alloc::AllocError;

/// Why two jobs aren't compared.
#[derive(Clone, Copy)]
pub enum CompareFault {
    /// The rules refuse one of them.
    Refused { which: Which, refusal: Refusal },
    /// Reading, writing or memory failed.
    Failed(Fault),
}

impl CompareFault {
    /// The fault of the run, where neither job is refused.
    pub(crate) fn run_fault(&self) -> Option<Fault>
        ensures { result ≡ run_fault self.now }
    {
        match self {
            CompareFault::Refused { .. } => None,
            CompareFault::Failed(fault) => Some(*fault),
        }
    }
}

impl From<SameFault> for CompareFault {
    ghost from_gives = { λ fault e. e ≡ compare_fault_of fault };

    fn from(fault: SameFault) -> CompareFault {
        match fault {
            SameFault::Refused { which, refusal } => CompareFault::Refused { which, refusal },
            SameFault::Memory => CompareFault::Failed(Fault::Memory),
        }
    }
}

impl From<Fault> for CompareFault {
    ghost from_gives = { λ fault e. e ≡ Failed fault };

    fn from(fault: Fault) -> CompareFault {
        CompareFault::Failed(fault)
    }
}

impl From<AllocError> for CompareFault {
    ghost from_gives = { λ _ e. e ≡ Failed Memory };

    fn from(_e: AllocError) -> CompareFault {
        CompareFault::Failed(Fault::Memory)
    }
}
