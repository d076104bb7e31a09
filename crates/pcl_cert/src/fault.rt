//! What is wrong with bytes that are no certificate.

ghost use Rattle.std.specs.Prelude.{◌≡◌};
ghost use Rattle.pcl_cert.specs.declared.fault.CertFault.TheVariants.{Memory};

use std::alloc::{AllocError, AllocFailed};
use thiserror::Error;

/// Why bytes are no certificate (docs/CERTIFICATE.md, "Faults").
#[derive(Clone, Copy, Debug, PartialEq, Eq, Error)]
pub enum CertFault {
    /// The first eight bytes tell no format.
    #[error("the first bytes tell no format")]
    BadMagic,
    /// A field isn't whole.
    #[error("a field isn't whole")]
    Short,
    /// There are bytes after the last page.
    #[error("there are bytes behind the last page")]
    Extra,
    /// No size of page has this many rows.
    #[error("no size of page has as many rows")]
    Rows,
    /// A list of a row table is longer than a row, or ends in 0.
    #[error("a list of a row table is too long or ends in 0")]
    Places,
    /// Memory ran out.
    #[error("out of memory")]
    Memory,
}

impl From<AllocError> for CertFault {
    ghost from_gives = { λ _ e. e ≡ Memory };

    fn from(_e: AllocError) -> CertFault {
        CertFault::Memory
    }
}

impl<T: Drop> From<AllocFailed<T>> for CertFault {
    ghost from_gives = { λ _ e. e ≡ Memory };

    fn from(_e: AllocFailed<T>) -> CertFault {
        CertFault::Memory
    }
}
