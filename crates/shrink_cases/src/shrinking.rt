//! Jobs that are shrunk, for one resolution or for both.

use case_tables::{TableFault, resolution};
use pcl_base::{Dpi, JobFault, Profile};
use pcl_shrink::{Readers, Shrunk, Terms, shrink, shrink_everywhere};
use std::alloc::{AllocError, Global};

/// A resolution; `auto` is both, for which none stands.
pub fn resolutions(text: &str) -> Result<Option<Dpi>, TableFault> {
    match text {
        "auto" => Ok(None),
        _ => Ok(Some(resolution(text)?)),
    }
}

/// Shrinks a job by the drivers' profile, for a resolution, or for both where none is said.
pub fn shrunk_at(
    alloc: Global,
    job: &[u8],
    dpi: Option<Dpi>,
    readers: Readers,
) -> Result<Shrunk, JobFault> {
    let terms = Terms {
        profile: Profile::Drivers,
        readers,
    };
    match dpi {
        Some(dpi) => shrink(alloc, job, terms, dpi),
        None => shrink_everywhere(alloc, job, terms),
    }
}

/// Why there is no answer, in words.
pub fn words_of_fault(alloc: Global, fault: JobFault) -> Result<String, AllocError> {
    match fault {
        JobFault::Refused(refusal) => format!(in alloc; "refused at {}", refusal.at),
        JobFault::Memory => Err(AllocError),
    }
}
