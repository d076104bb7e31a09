//! What `pclmin` is asked for: runs, checks, comparisons and batches; and the resolution at which jobs are seen.
#![tactic(auto)]

mod batch;
mod profiles;
mod request;
mod resolutions;

pub use batch::{Batch, Destination, Rewriting, Rewritten};
pub use profiles::{Profiles, Shrinking};
pub use request::{
    Beside, Certificate, CheckedFiles, ComparedFiles, Layout, Request, Resolution, Run, Source,
    Target, Task, Work, resolution_named,
};
pub use resolutions::{are_accepted, resolve, resolve_both};
