//! Jobs shrunk as that is asked for.

ghost use Rattle.pcl_command.specs.Profiles.{IsShrunkUnder, IsShrunkEverywhereUnder};

use pcl_base::{Dpi, JobFault};
use pcl_request::{Profiles, Shrinking};
use pcl_shrink::{
    ShrinkWatcher, Shrunk, Terms, shrink_by, shrink_everywhere_by, shrink_everywhere_watched,
    shrink_watched,
};
use std::alloc::Global;

/// Shrinks a job at a resolution. The watcher is called for each page that a pass has done.
pub fn shrink_under<P: ShrinkWatcher>(
    alloc: Global,
    job: &[u8],
    how: Shrinking,
    dpi: Dpi,
    watcher: P,
) -> Result<Shrunk, JobFault>
    ensures { IsShrunkUnder how.readers how.profiles dpi job.now result }
{
    let Shrinking { profiles, readers } = how;
    let terms = Terms {
        profile: profiles.widest(),
        readers,
    };
    match profiles {
        Profiles::Stated | Profiles::Either => shrink_watched(alloc, job, terms, dpi, watcher),
        Profiles::Drivers => shrink_by(alloc, job, terms, dpi, watcher),
    }
}

/// The same at each resolution at which the job is accepted.
pub fn shrink_everywhere_under<P: ShrinkWatcher>(
    alloc: Global,
    job: &[u8],
    how: Shrinking,
    watcher: P,
) -> Result<Shrunk, JobFault>
    ensures { IsShrunkEverywhereUnder how.readers how.profiles job.now result }
{
    let Shrinking { profiles, readers } = how;
    let terms = Terms {
        profile: profiles.widest(),
        readers,
    };
    match profiles {
        Profiles::Stated | Profiles::Either => {
            shrink_everywhere_watched(alloc, job, terms, watcher)
        }
        Profiles::Drivers => shrink_everywhere_by(alloc, job, terms, watcher),
    }
}
