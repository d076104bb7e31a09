//! Jobs shrunk, with how far that has come reported.

ghost use Rattle.pcl_command.specs.Profiles.{IsShrunkUnder, IsShrunkEverywhereUnder};

use crate::profiles::{shrink_everywhere_under, shrink_under};
use pcl_base::{Dpi, JobFault};
use pcl_messages::pass_name;
use pcl_request::Shrinking;
use pcl_shrink::{Pass, ShrinkWatcher, Shrunk};
use pcl_streams::Reporter;
use std::alloc::Global;

/// Reports how far each pass over the pages of a job has come.
#[derive(Clone, Copy)]
struct Passes<P>(P);

impl<P: Reporter> ShrinkWatcher for Passes<P> {
    fn pages_passed(&self, pass: Pass, pages: usize) {
        self.0.pages_passed(pass_name(pass), pages);
    }
}

/// Shrinks a job at a resolution, and reports how far that has come.
pub fn shrink_reported<P: Reporter>(
    alloc: Global,
    job: &[u8],
    how: Shrinking,
    dpi: Dpi,
    reporter: P,
) -> Result<Shrunk, JobFault>
    ensures { IsShrunkUnder how.readers how.profiles dpi job.now result }
{
    let shrunk = shrink_under(alloc, job, how, dpi, Passes(reporter));
    reporter.ended();
    shrunk
}

/// The same at each resolution at which the job is accepted.
pub fn shrink_everywhere_reported<P: Reporter>(
    alloc: Global,
    job: &[u8],
    how: Shrinking,
    reporter: P,
) -> Result<Shrunk, JobFault>
    ensures { IsShrunkEverywhereUnder how.readers how.profiles job.now result }
{
    let shrunk = shrink_everywhere_under(alloc, job, how, Passes(reporter));
    reporter.ended();
    shrunk
}
