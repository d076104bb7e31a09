//! A job of a batch.

ghost use Rattle.pcl_command.specs.Rewriting.{IsRewritten, IsShrunkAgain};

use crate::profiles::{shrink_everywhere_under, shrink_under};
use pcl_base::{Dpi, JobFault};
use pcl_cert::Format;
use pcl_messages::Failure;
use pcl_request::{Rewriting, Rewritten};
use pcl_shrink::{NoWatcher, Shrunk};
use pcl_streams::Fault;
use pcl_tool::minimize;
use std::alloc::Global;

/// Writes a job again as the smallest that is found, or as the least raster job with its certificate.
pub fn rewrite(
    alloc: Global,
    job: &[u8],
    dpi: Dpi,
    rewriting: Rewriting,
) -> Result<Rewritten, Failure>
    ensures { IsRewritten rewriting dpi job.now result }
{
    match rewriting {
        Rewriting::Shrink(how) => {
            let shrunk = shrink_under(alloc, job, how, dpi, NoWatcher);
            shrunk_again(alloc, shrunk)
        }
        Rewriting::ShrinkEverywhere(how) => {
            let shrunk = shrink_everywhere_under(alloc, job, how, NoWatcher);
            shrunk_again(alloc, shrunk)
        }
        Rewriting::Certify => match minimize(alloc, job, dpi, Format::One) {
            Ok(output) => Ok(Rewritten {
                job: output.job,
                certificate: Some(output.certificate),
            }),
            Err(fault) => Err(Failure::of(alloc, &fault, 0)),
        },
    }
}

/// A job that was shrunk, or why it wasn't.
fn shrunk_again(alloc: Global, shrunk: Result<Shrunk, JobFault>) -> Result<Rewritten, Failure>
    ensures { IsShrunkAgain shrunk result }
{
    match shrunk {
        Ok(shrunk) => Ok(Rewritten {
            job: shrunk.job,
            certificate: None,
        }),
        Err(fault) => Err(Failure::of(alloc, &Fault::from(fault), 0)),
    }
}
