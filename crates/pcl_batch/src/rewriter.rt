//! Who writes the jobs of a batch again.

use pcl_base::Dpi;
use pcl_messages::Failure;
use pcl_request::{Rewriting, Rewritten};
use std::alloc::Global;

/// Writes jobs again. A batch works over whatever does so.
pub trait Rewriter: Copy {
    ghost use Rattle.std.specs.Prelude.{IfErr};
    ghost use Rattle.pcl_batch.specs.Failing.{HasFailingStatus};

    /// Writes a job again, as it is seen at a resolution. The status of a failure isn't 0.
    fn rewrite(
        self,
        alloc: Global,
        job: &[u8],
        dpi: Dpi,
        rewriting: Rewriting,
    ) -> Result<Rewritten, Failure>
        ensures { IfErr result HasFailingStatus };
}
