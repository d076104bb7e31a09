//! The jobs of a batch.

use pcl_base::Dpi;
use pcl_batch::Rewriter;
use pcl_command::rewrite;
use pcl_messages::Failure;
use pcl_request::{Rewriting, Rewritten};
use std::alloc::Global;

/// Writes each job of a batch again as the program does.
#[derive(Clone, Copy)]
pub(crate) struct Filter;

impl Rewriter for Filter {
    fn rewrite(
        self,
        alloc: Global,
        job: &[u8],
        dpi: Dpi,
        rewriting: Rewriting,
    ) -> Result<Rewritten, Failure> {
        rewrite(alloc, job, dpi, rewriting)
    }
}
