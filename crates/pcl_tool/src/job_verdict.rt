//! What the checker of a job answers.

use pcl_cert::{CertFault, Verdict};

/// What the checker of a job answers, by the first test that fails.
#[derive(Clone, Copy, Debug, PartialEq, Eq)]
pub enum JobVerdict {
    /// The certificate's bytes are none.
    Certificate(CertFault),
    /// The certificate speaks of more pages than the input has, or of fewer.
    PageCount,
    /// The output isn't a reset, as many bytes as the certificate's text lengths come to, and a reset.
    Frame,
    /// The first page that isn't proved, counted from 1, and what is wrong with it.
    Page { page: usize, verdict: Verdict },
    /// The output prints the pages of the input, and no job text that does is shorter.
    Proved,
}

/// The verdict on a written job beside its input, or beside images of its pages.
#[derive(Clone, Copy, Debug, PartialEq, Eq)]
pub enum CheckAnswer {
    /// The images of the pages that it prints are others than those that are given.
    OtherImages,
    /// No images are given or they are the same, and the checker answers this.
    Job(JobVerdict),
}
