//! Reporters: what there is to say of a run, and how far it has come.

use crate::watching::Watcher;

/// Reports what there is to say of a run besides what it writes, and how far it has come. No contract speaks of what it does
/// then.
pub trait Reporter: Watcher {
    /// Reports a line, with its line feed.
    fn report(&self, line: &[u8]);

    /// Reports how many jobs are done, of how many.
    fn jobs_done(&self, done: usize, jobs: usize);

    /// Reports what a pass over the pages of a job does, as `pages read`, and to how many of them it was done.
    fn pages_passed(&self, done: &str, pages: usize);
}

/// Where there is no reporter, nothing is reported.
impl<P: Reporter> Reporter for Option<P> {
    fn report(&self, line: &[u8]) {
        if let Some(reporter) = self {
            reporter.report(line);
        }
    }

    fn jobs_done(&self, done: usize, jobs: usize) {
        if let Some(reporter) = self {
            reporter.jobs_done(done, jobs);
        }
    }

    fn pages_passed(&self, done: &str, pages: usize) {
        if let Some(reporter) = self {
            reporter.pages_passed(done, pages);
        }
    }
}
