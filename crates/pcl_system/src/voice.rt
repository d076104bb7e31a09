//! What is reported on standard error: how far a long run has come, and what there is to say of it.

use pcl_streams::{Reporter, Watcher};
use std::io::IsTerminal;
use std::time::Instant;

/// How many seconds a run takes before anything is reported of it.
const PATIENCE: u64 = 1;

/// Tells on standard error how many pages of a run are done, once it has taken a second.
#[derive(Clone, Copy)]
struct Progress<'a> {
    rt: &'a HostRuntime,
    /// When the run began.
    begun: Instant,
}

impl<'a> Progress<'a> {
    /// Of a run that begins now; none where standard error is no terminal, or no clock tells the time.
    fn new(rt: &'a HostRuntime) -> Option<Progress<'a>> {
        if !rt.stderr().is_terminal() {
            return None;
        }
        let begun = Instant::now(rt).ok()?;
        Some(Progress { rt, begun })
    }

    /// Whether the run has taken so long that it is reported.
    fn is_long(&self) -> bool {
        match self.begun.elapsed(self.rt) {
            Ok(taken) => taken.as_secs() >= PATIENCE,
            Err(_) => false,
        }
    }
}

impl Watcher for Progress<'_> {
    fn pages_done(&self, pages: u32) {
        if self.is_long() {
            let _ = eprint!(self.rt; "\rpclmin: pages done: {pages}");
        }
    }

    fn ended(&self) {
        if self.is_long() {
            let _ = self.rt.eprint("\r\x1b[K");
        }
    }
}

/// Tells on standard error how far a long run has come, on a terminal, and what there is to say of it.
#[derive(Clone, Copy)]
pub struct Voice<'a> {
    rt: &'a HostRuntime,
    progress: Option<Progress<'a>>,
}

impl<'a> Voice<'a> {
    /// Of a run that begins now.
    pub fn new(rt: &'a HostRuntime) -> Voice<'a> {
        let progress = Progress::new(rt);
        Voice { rt, progress }
    }
}

impl Progress<'_> {
    /// As many jobs of a batch are done, of as many.
    fn jobs_done(&self, done: usize, jobs: usize) {
        if self.is_long() {
            let _ = eprint!(self.rt; "\rpclmin: jobs done: {done} of {jobs}");
        }
    }

    /// This was done to as many pages of a job.
    fn pages_passed(&self, done: &str, pages: usize) {
        if self.is_long() {
            let _ = eprint!(self.rt; "\r\x1b[Kpclmin: {done}: {pages}");
        }
    }
}

impl Watcher for Voice<'_> {
    fn pages_done(&self, pages: u32) {
        self.progress.pages_done(pages);
    }

    fn ended(&self) {
        self.progress.ended();
    }
}

impl Reporter for Voice<'_> {
    fn report(&self, line: &[u8]) {
        if let Ok(text) = std::str::from_utf8(line) {
            let _ = self.rt.eprint(text);
        }
    }

    fn jobs_done(&self, done: usize, jobs: usize) {
        if let Some(progress) = &self.progress {
            progress.jobs_done(done, jobs);
        }
    }

    fn pages_passed(&self, done: &str, pages: usize) {
        if let Some(progress) = &self.progress {
            progress.pages_passed(done, pages);
        }
    }
}
