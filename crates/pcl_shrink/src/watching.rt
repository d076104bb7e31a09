//! Watchers: how far shrinking a job has come.

/// What is done with the pages of a job that is shrunk, one pass after the other.
#[derive(Clone, Copy, Debug, PartialEq, Eq)]
pub enum Pass {
    /// They are painted at 600 dots per inch, where that counts beside 300.
    Paint,
    /// They are painted and written as rasters, and their letters are collected.
    Read,
    /// They are written with letters.
    Write,
    /// They are compared with those of what was written.
    Compare,
}

/// Is called with how far shrinking a job has come. No contract speaks of what it does then, and nothing that it does changes what is
/// answered.
pub trait ShrinkWatcher: Copy {
    /// Is called with how many pages a pass has done, or, before the comparison, with how many it has to do.
    fn pages_passed(&self, pass: Pass, pages: usize);
}

/// Is called, and does nothing.
#[derive(Clone, Copy, Debug)]
pub struct NoWatcher;

impl ShrinkWatcher for NoWatcher {
    fn pages_passed(&self, _pass: Pass, _pages: usize) {}
}
