//! Watchers: how far a run has come.

ghost use Rattle.pcl_streams.specs.Watching.{HasTaken};

use pcl_base::{Dpi, JobFault};
use pcl_page::{Page, PageSink, perform};
use std::alloc::{AllocError, Global};
use std::marker::Model;

/// Is called with how far a run has come. No contract of a run speaks of what it does then, and nothing that it does changes
/// what the run answers.
pub trait Watcher: Copy {
    /// Is called with how many pages are done.
    fn pages_done(&self, pages: u32);

    /// Is called where no page comes any more. The job has ended or has failed.
    fn ended(&self);
}

/// Is called, and does nothing.
#[derive(Clone, Copy, Debug)]
pub struct Unwatched;

impl Watcher for Unwatched {
    fn pages_done(&self, _pages: u32) {}

    fn ended(&self) {}
}

/// Where there is no watcher, nothing is called.
impl<P: Watcher> Watcher for Option<P> {
    fn pages_done(&self, pages: u32) {
        if let Some(watcher) = self {
            watcher.pages_done(pages);
        }
    }

    fn ended(&self) {
        if let Some(watcher) = self {
            watcher.ended();
        }
    }
}

/// Performs a job and hands its pages to a sink, which is given back. The watcher is called for each page that the sink took, and
/// at the end. A refusal is the job's.
pub fn perform_watched<S: PageSink + Drop, P: Watcher>(
    alloc: Global,
    job: &[u8],
    dpi: Dpi,
    sink: S,
    watcher: P,
) -> Result<S, JobFault>
    ensures { HasTaken S.takes dpi job.now sink result }
{
    let mut watched = Watched {
        sink,
        watcher,
        pages: 0,
    };
    let performed = perform(alloc, job, dpi, &mut watched);
    watcher.ended();
    performed?;
    Ok(watched.sink)
}

/// A sink, and the watcher of the pages that it took. It is taken for the sink: its model is the sink's, so what is said of a sink
/// that takes a job's pages is said of the one inside. The sink is held by value, since the checker doesn't follow a reference in
/// a struct that is lent.
#[derive(Drop)]
struct Watched<S, P> {
    sink: S,
    watcher: P,
    /// How many pages the sink took.
    pages: u32,
}

impl<S, P> Model for Watched<S, P> {
    ghost Value = { S };

    ghost view = { λ a. a.sink };
}

impl<S: PageSink, P: Watcher> PageSink for Watched<S, P> {
    ghost takes = { S.takes };

    fn page(&mut self, page: &Page) -> Result<(), AllocError> {
        self.sink.page(page)?;
        self.pages = self.pages.saturating_add(1);
        self.watcher.pages_done(self.pages);
        Ok(())
    }
}
