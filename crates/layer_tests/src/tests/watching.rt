//! What a watcher hears where a sink takes the pages of a job, or only the first of them.

use super::assert_gives;
use pcl_base::{Dpi, JobFault};
use pcl_page::{Page, PageSink};
use pcl_tool::{Watcher, perform_watched};
use std::alloc::{AllocError, Global};
use std::cell::Cell;
use std::process::Abort;

/// A job of three pages.
const JOB: &[u8] = b"\x0c\x0c\x0c";

/// Takes this many pages. At the next one memory runs out.
#[derive(Drop)]
struct Room(u32);

impl PageSink for Room {
    ghost takes = { λ old page new. Unit {0} };

    fn page(&mut self, _page: &Page) -> Result<(), AllocError> {
        self.0 = self.0.checked_sub(1).ok_or(AllocError)?;
        Ok(())
    }
}

/// Keeps what it hears.
#[derive(Drop)]
struct Reports {
    /// The number of pages that was reported last.
    pages: Cell<u32>,
    /// How often pages were reported.
    times: Cell<u32>,
    /// How often the end was.
    ends: Cell<u32>,
}

impl Watcher for &Reports {
    fn pages_done(&self, pages: u32) {
        self.pages.set(pages);
        self.times.set(self.times.get().saturating_add(1));
    }

    fn ended(&self) {
        self.ends.set(self.ends.get().saturating_add(1));
    }
}

/// Asserts what comes of a run where this many pages are taken, and that the watcher is called for each of these, and at
/// the end.
fn assert_reported(rt: &impl Abort, alloc: Global, taken: u32, wanted: Option<JobFault>) {
    let reports = Reports {
        pages: Cell::new(0),
        times: Cell::new(0),
        ends: Cell::new(0),
    };
    let fault = perform_watched(alloc, JOB, Dpi::Dpi300, Room(taken), &reports).err();
    assert_gives(
        rt,
        &taken,
        &(
            fault,
            reports.pages.get(),
            reports.times.get(),
            reports.ends.get(),
        ),
        &(wanted, taken, taken, 1),
    );
}

// A watcher doesn't hear of a page that the sink didn't take.
#[test]
fn pages_that_were_taken_are_reported(rt: HostRuntime) {
    for taken in 0..3 {
        assert_reported(&rt, rt.alloc(), taken, Some(JobFault::Memory));
    }
    assert_reported(&rt, rt.alloc(), 3, None);
}
