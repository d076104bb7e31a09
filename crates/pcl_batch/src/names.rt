//! The names of the jobs of a batch.

ghost use Rattle.std.specs.Prelude.{vec_len, IfOk, IfErr, IsOkAnd};
ghost use Rattle.pcl_batch.specs.Failing.{HasFailingStatus};
ghost use Rattle.pcl_batch.specs.inner.Reports.{AreAllDone};

use crate::batch::RunningBatch;
use crate::report::Totals;
use crate::rewriter::Rewriter;
use indexmap::IndexSet;
use pcl_base::INPUT_LIMIT;
use pcl_files::{JobFiles, Outlet, Surroundings};
use pcl_messages::Failure;
use pcl_request::Batch;
use pcl_streams::{Reporter, read_all};
use std::alloc::{AllocError, Global};
use std::io::{Read, Write};

/// How a job of a batch is named.
#[derive(Clone, Copy)]
pub(crate) enum Name<'w> {
    /// By the path of its file.
    Path(&'w str),
    /// By the line of this number, from 1, of a list: it isn't text, so no file can be opened by it.
    NoText(usize),
}

/// Runs a batch with the jobs of these files, or where none is named of those that a reader names, one on each line.
pub fn run_named<F: JobFiles, I: Read, W: Write, R: Rewriter, P: Reporter>(
    surroundings: Surroundings<'_, '_, '_, F, I, W, P>,
    batch: Batch<'_>,
    paths: &[&str],
    rewriter: R,
) -> Result<(), Failure>
    ensures { IfErr result HasFailingStatus }
{
    let Surroundings {
        files,
        reader,
        out,
        alloc,
        reporter,
    } = surroundings;
    let running = RunningBatch {
        files,
        alloc,
        asked: batch,
        rewriter,
        taken: IndexSet::new(alloc),
    };
    let outlet = Outlet {
        out,
        alloc,
        reporter,
    };
    if !paths.is_empty() {
        run_names(running, given(alloc, paths), outlet)?;
        return Ok(());
    }
    let list = read_all(alloc, reader, INPUT_LIMIT).map_err(|fault| Failure::of(alloc, &fault, 0))?;
    run_names(running, listed(alloc, &list), outlet)?;
    Ok(())
}

/// Runs a batch with jobs of these names, unless there was no memory for them, and gives its totals: all jobs were done, and none failed.
fn run_names<F: JobFiles, W: Write, R: Rewriter, P: Reporter>(
    running: RunningBatch<'_, '_, F, R>,
    names: Result<Vec<Name<'_>>, AllocError>,
    outlet: Outlet<'_, W, P>,
) -> Result<Totals, Failure>
    ensures done { IfOk result (λ totals. IsOkAnd names.entry (λ names. AreAllDone (vec_len names) totals)) }
    ensures failed { IfErr result HasFailingStatus }
{
    let names = names.map_err(|_| Failure::NoMemory)?;
    running.run(&names, outlet)
}

/// The names of these files.
fn given<'w>(alloc: Global, paths: &[&'w str]) -> Result<Vec<Name<'w>>, AllocError> {
    let mut names = Vec::new(alloc);
    for path in paths {
        names.push(Name::Path(path))?;
    }
    Ok(names)
}

/// The names on the lines of a list that aren't empty. A line ends in a line feed, and all that stands before that is the name.
fn listed<'w>(alloc: Global, list: &'w [u8]) -> Result<Vec<Name<'w>>, AllocError> {
    let mut names = Vec::new(alloc);
    for (place, line) in list.split(|byte| *byte == b'\n').enumerate() {
        if !line.is_empty() {
            names.push(match std::str::from_utf8(line) {
                Ok(path) => Name::Path(path),
                Err(_) => Name::NoText(place.saturating_add(1)),
            })?;
        }
    }
    Ok(names)
}
