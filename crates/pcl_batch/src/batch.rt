//! A batch: its jobs, one after the other, the report, and how it ends.

ghost use Rattle.std.specs.Prelude.{◌≡◌, ◌+◌, ◌^◌, ◌<◌, length, IfOk, IfErr};
ghost use Rattle.pcl_batch.specs.inner.Reports.{AreAllDone, IsHonest};
ghost use Rattle.pcl_batch.specs.Failing.{HasFailingStatus};
ghost use Rattle.pcl_batch.specs.inner.Jobs.{IsHonestTally};

use crate::names::Name;
use crate::paths::Paths;
use crate::reasons::{Obstacle, Reason};
use crate::report::{ReportEntry, Totals, header};
use crate::rewriter::Rewriter;
use indexmap::IndexSet;
use pcl_files::{FileFault, JobFiles, Outlet};
use pcl_messages::Failure;
use pcl_request::{Batch, Destination, Rewriting};
use pcl_streams::{Fault, Reporter, write_all};
use std::alloc::{AllocError, Global};
use std::io::Write;

/// What came of the jobs so far, and the worst of their statuses.
#[derive(Clone, Copy)]
struct Tally {
    totals: Totals,
    status: u8,
}

impl Tally {
    /// Of no job.
    const NOTHING: Tally = Tally {
        totals: Totals::NONE,
        status: 0,
    };

    /// With one job more.
    fn with(self, entry: &ReportEntry<'_>) -> Tally
        ensures honest { IsHonestTally self → IsHonest entry.now → IsHonestTally result }
        ensures counted { self.totals.jobs + 1 < 2 ^ 64 → result.totals.jobs ≡ self.totals.jobs + 1 }
    {
        Tally {
            totals: self.totals.with(entry),
            status: self.status.max(entry.status),
        }
    }
}

/// A batch that is run: what all of its jobs share.
#[derive(Drop)]
pub(crate) struct RunningBatch<'f, 'b, F, R> {
    pub(crate) files: &'f mut F,
    pub(crate) alloc: Global,
    /// What is asked for.
    pub(crate) asked: Batch<'b>,
    pub(crate) rewriter: R,
    /// The names of what is written of the jobs so far.
    pub(crate) taken: IndexSet<String>,
}

impl<F: JobFiles, R: Rewriter> RunningBatch<'_, '_, F, R> {
    /// Writes jobs again, one after the other, and a report of them, and gives its totals: all jobs were done, and none failed. A job
    /// that fails stops none of those after it, and what an earlier batch did isn't done again. A failure has the worst of their
    /// statuses.
    pub(crate) fn run<W: Write, P: Reporter>(
        mut self,
        jobs: &[Name<'_>],
        outlet: Outlet<'_, W, P>,
    ) -> Result<Totals, Failure>
        ensures done { IfOk result (AreAllDone (length jobs.now)) }
        ensures failed { IfErr result HasFailingStatus }
    {
        let alloc = self.alloc;
        self.make_folder()
            .map_err(|why| Failure::of_file(alloc, why))?;
        let written = self.write_jobs(jobs, outlet);
        let tally = written.map_err(|fault| Failure::of(alloc, &fault, 0))?;
        ended(alloc, tally)
    }

    /// Makes the folder that jobs are written into.
    fn make_folder(&mut self) -> Result<(), FileFault> {
        match self.asked.place {
            Destination::Itself => Ok(()),
            Destination::Folder(folder) | Destination::Below(folder) => {
                self.files.make_folder(folder)
            }
        }
    }

    /// Writes the jobs, a line of the report after each, and the last one.
    fn write_jobs<W: Write, P: Reporter>(
        &mut self,
        jobs: &[Name<'_>],
        outlet: Outlet<'_, W, P>,
    ) -> Result<Tally, Fault>
        ensures honest { IfOk result IsHonestTally }
        ensures counted { IfOk result (λ tally. tally.totals.jobs ≡ length jobs.now) }
    {
        let Outlet {
            out,
            alloc,
            reporter,
        } = outlet;
        let layout = self.asked.layout;
        let mut tally = Tally::NOTHING;
        write_all(out, header(layout).as_bytes())?;
        for job in jobs {
            let entry = self.entry_of(*job)?;
            write_all(out, &entry.line(alloc, layout)?)?;
            tally = tally.with(&entry);
            reporter.jobs_done(tally.totals.jobs, jobs.len());
        }
        reporter.ended();
        write_all(out, &tally.totals.line(alloc, layout)?)?;
        Ok(tally)
    }

    /// Writes a job, unless its name is no text.
    fn entry_of<'w>(&mut self, job: Name<'w>) -> Result<ReportEntry<'w>, AllocError>
        ensures { IfOk result IsHonest }
    {
        match job {
            Name::Path(path) => self.entry_of_file(path),
            Name::NoText(line) => {
                let Reason { status, said } = Reason::of_no_text(self.alloc, line)?;
                Ok(ReportEntry::failed(None, status, said))
            }
        }
    }

    /// Writes the job of a file, unless it has no place, or one before it has a name that it needs.
    fn entry_of_file<'w>(&mut self, path: &'w str) -> Result<ReportEntry<'w>, AllocError>
        ensures { IfOk result IsHonest }
    {
        let obstacle = match Paths::new(self.alloc, self.asked.place, path)? {
            Some(paths) if self.take_names(&paths)? => return self.write_job(path, &paths),
            Some(_) => Obstacle::Taken,
            None => Obstacle::LeadsOut,
        };
        let Reason { status, said } = Reason::of(self.alloc, obstacle)?;
        Ok(ReportEntry::failed(Some(path), status, said))
    }

    /// Notes the names of what is written of a job, and says whether no job before it had one of them.
    fn take_names(&mut self, paths: &Paths) -> Result<bool, AllocError> {
        let has_job = self.take_name(&paths.job)?;
        let has_sums = self.take_name(&paths.sums)?;
        let has_certificate = match self.asked.rewriting {
            Rewriting::Shrink(_) | Rewriting::ShrinkEverywhere(_) => true,
            Rewriting::Certify => self.take_name(&paths.certificate)?,
        };
        Ok(has_job && has_sums && has_certificate)
    }

    /// Notes a name, and says whether it is new.
    fn take_name(&mut self, name: &String) -> Result<bool, AllocError> {
        match self
            .taken
            .insert(String::from_str(self.alloc, name.as_str())?)
        {
            Ok(is_new) => Ok(is_new),
            Err(_) => Err(AllocError),
        }
    }
}

/// The end of a batch: its totals, where no job failed.
fn ended(alloc: Global, tally: Tally) -> Result<Totals, Failure>
    ensures totals { IfOk result (λ totals. totals ≡ tally.totals) }
    ensures done { IfOk result (λ _. tally.status ≡ 0) }
    ensures failed { IfErr result HasFailingStatus }
{
    let Tally { totals, status } = tally;
    if status == 0 {
        return Ok(totals);
    }
    Err(Failure::of_jobs(alloc, totals.failed, totals.jobs, status))
}
