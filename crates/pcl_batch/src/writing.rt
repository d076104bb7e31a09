//! A job of a batch that is written again.

ghost use Rattle.std.specs.Prelude.{IfOk};
ghost use Rattle.pcl_batch.specs.Failing.{HasFailingStatus};
ghost use Rattle.pcl_batch.specs.inner.Jobs.{FailsByReason};

use crate::batch::RunningBatch;
use crate::job::{Came, Found, Job};
use crate::reasons::{Obstacle, Reason};
use crate::report::Outcome;
use crate::rewriter::Rewriter;
use crate::sums::WrittenSums;
use pcl_files::{FileFault, JobFiles};
use pcl_messages::Failure;
use pcl_request::Rewritten;
use pcl_streams::{Fault, write_all};
use std::alloc::{AllocError, Global};

impl<F: JobFiles, R: Rewriter> RunningBatch<'_, '_, F, R> {
    /// Writes a job again. Where it isn't, and an earlier batch wrote it, that is said.
    pub(crate) fn write_again(&mut self, job: Job<'_>, is_earlier: bool) -> Result<Came, AllocError>
        ensures { IfOk result FailsByReason }
    {
        let (alloc, rewriting) = (self.alloc, self.asked.rewriting);
        match self.rewriter.rewrite(alloc, job.bytes, job.dpi, rewriting) {
            Ok(again) => self.write_all_of(job, &again),
            Err(failure) => unwritten(alloc, &failure, is_earlier),
        }
    }

    /// Writes what was written again, and its digests.
    fn write_all_of(&mut self, job: Job<'_>, again: &Rewritten) -> Result<Came, AllocError>
        ensures { IfOk result FailsByReason }
    {
        let alloc = self.alloc;
        let written = WrittenSums::of(alloc, again)?;
        let sums = written.text(alloc, job.how, job.input, job.name())?;
        match self.write_files(job, again, sums.as_bytes()) {
            Ok(()) => Ok(Came::Done {
                outcome: Outcome::Written,
                output: written.job,
            }),
            Err(Hindrance::Taken) => Ok(Came::Failed(Reason::of(alloc, Obstacle::ForeignSums)?)),
            Err(Hindrance::File(why)) => Ok(Came::Failed(Reason::of_file(alloc, why)?)),
            Err(Hindrance::Fault(fault)) => Ok(Came::Failed(Reason::of_fault(alloc, &fault)?)),
        }
    }

    /// Writes the files of a job, all or none: its digests, the job, and its certificate where there is one.
    fn write_files(
        &mut self,
        job: Job<'_>,
        again: &Rewritten,
        sums: &[u8],
    ) -> Result<(), Hindrance> {
        if let Some(folder) = &job.paths.folder {
            self.files.make_folder(folder.as_str())?;
        }
        let mut begun = self.begin_files(job, again.certificate.is_some())?;
        match self.write_begun(job, again, sums, &mut begun) {
            Ok(()) => Ok(self.place_files(job, begun)?),
            Err(why) => {
                self.discard_files(job, begun);
                Err(why)
            }
        }
    }

    /// Begins the files of a job. The job itself has to be what it was before it was read, where it is written over.
    fn begin_files(
        &mut self,
        job: Job<'_>,
        is_certified: bool,
    ) -> Result<BegunFiles<F::Writer>, FileFault> {
        let paths = job.paths;
        let sums = self.files.begin(paths.sums.as_str())?;
        let written = match job.seen {
            Some(seen) if self.replaces_jobs() => {
                self.files.begin_over(paths.job.as_str(), Some(seen))
            }
            _ => self.files.begin(paths.job.as_str()),
        };
        let written = match written {
            Ok(written) => written,
            Err(why) => {
                self.files.discard(paths.sums.as_str(), sums);
                return Err(why);
            }
        };
        let certificate = match is_certified {
            true => self
                .files
                .begin(paths.certificate.as_str())
                .map(|file| Some(file)),
            false => Ok(None),
        };
        match certificate {
            Ok(certificate) => Ok(BegunFiles {
                sums,
                written,
                certificate,
            }),
            Err(why) => {
                self.files.discard(paths.sums.as_str(), sums);
                self.files.discard(paths.job.as_str(), written);
                Err(why)
            }
        }
    }

    /// Writes the files of a job that were begun, unless another batch has taken its place since it was looked at: from where they are
    /// begun on, what changes there is seen when they take their places.
    fn write_begun(
        &mut self,
        job: Job<'_>,
        again: &Rewritten,
        sums: &[u8],
        begun: &mut BegunFiles<F::Writer>,
    ) -> Result<(), Hindrance> {
        if let Found::Obstacle(_) = self.find(job)? {
            return Err(Hindrance::Taken);
        }
        write_all(&mut begun.sums, sums)?;
        write_all(&mut begun.written, &again.job)?;
        if let (Some(file), Some(bytes)) = (&mut begun.certificate, &again.certificate) {
            write_all(file, bytes)?;
        }
        Ok(())
    }

    /// Puts the files of a job in their places, its digests first: where a batch is killed between them, the next one knows whose place
    /// it is.
    fn place_files(&mut self, job: Job<'_>, begun: BegunFiles<F::Writer>) -> Result<(), FileFault> {
        let BegunFiles {
            sums,
            written,
            certificate,
        } = begun;
        let names = job.paths;
        let (sums_name, name) = (names.sums.as_str(), names.job.as_str());
        match certificate {
            Some(certificate) => self.files.place_three(
                sums_name,
                sums,
                names.certificate.as_str(),
                certificate,
                name,
                written,
            ),
            None => self.files.place_both(sums_name, sums, name, written),
        }
    }

    /// Drops the files of a job that were begun.
    fn discard_files(&mut self, job: Job<'_>, begun: BegunFiles<F::Writer>) {
        let BegunFiles {
            sums,
            written,
            certificate,
        } = begun;
        self.files.discard(job.paths.sums.as_str(), sums);
        self.files.discard(job.paths.job.as_str(), written);
        if let Some(certificate) = certificate {
            self.files
                .discard(job.paths.certificate.as_str(), certificate);
        }
    }
}

/// The files of a job that were begun.
#[derive(Drop)]
struct BegunFiles<W> {
    sums: W,
    written: W,
    certificate: Option<W>,
}

/// Why the files of a job aren't written.
#[derive(Clone, Copy)]
enum Hindrance {
    /// Another batch has taken the place meanwhile.
    Taken,
    /// A file can't be begun, or put in its place.
    File(FileFault),
    /// Writing failed, or memory ran out.
    Fault(Fault),
}

impl From<FileFault> for Hindrance {
    fn from(why: FileFault) -> Hindrance {
        Hindrance::File(why)
    }
}

impl From<Fault> for Hindrance {
    fn from(fault: Fault) -> Hindrance {
        Hindrance::Fault(fault)
    }
}

impl From<AllocError> for Hindrance {
    fn from(_e: AllocError) -> Hindrance {
        Hindrance::Fault(Fault::Memory)
    }
}

/// What came of a job that can't be written again.
fn unwritten(alloc: Global, failure: &Failure, is_earlier: bool) -> Result<Came, AllocError>
    ensures { IfOk result (λ came. HasFailingStatus failure.now → FailsByReason came) }
{
    let reason = Reason::of_failure(alloc, failure)?;
    if is_earlier {
        Ok(Came::Failed(reason.beside_earlier()?))
    } else {
        Ok(Came::Failed(reason))
    }
}
