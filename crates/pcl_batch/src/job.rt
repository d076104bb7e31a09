//! One job of a batch: what it is, what lies in its place, and what is to be done.

ghost use Rattle.std.specs.Prelude.{◌≡◌, ◌≢◌, IfOk};
ghost use Rattle.std.specs.Result.{result_ok};
ghost use Rattle.pcl_batch.specs.inner.Reports.{IsHonest};
ghost use Rattle.pcl_batch.specs.inner.Jobs.{FailsByReason, FollowsCount, IsFailing, ReportsOutcome};

use crate::batch::RunningBatch;
use crate::paths::{Paths, file_name};
use crate::reasons::{Obstacle, Reason};
use crate::report::{Outcome, ReportEntry};
use crate::rewriter::Rewriter;
use crate::sums::{FileSum, SUMS_LIMIT, Sums, WrittenSums};
use pcl_base::{Dpi, INPUT_LIMIT, JobFault};
use pcl_files::{FileKind, FileState, JobFiles, read_file, read_plain};
use pcl_page::page_count;
use pcl_printers::Readers;
use pcl_request::{Batch, Destination, Profiles, Rewriting, resolve};
use pcl_streams::Fault;
use std::alloc::{AllocError, Global};

impl<F: JobFiles, R: Rewriter> RunningBatch<'_, '_, F, R> {
    /// Writes the job of a file again to these paths, unless an earlier batch did, and says what came of it. It fails where there is no
    /// memory to say so.
    pub(crate) fn write_job<'w>(
        &mut self,
        file: &'w str,
        paths: &Paths,
    ) -> Result<ReportEntry<'w>, AllocError>
        ensures { IfOk result IsHonest }
    {
        if let Some(obstacle) = self.obstacle_of(file, paths) {
            return Ok(unseen(file, Reason::of(self.alloc, obstacle)?));
        }
        let seen = self.files.state_of(file);
        match read_file(self.files, self.alloc, file) {
            Ok(bytes) => self.write_bytes(file, paths, &bytes, seen),
            Err(fault) => Ok(unseen(file, Reason::of_fault(self.alloc, &fault)?)),
        }
    }

    /// Why the job of a file isn't read: it is none, or what is written would take its place.
    fn obstacle_of(&self, file: &str, paths: &Paths) -> Option<Obstacle> {
        if self.has_no_file(file) {
            return Some(Obstacle::NoFile);
        }
        let is_written = [&paths.job, &paths.certificate, &paths.sums]
            .iter()
            .any(|path| self.files.are_one(file, path.as_str()));
        match self.asked.place {
            Destination::Folder(_) | Destination::Below(_) if is_written => Some(Obstacle::Itself),
            _ => None,
        }
    }

    /// Writes a job of these bytes again, whose file was so before they were read, unless an earlier batch did.
    fn write_bytes<'w>(
        &mut self,
        file: &'w str,
        paths: &Paths,
        bytes: &[u8],
        seen: Option<FileState>,
    ) -> Result<ReportEntry<'w>, AllocError>
        ensures { IfOk result IsHonest }
    {
        let (alloc, asked) = (self.alloc, self.asked);
        let profile = asked.rewriting.profile();
        let dpi = resolve(alloc, asked.resolution, profile, bytes)?;
        let input = FileSum::of(alloc, bytes)?;
        let how = how_of(alloc, asked, dpi)?;
        let job = Job {
            paths,
            bytes,
            seen,
            dpi,
            how: how.as_str(),
            input: input.sha256.as_str(),
        };
        let counted = page_count(alloc, bytes, profile, dpi);
        let came = self.write_counted(job, counted)?;
        Ok(came.entry(file, dpi, counted, input))
    }

    /// Writes a job that was read, by what counting its pages gave: where memory ran out for that, it fails for it and nothing is
    /// written.
    fn write_counted(
        &mut self,
        job: Job<'_>,
        counted: Result<usize, JobFault>,
    ) -> Result<Came, AllocError>
        ensures reason { IfOk result FailsByReason }
        ensures count { IfOk result (FollowsCount counted) }
    {
        let alloc = self.alloc;
        match counted {
            // that a job is refused is said of it when it is written again
            Ok(_) | Err(JobFault::Refused(_)) => self.write_seen(job),
            Err(JobFault::Memory) => Ok(Came::Failed(Reason::of_fault(alloc, &Fault::Memory)?)),
        }
    }

    /// Writes a job that was read, unless an earlier batch did.
    fn write_seen(&mut self, job: Job<'_>) -> Result<Came, AllocError>
        ensures { IfOk result FailsByReason }
    {
        match self.find(job)? {
            Found::Nothing => self.write_again(job, false),
            Found::Earlier => self.write_again(job, true),
            Found::Done(output) => Ok(Came::Done {
                outcome: Outcome::Kept,
                output,
            }),
            Found::Obstacle(obstacle) => Ok(Came::Failed(Reason::of(self.alloc, obstacle)?)),
        }
    }

    /// What lies in the place of a job, by its digests and by what is there.
    pub(crate) fn find(&self, job: Job<'_>) -> Result<Found, AllocError> {
        if self.has_no_file(job.paths.job.as_str()) {
            return Ok(Found::Obstacle(Obstacle::Foreign));
        }
        if self.has_no_file(job.paths.certificate.as_str()) {
            return Ok(Found::Obstacle(Obstacle::ForeignCertificate));
        }
        if self.files.kind_of(job.paths.sums.as_str()).is_none() {
            return Ok(self.found_alone(job));
        }
        match read_plain(self.files, self.alloc, job.paths.sums.as_str(), SUMS_LIMIT) {
            Ok(bytes) => self.found_beside(job, &bytes),
            Err(_) => Ok(Found::Obstacle(Obstacle::ForeignSums)),
        }
    }

    /// Whether a name leads to something that is no file: a pipe may give nothing for ever, and takes nothing.
    fn has_no_file(&self, name: &str) -> bool {
        matches!(
            self.files.kind_of(name),
            Some(FileKind::Folder | FileKind::Special)
        )
    }

    /// What lies there where no digests do.
    fn found_alone(&self, job: Job<'_>) -> Found {
        if !self.replaces_jobs() && self.files.kind_of(job.paths.job.as_str()).is_some() {
            Found::Obstacle(Obstacle::Foreign)
        } else if self.has_foreign_certificate(job, false) {
            Found::Obstacle(Obstacle::ForeignCertificate)
        } else {
            Found::Nothing
        }
    }

    /// What lies there beside the bytes of a file of digests.
    fn found_beside(&self, job: Job<'_>, bytes: &[u8]) -> Result<Found, AllocError> {
        match Sums::parse(self.alloc, bytes, job.name())? {
            Some(sums) if !self.are_of(sums, job) => Ok(Found::Obstacle(Obstacle::ForeignSums)),
            Some(sums) if self.has_foreign_certificate(job, sums.has_certificate()) => {
                Ok(Found::Obstacle(Obstacle::ForeignCertificate))
            }
            Some(sums) => self.found_earlier(job, sums, bytes),
            None => Ok(Found::Obstacle(Obstacle::ForeignSums)),
        }
    }

    /// Whether digests are of a job: those that lie beside a job that is replaced are, whatever it was before.
    fn are_of(&self, sums: Sums<'_>, job: Job<'_>) -> bool {
        self.replaces_jobs() || sums.input == job.input
    }

    /// Whether each job is written over its own file.
    pub(crate) fn replaces_jobs(&self) -> bool {
        matches!(self.asked.place, Destination::Itself)
    }

    /// Whether a certificate would be written where another file is, or be left beside a job that it isn't of. Digests may name one.
    fn has_foreign_certificate(&self, job: Job<'_>, is_named: bool) -> bool {
        let is_there = self.files.kind_of(job.paths.certificate.as_str()).is_some();
        match self.asked.rewriting {
            Rewriting::Shrink(_) | Rewriting::ShrinkEverywhere(_) => is_there && is_named,
            Rewriting::Certify => is_there && !is_named,
        }
    }

    /// What an earlier batch wrote of a job: what its digests say, or something else.
    fn found_earlier(
        &self,
        job: Job<'_>,
        sums: Sums<'_>,
        bytes: &[u8],
    ) -> Result<Found, AllocError> {
        let Some(output) = self.sum_of(job.paths.job.as_str())? else {
            return Ok(Found::Earlier);
        };
        let certificate = match self.asked.rewriting {
            Rewriting::Shrink(_) | Rewriting::ShrinkEverywhere(_) => None,
            Rewriting::Certify => self.sum_of(job.paths.certificate.as_str())?,
        };
        let there = WrittenSums {
            job: output,
            certificate,
        };
        let wanted = there.text(self.alloc, job.how, sums.input, job.name())?;
        if wanted.as_bytes() == bytes {
            Ok(Found::Done(there.job))
        } else {
            Ok(Found::Earlier)
        }
    }

    /// The digest of a plain file; none where it can't be read.
    fn sum_of(&self, name: &str) -> Result<Option<FileSum>, AllocError> {
        match read_plain(self.files, self.alloc, name, INPUT_LIMIT) {
            Ok(bytes) => Ok(Some(FileSum::of(self.alloc, &bytes)?)),
            Err(_) => Ok(None),
        }
    }
}

/// A job that was read.
#[derive(Clone, Copy)]
pub(crate) struct Job<'w> {
    pub(crate) paths: &'w Paths,
    pub(crate) bytes: &'w [u8],
    /// The state of its file before it was read.
    pub(crate) seen: Option<FileState>,
    pub(crate) dpi: Dpi,
    /// The version, the command and the resolution, as digests name them.
    pub(crate) how: &'w str,
    /// The digest of the bytes.
    pub(crate) input: &'w str,
}

impl<'w> Job<'w> {
    /// The name of its file.
    pub(crate) fn name(self) -> &'w str {
        file_name(self.paths.job.as_str())
    }
}

/// What lies in the place of a job.
#[derive(Drop)]
pub(crate) enum Found {
    Nothing,
    /// What an earlier batch wrote of it, or began to, in another way.
    Earlier,
    /// What an earlier batch wrote of it in this way, with this digest.
    Done(FileSum),
    Obstacle(Obstacle),
}

/// What is reported of a job of which nothing is known.
fn unseen<'w>(file: &'w str, reason: Reason) -> ReportEntry<'w>
    ensures { IsFailing reason → IsHonest result }
{
    ReportEntry::failed(Some(file), reason.status, reason.said)
}

/// What came of a job that was read.
#[derive(Drop)]
pub(crate) enum Came {
    /// It lies there as a file of this digest.
    Done { outcome: Outcome, output: FileSum },
    /// It isn't written, for this reason.
    Failed(Reason),
}

impl Came {
    /// What is reported of it, and of what it was before: no number of pages where they couldn't be counted.
    fn entry<'w>(
        self,
        file: &'w str,
        dpi: Dpi,
        counted: Result<usize, JobFault>,
        input: FileSum,
    ) -> ReportEntry<'w>
        ensures honest { FailsByReason self → IsHonest result }
        ensures came { ReportsOutcome self result }
        ensures pages { result.pages ≡ result_ok counted }
    {
        let (outcome, status, output, said) = match self {
            Came::Done { outcome, output } => (outcome, 0, Some(output), None),
            Came::Failed(Reason { status, said }) => (Outcome::Failed, status, None, Some(said)),
        };
        ReportEntry {
            file: Some(file),
            outcome,
            status,
            dpi: Some(dpi.dots()),
            pages: counted.ok(),
            input: Some(input),
            output,
            said,
        }
    }
}

/// The version, the command and the resolution, as digests name them.
fn how_of(alloc: Global, batch: Batch<'_>, dpi: Dpi) -> Result<String, AllocError> {
    let version = batch.version;
    let dots = dpi.dots();
    match batch.rewriting {
        Rewriting::Shrink(how) => {
            let caution = caution_of(how.readers);
            let reading = reading_of(how.profiles);
            format!(in alloc; "pclmin {version} shrink{caution}{reading} --dpi {dots}")
        }
        Rewriting::ShrinkEverywhere(how) => {
            let caution = caution_of(how.readers);
            let reading = reading_of(how.profiles);
            format!(in alloc; "pclmin {version} shrink{caution}{reading} --dpi auto")
        }
        Rewriting::Certify => format!(in alloc; "pclmin {version} min --cert --dpi {dots}"),
    }
}

/// The option that says for which readers a job is shrunk, as digests name it.
fn caution_of(readers: Readers) -> &'static str {
    match readers {
        Readers::Printers => "",
        Readers::Profile => " --profile-only",
    }
}

/// The option that says by which profiles a job is read, as digests name it.
fn reading_of(profiles: Profiles) -> &'static str {
    match profiles {
        Profiles::Stated => " --stated",
        Profiles::Either => "",
        Profiles::Drivers => " --drivers",
    }
}
