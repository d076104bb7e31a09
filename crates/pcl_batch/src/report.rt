//! What a batch says of each job.

ghost use Rattle.std.specs.Prelude.{◌≡◌, ◌≢◌, ◌+◌, ◌^◌, ◌<◌, ◌↔◌};
ghost use Rattle.pcl_batch.specs.inner.Reports.{HasNoFailure};
ghost use Rattle.pcl_batch.specs.declared.report.Outcome.TheVariants.{Failed};

use crate::sums::FileSum;
use pcl_request::Layout;
use serde::Serialize;
use std::alloc::{AllocError, Global};
use std::fmt::Display;

/// What came of a job.
#[derive(Clone, Copy, Debug, PartialEq, Eq, Serialize)]
#[serde(rename_all = "snake_case")]
pub(crate) enum Outcome {
    /// It was written again.
    Written,
    /// An earlier batch had written it from the same bytes in the same way.
    Kept,
    /// It wasn't written again.
    Failed,
}

impl Outcome {
    fn name(self) -> &'static str {
        match self {
            Outcome::Written => "written",
            Outcome::Kept => "kept",
            Outcome::Failed => "failed",
        }
    }
}

/// What is reported of a job.
#[derive(Drop, Serialize)]
pub(crate) struct ReportEntry<'w> {
    /// The path of its file, unless its name isn't text.
    pub file: Option<&'w str>,
    pub outcome: Outcome,
    /// The status that the program would have ended with for this job alone.
    pub status: u8,
    /// The resolution at which it was seen.
    pub dpi: Option<u32>,
    pub pages: Option<usize>,
    /// The job as it came.
    pub input: Option<FileSum>,
    /// The job as it is written.
    pub output: Option<FileSum>,
    /// Why it failed.
    pub said: Option<String>,
}

impl<'w> ReportEntry<'w> {
    /// Of a job that failed before anything was known of it.
    pub(crate) fn failed(file: Option<&'w str>, status: u8, said: String) -> ReportEntry<'w>
        ensures outcome { result.outcome ≡ Failed }
        ensures status { result.status ≡ status }
    {
        ReportEntry {
            file,
            outcome: Outcome::Failed,
            status,
            dpi: None,
            pages: None,
            input: None,
            output: None,
            said: Some(said),
        }
    }

    /// The line of a report, with its line feed.
    pub(crate) fn line(&self, alloc: Global, layout: Layout) -> Result<Vec<u8>, AllocError> {
        match layout {
            Layout::Text => {
                let row = self.row(alloc)?;
                Vec::from_slice(alloc, row.as_bytes())
            }
            Layout::Json => json_line(alloc, self),
        }
    }

    /// As many bytes as a file has, unless the job failed.
    fn bytes_where_done(&self, sum: &Option<FileSum>) -> u64 {
        match (self.outcome, sum) {
            (Outcome::Written | Outcome::Kept, Some(sum)) => sum.bytes as u64,
            _ => 0,
        }
    }

    /// The columns of a table. In a name a tab, a line feed, a carriage return and a backslash stand as `\t`, `\n`, `\r`
    /// and `\\`.
    fn row(&self, alloc: Global) -> Result<String, AllocError> {
        let file = name_column(alloc, self.file)?;
        let file = file.as_str();
        let outcome = self.outcome.name();
        let status = self.status;
        let seen = self.seen_columns(alloc)?;
        let sums = self.files_columns(alloc)?;
        let said = match &self.said {
            Some(said) => said.as_str(),
            None => "-",
        };
        format!(in alloc; "{file}\t{outcome}\t{status}\t{seen}\t{sums}\t{said}\n")
    }

    /// The columns of the resolution and the pages.
    fn seen_columns(&self, alloc: Global) -> Result<String, AllocError> {
        let dpi = number(alloc, self.dpi)?;
        let pages = number(alloc, self.pages)?;
        format!(in alloc; "{dpi}\t{pages}")
    }

    /// The columns of the job as it came and as it is written.
    fn files_columns(&self, alloc: Global) -> Result<String, AllocError> {
        let input = sum_columns(alloc, self.input.as_ref())?;
        let output = sum_columns(alloc, self.output.as_ref())?;
        format!(in alloc; "{input}\t{output}")
    }
}

/// What stands above all lines: the names of the columns, and nothing in JSON.
pub(crate) fn header(layout: Layout) -> &'static str {
    match layout {
        Layout::Text =>
            "file\toutcome\tstatus\tdpi\tpages\tbytes_in\tsha256_in\tbytes_out\tsha256_out\tsaid\n",
        Layout::Json => "",
    }
}

/// The column of a name, or a dash.
fn name_column(alloc: Global, name: Option<&str>) -> Result<String, AllocError> {
    match name {
        Some(name) => escaped(alloc, name),
        None => String::from_str(alloc, "-"),
    }
}

/// A name as it stands in a column.
fn escaped(alloc: Global, name: &str) -> Result<String, AllocError> {
    let name = name.replace(alloc, "\\", "\\\\")?;
    let name = name.as_str().replace(alloc, "\t", "\\t")?;
    let name = name.as_str().replace(alloc, "\n", "\\n")?;
    name.as_str().replace(alloc, "\r", "\\r")
}

/// What came of all jobs.
#[derive(Clone, Copy, Serialize)]
pub(crate) struct Totals {
    pub jobs: usize,
    pub written: usize,
    pub kept: usize,
    pub failed: usize,
    /// Of the jobs that didn't fail, as they came and as they are written.
    pub bytes_in: u64,
    pub bytes_out: u64,
}

impl Totals {
    /// Of no job.
    pub(crate) const NONE: Totals = Totals {
        jobs: 0,
        written: 0,
        kept: 0,
        failed: 0,
        bytes_in: 0,
        bytes_out: 0,
    };

    /// With one job more.
    pub(crate) fn with(self, entry: &ReportEntry<'_>) -> Totals
        ensures failed { HasNoFailure result ↔ (HasNoFailure self × (entry.now.outcome ≢ Failed)) }
        ensures counted { self.jobs + 1 < 2 ^ 64 → result.jobs ≡ self.jobs + 1 }
    {
        let (written, kept, failed) = match entry.outcome {
            Outcome::Written => (1, 0, 0),
            Outcome::Kept => (0, 1, 0),
            Outcome::Failed => (0, 0, 1),
        };
        Totals {
            jobs: self.jobs.saturating_add(1),
            written: self.written.saturating_add(written),
            kept: self.kept.saturating_add(kept),
            failed: self.failed.saturating_add(failed),
            bytes_in: self
                .bytes_in
                .saturating_add(entry.bytes_where_done(&entry.input)),
            bytes_out: self
                .bytes_out
                .saturating_add(entry.bytes_where_done(&entry.output)),
        }
    }

    /// The last line of a report, with its line feed.
    pub(crate) fn line(&self, alloc: Global, layout: Layout) -> Result<Vec<u8>, AllocError> {
        match layout {
            Layout::Text => {
                let text = self.text(alloc)?;
                Vec::from_slice(alloc, text.as_bytes())
            }
            Layout::Json => json_line(alloc, self),
        }
    }

    /// The same in words, after a sign that no name of a column has.
    fn text(&self, alloc: Global) -> Result<String, AllocError> {
        let Totals {
            jobs,
            written,
            kept,
            failed,
            bytes_in,
            bytes_out,
        } = self;
        format!(in alloc;
            "# jobs {jobs}: written {written}, kept {kept}, failed {failed}; bytes in {bytes_in}, out {bytes_out}\n"
        )
    }
}

/// One object of JSON, with its line feed.
fn json_line<T: Serialize>(alloc: Global, value: &T) -> Result<Vec<u8>, AllocError> {
    let mut line = match serde_json::to_vec(alloc, value) {
        Ok(line) => line,
        Err(_) => return Err(AllocError),
    };
    line.push(b'\n')?;
    Ok(line)
}

/// A number, or a dash.
fn number<N: Display + Drop>(alloc: Global, number: Option<N>) -> Result<String, AllocError> {
    match number {
        Some(number) => format!(in alloc; "{number}"),
        None => String::from_str(alloc, "-"),
    }
}

/// The columns of the length and the digest of a file, or dashes.
fn sum_columns(alloc: Global, sum: Option<&FileSum>) -> Result<String, AllocError> {
    match sum {
        Some(sum) => {
            let bytes = sum.bytes;
            let sha256 = sum.sha256.as_str();
            format!(in alloc; "{bytes}\t{sha256}")
        }
        None => String::from_str(alloc, "-\t-"),
    }
}
