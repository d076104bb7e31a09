//! What the program is asked for.

ghost use Rattle.std.specs.Prelude.{◌≡◌, ◌&&◌, MatchOption};
ghost use Rattle.pcl_request.specs.Requests.{IsWordFor, aside_of, certificate_file, first_job, has_raw, is_standard_output, makes_raw, page_of, performed, second_job, source_file, target_file, task_page, task_profile, writes_raw};
ghost use Rattle.pcl_request.specs.declared.request.Resolution.{Resolution};

use crate::profiles::Shrinking;
use pcl_base::{Dpi, Kind, Profile};
use pcl_cert::Format;
use pcl_preview::{ImageForm, PageChoice};

/// What a run makes of its job.
#[derive(Clone, Copy)]
pub enum Task {
    /// A raster job.
    Minimize,
    /// The images in a form of the pages that are asked for, by a profile.
    Preview {
        choice: PageChoice,
        form: ImageForm,
        profile: Profile,
    },
    /// What the rules of a profile refuse in it, and what can be done, in a layout.
    Explain {
        layout: Layout,
        profile: Profile,
    },
    /// What a kind of refusal means, and what can be done. No job is read.
    ExplainKind {
        layout: Layout,
        kind: Kind,
    },
    /// What its pages are by a profile, in a layout.
    DescribePages {
        layout: Layout,
        profile: Profile,
    },
    /// The smallest job that is found with its pages, which asks for the same; and a report of its bytes in a layout, if that is asked for.
    Shrink {
        how: Shrinking,
        report: Option<Layout>,
    },
}

/// A certificate that is asked for.
#[derive(Clone, Copy)]
pub struct Certificate<'w> {
    /// The name of its file.
    pub file: &'w str,
    pub format: Format,
}

/// What a run is asked to write.
#[derive(Clone, Copy)]
pub enum Work<'w> {
    /// What a task makes.
    Task(Task),
    /// A raster job, and its certificate to a file of its own.
    Certify(Certificate<'w>),
}

/// How what is said is laid out.
#[derive(Clone, Copy, Debug, PartialEq, Eq)]
pub enum Layout {
    /// Lines for people; of pages and of batches they have columns that tabs part.
    Text,
    /// An object of JSON on a line of its own: one, but of a batch one for each job.
    Json,
}

/// Where a run takes its job from.
#[derive(Clone, Copy)]
pub enum Source<'w> {
    StandardInput,
    /// The file of this name.
    File(&'w str),
}

/// Where a run writes what it makes.
#[derive(Clone, Copy)]
pub enum Target<'w> {
    StandardOutput,
    /// The file of this name, which is put in its place only where the run is done: after a fault what was there stays.
    File(&'w str),
}

/// The resolution at which jobs are seen.
#[derive(Clone, Copy)]
pub enum Resolution {
    /// This one.
    Given(Dpi),
    /// The first of 300 and 600 dots per inch at which they are accepted; 300 where there is none.
    FirstAccepted,
}

/// A run: what it writes, where its job comes from and what it writes goes, and the resolution at which it sees the job.
#[derive(Clone, Copy)]
pub struct Run<'w> {
    /// What is asked for.
    pub work: Work<'w>,
    /// Where the job comes from.
    pub source: Source<'w>,
    /// Where what is made goes.
    pub target: Target<'w>,
    /// The resolution.
    pub resolution: Resolution,
    /// Whether it isn't reported how far it has come.
    pub quiet: bool,
    /// Whether files that are there are written into, so that they keep their numbers, links and access lists.
    pub keeps_inode: bool,
}

impl Task {
    /// The number of the last page that is asked for, 0 where none is by its number.
    pub fn page(self) -> usize
        ensures { result ≡ task_page self }
    {
        match self {
            Task::Minimize
            | Task::Explain { .. }
            | Task::ExplainKind { .. }
            | Task::DescribePages { .. }
            | Task::Shrink { .. } => 0,
            Task::Preview { choice, .. } => choice.last(),
        }
    }

    /// By which profile its job is read, the widest where several are tried.
    pub fn profile(self) -> Profile
        ensures { result ≡ task_profile self }
    {
        match self {
            Task::Minimize | Task::ExplainKind { .. } => Profile::Stated,
            Task::Preview { profile, .. }
            | Task::Explain { profile, .. }
            | Task::DescribePages { profile, .. } => profile,
            Task::Shrink { how, .. } => how.profiles.widest(),
        }
    }

    /// Whether a job or an image is made, and not text.
    fn makes_raw(self) -> bool
        ensures { result ≡ makes_raw self }
    {
        match self {
            Task::Minimize | Task::Preview { .. } | Task::Shrink { .. } => true,
            Task::Explain { .. } | Task::ExplainKind { .. } | Task::DescribePages { .. } => false,
        }
    }
}

impl<'w> Work<'w> {
    /// The number of the last page that is asked for, 0 where none is by its number.
    pub fn page(self) -> usize
        ensures { result ≡ page_of self.entry }
    {
        match self {
            Work::Task(task) => task.page(),
            Work::Certify(_) => 0,
        }
    }

    /// Whether a job or an image is written, and not text.
    fn has_raw(self) -> bool
        ensures { result ≡ has_raw self.entry }
    {
        match self {
            Work::Task(task) => task.makes_raw(),
            Work::Certify(_) => true,
        }
    }

    /// The file of its certificate.
    fn aside(self) -> Option<&'w str>
        ensures { result ≡ certificate_file self.entry }
    {
        match self {
            Work::Task(_) => None,
            Work::Certify(certificate) => Some(certificate.file),
        }
    }
}

impl<'w> Source<'w> {
    /// The name of its file.
    fn file(self) -> Option<&'w str>
        ensures { result ≡ source_file self.entry }
    {
        match self {
            Source::StandardInput => None,
            Source::File(name) => Some(name),
        }
    }
}

impl Run<'_> {
    /// Whether a job or an image is written to standard output, and not text.
    fn writes_raw(self) -> bool
        ensures { result ≡ (has_raw self.entry.work && is_standard_output self.entry.target) }
    {
        self.work.has_raw() && self.target.is_standard_output()
    }
}

impl<'w> Target<'w> {
    fn is_standard_output(self) -> bool
        ensures { result ≡ is_standard_output self.entry }
    {
        match self {
            Target::StandardOutput => true,
            Target::File(_) => false,
        }
    }

    /// The name of its file.
    fn file(self) -> Option<&'w str>
        ensures { result ≡ target_file self.entry }
    {
        match self {
            Target::StandardOutput => None,
            Target::File(name) => Some(name),
        }
    }
}

/// What a written job is checked beside.
#[derive(Clone, Copy)]
pub enum Beside {
    /// The job as it was.
    Input,
    /// Images of its pages, in PBM.
    Images,
}

impl Beside {
    /// The job that is performed, of what a written job is checked beside and that job.
    pub fn performed<'a>(self, input: &'a [u8], output: &'a [u8]) -> &'a [u8]
        ensures { result.now ≡ performed self input.now output.now }
    {
        match self {
            Beside::Input => input,
            Beside::Images => output,
        }
    }
}

/// What is checked: the names of the files, and the resolution.
#[derive(Clone, Copy)]
pub struct CheckedFiles<'w> {
    /// What the first file has.
    pub beside: Beside,
    /// The file of the input, or of images of its pages.
    pub input: &'w str,
    /// The file of the job that it is written as.
    pub output: &'w str,
    /// The file of the certificate.
    pub certificate: &'w str,
    /// How the verdict is laid out.
    pub layout: Layout,
    /// The resolution.
    pub resolution: Resolution,
    /// Whether it isn't reported how far the check has come.
    pub quiet: bool,
}

/// What is compared: the names of the files of two jobs, and the resolution.
#[derive(Clone, Copy)]
pub struct ComparedFiles<'w> {
    /// The file of the one job.
    pub first: &'w str,
    /// The file of the other.
    pub second: &'w str,
    /// Whether what they ask of the printer besides dots is compared too.
    pub asks: bool,
    /// The file that is made where dots differ, of an image of these.
    pub image: Option<&'w str>,
    /// The widest profile by which they are read.
    pub profile: Profile,
    /// How the comparison is laid out.
    pub layout: Layout,
    /// The resolution.
    pub resolution: Resolution,
}

/// What the program is asked for.
#[derive(Clone, Copy)]
pub enum Request<'w> {
    /// A run over a job.
    Run(Run<'w>),
    /// The check of a written job.
    Check(CheckedFiles<'w>),
    /// The comparison of two jobs.
    Compare(ComparedFiles<'w>),
}

impl<'w> Request<'w> {
    /// Whether a job or an image is written to standard output, and not text.
    pub fn writes_raw(self) -> bool
        ensures { result ≡ writes_raw self.entry }
    {
        match self {
            Request::Run(run) => run.writes_raw(),
            Request::Check(_) | Request::Compare(_) => false,
        }
    }

    /// The file of a certificate or of an image, which may be none of the jobs'.
    pub fn aside(self) -> Option<&'w str>
        ensures { result ≡ aside_of self.entry }
    {
        match self {
            Request::Run(run) => run.work.aside(),
            Request::Check(_) => None,
            Request::Compare(asked) => asked.image,
        }
    }

    /// The file of the job that is read, or of the first that is compared.
    pub fn first_job(self) -> Option<&'w str>
        ensures { result ≡ first_job self.entry }
    {
        match self {
            Request::Run(run) => run.source.file(),
            Request::Check(asked) => Some(asked.input),
            Request::Compare(asked) => Some(asked.first),
        }
    }

    /// The file of the job that is written, or of the second that is compared.
    pub fn second_job(self) -> Option<&'w str>
        ensures { result ≡ second_job self.entry }
    {
        match self {
            Request::Run(run) => run.target.file(),
            Request::Check(asked) => Some(asked.output),
            Request::Compare(asked) => Some(asked.second),
        }
    }
}

/// The resolution that a word names: `300` or `600` dots per inch, or `auto`.
pub fn resolution_named(word: &str) -> Option<Resolution>
    ensures { MatchOption result ((resolution : Resolution) → IsWordFor resolution word.now → ⊥)
        (λ resolution. IsWordFor resolution word.now) }
{
    match word {
        "300" => Some(Resolution::Given(Dpi::Dpi300)),
        "600" => Some(Resolution::Given(Dpi::Dpi600)),
        "auto" => Some(Resolution::FirstAccepted),
        _ => None,
    }
}
