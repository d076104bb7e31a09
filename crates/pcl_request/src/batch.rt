//! What a batch is asked for.

ghost use Rattle.std.specs.Prelude.{◌≡◌};
ghost use Rattle.pcl_request.specs.Requests.{rewriting_profile};

use crate::profiles::Shrinking;
use crate::request::{Layout, Resolution};
use pcl_base::Profile;

/// How each job is written again.
#[derive(Clone, Copy, Debug, PartialEq, Eq)]
pub enum Rewriting {
    /// As the smallest job that is found with the same dots.
    Shrink(Shrinking),
    /// The same at each resolution at which the job is accepted.
    ShrinkEverywhere(Shrinking),
    /// As the least raster job, with a certificate of the first format in a file of its own.
    Certify,
}

impl Rewriting {
    /// By which profile jobs are read, the widest where several are tried.
    pub fn profile(self) -> Profile
        ensures { result ≡ rewriting_profile self }
    {
        match self {
            Rewriting::Shrink(how) | Rewriting::ShrinkEverywhere(how) => how.profiles.widest(),
            Rewriting::Certify => Profile::Stated,
        }
    }
}

/// A job that was written again.
#[derive(Drop)]
pub struct Rewritten {
    pub job: Vec<u8>,
    /// Where one is asked for, of the first format.
    pub certificate: Option<Vec<u8>>,
}

/// Where what is written of a job goes. Of a job whose file is called `NAME` that is a file `NAME`, its digests `NAME.sha256`, and
/// where it is asked for its certificate `NAME.cert`.
#[derive(Clone, Copy)]
pub enum Destination<'w> {
    /// Into this folder.
    Folder(&'w str),
    /// Below this folder, under the path that the file has.
    Below(&'w str),
    /// Where the file is, which is replaced.
    Itself,
}

/// What is done with each job, and where it goes.
#[derive(Clone, Copy)]
pub struct Batch<'w> {
    /// The program's version, which the digests name.
    pub version: &'static str,
    pub place: Destination<'w>,
    pub rewriting: Rewriting,
    pub resolution: Resolution,
    /// How the report is laid out.
    pub layout: Layout,
    /// Whether nothing is reported but in its report.
    pub quiet: bool,
    /// Whether files that are there are written into, so that they keep their numbers, links and access lists.
    pub keeps_inode: bool,
}
