//! How a job is shrunk.

ghost use Rattle.std.specs.Prelude.{◌≡◌};
ghost use Rattle.pcl_request.specs.Requests.{widest_of};

use pcl_base::Profile;
use pcl_printers::Readers;

/// How a job is shrunk.
#[derive(Clone, Copy, Debug, PartialEq, Eq)]
pub struct Shrinking {
    /// By which profiles it is read.
    pub profiles: Profiles,
    /// For which readers the smaller job is.
    pub readers: Readers,
}

/// By which profiles a job is read that is shrunk. What is written is accepted by the one by which it was read.
#[derive(Clone, Copy, Debug, PartialEq, Eq)]
pub enum Profiles {
    /// The stated one alone.
    Stated,
    /// The stated one where that accepts the job, else the drivers'.
    Either,
    /// The drivers' alone, also where the stated one accepts the job.
    Drivers,
}

impl Profiles {
    /// The widest profile by which a job is read.
    pub fn widest(self) -> Profile
        ensures { result ≡ widest_of self }
    {
        match self {
            Profiles::Stated => Profile::Stated,
            Profiles::Either | Profiles::Drivers => Profile::Drivers,
        }
    }
}
