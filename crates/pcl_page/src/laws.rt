//! What holds of every job. Each law is a call that does nothing.

ghost use Rattle.std.specs.Prelude.{◌⊎◌, ℕ, List};
ghost use Rattle.pcl_base.specs.declared.dpi.Dpi.{Dpi};
ghost use Rattle.pcl_base.specs.declared.profile.Profile.{Profile};
ghost use Rattle.pcl_base.specs.declared.profile.Profile.TheVariants.{Stated, Drivers};
ghost use Rattle.pcl_base.specs.declared.refusal.Refusal.{Refusal};
ghost use Rattle.pcl_page.specs.Asks.{Asks as AsksOfJob};
ghost use Rattle.pcl_page.specs.Situation.{Sheet};
ghost use Rattle.pcl_page.specs.Jobs.{HasPagesBy, HasAsksBy};
ghost use Rattle.pcl_page.specs.Delivering.{IsRefusalBy};

use pcl_escape::{read_by_drivers, some_outcome};

/// By a profile a job is accepted and has a list of pages, or it is refused, whatever its bytes are. A law: the call does nothing.
pub fn some_meaning()
    ensures { (profile : Profile) (dpi : Dpi) (job : List ℕ)
        → ((pages : List Sheet) × HasPagesBy profile dpi job pages) ⊎ ((refusal : Refusal) × IsRefusalBy profile dpi job refusal) }
{
    some_outcome();
}

/// A job that the stated profile accepts is accepted by the drivers' profile too, with the same pages, and asks the same of the printer. A
/// law: the call does nothing.
pub fn accepted_by_drivers()
    ensures pages { (dpi : Dpi) (job : List ℕ) (pages : List Sheet) → HasPagesBy Stated dpi job pages → HasPagesBy Drivers dpi job pages }
    ensures asks { (dpi : Dpi) (job : List ℕ) (asks : AsksOfJob) → HasAsksBy Stated dpi job asks → HasAsksBy Drivers dpi job asks }
{
    read_by_drivers();
}
