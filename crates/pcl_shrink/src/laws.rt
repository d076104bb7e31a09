//! What is promised of a job that was shrunk. The call does nothing.

ghost use Rattle.std.specs.Prelude.{◌≤◌, ℕ, List, length, Ok};
ghost use Rattle.pcl_base.specs.declared.dpi.Dpi.{Dpi};
ghost use Rattle.pcl_base.specs.declared.profile.Profile.{Profile};
ghost use Rattle.pcl_printers.specs.declared.doubts.Readers.{Readers};
ghost use Rattle.pcl_page.specs.Situation.{Sheet};
ghost use Rattle.pcl_page.specs.Asks.{Asks};
ghost use Rattle.pcl_page.specs.Jobs.{HasPagesBy, HasAsksBy};
ghost use Rattle.pcl_shrink.specs.declared.candidate.Shrunk.{Shrunk};
ghost use Rattle.pcl_shrink.specs.Shrinking.{IsReadBy, IsShrunk, PrintsAlike};

use pcl_page::one_meaning;

/// What `shrink` writes is accepted by the profile by which the job is read, and has its pages: as many, in order, of the same sizes and
/// with as many copies, dot for dot. It asks the printer for the same, and is no longer than the job.
pub fn shrunk_jobs_have_the_same_pages()
    ensures pages { (readers : Readers) (widest profile : Profile) (dpi : Dpi) (job : List ℕ) (shrunk : Shrunk) (pages : List Sheet)
        → IsShrunk readers widest dpi job (Ok shrunk) → IsReadBy widest profile dpi job → HasPagesBy profile dpi job pages
        → PrintsAlike profile dpi pages shrunk.job.items }
    ensures asks { (readers : Readers) (widest profile : Profile) (dpi : Dpi) (job : List ℕ) (shrunk : Shrunk) (asks : Asks)
        → IsShrunk readers widest dpi job (Ok shrunk) → IsReadBy widest profile dpi job → HasAsksBy profile dpi job asks
        → HasAsksBy profile dpi shrunk.job.items asks }
    ensures input { (readers : Readers) (widest : Profile) (dpi : Dpi) (job : List ℕ) (shrunk : Shrunk)
        → IsShrunk readers widest dpi job (Ok shrunk) → length shrunk.job.items ≤ length job }
{
    one_meaning();
}
