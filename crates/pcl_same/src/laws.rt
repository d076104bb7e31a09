//! Laws of comparing.

ghost use Rattle.std.specs.Prelude.{◌≡◌, ◌≢◌, ℕ, List, Result, Err};
ghost use Rattle.pcl_base.specs.declared.dpi.Dpi.{Dpi};
ghost use Rattle.pcl_base.specs.declared.profile.Profile.{Profile};
ghost use Rattle.pcl_same.specs.Comparing.{IsCompared, IsComparedAsked, IsComparedAskedBy};
ghost use Rattle.pcl_same.specs.declared.asking.LastExit.{LastExit};
ghost use Rattle.pcl_same.specs.declared.comparison.AskedComparison.{AskedComparison};
ghost use Rattle.pcl_same.specs.declared.comparison.PageComparison.{PageComparison};
ghost use Rattle.pcl_same.specs.declared.fault.SameFault.{SameFault};
ghost use Rattle.pcl_same.specs.declared.fault.SameFault.TheVariants.{Memory};

use pcl_page::one_meaning;

/// Two jobs have one answer at most, out of memory aside: it is `Same` exactly where they have the same pages, and a
/// job is refused exactly where the answer says so. A law: the call does nothing.
pub fn one_answer()
    ensures { (widest : Profile) (dpi : Dpi) (first second : List ℕ) (answer other : Result PageComparison SameFault)
        → IsCompared widest dpi first second answer → IsCompared widest dpi first second other
        → answer ≢ Err Memory → other ≢ Err Memory → answer ≡ other }
{
    one_meaning();
}

/// Two jobs have one answer at most with what they ask of the printer, out of memory aside: it is `Same` exactly where they have the
/// same pages and ask for the same, and a job is refused exactly where the answer says so; so it is by each profile, whatever a last
/// universal exit counts for. A law: the call does nothing.
pub fn one_asked_answer()
    ensures by { (last : LastExit) (profile : Profile) (dpi : Dpi) (first second : List ℕ) (answer other : Result AskedComparison SameFault)
        → IsComparedAskedBy last profile dpi first second answer → IsComparedAskedBy last profile dpi first second other
        → answer ≢ Err Memory → other ≢ Err Memory → answer ≡ other }
    ensures answer { (widest : Profile) (dpi : Dpi) (first second : List ℕ) (answer other : Result AskedComparison SameFault)
        → IsComparedAsked widest dpi first second answer → IsComparedAsked widest dpi first second other
        → answer ≢ Err Memory → other ≢ Err Memory → answer ≡ other }
{
    one_meaning();
}
