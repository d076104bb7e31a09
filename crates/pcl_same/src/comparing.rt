//! A second job, compared with one that is kept: each page with the kept page of its number, and what is asked.

ghost use Rattle.std.specs.Prelude.{◌≡◌, ℕ, List, length, None};
ghost use Rattle.pcl_page.specs.Asks.{asks_of};
ghost use Rattle.pcl_same.specs.Comparing.{of_pages, CompareAsks};
ghost use Rattle.pcl_same.specs.DifferingAsks.{AreAtEnd, as_counted};
ghost use Rattle.pcl_same.specs.Keeping.{IsKept, IsComparedBeside, IsCountedBeside};
ghost use Rattle.pcl_same.specs.inner.Pages.{IsFoundBeside, PagesDifferBy, comparison_of};

use crate::asking::{LastExit, asks_difference};
use crate::keeping::{KeptJob, KeptPage};
use crate::{AskedComparison, Difference, PagesDifference};
use pcl_base::{Dpi, JobFault, Profile};
use pcl_page::{Asks, Page, PageSink, one_meaning, perform_asked};
use std::alloc::{AllocError, Global};
use std::marker::Model;

/// How a job compares with one that is kept, by the profile and at the resolution by which that was performed: in its pages, as by
/// `same`, and where these are the same, in what it asks of the printer. A refusal is that of the job. One page at a
/// time is held as dots.
pub fn compare_kept(
    alloc: Global,
    kept: &KeptJob<'_>,
    job: &[u8],
    profile: Profile,
    dpi: Dpi,
) -> Result<AskedComparison, JobFault>
    ensures { (first : List ℕ) → IsKept profile dpi first kept.now → IsComparedBeside profile dpi first job.now result }
{
    compare_by_last_exit(alloc, kept, job, profile, dpi, LastExit::Counts)
}

/// The same, where a last universal exit without lines counts so.
pub fn compare_by_last_exit(
    alloc: Global,
    kept: &KeptJob<'_>,
    job: &[u8],
    profile: Profile,
    dpi: Dpi,
    last: LastExit,
) -> Result<AskedComparison, JobFault>
    ensures { (first : List ℕ) → IsKept profile dpi first kept.now → IsCountedBeside last profile dpi first job.now result }
{
    one_meaning();
    let mut comparer = Comparer {
        kept: &kept.pages,
        found: Vec::new(alloc),
    };
    let asks = perform_asked(alloc, job, profile, dpi, &mut comparer)?;
    let pages = pages_difference(kept.pages.len(), &comparer.found);
    Ok(conclude(pages, &kept.asks, &asks, last))
}

/// What two jobs are found to be whose pages differ so, if they do, and which ask for this.
fn conclude(
    pages: Option<PagesDifference>,
    first: &Asks<'_>,
    second: &Asks<'_>,
    last: LastExit,
) -> AskedComparison
    ensures pages { of_pages result ≡ comparison_of pages }
    ensures asks { (pages ≡ None → length first.now.pages.items ≡ length second.now.pages.items)
        → AreAtEnd (asks_of first.now) (asks_of second.now)
        → CompareAsks (as_counted last (asks_of first.now)) (as_counted last (asks_of second.now)) result }
{
    if let Some(difference) = pages {
        return AskedComparison::Pages(difference);
    }
    match asks_difference(first, second, last) {
        Some(difference) => AskedComparison::Asks(difference),
        None => AskedComparison::Same,
    }
}

/// How a number of pages differ from others, by what was found of each of these.
fn pages_difference(count: usize, found: &[Option<Difference>]) -> Option<PagesDifference>
    ensures { PagesDifferBy count found.now result }
{
    if found.len() != count {
        return Some(PagesDifference::Count {
            first: count,
            second: found.len(),
        });
    }
    for (before, difference) in found.iter().enumerate() {
        if let Some(difference) = difference {
            return Some(PagesDifference::Page {
                number: before + 1,
                difference: *difference,
            });
        }
    }
    None
}

/// How a page differs from one that is kept.
fn difference(kept: &KeptPage, page: &Page) -> Option<Difference>
    ensures { IsFoundBeside kept.now page.now result }
{
    if kept.bitmap.size != page.size || kept.bitmap.dpi != page.dpi {
        return Some(Difference::Size {
            first: kept.bitmap.size,
            second: page.size,
        });
    }
    if kept.copies != page.copies {
        return Some(Difference::Copies {
            first: kept.copies,
            second: page.copies,
        });
    }
    let (x, y) = kept.bitmap.first_dot(&page.bitmap)?;
    Some(Difference::Dot { x, y })
}

/// Compares each page that comes with the kept one of its number. Pages past the last kept one are counted.
#[derive(Drop)]
struct Comparer<'a> {
    kept: &'a [KeptPage],
    /// What was found of each page.
    found: Vec<Option<Difference>>,
}

impl<'a> Model for Comparer<'a> {
    ghost use Rattle.pcl_same.specs.inner.Pages.{Compared, compared};

    ghost Value = { Compared };

    ghost view = { compared };
}

impl<'a> PageSink for Comparer<'a> {
    ghost use Rattle.pcl_same.specs.inner.Pages.{ComparesNext};

    ghost takes = { ComparesNext };

    fn page(&mut self, page: &Page) -> Result<(), AllocError> {
        let difference = match self.kept.get(self.found.len()) {
            Some(kept) => difference(kept, page),
            None => None,
        };
        self.found.push(difference)?;
        Ok(())
    }
}
