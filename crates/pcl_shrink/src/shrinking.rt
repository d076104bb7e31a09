//! A job shrunk.

ghost use Rattle.std.specs.Prelude.{◌≡◌, length, Some, None, IfOk};
ghost use Rattle.pcl_base.specs.declared.dpi.Dpi.TheVariants.{Dpi600};
ghost use Rattle.pcl_base.specs.declared.profile.Profile.TheVariants.{Drivers};
ghost use Rattle.pcl_page.specs.Accepting.{IsAccepted};
ghost use Rattle.pcl_printers.specs.declared.doubts.Readers.TheVariants as reader;
ghost use Rattle.pcl_shrink.specs.Shrinking.{IsShrunk, IsShrunkAt, IsShrunkEverywhere, IsShrunkEverywhereBy};
ghost use Rattle.pcl_shrink.specs.inner.Best.{best_bytes, IsBest, IsShorter};
ghost use Rattle.pcl_shrink.specs.inner.Kept.{AreKept, AreKeptSoFar, IsAcceptedAlso, IsKeptAlsoIfAny, IsKeptIfAny};
ghost use Rattle.pcl_shrink.specs.inner.Proposals.{IsBestWithin, IsLimit, IsMeasured, IsWithin};

use crate::candidate::Proposal;
use crate::keeping::{KeptJobs, KeptSoFar, keep_jobs};
use crate::looking::is_same;
use crate::proposals::{Proposed, propose};
use crate::raster_jobs::asked_job;
use crate::reading::{ReadJob, Reading, Terms};
use crate::shifts::{Fine, look_finely};
use crate::texts::texts_alone;
use crate::watching::{NoWatcher, Pass, ShrinkWatcher};
use crate::{Candidate, Shrunk};
use pcl_base::{Dpi, JobFault, Profile};
use pcl_meaning::written_jobs_say_copies_and_sizes;
use pcl_page::one_meaning;
use pcl_printers::{Doubt, Readers};
use pcl_same::KeptJob;
use std::alloc::{AllocError, Global};

/// The smallest job that is found with the pages of a job, dot for dot, and which asks the printer for what that asks for. It is
/// never longer than the job, nor than the least raster job of its pages where nothing is asked for. For printers it is the job as it
/// came where these may read that otherwise. The job is read by the widest profile that is given, but by the stated one where that accepts
/// it. A refusal is the job's.
pub fn shrink(alloc: Global, job: &[u8], terms: Terms, dpi: Dpi) -> Result<Shrunk, JobFault>
    ensures { IsShrunk terms.readers terms.profile dpi job.now result }
{
    shrink_watched(alloc, job, terms, dpi, NoWatcher)
}

/// The same, and the watcher is called for each page that a pass has done.
pub fn shrink_watched<P: ShrinkWatcher>(
    alloc: Global,
    job: &[u8],
    terms: Terms,
    dpi: Dpi,
    watcher: P,
) -> Result<Shrunk, JobFault>
    ensures { IsShrunk terms.readers terms.profile dpi job.now result }
{
    match terms.profile {
        Profile::Stated => shrink_by(alloc, job, terms, dpi, watcher),
        Profile::Drivers => shrink_by_either(alloc, job, terms.readers, dpi, watcher),
    }
}

/// The same by the stated profile where that accepts the job, else by the drivers'.
fn shrink_by_either<P: ShrinkWatcher>(
    alloc: Global,
    job: &[u8],
    readers: Readers,
    dpi: Dpi,
    watcher: P,
) -> Result<Shrunk, JobFault>
    ensures { IsShrunk readers Drivers dpi job.now result }
{
    let stated = Terms {
        profile: Profile::Stated,
        readers,
    };
    match shrink_by(alloc, job, stated, dpi, watcher) {
        Ok(shrunk) => Ok(shrunk),
        Err(JobFault::Refused(_)) => {
            let drivers = Terms {
                profile: Profile::Drivers,
                readers,
            };
            shrink_by(alloc, job, drivers, dpi, watcher)
        }
        Err(JobFault::Memory) => Err(JobFault::Memory),
    }
}

/// The same of a job that is read by this profile alone.
pub fn shrink_by<P: ShrinkWatcher>(
    alloc: Global,
    job: &[u8],
    terms: Terms,
    dpi: Dpi,
    watcher: P,
) -> Result<Shrunk, JobFault>
    ensures { IsShrunkAt terms.readers terms.profile dpi None job.now result }
{
    let at = Reading {
        profile: terms.profile,
        first: dpi,
        also: None,
    };
    let source = ReadJob { alloc, job, at };
    shrink_at(source, Fine::unknown(alloc), terms.readers, watcher)
}

/// The same at each of 300 and 600 dots per inch at which a job is accepted: what is written has its pages at both, where both accept it.
/// A refusal is the one at 300, where it is refused at 600 too.
pub fn shrink_everywhere(alloc: Global, job: &[u8], terms: Terms) -> Result<Shrunk, JobFault>
    ensures { IsShrunkEverywhere terms.readers terms.profile job.now result }
{
    shrink_everywhere_watched(alloc, job, terms, NoWatcher)
}

/// The same, and the watcher is called for each page that a pass has done.
pub fn shrink_everywhere_watched<P: ShrinkWatcher>(
    alloc: Global,
    job: &[u8],
    terms: Terms,
    watcher: P,
) -> Result<Shrunk, JobFault>
    ensures { IsShrunkEverywhere terms.readers terms.profile job.now result }
{
    match terms.profile {
        Profile::Stated => shrink_everywhere_by(alloc, job, terms, watcher),
        Profile::Drivers => everywhere_by_either(alloc, job, terms.readers, watcher),
    }
}

/// The same by the stated profile where that accepts the job at one of them, else by the drivers'.
fn everywhere_by_either<P: ShrinkWatcher>(
    alloc: Global,
    job: &[u8],
    readers: Readers,
    watcher: P,
) -> Result<Shrunk, JobFault>
    ensures { IsShrunkEverywhere readers Drivers job.now result }
{
    let stated = Terms {
        profile: Profile::Stated,
        readers,
    };
    match shrink_everywhere_by(alloc, job, stated, watcher) {
        Ok(shrunk) => Ok(shrunk),
        Err(JobFault::Refused(_)) => {
            let drivers = Terms {
                profile: Profile::Drivers,
                readers,
            };
            shrink_everywhere_by(alloc, job, drivers, watcher)
        }
        Err(JobFault::Memory) => Err(JobFault::Memory),
    }
}

/// The same of a job that is read by this profile alone.
pub fn shrink_everywhere_by<P: ShrinkWatcher>(
    alloc: Global,
    job: &[u8],
    terms: Terms,
    watcher: P,
) -> Result<Shrunk, JobFault>
    ensures { IsShrunkEverywhereBy terms.readers terms.profile job.now result }
{
    one_meaning();
    match look_finely(alloc, job, terms.profile, watcher) {
        Ok(fine) => shrink_fine(alloc, job, terms, fine, watcher),
        Err(JobFault::Refused(_)) => shrink_by(alloc, job, terms, Dpi::Dpi300, watcher),
        Err(JobFault::Memory) => Err(JobFault::Memory),
    }
}

/// The same of a job that is accepted at 600 dots per inch, where this is known of it there.
fn shrink_fine<P: ShrinkWatcher>(
    alloc: Global,
    job: &[u8],
    terms: Terms,
    fine: Fine<'_>,
    watcher: P,
) -> Result<Shrunk, JobFault>
    ensures { IsAccepted terms.profile Dpi600 job.now → IsKeptIfAny terms.profile Dpi600 job.now fine.entry.kept
        → IsShrunkEverywhereBy terms.readers terms.profile job.now result }
{
    one_meaning();
    let at = Reading {
        profile: terms.profile,
        first: Dpi::Dpi300,
        also: Some(Dpi::Dpi600),
    };
    let source = ReadJob { alloc, job, at };
    match shrink_at(source, fine, terms.readers, watcher) {
        Ok(shrunk) => Ok(shrunk),
        Err(JobFault::Refused(_)) => shrink_by(alloc, job, terms, Dpi::Dpi600, watcher),
        Err(JobFault::Memory) => Err(JobFault::Memory),
    }
}

/// The same by a reading of the job, where this is known of it at 600 dots per inch.
fn shrink_at<P: ShrinkWatcher>(
    source: ReadJob<'_>,
    fine: Fine<'_>,
    readers: Readers,
    watcher: P,
) -> Result<Shrunk, JobFault>
    ensures { let at = source.entry.at in let job = source.entry.job.now in
        IsAcceptedAlso at.profile at.also job → IsKeptAlsoIfAny at.profile at.also job fine.entry.kept
        → IsShrunkAt readers at.profile at.first at.also job result }
{
    let proposed = propose(source, &fine.shifts, watcher)?;
    match heeded(readers, proposed.doubt.or(fine.doubt)) {
        Some(doubt) => Ok(as_it_came(source, &proposed, doubt)?),
        None => shrink_to(source, proposed, fine.kept, watcher),
    }
}

/// What is heeded of what printers may read otherwise.
fn heeded(readers: Readers, doubt: Option<Doubt>) -> Option<Doubt>
    ensures { readers ≡ reader.Profile → result ≡ None }
{
    match readers {
        Readers::Printers => doubt,
        Readers::Profile => None,
    }
}

/// A job as it came, since printers may read it otherwise.
fn as_it_came(
    source: ReadJob<'_>,
    proposed: &Proposed<'_>,
    doubt: Doubt,
) -> Result<Shrunk, AllocError>
    ensures same { IfOk result (λ shrunk. shrunk.job.items ≡ source.entry.job.now) }
    ensures pages { IfOk result (λ shrunk. shrunk.pages ≡ proposed.now.pages) }
    ensures doubt { IfOk result (λ shrunk. shrunk.doubt ≡ Some doubt) }
{
    Ok(Shrunk {
        job: Vec::from_slice(source.alloc, source.job)?,
        by: Candidate::Input,
        pages: proposed.pages,
        doubt: Some(doubt),
    })
}

/// The best of a job and of what is proposed for it, at these resolutions. It may be kept at the other one already.
fn shrink_to<P: ShrinkWatcher>(
    source: ReadJob<'_>,
    proposed: Proposed<'_>,
    also: Option<KeptJob<'_>>,
    watcher: P,
) -> Result<Shrunk, JobFault>
    ensures shrunk { let at = source.entry.at in let job = source.entry.job.now in
        IsAcceptedAlso at.profile at.also job → IsMeasured at.profile at.first job proposed.entry.limit proposed.entry.pages
        → IsKeptIfAny at.profile at.first job proposed.entry.kept → IsKeptAlsoIfAny at.profile at.also job also.entry
        → IsShrunkAt reader.Profile at.profile at.first at.also job result }
    ensures sure { IfOk result (λ shrunk. shrunk.doubt ≡ None) }
{
    let Proposed {
        proposal,
        limit,
        pages,
        kept,
        ..
    } = proposed;
    let kept = KeptSoFar { first: kept, also };
    let best = best_of(source, proposal, limit, kept, watcher)?;
    one_meaning();
    Ok(best_or_input(source, best, pages)?)
}

/// The best of the job, of what is proposed for it, and of the least page texts with what the job asks for around them, which have this
/// many bytes at least: none where it is the job. The job is kept already where its pages take few bytes; else it is kept only where
/// something is compared, once what proposes has gone.
fn best_of<P: ShrinkWatcher>(
    source: ReadJob<'_>,
    proposal: Option<Proposal>,
    limit: usize,
    kept: KeptSoFar<'_>,
    watcher: P,
) -> Result<Option<Proposal>, JobFault>
    ensures { let at = source.entry.at in let job = source.entry.job.now in
        IsAcceptedAlso at.profile at.also job → IsLimit at.profile at.first job limit
        → AreKeptSoFar at.profile at.first at.also job kept.entry → IsBestWithin at.profile at.first at.also job result }
{
    one_meaning();
    written_jobs_say_copies_and_sizes();
    if proposal.is_none() && source.job.len() <= limit {
        return Ok(None);
    }
    let kept = keep_jobs(source, kept)?;
    watcher.pages_passed(Pass::Compare, kept.first.asks().pages.len());
    let best = looked_at(source, &kept, proposal)?;
    within(source, &kept, best, limit)
}

/// What is proposed where it is shorter than the job, has its pages and asks for the same.
fn looked_at(
    source: ReadJob<'_>,
    kept: &KeptJobs<'_>,
    proposal: Option<Proposal>,
) -> Result<Option<Proposal>, AllocError>
    ensures { let at = source.entry.at in let job = source.entry.job.now in
        AreKept at.profile at.first at.also job kept.now
        → IfOk result (λ best. IsBest at.profile at.first at.also job (best_bytes job best)) }
{
    one_meaning();
    match proposal {
        Some(proposal) => shorter(source, kept, None, proposal),
        None => Ok(None),
    }
}

/// The best job so far where it has no more than this many bytes, which is what the least page texts take with what the job asks for
/// around them. Else a proposal wasn't what it was to be: then it is compared with these.
fn within(
    source: ReadJob<'_>,
    kept: &KeptJobs<'_>,
    best: Option<Proposal>,
    limit: usize,
) -> Result<Option<Proposal>, JobFault>
    ensures { let at = source.entry.at in let job = source.entry.job.now in
        AreKept at.profile at.first at.also job kept.now → IsLimit at.profile at.first job limit
        → IsWithin at.profile at.first at.also job best result }
{
    one_meaning();
    written_jobs_say_copies_and_sizes();
    if best_len(source.job, &best) <= limit {
        return Ok(best);
    }
    let texts = texts_alone(source)?;
    let rasters = Proposal {
        job: asked_job(source.alloc, kept.first.asks(), &texts)?,
        by: Candidate::Raster,
    };
    Ok(shorter(source, kept, best, rasters)?)
}

/// A proposal where it is shorter than the best job so far, has the pages of the job that is kept and asks for the same; else the best
/// job so far, which is the job itself where there is none.
fn shorter(
    source: ReadJob<'_>,
    kept: &KeptJobs<'_>,
    best: Option<Proposal>,
    proposal: Proposal,
) -> Result<Option<Proposal>, AllocError>
    ensures { let at = source.entry.at in let job = source.entry.job.now in
        AreKept at.profile at.first at.also job kept.now
        → IfOk result (λ shorter. IsShorter at.profile at.first at.also job (best_bytes job best) proposal.job.items
        (best_bytes job shorter)) }
{
    if proposal.job.len() >= best_len(source.job, &best) {
        return Ok(best);
    }
    if !is_same(source.alloc, kept, &proposal.job, source.at)? {
        return Ok(best);
    }
    one_meaning();
    Ok(Some(proposal))
}

/// How many bytes the best job so far has.
fn best_len(job: &[u8], best: &Option<Proposal>) -> usize
    ensures { result ≡ length (best_bytes job.now best.now) }
{
    match best {
        Some(proposal) => proposal.job.len(),
        None => job.len(),
    }
}

/// The best job that was found, or else the job as it came, of this many pages.
fn best_or_input(
    source: ReadJob<'_>,
    best: Option<Proposal>,
    pages: usize,
) -> Result<Shrunk, AllocError>
    ensures job { IfOk result (λ shrunk. shrunk.job.items ≡ best_bytes source.entry.job.now best) }
    ensures pages { IfOk result (λ shrunk. shrunk.pages ≡ pages) }
    ensures doubt { IfOk result (λ shrunk. shrunk.doubt ≡ None) }
{
    match best {
        Some(Proposal { job, by }) => Ok(Shrunk {
            job,
            by,
            pages,
            doubt: None,
        }),
        None => Ok(Shrunk {
            job: Vec::from_slice(source.alloc, source.job)?,
            by: Candidate::Input,
            pages,
            doubt: None,
        }),
    }
}
