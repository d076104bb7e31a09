//! What a job may be written as.

ghost use Rattle.pcl_shrink.specs.inner.Proposals.{HasProposed};

use crate::Candidate;
use crate::candidate::Proposal;
use crate::keeping::room_of;
use crate::letter_jobs::letter_job;
use crate::raster_jobs::{asked_len, plain_job};
use crate::rasters::{Text, shortest_texts};
use crate::reading::{Original, ReadJob};
use crate::shifts::Shift;
use crate::texts::{Found, page_texts};
use crate::watching::ShrinkWatcher;
use glyph_pages::Lettering;
use glyph_shapes::Collection;
use pcl_base::JobFault;
use pcl_page::Asks;
use pcl_printers::Doubt;
use pcl_same::KeptJob;
use std::alloc::AllocError;

/// What is proposed for a job, and what it is measured by.
#[derive(Drop)]
pub struct Proposed<'a> {
    /// The shortest job that was made, of which nothing is promised: none where none is shorter than the job.
    pub proposal: Option<Proposal>,
    /// How many bytes the least page texts of the job take, with what it asks for around them.
    pub limit: usize,
    /// How many pages the job has.
    pub pages: usize,
    /// What printers may read otherwise in it, if there is anything.
    pub doubt: Option<Doubt>,
    /// The job, kept, if its pages take few bytes.
    pub kept: Option<KeptJob<'a>>,
}

/// Proposes a job with the pages of a job, which asks for what that asks for: its pages as their shortest rasters, or, where that is
/// shorter, with letters. Where the dots of its pages lie at 600 dots per inch is given if that counts. A refusal is the job's.
pub fn propose<'a, P: ShrinkWatcher>(
    source: ReadJob<'a>,
    shifts: &[Shift],
    watcher: P,
) -> Result<Proposed<'a>, JobFault>
    ensures { HasProposed source.entry.at.profile source.entry.at.first source.entry.job.now result }
{
    let room = room_of(source.at.first);
    let (texts, found) = page_texts(source, shifts, room, watcher)?;
    let Found {
        shapes,
        keeper,
        asks,
        doubt,
    } = found;
    let pages = texts.len();
    let limit = asked_len(source.alloc, &asks, &texts)?;
    let original = Original {
        source,
        shifts,
        asks: &asks,
    };
    let proposal = proposal_of(original, texts, shapes, watcher)?;
    Ok(Proposed {
        proposal,
        limit,
        pages,
        doubt,
        kept: keeper.finish(asks),
    })
}

/// The shorter of the texts of the pages, with this asked around them, and of a job with letters among these shapes: none where neither is
/// shorter than the job, nor where the job counts on what stays in the printer, so that only the job itself asks for the same, nor where
/// a page has dots that no page of 300 dots per inch has at 600.
fn proposal_of<P: ShrinkWatcher>(
    original: Original<'_, '_>,
    texts: Vec<Text>,
    shapes: Collection,
    watcher: P,
) -> Result<Option<Proposal>, AllocError> {
    let Original {
        source,
        shifts,
        asks,
    } = original;
    if asks.lasts || shifts.contains(&Shift::Other) {
        return Ok(None);
    }
    let by = raster_kind(&texts);
    let plain = shortest_texts(source.alloc, texts, shifts)?;
    match propose_letters(original, &plain, shapes, watcher)? {
        Some(job) => Ok(Some(Proposal {
            job,
            by: Candidate::Glyphs,
        })),
        None => {
            let job = plain_job(source.alloc, asks, plain, source.job.len())?;
            Ok(proposal_by(by, job))
        }
    }
}

/// A job that was made in some way, if it was.
fn proposal_by(by: Candidate, job: Option<Vec<u8>>) -> Option<Proposal> {
    Some(Proposal { job: job?, by })
}

/// What the shortest texts of pages are called.
fn raster_kind(texts: &[Text]) -> Candidate {
    if texts.iter().any(|text| text.coarse.is_some()) {
        Candidate::Coarse
    } else {
        Candidate::Raster
    }
}

/// A job with letters among these shapes, where that is shorter than these texts of its pages and than the job.
fn propose_letters<P: ShrinkWatcher>(
    original: Original<'_, '_>,
    plain: &[Vec<u8>],
    shapes: Collection,
    watcher: P,
) -> Result<Option<Vec<u8>>, AllocError> {
    if original.shifts.contains(&Shift::HalfLower) && says_length(original.asks) {
        return Ok(None);
    }
    let source = original.source;
    let lettering = Lettering::new(source.alloc, shapes, source.job.len())?;
    lettered(original, plain, &lettering, watcher)
}

/// Whether the length of a page is said: in lines, of which pages that lie half a dot lower set the spacing, and line feeds too.
pub fn says_length(asks: &Asks<'_>) -> bool {
    asks.pages
        .iter()
        .any(|page| page.said.page_length.is_some())
}

/// A job with these letters, where there are any and it is shorter than these texts of its pages and than the job.
fn lettered<P: ShrinkWatcher>(
    original: Original<'_, '_>,
    plain: &[Vec<u8>],
    lettering: &Lettering,
    watcher: P,
) -> Result<Option<Vec<u8>>, AllocError> {
    if lettering.is_empty() {
        Ok(None)
    } else {
        letter_job(original, plain, lettering, watcher)
    }
}
