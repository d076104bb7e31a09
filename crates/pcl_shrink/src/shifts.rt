//! Where the dots of pages of 300 dots per inch lie at 600.

ghost use Rattle.pcl_shrink.specs.inner.Kept.{IsReadFinely};

use crate::keeping::room_of;
use crate::watching::{Pass, ShrinkWatcher};
use glyph_patterns::{FontKind, Form};
use glyph_shapes::are_equal;
use pcl_base::{Dpi, JobFault, Profile};
use pcl_bitmap::{Bitmap, trimmed_len};
use pcl_page::{Page, PageSink, perform_observed};
use pcl_printers::{Doubt, Printers};
use pcl_same::{KeptJob, PageKeeper};
use std::alloc::{AllocError, Global};
use std::marker::Model;

/// Where the dots of a page of 300 dots per inch lie at 600.
#[derive(Clone, Copy, Debug, PartialEq, Eq)]
pub enum Shift {
    /// Each is a square of two dots, from the upper left corner on.
    Whole,
    /// The same, half a dot lower.
    HalfLower,
    /// Neither.
    Other,
}

/// What is known of a job at 600 dots per inch.
#[derive(Drop)]
pub struct Fine<'a> {
    /// The shift of each page, if these were looked for.
    pub shifts: Vec<Shift>,
    /// What printers may read otherwise, if there is anything.
    pub doubt: Option<Doubt>,
    /// The job at this resolution, if its pages take few bytes.
    pub kept: Option<KeptJob<'a>>,
}

impl<'a> Fine<'a> {
    /// Nothing is known.
    pub fn unknown(alloc: Global) -> Fine<'a> {
        Fine {
            shifts: Vec::new(alloc),
            doubt: None,
            kept: None,
        }
    }
}

/// What is known of a job that a profile accepts at 600 dots per inch. A refusal is the job's.
pub fn look_finely<'a, P: ShrinkWatcher>(
    alloc: Global,
    job: &'a [u8],
    profile: Profile,
    watcher: P,
) -> Result<Fine<'a>, JobFault>
    ensures { IsReadFinely profile job.now result }
{
    let mut finder = ShiftFinder {
        shifts: Vec::new(alloc),
        keeper: PageKeeper::new(alloc, room_of(Dpi::Dpi600)),
        watcher,
    };
    let dpi = Dpi::Dpi600;
    let mut printers = Printers::new(dpi);
    let asks = perform_observed(alloc, job, profile, dpi, &mut printers, &mut finder)?;
    let ShiftFinder { shifts, keeper, .. } = finder;
    Ok(Fine {
        shifts,
        doubt: printers.doubt(),
        kept: keeper.finish(asks),
    })
}

/// How letters are printed on pages with these shifts, at a resolution: characters between dots are read in two ways, so pages that lie
/// half a dot lower at 600 dots per inch take macros. So do those at 600 dots per inch that are read by the stated profile, which knows
/// fonts of 300 alone.
pub fn form_of(profile: Profile, dpi: Dpi, shifts: &[Shift]) -> Form {
    match dpi {
        Dpi::Dpi300 if shifts.contains(&Shift::HalfLower) => Form::Macros { scale: 1 },
        Dpi::Dpi300 => characters(profile, 1),
        Dpi::Dpi600 => match profile {
            Profile::Stated => Form::Macros { scale: 2 },
            Profile::Drivers => characters(profile, 2),
        },
    }
}

/// Characters of fonts of as many dots for one at 300 dots per inch, which a profile reads: the drivers' reads compressed ones too.
fn characters(profile: Profile, scale: u32) -> Form {
    Form::Characters(FontKind {
        scale,
        compresses: profile == Profile::Drivers,
    })
}

/// The shift of the page of this number, from 0: whole where none was looked for.
pub fn shift_at(shifts: &[Shift], number: usize) -> Shift {
    shifts.get(number).copied().unwrap_or(Shift::Whole)
}

/// The shift of a page at 600 dots per inch.
fn shift_of(bitmap: &Bitmap) -> Shift {
    let row_bytes = bitmap.size().row_bytes(bitmap.dpi()).max(1);
    let bytes = bitmap.bytes();
    if !are_doubled(bytes) {
        return Shift::Other;
    }
    if are_pairs(bytes, row_bytes) {
        return Shift::Whole;
    }
    let (first, rest) = bytes.split_at(row_bytes.min(bytes.len()));
    if trimmed_len(first) == 0 && are_pairs(rest, row_bytes) {
        Shift::HalfLower
    } else {
        Shift::Other
    }
}

/// The right one of each two dots of eight bytes.
const RIGHT_DOTS: u64 = 0x5555_5555_5555_5555;

/// Whether each dot of some bytes is there twice.
fn are_doubled(bytes: &[u8]) -> bool {
    let (words, rest) = bytes.as_chunks::<8>();
    words
        .iter()
        .all(|word| is_doubled(u64::from_be_bytes(*word)))
        && rest.iter().all(|byte| is_doubled(u64::from(*byte)))
}

/// Whether each dot of eight bytes is there twice.
fn is_doubled(word: u64) -> bool {
    (word ^ (word >> 1)) & RIGHT_DOTS == 0
}

/// Whether rows of this many bytes are each there twice; the last one may be there once.
fn are_pairs(bytes: &[u8], row_bytes: usize) -> bool {
    let row_bytes = row_bytes.max(1);
    bytes
        .chunks(row_bytes.saturating_mul(2))
        .all(|rows| is_pair(rows, row_bytes))
}

/// Whether two rows of this many bytes are the same, if there are two.
fn is_pair(rows: &[u8], row_bytes: usize) -> bool {
    let (upper, lower) = rows.split_at(row_bytes.min(rows.len()));
    lower.is_empty() || are_equal(upper, lower)
}

/// Finds the shift of each page that comes, and keeps it.
#[derive(Drop)]
struct ShiftFinder<P> {
    shifts: Vec<Shift>,
    keeper: PageKeeper,
    watcher: P,
}

impl<P> Model for ShiftFinder<P> {
    ghost use Rattle.std.specs.Prelude.{List, Option};
    ghost use Rattle.pcl_same.specs.Kept.{kept_pages};
    ghost use Rattle.pcl_same.specs.declared.keeping.KeptPage.{KeptPage};

    ghost Value = { Option (List KeptPage) };

    ghost view = { λ a. kept_pages a.keeper };
}

impl<P: ShrinkWatcher> PageSink for ShiftFinder<P> {
    ghost use Rattle.pcl_same.specs.Kept.{KeepsWithin};

    ghost takes = { KeepsWithin };

    fn page(&mut self, page: &Page) -> Result<(), AllocError> {
        self.shifts.push(shift_of(&page.bitmap))?;
        self.keeper.keep(page);
        self.watcher.pages_passed(Pass::Paint, self.shifts.len());
        Ok(())
    }
}
