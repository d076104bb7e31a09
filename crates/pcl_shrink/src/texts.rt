//! The pages of a job as texts, and what letters for them are found by.

ghost use Rattle.pcl_shrink.specs.Texts.{HasTexts, HasTextsAlone};

use crate::rasters::{Text, page_text};
use crate::reading::ReadJob;
use crate::shifts::{Shift, form_of, shift_at};
use crate::watching::{NoWatcher, Pass, ShrinkWatcher};
use glyph_shapes::Collection;
use pcl_base::JobFault;
use pcl_page::{Asks, Page, PageSink, perform_observed};
use pcl_printers::{Doubt, Printers};
use pcl_same::PageKeeper;
use std::alloc::AllocError;
use std::marker::Model;

/// What is found in a job.
#[derive(Drop)]
pub struct Found<'a> {
    /// The shapes of its pages, by which its letters are found. Nothing is promised of them.
    pub shapes: Collection,
    /// Its pages, if they take few bytes.
    pub keeper: PageKeeper,
    /// What it asks of the printer.
    pub asks: Asks<'a>,
    /// What printers may read otherwise, if there is anything.
    pub doubt: Option<Doubt>,
}

/// The texts of the pages of a job as rasters, and what is found in it: the shapes of those pages whose dots are whole at 600 dots per
/// inch too, or half a dot lower there, and its pages, if these take no more than this many bytes. A refusal is the job's.
pub fn page_texts<'a, P: ShrinkWatcher>(
    source: ReadJob<'a>,
    shifts: &[Shift],
    room: usize,
    watcher: P,
) -> Result<(Vec<Text>, Found<'a>), JobFault>
    ensures { HasTexts source.entry.at.profile source.entry.at.first source.entry.job.now result }
{
    let ReadJob { alloc, job, at } = source;
    let mut writer = TextWriter {
        texts: Vec::new(alloc),
        shapes: Collection::new(alloc, form_of(at.profile, at.first, shifts)),
        keeper: PageKeeper::new(alloc, room),
        shifts,
        watcher,
    };
    let mut printers = Printers::new(at.first);
    let asks = perform_observed(alloc, job, at.profile, at.first, &mut printers, &mut writer)?;
    let found = Found {
        shapes: writer.shapes,
        keeper: writer.keeper,
        asks,
        doubt: printers.doubt(),
    };
    Ok((writer.texts, found))
}

/// The texts of the pages of a job as rasters, alone. A refusal is the job's.
pub fn texts_alone(source: ReadJob<'_>) -> Result<Vec<Text>, JobFault>
    ensures { HasTextsAlone source.entry.at.profile source.entry.at.first source.entry.job.now result }
{
    match page_texts(source, &[], 0, NoWatcher) {
        Ok((texts, _)) => Ok(texts),
        Err(fault) => Err(fault),
    }
}

/// Collects the shapes of the next page, whose text takes this many bytes as a raster, where its dots are whole at 600 dots per inch too,
/// or half a dot lower there.
fn collect(
    shapes: &mut Collection,
    page: &Page,
    shift: Shift,
    bytes: usize,
) -> Result<(), AllocError> {
    match shift {
        Shift::Whole | Shift::HalfLower => {
            shapes.add_room(bytes);
            shapes.page(page)
        }
        Shift::Other => shapes.pass_page(page),
    }
}

/// Writes the pages that come, collects their shapes, and keeps them.
#[derive(Drop)]
struct TextWriter<'b, P> {
    texts: Vec<Text>,
    shapes: Collection,
    keeper: PageKeeper,
    /// Where the dots of the pages lie at 600 dots per inch, if that counts.
    shifts: &'b [Shift],
    watcher: P,
}

impl<'b, P> Model for TextWriter<'b, P> {
    ghost use Rattle.pcl_same.specs.Kept.{kept_pages};
    ghost use Rattle.pcl_shrink.specs.Texts.{PagesRead, least_of};

    ghost Value = { PagesRead };

    ghost view = { λ a. record { texts = least_of a.texts.items; kept = kept_pages a.keeper } };
}

impl<'b, P: ShrinkWatcher> PageSink for TextWriter<'b, P> {
    ghost use Rattle.pcl_shrink.specs.Texts.{ReadsPage};

    ghost takes = { ReadsPage };

    fn page(&mut self, page: &Page) -> Result<(), AllocError> {
        let text = page_text(*self.texts.allocator(), page)?;
        let shift = shift_at(self.shifts, self.texts.len());
        collect(&mut self.shapes, page, shift, text.shortest_len())?;
        self.texts.push(text)?;
        self.keeper.keep(page);
        self.watcher.pages_passed(Pass::Read, self.texts.len());
        Ok(())
    }
}
