//! Performing whole jobs.

ghost use Rattle.pcl_escape.specs.Said.{views};
ghost use Rattle.pcl_page.specs.Performing.{performance};
ghost use Rattle.pcl_page.specs.Delivering.{HandsOver, HandsOverAsked};
ghost use Rattle.std.specs.Prelude.{◌≡◌, ℕ, List};
ghost use Rattle.pcl_base.specs.declared.dpi.Dpi.{Dpi};
ghost use Rattle.pcl_base.specs.declared.profile.Profile.{Profile};
ghost use Rattle.pcl_base.specs.declared.profile.Profile.TheVariants.{Stated};
ghost use Rattle.pcl_base.specs.declared.refusal.Refusal.{Refusal};
ghost use Rattle.pcl_page.specs.Situation.{Sheet};
ghost use Rattle.pcl_page.specs.Asks.{Asks as AsksOfJob};
ghost use Rattle.pcl_page.specs.Jobs.{HasPagesBy, HasAsksBy};
ghost use Rattle.pcl_page.specs.Delivering.{IsRefusalBy, Delivers, DeliversBy, DeliversAsked, IsPagesOf};

use crate::asks::Asks;
use crate::interpreter::Interpreter;
use crate::observing::{NoObserver, Observer};
use crate::{Page, PageSink};
use pcl_base::{Dpi, JobFault, Profile};
use pcl_escape::{Command, CommandList, one_outcome, read_commands};
use std::alloc::{AllocError, Global};
use std::marker::Model;

/// Performs the commands of a job of `end` bytes, by the stated profile, and hands its pages to the sink, in order, each once.
/// One bitmap is painted, handed over and cleared. A refusal names the first refused command; the sink
/// has then taken the pages that were ejected before it. Where memory runs out it has taken the first
/// of its pages.
pub fn run<'a, S: PageSink>(
    alloc: Global,
    commands: &[Command<'a>],
    end: usize,
    dpi: Dpi,
    sink: &mut S,
) -> Result<(), JobFault>
    ensures { HandsOver S.takes dpi (performance Stated dpi end (views commands.now)) result sink.old sink.new }
{
    run_asked(alloc, commands, end, Profile::Stated, dpi, sink)?;
    Ok(())
}

/// The same as [`run`], by a profile; where nothing is refused it gives what the commands ask of the printer besides dots.
pub fn run_asked<'a, S: PageSink>(
    alloc: Global,
    commands: &[Command<'a>],
    end: usize,
    profile: Profile,
    dpi: Dpi,
    sink: &mut S,
) -> Result<Asks<'a>, JobFault>
    ensures { HandsOverAsked S.takes dpi (performance profile dpi end (views commands.now)) result sink.old sink.new }
{
    run_list(alloc, &commands, end, profile, dpi, &mut NoObserver, sink)
}

/// The same for any list of commands, by a profile, before an observer.
fn run_list<'a, L: CommandList<'a>, O: Observer, S: PageSink>(
    alloc: Global,
    commands: &L,
    end: usize,
    profile: Profile,
    dpi: Dpi,
    observer: &mut O,
    sink: &mut S,
) -> Result<Asks<'a>, JobFault>
    ensures { HandsOverAsked S.takes dpi (performance profile dpi end (L.commands commands.now)) result sink.old sink.new }
{
    let mut interpreter: Interpreter<'a> = Interpreter::new(alloc, profile, dpi)?;
    interpreter.perform_all(commands, end, dpi, observer, sink)?;
    let performer = interpreter.performer;
    Ok(performer.asks)
}

/// Reads a job, performs it by the stated profile, and hands its pages to the sink, in order, each once. A refusal is the job's:
/// its first fault, or that of the first command that is refused.
pub fn perform<S: PageSink>(
    alloc: Global,
    job: &[u8],
    dpi: Dpi,
    sink: &mut S,
) -> Result<(), JobFault>
    ensures { Delivers S.takes dpi job.now result sink.old sink.new }
{
    perform_by(alloc, job, Profile::Stated, dpi, sink)
}

/// The same as [`perform`], by a profile.
pub fn perform_by<S: PageSink>(
    alloc: Global,
    job: &[u8],
    profile: Profile,
    dpi: Dpi,
    sink: &mut S,
) -> Result<(), JobFault>
    ensures { DeliversBy S.takes profile dpi job.now result sink.old sink.new }
{
    perform_asked(alloc, job, profile, dpi, sink)?;
    Ok(())
}

/// The same as [`perform_by`]; where the job is accepted it gives what the job asks of the printer besides dots: what each page
/// is asked with, the universal exits with their lines, and where something counts on what stays in the printer, the job's bytes.
pub fn perform_asked<'a, S: PageSink>(
    alloc: Global,
    job: &'a [u8],
    profile: Profile,
    dpi: Dpi,
    sink: &mut S,
) -> Result<Asks<'a>, JobFault>
    ensures { DeliversAsked S.takes profile dpi job.now result sink.old sink.new }
{
    perform_observed(alloc, job, profile, dpi, &mut NoObserver, sink)
}

/// The same as [`perform_asked`], before an observer, who is told how it goes. Nothing is promised of what it makes of that.
pub fn perform_observed<'a, O: Observer, S: PageSink>(
    alloc: Global,
    job: &'a [u8],
    profile: Profile,
    dpi: Dpi,
    observer: &mut O,
    sink: &mut S,
) -> Result<Asks<'a>, JobFault>
    ensures { DeliversAsked S.takes profile dpi job.now result sink.old sink.new }
{
    let commands = read_commands(alloc, profile, job)?;
    let asks = run_list(alloc, &commands, job.len(), profile, dpi, observer, sink)?;
    Ok(asks.of_job(job))
}

/// The pages of a job by the stated profile, in order.
pub fn read_pages(alloc: Global, job: &[u8], dpi: Dpi) -> Result<Vec<Page>, JobFault>
    ensures { IsPagesOf dpi job.now result }
{
    let mut collected = Collected {
        pages: Vec::new(alloc),
    };
    perform(alloc, job, dpi, &mut collected)?;
    Ok(collected.pages)
}

/// By a profile a job has one list of pages at most, asks one thing of the printer, has one refusal at most, and is never both accepted and
/// refused. A law: the call does nothing.
pub fn one_meaning()
    ensures pages { (profile : Profile) (dpi : Dpi) (job : List ℕ) (pages others : List Sheet) → HasPagesBy profile dpi job pages
        → HasPagesBy profile dpi job others → pages ≡ others }
    ensures asks { (profile : Profile) (dpi : Dpi) (job : List ℕ) (asks others : AsksOfJob) → HasAsksBy profile dpi job asks
        → HasAsksBy profile dpi job others → asks ≡ others }
    ensures refusal { (profile : Profile) (dpi : Dpi) (job : List ℕ) (refusal other : Refusal) → IsRefusalBy profile dpi job refusal
        → IsRefusalBy profile dpi job other → refusal ≡ other }
    ensures apart { (profile : Profile) (dpi : Dpi) (job : List ℕ) (pages : List Sheet) (refusal : Refusal)
        → HasPagesBy profile dpi job pages → IsRefusalBy profile dpi job refusal → ⊥ }
{
    one_outcome();
}

/// The pages that were taken.
#[derive(Drop)]
struct Collected {
    pages: Vec<Page>,
}

impl Model for Collected {
    ghost use Rattle.std.specs.Prelude.{List};
    ghost use Rattle.pcl_bitmap.specs.declared.page.Page.{Page};

    ghost Value = { List Page };

    ghost view = { λ a. a.pages.items };
}

impl PageSink for Collected {
    ghost use Rattle.std.specs.Prelude.{◌≡◌, ◌++◌, ◌∷◌, []};
    ghost use Rattle.pcl_bitmap.specs.declared.page.Page.{Page};
    ghost use Rattle.pcl_bitmap.specs.Page.{IsSamePage};

    ghost takes = { λ old page new. (copy : Page) × (new ≡ old ++ copy ∷ []) × IsSamePage page copy };

    fn page(&mut self, page: &Page) -> Result<(), AllocError> {
        self.pages.push(page.try_clone()?)?;
        Ok(())
    }
}
