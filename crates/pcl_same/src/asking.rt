//! How what two jobs ask of the printer differs.

ghost use Rattle.std.specs.Prelude.{◌≡◌, ◌≢◌, ◌-◌, MatchOption, length, map, drop};
ghost use Rattle.pcl_page.specs.Asks.{asks_of, exit_of};
ghost use Rattle.pcl_same.specs.DifferingAsks.{IsFirstSetting, HaveSameSettings, IsAskedBy, ExitsDifferBy, AsksDifferBy, AreAtEnd, as_counted, counted_exits, is_end};
ghost use Rattle.pcl_same.specs.inner.Asking.{IsSettingDifference, IsPageDifference, IsExitDifference};

use crate::{AskedDifference, AsksDifference, ExitDifference, Setting, SettingDifference};
use pcl_page::{AskedPage, Asks, Exit};

/// What a universal exit counts for that stands after a job's last page, and has no lines, where it is the last one.
#[derive(Clone, Copy, Debug, PartialEq, Eq)]
pub enum LastExit {
    /// As much as any other.
    Counts,
    /// It ends the job, as the last byte of one without it does.
    Ends,
}

impl LastExit {
    /// The universal exits of a job that count, of all that it has.
    fn counted<'e, 'a>(self, asks: &'e Asks<'a>) -> &'e [Exit<'a>]
        ensures { map exit_of result.now ≡ counted_exits self (length asks.now.pages.items) (map exit_of asks.now.exits.items) }
    {
        let exits = asks.exits.as_slice();
        let count = match self {
            LastExit::Ends if ends_job(exits, asks.pages.len()) => exits.len() - 1,
            _ => exits.len(),
        };
        &exits[..count]
    }
}

/// Whether the last of a job's universal exits stands after all its pages, and has no lines.
fn ends_job(exits: &[Exit<'_>], pages: usize) -> bool
    ensures { result ≡ is_end pages (drop (length exits.now - 1) (map exit_of exits.now)) }
{
    match exits.last() {
        Some(last) => last.pages as usize == pages && last.lines.is_empty(),
        None => false,
    }
}

/// How what two jobs with as many pages ask of the printer differs, both at their end.
pub fn asks_difference(
    first: &Asks<'_>,
    second: &Asks<'_>,
    last: LastExit,
) -> Option<AsksDifference>
    ensures { length first.now.pages.items ≡ length second.now.pages.items → AreAtEnd (asks_of first.now) (asks_of second.now)
        → MatchOption result (as_counted last (asks_of first.now) ≡ as_counted last (asks_of second.now))
        (AsksDifferBy (as_counted last (asks_of first.now)) (as_counted last (asks_of second.now))) }
{
    if let Some(difference) = page_difference(&first.pages, &second.pages) {
        return Some(difference);
    }
    if let Some(difference) = exits_difference(last.counted(first), last.counted(second)) {
        return Some(difference);
    }
    if first.separation != second.separation {
        return Some(AsksDifference::Separation);
    }
    lasting_difference(first, second)
}

/// How what pages are asked with differs, first of those that both have.
fn page_difference(first: &[AskedPage], second: &[AskedPage]) -> Option<AsksDifference>
    ensures { length first.now ≡ length second.now
        → MatchOption result (first.now ≡ second.now) (IsPageDifference first.now second.now) }
{
    for place in 0..first.len().min(second.len()) {
        if let Some(difference) = asked_difference(&first[place], &second[place]) {
            let number = place + 1;
            return Some(AsksDifference::Page { number, difference });
        }
    }
    None
}

/// How what two pages are asked with differs.
fn asked_difference(one: &AskedPage, other: &AskedPage) -> Option<AskedDifference>
    ensures { MatchOption result (one.now ≡ other.now) (IsAskedBy one.now other.now) }
{
    if one.start.is_first != other.start.is_first {
        return Some(AskedDifference::Reset);
    }
    match setting_difference(one, other) {
        Some(difference) => Some(AskedDifference::Setting(difference)),
        None => None,
    }
}

/// The first setting that differs.
fn setting_difference(one: &AskedPage, other: &AskedPage) -> Option<SettingDifference>
    ensures { MatchOption result (HaveSameSettings one.now other.now) (IsFirstSetting one.now other.now) }
{
    let (said, others) = (one.said, other.said);
    differing(Setting::Copies, said.copies, others.copies)
        .or(differing(Setting::PageSize, said.page_size, others.page_size))
        .or(differing(Setting::PageLength, said.page_length, others.page_length))
        .or(differing(Setting::Orientation, said.orientation, others.orientation))
        .or(differing(Setting::Sides, said.sides, others.sides))
        .or(differing(Setting::OutputBin, said.output_bin, others.output_bin))
        .or(differing(Setting::MediaType, said.media_type, others.media_type))
        .or(differing(Setting::PaperSource, said.paper_source, others.paper_source))
        .or(differing(Setting::LeftOffset, said.left_offset, others.left_offset))
        .or(differing(Setting::TopOffset, said.top_offset, others.top_offset))
        .or(differing(Setting::TextScale, said.text_scale, others.text_scale))
        .or(differing(
            Setting::PrintQuality,
            said.print_quality,
            others.print_quality,
        ))
        .or(differing(Setting::Shingling, said.shingling, others.shingling))
        .or(differing(Setting::Depletion, said.depletion, others.depletion))
        .or(differing(
            Setting::RasterQuality,
            said.raster_quality,
            others.raster_quality,
        ))
        .or(differing(
            Setting::SheetSide,
            one.start.sheet_side,
            other.start.sheet_side,
        ))
        .or(differing(Setting::SizeAgain, one.start.size, other.start.size))
        .or(differing(Setting::SidesAgain, one.start.sides, other.start.sides))
        .or(differing(Setting::SourceAgain, one.start.source, other.start.source))
}

/// The values of a setting, where they differ.
fn differing(setting: Setting, first: Option<i64>, second: Option<i64>) -> Option<SettingDifference>
    ensures { MatchOption result (first ≡ second) (IsSettingDifference setting first second) }
{
    if first == second {
        return None;
    }
    Some(SettingDifference {
        setting,
        first,
        second,
    })
}

/// How two jobs differ in what the printer keeps, or ejects on some printers.
fn lasting_difference(first: &Asks<'_>, second: &Asks<'_>) -> Option<AsksDifference>
    ensures { MatchOption result ((first.now.lasts ≡ second.now.lasts) × (first.now.whole.now ≡ second.now.whole.now))
        (λ difference. (difference ≡ AsksDifference.Lasting)
        × ((first.now.lasts ≡ second.now.lasts) × (first.now.whole.now ≡ second.now.whole.now) → ⊥)) }
{
    if first.lasts == second.lasts && first.whole == second.whole {
        return None;
    }
    Some(AsksDifference::Lasting)
}

/// How universal exits differ: in their number, else at the first that differs.
fn exits_difference(first: &[Exit<'_>], second: &[Exit<'_>]) -> Option<AsksDifference>
    ensures { MatchOption result (map exit_of first.now ≡ map exit_of second.now)
        (IsExitDifference (map exit_of first.now) (map exit_of second.now)) }
{
    if first.len() != second.len() {
        return Some(AsksDifference::ExitCount {
            first: first.len(),
            second: second.len(),
        });
    }
    for place in 0..first.len() {
        if let Some(difference) = exit_difference(&first[place], &second[place]) {
            let number = place + 1;
            return Some(AsksDifference::Exit { number, difference });
        }
    }
    None
}

/// How a universal exit differs from another.
fn exit_difference(one: &Exit<'_>, other: &Exit<'_>) -> Option<ExitDifference>
    ensures { MatchOption result (exit_of one.now ≡ exit_of other.now) (ExitsDifferBy (exit_of one.now) (exit_of other.now)) }
{
    if one.pages != other.pages {
        return Some(ExitDifference::Place {
            first: one.pages,
            second: other.pages,
        });
    }
    if one.is_reset != other.is_reset {
        return Some(ExitDifference::Reset);
    }
    if one.lines != other.lines {
        return Some(ExitDifference::Lines);
    }
    None
}
