//! What the program says of two compared jobs.

ghost use Rattle.std.specs.Prelude.{◌≡◌, ◌++◌, IfOk, OnOk};
ghost use Rattle.pcl_messages.specs.ComparisonLines.{pair_text, difference_text, pages_text, comparison_text, comparison_line_of, are_same};
ghost use Rattle.pcl_messages.specs.ComparisonLines.{setting_label, setting_text, asked_text, number_text, value_text, exit_text, asks_text};
ghost use Rattle.pcl_messages.specs.ComparisonLines.{comparison_status_for, refused_job_text, compare_line_of, compare_status_for};

use crate::compare_fault::CompareFault;
use crate::faults::{NEGATIVE_STATUS, fault_line, fault_status};
use crate::layouts::laid_out;
use crate::texts::append_subject;
use itoa::Buffer;
use pcl_env::append_offset;
use pcl_request::Layout;
use pcl_same::{
    AskedComparison, AskedDifference, AsksDifference, Difference, ExitDifference, PagesDifference,
    Setting, SettingDifference, Which,
};
use std::alloc::{AllocError, Global};

/// What is said of how two jobs compare, in a layout.
pub fn comparison_line(
    alloc: Global,
    layout: Layout,
    comparison: &AskedComparison,
) -> Result<Vec<u8>, AllocError>
    ensures { IfOk result (λ line. line.items ≡ comparison_line_of layout comparison.now) }
{
    let mut text = Vec::new(alloc);
    append_comparison(*comparison, &mut text)?;
    laid_out(alloc, layout, b"same", are_same(comparison), &text)
}

/// Whether two jobs compare as the same.
fn are_same(comparison: &AskedComparison) -> bool
    ensures { result ≡ are_same comparison.now }
{
    matches!(comparison, AskedComparison::Same)
}

/// Appends how two jobs compare.
fn append_comparison(comparison: AskedComparison, line: &mut Vec<u8>) -> Result<(), AllocError>
    ensures { OnOk result (line.new.items ≡ line.old.items ++ comparison_text comparison) }
{
    match comparison {
        AskedComparison::Same => line.extend_from_slice(b"same"),
        AskedComparison::Pages(difference) => append_pages(difference, line),
        AskedComparison::Asks(difference) => append_asks(difference, line),
    }
}

/// Appends how the pages of two jobs differ.
fn append_pages(difference: PagesDifference, line: &mut Vec<u8>) -> Result<(), AllocError>
    ensures { OnOk result (line.new.items ≡ line.old.items ++ pages_text difference) }
{
    match difference {
        PagesDifference::Count { first, second } => append_pair(
            b"not the same: page count ",
            Buffer::new().format(first).as_bytes(),
            Buffer::new().format(second).as_bytes(),
            line,
        ),
        PagesDifference::Page { number, difference } => {
            append_subject(b"not the same: page ", number, line)?;
            append_difference(difference, line)
        }
    }
}

/// Appends how what two jobs ask of the printer differs.
fn append_asks(difference: AsksDifference, line: &mut Vec<u8>) -> Result<(), AllocError>
    ensures { OnOk result (line.new.items ≡ line.old.items ++ asks_text difference) }
{
    match difference {
        AsksDifference::Page { number, difference } => {
            append_subject(b"not the same: page ", number, line)?;
            append_asked(difference, line)
        }
        AsksDifference::ExitCount { first, second } => append_pair(
            b"not the same: exit count ",
            Buffer::new().format(first).as_bytes(),
            Buffer::new().format(second).as_bytes(),
            line,
        ),
        AsksDifference::Exit { number, difference } => {
            append_subject(b"not the same: exit ", number, line)?;
            append_exit(difference, line)
        }
        AsksDifference::Separation => line.extend_from_slice(b"not the same: job separation"),
        AsksDifference::Lasting => {
            line.extend_from_slice(b"not the same: what the printer keeps or ejects")
        }
    }
}

/// Appends how what two pages are asked with differs.
fn append_asked(difference: AskedDifference, line: &mut Vec<u8>) -> Result<(), AllocError>
    ensures { OnOk result (line.new.items ≡ line.old.items ++ asked_text difference) }
{
    match difference {
        AskedDifference::Reset => line.extend_from_slice(b"reset"),
        AskedDifference::Setting(difference) => append_setting(difference, line),
    }
}

/// Appends the setting that two pages are asked with, and its values.
fn append_setting(difference: SettingDifference, line: &mut Vec<u8>) -> Result<(), AllocError>
    ensures { OnOk result (line.new.items ≡ line.old.items ++ setting_text difference) }
{
    line.extend_from_slice(setting_label(difference.setting))?;
    append_value(difference.setting, difference.first, line)?;
    line.extend_from_slice(b" ")?;
    append_value(difference.setting, difference.second, line)
}

/// Appends the value of a setting, if it was said.
fn append_value(setting: Setting, value: Option<i64>, line: &mut Vec<u8>) -> Result<(), AllocError>
    ensures { OnOk result (line.new.items ≡ line.old.items ++ value_text setting value) }
{
    match value {
        Some(value) => append_number(setting, value, line),
        None => line.extend_from_slice(b"none"),
    }
}

/// Appends a value: an offset in decipoints with its decimals, all others as whole numbers.
fn append_number(setting: Setting, value: i64, line: &mut Vec<u8>) -> Result<(), AllocError>
    ensures { OnOk result (line.new.items ≡ line.old.items ++ number_text setting value) }
{
    match setting {
        Setting::LeftOffset | Setting::TopOffset => append_offset(value, line),
        Setting::Copies
        | Setting::PageSize
        | Setting::PageLength
        | Setting::Orientation
        | Setting::Sides
        | Setting::OutputBin
        | Setting::MediaType
        | Setting::PaperSource
        | Setting::TextScale
        | Setting::PrintQuality
        | Setting::Shingling
        | Setting::Depletion
        | Setting::RasterQuality
        | Setting::SheetSide
        | Setting::SizeAgain
        | Setting::SidesAgain
        | Setting::SourceAgain => line.extend_from_slice(Buffer::new().format(value).as_bytes()),
    }
}

/// What a page is asked with, as a label.
fn setting_label(setting: Setting) -> &'static [u8]
    ensures { result.now ≡ setting_label setting }
{
    match setting {
        Setting::Copies => b"copies ",
        Setting::PageSize => b"size ",
        Setting::PageLength => b"length ",
        Setting::Orientation => b"orientation ",
        Setting::Sides => b"sides ",
        Setting::OutputBin => b"bin ",
        Setting::MediaType => b"media ",
        Setting::PaperSource => b"source ",
        Setting::LeftOffset => b"left offset ",
        Setting::TopOffset => b"top offset ",
        Setting::TextScale => b"text scale ",
        Setting::PrintQuality => b"print quality ",
        Setting::Shingling => b"shingling ",
        Setting::Depletion => b"depletion ",
        Setting::RasterQuality => b"raster quality ",
        Setting::SheetSide => b"side ",
        Setting::SizeAgain => b"size again ",
        Setting::SidesAgain => b"sides again ",
        Setting::SourceAgain => b"source again ",
    }
}

/// Appends how two universal exits differ.
fn append_exit(difference: ExitDifference, line: &mut Vec<u8>) -> Result<(), AllocError>
    ensures { OnOk result (line.new.items ≡ line.old.items ++ exit_text difference) }
{
    match difference {
        ExitDifference::Place { first, second } => append_pair(
            b"pages before ",
            Buffer::new().format(first).as_bytes(),
            Buffer::new().format(second).as_bytes(),
            line,
        ),
        ExitDifference::Reset => line.extend_from_slice(b"reset"),
        ExitDifference::Lines => line.extend_from_slice(b"lines"),
    }
}

/// Appends how two pages differ.
fn append_difference(difference: Difference, line: &mut Vec<u8>) -> Result<(), AllocError>
    ensures { OnOk result (line.new.items ≡ line.old.items ++ difference_text difference) }
{
    match difference {
        Difference::Size { first, second } => {
            append_pair(
                b"size ",
                first.name().as_bytes(),
                second.name().as_bytes(),
                line,
            )
        }
        Difference::Copies { first, second } => append_pair(
            b"copies ",
            Buffer::new().format(first).as_bytes(),
            Buffer::new().format(second).as_bytes(),
            line,
        ),
        Difference::Dot { x, y } => append_pair(
            b"dot ",
            Buffer::new().format(x).as_bytes(),
            Buffer::new().format(y).as_bytes(),
            line,
        ),
    }
}

/// Appends a label, and two words with a space between them.
fn append_pair(
    label: &[u8],
    first: &[u8],
    second: &[u8],
    line: &mut Vec<u8>,
) -> Result<(), AllocError>
    ensures { OnOk result (line.new.items ≡ line.old.items ++ pair_text label.now first.now second.now) }
{
    line.extend_from_slice(label)?;
    line.extend_from_slice(first)?;
    line.extend_from_slice(b" ")?;
    line.extend_from_slice(second)
}

/// The status of a run that compared two jobs so.
pub(crate) fn comparison_status(comparison: &AskedComparison) -> u8
    ensures { result ≡ comparison_status_for comparison.now }
{
    match comparison {
        AskedComparison::Same => 0,
        AskedComparison::Pages(_) | AskedComparison::Asks(_) => NEGATIVE_STATUS,
    }
}

/// The line for a fault of a comparison, with its line feed.
pub fn compare_fault_line(alloc: Global, fault: &CompareFault) -> Result<Vec<u8>, AllocError>
    ensures { IfOk result (λ line. line.items ≡ compare_line_of fault.now) }
{
    match fault {
        CompareFault::Refused { which, refusal } => {
            let mut line = Vec::from_slice(alloc, b"pclmin: ")?;
            line.extend_from_slice(refused_job(*which))?;
            refusal.write_text(&mut line)?;
            line.extend_from_slice(b"\n")?;
            Ok(line)
        }
        CompareFault::Failed(fault) => fault_line(alloc, fault, 0),
    }
}

/// What is said of a refused job before its refusal.
fn refused_job(which: Which) -> &'static [u8]
    ensures { result.now ≡ refused_job_text which }
{
    match which {
        Which::First => b"first job refused: ",
        Which::Second => b"second job refused: ",
    }
}

/// The status of a comparison that failed so.
pub(crate) fn compare_fault_status(fault: &CompareFault) -> u8
    ensures { result ≡ compare_status_for fault.now }
{
    match fault {
        CompareFault::Refused { .. } => NEGATIVE_STATUS,
        CompareFault::Failed(fault) => fault_status(fault),
    }
}
