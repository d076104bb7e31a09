//! Findings as lines.

ghost use Rattle.std.specs.Prelude.{IfOk};
ghost use Rattle.pcl_explain.specs.Findings.{Explains};

use crate::advice::{advice_on_kind, advice_on_name};
use crate::languages::language_of;
use crate::refusals::find_refusals;
use crate::{Finding, Findings};
use itoa::Buffer;
use pcl_base::{Dpi, Kind, Profile, Sign, Value};
use std::alloc::{AllocError, Global};

/// As many parts of a value make a whole.
pub(crate) const WHOLE: u32 = 10_000;

/// A line for each thing that a profile refuses in a job, or `nothing is refused`. One line is on the job's language where that is
/// another than PCL 5.
pub fn explanation(
    alloc: Global,
    job: &[u8],
    profile: Profile,
    dpi: Dpi,
) -> Result<Vec<u8>, AllocError>
    ensures { IfOk result (λ text. Explains profile dpi job.now text.items) }
{
    match find_refusals(alloc, job, profile, dpi)? {
        None => Vec::from_slice(alloc, b"nothing is refused\n"),
        Some(findings) => {
            let mut text = Vec::new(alloc);
            findings.first.refusal.write_text(&mut text)?;
            text.extend_from_slice(&text_after(alloc, job, &findings)?)?;
            Ok(text)
        }
    }
}

/// What stands after the first refusal: the rest of its line, the lines of the findings after it, and one on the language of a
/// job that isn't in PCL 5.
fn text_after(alloc: Global, job: &[u8], findings: &Findings) -> Result<Vec<u8>, AllocError> {
    let mut text = Vec::new(alloc);
    append_rest(&findings.first, &mut text)?;
    for finding in findings.later.iter() {
        finding.refusal.write_text(&mut text)?;
        append_rest(finding, &mut text)?;
    }
    if let Some(language) = language_of(job) {
        append_advice(language.text(), &mut text)?;
    }
    Ok(text)
}

/// Appends what stands after the refusal in the line of a finding: the value where that is refused, how many commands of the job
/// are like it where there are more, and what can be done.
fn append_rest(finding: &Finding, out: &mut Vec<u8>) -> Result<(), AllocError> {
    if let Some(value) = finding.refused_value() {
        out.extend_from_slice(b" ")?;
        append_value(value, out)?;
    }
    if finding.times > 1 {
        out.extend_from_slice(b" (")?;
        append_number(finding.times, out)?;
        out.extend_from_slice(b" times)")?;
    }
    out.extend_from_slice(b": ")?;
    append_advice(advice_on(finding), out)
}

/// What can be done about a finding.
pub(crate) fn advice_on(finding: &Finding) -> &'static str {
    match advice_on_name(finding.refusal.name) {
        Some(advice) if is_of_name(finding.refusal.kind) => advice,
        _ => advice_on_kind(finding.refusal.kind),
    }
}

/// Appends an advice as a line.
fn append_advice(advice: &str, out: &mut Vec<u8>) -> Result<(), AllocError> {
    out.extend_from_slice(advice.as_bytes())?;
    out.extend_from_slice(b"\n")
}

/// Whether the name says more of a refusal than its kind does.
fn is_of_name(kind: Kind) -> bool {
    matches!(kind, Kind::UnsupportedCommand | Kind::UnsupportedValue)
}

/// Appends the whole part of a value with its sign.
fn append_value(value: Value, out: &mut Vec<u8>) -> Result<(), AllocError> {
    match value.sign {
        Sign::Absent => {}
        Sign::Plus => out.extend_from_slice(b"+")?,
        Sign::Minus => out.extend_from_slice(b"-")?,
    }
    append_number((value.parts / WHOLE) as usize, out)
}

/// Appends a number in decimal.
fn append_number(number: usize, out: &mut Vec<u8>) -> Result<(), AllocError> {
    let mut digits = Buffer::new();
    out.extend_from_slice(digits.format(number).as_bytes())
}
