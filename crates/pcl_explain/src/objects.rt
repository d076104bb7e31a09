//! Findings as JSON.

ghost use Rattle.std.specs.Prelude.{◌≡◌, IfOk};
ghost use Rattle.pcl_explain.specs.Findings.{ExplainsAsObject, ExplainsKindAsObject, refusal_string};

use crate::advice::advice_on_kind;
use crate::languages::language_of;
use crate::lines::{WHOLE, advice_on};
use crate::refusals::find_refusals;
use crate::{Finding, Findings};
use pcl_base::{Dpi, Kind, Profile, Refusal, Sign, Value as Number};
use serde::Serialize;
use serde_json::Value;
use std::alloc::{AllocError, Global};

/// What is said of a finding.
#[derive(Drop, Serialize)]
struct Reason {
    kind: &'static str,
    /// In bytes from the job's start.
    at: usize,
    /// The name of the command, or `-`.
    command: String,
    /// The whole part of its value, where it has one.
    value: Option<i64>,
    times: usize,
    advice: &'static str,
}

/// All that is said of a job that is refused.
#[derive(Drop, Serialize)]
struct Reasons {
    refused: Vec<Reason>,
    /// What is said of a job in another language.
    language: Option<&'static str>,
}

/// An object on all that a profile refuses in a job, on a line: whether it is `accepted`, else its `refusal` as messages print it, what is
/// `refused` and what can be done, and what is said of its `language` where that is another than PCL 5.
pub fn explanation_object(
    alloc: Global,
    job: &[u8],
    profile: Profile,
    dpi: Dpi,
) -> Result<Vec<u8>, AllocError>
    ensures { IfOk result (λ text. ExplainsAsObject profile dpi job.now text.items) }
{
    match find_refusals(alloc, job, profile, dpi)? {
        None => Vec::from_slice(
            alloc,
            b"{\"accepted\":true,\"refusal\":null,\"refused\":[],\"language\":null}\n",
        ),
        Some(findings) => {
            let mut text = Vec::from_slice(alloc, b"{\"accepted\":false,\"refusal\":")?;
            text.extend_from_slice(&refusal_string(alloc, findings.first.refusal)?)?;
            text.extend_from_slice(b",")?;
            text.extend_from_slice(&members(alloc, job, &findings)?)?;
            Ok(text)
        }
    }
}

/// A refusal as messages print it, as a string of JSON.
fn refusal_string(alloc: Global, refusal: Refusal) -> Result<Vec<u8>, AllocError>
    ensures { IfOk result (λ text. text.items ≡ refusal_string refusal) }
{
    let mut text = Vec::new(alloc);
    refusal.write_text(&mut text)?;
    let string = Value::String(String::from_utf8_lossy(alloc, &text)?).to_string(alloc)?;
    Ok(string.into_bytes())
}

/// An object on a kind of refusal, on a line.
pub fn kind_object(alloc: Global, kind: Kind) -> Result<Vec<u8>, AllocError>
    ensures { IfOk result (λ text. ExplainsKindAsObject kind text.items) }
{
    let mut text = Vec::from_slice(alloc, b"{\"kind\":\"")?;
    text.extend_from_slice(kind.name().as_bytes())?;
    text.extend_from_slice(&rest_of_kind(alloc, kind)?)?;
    Ok(text)
}

/// What stands after the name of a kind.
fn rest_of_kind(alloc: Global, kind: Kind) -> Result<Vec<u8>, AllocError> {
    let mut rest = Vec::from_slice(alloc, b"\",\"advice\":")?;
    let advice = serde_json::to_vec(alloc, &advice_on_kind(kind)).map_err(|_| AllocError)?;
    rest.extend_from_slice(&advice)?;
    rest.extend_from_slice(b"}\n")?;
    Ok(rest)
}

/// What stands in the object of a refused job after its refusal.
fn members(alloc: Global, job: &[u8], findings: &Findings) -> Result<Vec<u8>, AllocError> {
    let mut refused = Vec::new(alloc);
    refused.push(reason_of(alloc, &findings.first)?)?;
    for finding in findings.later.iter() {
        refused.push(reason_of(alloc, finding)?)?;
    }
    let reasons = Reasons {
        refused,
        language: language_of(job).map(|language| language.text()),
    };
    let object = serde_json::to_vec(alloc, &reasons).map_err(|_| AllocError)?;
    let mut members = Vec::from_slice(alloc, object.get(1..).unwrap_or(&[]))?;
    members.push(b'\n')?;
    Ok(members)
}

/// What is said of a finding.
fn reason_of(alloc: Global, finding: &Finding) -> Result<Reason, AllocError> {
    let mut name = Vec::new(alloc);
    finding.refusal.name.write_text(&mut name)?;
    Ok(Reason {
        kind: finding.refusal.kind.name(),
        at: finding.refusal.at,
        command: String::from_utf8(name).unwrap_or(String::new(alloc)),
        value: finding.refused_value().map(|value| whole(value)),
        times: finding.times,
        advice: advice_on(finding),
    })
}

/// The whole part of a value, with its sign.
fn whole(value: Number) -> i64 {
    let whole = i64::from(value.parts / WHOLE);
    match value.sign {
        Sign::Minus => -whole,
        Sign::Absent | Sign::Plus => whole,
    }
}
