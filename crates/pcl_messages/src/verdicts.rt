//! What the program says of a checked job.

ghost use Rattle.std.specs.Prelude.{◌≡◌, ◌++◌, IfOk, OnOk};
ghost use Rattle.pcl_messages.specs.Verdicts.{fault_text, numbers_text, verdict_text, job_text, answer_text, answer_line_of, is_proved};
ghost use Rattle.pcl_messages.specs.Verdicts.{answer_status_for, verdict_status_for};

use crate::faults::NEGATIVE_STATUS;
use crate::layouts::laid_out;
use crate::texts::append_subject;
use itoa::Buffer;
use pcl_base::Method;
use pcl_cert::{CertFault, Verdict};
use pcl_request::Layout;
use pcl_tool::{CheckAnswer, JobVerdict};
use std::alloc::{AllocError, Global};

/// What is said of what a check answers, in a layout.
pub fn answer_line(
    alloc: Global,
    layout: Layout,
    answer: &CheckAnswer,
) -> Result<Vec<u8>, AllocError>
    ensures { IfOk result (λ line. line.items ≡ answer_line_of layout answer.now) }
{
    let mut text = Vec::new(alloc);
    append_answer(*answer, &mut text)?;
    laid_out(alloc, layout, b"proved", is_proved(answer), &text)
}

/// Appends what a check answers.
fn append_answer(answer: CheckAnswer, line: &mut Vec<u8>) -> Result<(), AllocError>
    ensures { OnOk result (line.new.items ≡ line.old.items ++ answer_text answer) }
{
    match answer {
        CheckAnswer::OtherImages => line.extend_from_slice(b"not proved: images"),
        CheckAnswer::Job(verdict) => append_job(verdict, line),
    }
}

/// Whether a check answers that the job is proved.
fn is_proved(answer: &CheckAnswer) -> bool
    ensures { result ≡ is_proved answer.now }
{
    matches!(answer, CheckAnswer::Job(JobVerdict::Proved))
}

/// Appends what is said of a job.
fn append_job(verdict: JobVerdict, line: &mut Vec<u8>) -> Result<(), AllocError>
    ensures { OnOk result (line.new.items ≡ line.old.items ++ job_text verdict) }
{
    match verdict {
        JobVerdict::Certificate(fault) => {
            line.extend_from_slice(b"not proved: certificate ")?;
            line.extend_from_slice(fault_name(fault))
        }
        JobVerdict::PageCount => line.extend_from_slice(b"not proved: page count"),
        JobVerdict::Frame => line.extend_from_slice(b"not proved: frame"),
        JobVerdict::Page { page, verdict } => {
            append_subject(b"not proved: page ", page, line)?;
            append_verdict(verdict, line)
        }
        JobVerdict::Proved => line.extend_from_slice(b"proved"),
    }
}

/// Appends what is said of a page.
fn append_verdict(verdict: Verdict, line: &mut Vec<u8>) -> Result<(), AllocError>
    ensures { OnOk result (line.new.items ≡ line.old.items ++ verdict_text verdict) }
{
    match verdict {
        Verdict::NotGrammar => line.extend_from_slice(b"NotGrammar"),
        Verdict::OtherPage => line.extend_from_slice(b"OtherPage"),
        Verdict::Rows => line.extend_from_slice(b"Rows"),
        Verdict::Place { row, method, place } => {
            line.extend_from_slice(b"Place")?;
            append_numbers(row, method, line)?;
            line.extend_from_slice(b" place ")?;
            line.extend_from_slice(Buffer::new().format(place).as_bytes())
        }
        Verdict::Edge {
            row,
            method,
            inside,
        } => {
            line.extend_from_slice(b"Edge")?;
            append_numbers(row, method, line)?;
            line.extend_from_slice(if inside { b" open" } else { b" closed" })
        }
        Verdict::Length => line.extend_from_slice(b"Length"),
        Verdict::Proved => line.extend_from_slice(b"Proved"),
    }
}

/// Appends a row and a method of a table.
fn append_numbers(row: u32, method: Method, line: &mut Vec<u8>) -> Result<(), AllocError>
    ensures { OnOk result (line.new.items ≡ line.old.items ++ numbers_text row method) }
{
    line.extend_from_slice(b" row ")?;
    line.extend_from_slice(Buffer::new().format(row).as_bytes())?;
    line.extend_from_slice(b" method ")?;
    line.extend_from_slice(Buffer::new().format(method.code()).as_bytes())
}

/// The name of what is wrong with bytes that are no certificate.
fn fault_name(fault: CertFault) -> &'static [u8]
    ensures { result.now ≡ fault_text fault }
{
    match fault {
        CertFault::BadMagic => b"BadMagic",
        CertFault::Short => b"Short",
        CertFault::Extra => b"Extra",
        CertFault::Rows => b"Rows",
        CertFault::Places => b"Places",
        CertFault::Memory => b"Memory",
    }
}

/// The status of a check that answered so.
pub(crate) fn answer_status(answer: &CheckAnswer) -> u8
    ensures { result ≡ answer_status_for answer.now }
{
    match answer {
        CheckAnswer::OtherImages => NEGATIVE_STATUS,
        CheckAnswer::Job(verdict) => verdict_status(verdict),
    }
}

/// The status of a run that answered so.
fn verdict_status(verdict: &JobVerdict) -> u8
    ensures { result ≡ verdict_status_for verdict.now }
{
    match verdict {
        JobVerdict::Proved => 0,
        _ => NEGATIVE_STATUS,
    }
}
