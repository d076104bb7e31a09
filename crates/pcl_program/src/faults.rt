//! What the process prints of a run that failed: its line, with the file that stood in the way, and on a terminal what helps.

use crate::manner::Manner;
use pcl_base::{Kind, Name, Refusal};
use pcl_explain::{language_of, nearest_kind};
use pcl_messages::{Failure, UNREAD, UNWRITTEN, text_in};
use pcl_streams::Fault;
use pcl_system::{Access, Trouble, Troubles};
use std::io::IsTerminal;

/// The command whose refusal asks for another resolution.
const RESOLUTION: Name = Name::Three(b'*', b't', b'R');

/// Prints the line of a run that failed, which these words asked for: none where standard output isn't read to its end. What standard
/// error doesn't take is lost.
pub(crate) fn print_failure(
    rt: &HostRuntime,
    failure: &Failure,
    words: &[String],
    manner: Manner,
    troubles: &Troubles,
) {
    match (failure.fault(), troubles.take()) {
        (Some(Fault::ReadFault), Some(trouble)) if trouble.access == Access::Reading => {
            print_trouble(rt, failure, words, &trouble);
        }
        (Some(Fault::WriteFault), Some(trouble)) if trouble.access == Access::Writing => {
            print_trouble(rt, failure, words, &trouble);
        }
        (Some(Fault::WriteFault), None) if troubles.is_unread() => {}
        (Some(Fault::Refused(refusal)), _) if !manner.is_quiet && rt.stderr().is_terminal() => {
            print_line(rt, failure);
            let hint = hint(refusal, manner.is_auto, &troubles.start());
            let _ = eprint!(rt; "pclmin: {hint}\n");
        }
        _ => print_line(rt, failure),
    }
}

/// Prints the line of a run that failed.
pub(crate) fn print_line(rt: &HostRuntime, failure: &Failure) {
    if let Ok(line) = std::str::from_utf8(failure.line()) {
        let _ = rt.eprint(line);
    }
}

/// Prints the line of a file that couldn't be read or written, with its name, and why where the line doesn't say so.
fn print_trouble(rt: &HostRuntime, failure: &Failure, words: &[String], trouble: &Trouble) {
    let begun = match trouble.access {
        Access::Reading => UNREAD,
        Access::Writing => UNWRITTEN,
    };
    let said = text_in(failure.line());
    let rest = said.strip_prefix(begun).unwrap_or(said);
    let name = trouble.name.as_str();
    let _ = match (rest, trouble.why(), meant(rt, words, trouble)) {
        ("", Some(why), None) => eprint!(rt; "pclmin: {begun} {name}: {why}\n"),
        ("", Some(why), Some(kind)) => {
            let kind = kind.name();
            eprint!(rt;
                "pclmin: {begun} {name}: {why}, and no kind of refusal: the nearest is {kind}\n"
            )
        }
        _ => eprint!(rt; "pclmin: {begun} {name}{rest}\n"),
    };
}

/// The kind that was meant where `explain` has the name of no file and of no kind.
fn meant(rt: &HostRuntime, words: &[String], trouble: &Trouble) -> Option<Kind> {
    match words {
        [_, command, ..] if command.as_str() == "explain" && trouble.is_missing() => {
            let nearest = nearest_kind(rt.alloc(), trouble.name.as_str());
            nearest.unwrap_or(None)
        }
        _ => None,
    }
}

/// What helps where a run refuses a job, which begins so; whether its resolution was left to the job is known.
fn hint(refusal: Refusal, is_auto: bool, start: &[u8]) -> &'static str {
    match language_of(start) {
        Some(language) => language.text(),
        None if refusal.name == RESOLUTION && !is_auto => "try --dpi auto",
        None => "pclmin explain says what to set instead",
    }
}
