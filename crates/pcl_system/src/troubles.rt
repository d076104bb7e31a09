//! What stood in the way of a run: the file that couldn't be read or written, and why, or a reader of standard output that went away; and
//! how the job begins that was read.

use std::cell::Cell;
use std::io::{self, ErrorKind};

/// As many bytes of a job are kept as tell its language.
pub const START_LENGTH: usize = 12;

/// What is said of a file that isn't what was seen.
const CHANGED: &str = "another program has changed it meanwhile";

/// What was to be done with a file.
#[derive(Clone, Copy, PartialEq, Eq)]
pub enum Access {
    Reading,
    Writing,
}

/// Why it couldn't be done.
#[derive(Clone, Copy)]
pub enum Cause {
    /// The system gave an error of this kind.
    Error(ErrorKind),
    /// Standard input or output has the file.
    Standard,
    /// A file is where a folder is to be.
    NoFolder,
    /// Somebody has changed it since it was seen.
    Changed,
    /// The line of the fault says so.
    Stated,
}

/// A file that couldn't be read or written.
#[derive(Drop)]
pub struct Trouble {
    pub access: Access,
    pub name: String,
    pub cause: Cause,
}

impl Trouble {
    /// Whether a file was to be read that isn't there.
    pub fn is_missing(&self) -> bool {
        self.access == Access::Reading && matches!(self.cause, Cause::Error(ErrorKind::NotFound))
    }

    /// Why, in words: none where the line of the fault says so, and where the system says nothing that helps.
    pub fn why(&self) -> Option<&'static str> {
        match self.cause {
            Cause::Error(_) if self.is_missing() => Some("no such file"),
            Cause::Error(kind) => reason(kind),
            Cause::Standard => Some("standard input or output is this file"),
            Cause::NoFolder => Some("it is no folder"),
            Cause::Changed => Some(CHANGED),
            Cause::Stated => None,
        }
    }
}

/// The trouble that came last, and the first bytes of the job that was read last.
#[derive(Drop)]
pub struct Troubles {
    last: Cell<Option<Trouble>>,
    is_unread: Cell<bool>,
    start: Cell<[u8; START_LENGTH]>,
}

impl Troubles {
    pub fn new() -> Troubles {
        Troubles {
            last: Cell::new(None),
            is_unread: Cell::new(false),
            start: Cell::new([0; START_LENGTH]),
        }
    }

    /// The trouble that came last. It is forgotten then.
    pub fn take(&self) -> Option<Trouble> {
        self.last.replace(None)
    }

    /// Whether nobody reads standard output any more, as where it goes to `head`.
    pub fn is_unread(&self) -> bool {
        self.is_unread.get()
    }

    /// The first bytes of the job that was read last, zeros after it where it is shorter.
    pub fn start(&self) -> [u8; START_LENGTH] {
        self.start.get()
    }

    /// Forgets what came: what fails now is no file that is named.
    pub(crate) fn forget(&self) {
        let _ = self.last.replace(None);
    }

    /// Keeps whether an error of standard output, which is no named file, is that nobody reads it.
    pub(crate) fn note_output(&self, error: &io::Error) {
        self.forget();
        self.is_unread
            .set(matches!(error.kind(), ErrorKind::BrokenPipe));
    }

    /// Keeps how a job begins.
    pub(crate) fn begin(&self, read: &[u8]) {
        let mut start = [0; START_LENGTH];
        for (kept, byte) in start.iter_mut().zip(read) {
            *kept = *byte;
        }
        self.start.set(start);
    }

    /// Keeps why a file can't be read or written. Where memory runs out for its name, or the name can't be shown, nothing is kept.
    pub(crate) fn note(&self, rt: &HostRuntime, access: Access, name: &str, cause: Cause) {
        let trouble = match String::from_str(rt.alloc(), name) {
            Ok(name) if is_shown(name.as_str()) => Some(Trouble {
                access,
                name,
                cause,
            }),
            _ => None,
        };
        let _ = self.last.replace(trouble);
    }

    /// The same of an error of the system.
    pub(crate) fn note_error(
        &self,
        rt: &HostRuntime,
        access: Access,
        name: &str,
        error: &io::Error,
    ) {
        self.note(rt, access, name, Cause::Error(error.kind()));
    }
}

/// Whether a name has characters, and only such as a terminal shows.
fn is_shown(name: &str) -> bool {
    !name.is_empty() && !name.chars().any(|letter| letter.is_control())
}

/// Why a file can't be read or written, by the kind of an error.
fn reason(kind: ErrorKind) -> Option<&'static str> {
    Some(match kind {
        ErrorKind::NotFound => "no such folder",
        ErrorKind::IsADirectory => "it is a folder",
        ErrorKind::NotADirectory => "a part of its path is no folder",
        ErrorKind::PermissionDenied => "permission denied",
        ErrorKind::StorageFull | ErrorKind::QuotaExceeded => "no space left",
        ErrorKind::FileTooLarge => "it would be larger than files may be",
        ErrorKind::ReadOnlyFilesystem => "nothing can be written there",
        ErrorKind::FilesystemLoop => "a link leads back to itself",
        ErrorKind::InvalidFilename => "the name is too long",
        ErrorKind::StaleNetworkFileHandle => CHANGED,
        ErrorKind::InvalidData => "a link leads to a name that isn't text",
        ErrorKind::AlreadyExists => "another run has written it meanwhile",
        _ => return None,
    })
}
