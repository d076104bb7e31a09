//! Files that are begun beside the ones whose places they take.

use crate::leftovers::is_at;
use crate::places::{folder_and_name, is_one, place_of, state_at, state_of};
use crate::troubles::Cause;
use pcl_files::{FileFault, FileState, is_as_seen, kept_rights, new_rights, part_ending};
use std::fs::{self, File, Metadata, OpenOptions, Permissions, TryLockError};
use std::io::{self, ErrorKind};
use std::os::unix::fs::{MetadataExt, OpenOptionsExt, PermissionsExt, fchown};
use std::random::RandomSource;

/// How many names are tried for a file that is begun beside another.
const TRIES: u32 = 100;

/// As many bytes of a path's last name are kept in the name of a file beside it: the system allows 255, and an ending has up to 32.
const NAME_LIMIT: usize = 223;

/// The rights of a file that is to take a place, until it does: its owner reads and writes it.
const UNFINISHED: u32 = 0o600;

/// Where the system says what the user's mask is, and how that line begins.
const STATUS: &str = "/proc/self/status";

const MASK: &str = "Umask:";

/// A file that was made beside its place. It has a lock, by which others see that somebody holds it.
#[derive(Drop)]
pub(crate) struct Part {
    pub(crate) file: File,
    path: String,
    place: String,
    /// The one whose place it takes; none where nothing was there.
    earlier: Option<Earlier>,
    /// The rights that it gets where nothing was there; none where the user's mask isn't known: then its owner alone has any.
    rights: Option<u32>,
}

/// A file whose place another one takes.
#[derive(Drop)]
pub(crate) struct Earlier {
    /// Opened to be written, which its owner allows.
    pub(crate) file: File,
    pub(crate) state: FileState,
    rights: u32,
    /// The second name by which it is claimed, until then: nothing is asked of memory when files take their places.
    claim: Option<String>,
}

/// Why a file isn't made, or isn't put in its place.
#[derive(Clone, Copy)]
pub(crate) struct Unmade {
    pub(crate) cause: Cause,
    pub(crate) fault: FileFault,
}

impl Unmade {
    /// Since somebody has changed what was seen.
    pub(crate) const CHANGED: Unmade = Unmade {
        cause: Cause::Changed,
        fault: FileFault::Changed,
    };

    /// Since another run has put a file where none was.
    const TAKEN: Unmade = Unmade {
        cause: Cause::Error(ErrorKind::AlreadyExists),
        fault: FileFault::Changed,
    };

    /// Since the line of a fault says so.
    pub(crate) fn stated(fault: FileFault) -> Unmade {
        Unmade {
            cause: Cause::Stated,
            fault,
        }
    }
}

impl From<io::Error> for Unmade {
    fn from(error: io::Error) -> Unmade {
        Unmade {
            cause: Cause::Error(error.kind()),
            fault: FileFault::from(error),
        }
    }
}

impl Part {
    /// Makes a file beside the one that a name leads to, or beside where it would be. Where that one was seen before, it has to be so
    /// still.
    pub(crate) fn beside(
        rt: &HostRuntime,
        name: &str,
        seen: Option<FileState>,
    ) -> Result<Part, Unmade> {
        let place = place_of(rt, name)?;
        match fs::symlink_metadata(rt, &place) {
            Ok(there) => {
                require_own_name(rt, name, &there)?;
                Part::beside_file(rt, place, &there, seen)
            }
            Err(error) if error.kind() == ErrorKind::NotFound => {
                Part::beside_nothing(rt, name, place, seen)
            }
            Err(error) => Err(Unmade::from(error)),
        }
    }

    /// Makes a file beside one that is there and may be written. It gets its owner, and at the end its rights.
    fn beside_file(
        rt: &HostRuntime,
        place: String,
        there: &Metadata,
        seen: Option<FileState>,
    ) -> Result<Part, Unmade> {
        let file = opened_to_write(rt, place.as_str())?;
        if !seen.unwrap_or(state_of(there)).is(state_of(there)) {
            return Err(Unmade::CHANGED);
        }
        let earlier = Earlier::new(rt, place.as_str(), file, there)?;
        let made = match create(rt, place.as_str()) {
            Ok(made) => made,
            Err(error) => return Err(denied(error, FileFault::Folder)),
        };
        if !made.is_named {
            let _ = fs::remove_file(rt, &made.path);
            return Err(Unmade::stated(FileFault::Folder));
        }
        if let Err(error) = give_to_owner(&made.file, there) {
            let _ = fs::remove_file(rt, &made.path);
            return Err(denied(error, FileFault::Owner));
        }
        Ok(Part {
            file: made.file,
            path: made.path,
            place,
            earlier: Some(earlier),
            rights: None,
        })
    }

    /// Makes a file for a place where nothing is.
    fn beside_nothing(
        rt: &HostRuntime,
        name: &str,
        place: String,
        seen: Option<FileState>,
    ) -> Result<Part, Unmade> {
        if seen.is_some() {
            return Err(Unmade::CHANGED);
        }
        if fs::metadata(rt, name).is_ok() {
            return Err(Unmade::stated(FileFault::Nameless));
        }
        let rights = mask(rt)?.map(|mask| new_rights(mask));
        let Made { file, path, .. } = create(rt, place.as_str())?;
        let earlier = None;
        Ok(Part {
            file,
            path,
            place,
            earlier,
            rights,
        })
    }

    /// Gives the file its rights, and waits until all of it is on the disk.
    pub(crate) fn finish(&self) -> io::Result<()> {
        match &self.earlier {
            Some(earlier) => {
                let there = earlier.file.metadata()?;
                let rights = kept_rights(earlier.rights, there.mode());
                self.file.set_permissions(Permissions::from_mode(rights))?;
            }
            None => give_new_rights(&self.file, self.rights)?,
        }
        self.file.sync_all()
    }

    /// Takes the place for itself: nobody else is putting a file there, and what was seen there is there.
    pub(crate) fn claim(&mut self, rt: &HostRuntime) -> Result<Claim, Unmade> {
        match &mut self.earlier {
            Some(earlier) => earlier.claim(rt, self.place.as_str()),
            None => Ok(Claim::Nothing),
        }
    }

    /// Puts the file in its place. Where nothing was there, something that another run has put there meanwhile stays.
    pub(crate) fn put(&self, rt: &HostRuntime) -> Result<(), Unmade> {
        if self.earlier.is_some() {
            return Ok(fs::rename(rt, &self.path, &self.place)?);
        }
        match fs::hard_link(rt, &self.path, &self.place) {
            Ok(()) => {
                // one of two names of what is whole: it goes with the next run where it doesn't now
                let _ = fs::remove_file(rt, &self.path);
                Ok(())
            }
            Err(error) if error.kind() == ErrorKind::AlreadyExists => Err(Unmade::TAKEN),
            Err(_) if state_at(rt, self.place.as_str())?.is_none() => {
                Ok(fs::rename(rt, &self.path, &self.place)?)
            }
            Err(_) => Err(Unmade::TAKEN),
        }
    }

    /// Takes the file away again that was put in its place, and puts back what was there.
    pub(crate) fn take_back(&self, rt: &HostRuntime, claim: &Claim) {
        if !matches!(is_at(rt, self.place.as_str(), &self.file), Ok(true)) {
            return;
        }
        match claim {
            Claim::Nothing => {
                let _ = fs::remove_file(rt, &self.place);
            }
            Claim::Linked(path) => {
                let _ = fs::rename(rt, path, &self.place);
            }
            Claim::Unlinked => {}
        }
    }

    /// Removes the file, unless it is in its place.
    pub(crate) fn discard(&self, rt: &HostRuntime) {
        let _ = fs::remove_file(rt, &self.path);
    }
}

/// What is held of a place while a file is put there.
#[derive(Drop)]
pub(crate) enum Claim {
    /// Nothing is there: only one file can be put there.
    Nothing,
    /// What is there has this second name, which one run alone can make: by it that can be put back.
    Linked(String),
    /// The system has no second name for it.
    Unlinked,
}

impl Claim {
    /// Lets it go.
    pub(crate) fn let_go(&self, rt: &HostRuntime) {
        if let Claim::Linked(path) = self {
            let _ = fs::remove_file(rt, path);
        }
    }
}

impl Earlier {
    /// Of a file that is open, and in this state.
    pub(crate) fn new(
        rt: &HostRuntime,
        place: &str,
        file: File,
        there: &Metadata,
    ) -> io::Result<Earlier> {
        let state = state_of(there);
        Ok(Earlier {
            file,
            state,
            rights: there.mode(),
            claim: Some(part_path(rt, stem_of(place), state.number)?),
        })
    }

    /// Takes the place of this file for one run alone, by a second name that ends in its number. While the run goes on the file has a
    /// lock, so that nobody takes that name for a leftover.
    pub(crate) fn claim(&mut self, rt: &HostRuntime, place: &str) -> Result<Claim, Unmade> {
        let is_held = matches!(self.file.try_lock(), Err(TryLockError::WouldBlock));
        let Some(path) = self.claim.take() else {
            return Ok(Claim::Unlinked);
        };
        let claim = match fs::hard_link(rt, place, &path) {
            Ok(()) => Claim::Linked(path),
            Err(error) if error.kind() == ErrorKind::AlreadyExists => {
                match state_at(rt, path.as_str())? {
                    Some(there) if there.number != self.state.number => Claim::Unlinked,
                    _ if is_held => return Err(Unmade::CHANGED),
                    _ => Claim::Linked(path),
                }
            }
            Err(_) => Claim::Unlinked,
        };
        match self.is_there(rt, place, &claim) {
            Ok(true) => Ok(claim),
            Ok(false) => {
                claim.let_go(rt);
                Err(Unmade::CHANGED)
            }
            Err(error) => {
                claim.let_go(rt);
                Err(Unmade::from(error))
            }
        }
    }

    /// Whether a place has this file, as it was seen, and its second name leads to it too.
    fn is_there(&self, rt: &HostRuntime, place: &str, claim: &Claim) -> io::Result<bool> {
        let seen = Some(self.state);
        let is_claimed = match claim {
            Claim::Linked(path) => is_as_seen(seen, state_at(rt, path.as_str())?),
            Claim::Nothing | Claim::Unlinked => true,
        };
        Ok(is_claimed && is_as_seen(seen, state_at(rt, place)?))
    }
}

/// A file that was made.
#[derive(Drop)]
struct Made {
    file: File,
    path: String,
    /// Whether its folder lets names go, so that its own can end in its number and it can take a place.
    is_named: bool,
}

/// Makes a file beside the one of a place, of a name that no other file has, locks it, and gives it a name that ends in its number.
fn create(rt: &HostRuntime, place: &str) -> io::Result<Made> {
    let stem = stem_of(place);
    for _ in 0..TRIES {
        let path = part_path(rt, stem, random_number(rt)?)?;
        if let Some(file) = make(rt, path.as_str())? {
            return named(rt, stem, file, path);
        }
    }
    Err(io::Error::from(ErrorKind::AlreadyExists))
}

/// Makes and locks the file of a path; none where there is one already, or another run took it in that moment.
fn make(rt: &HostRuntime, path: &str) -> io::Result<Option<File>> {
    let mut how = OpenOptions::new();
    how.write(true).create_new(true).mode(UNFINISHED);
    let file = match how.open(rt, path) {
        Ok(file) => file,
        Err(error) if error.kind() == ErrorKind::AlreadyExists => return Ok(None),
        Err(error) => return Err(error),
    };
    match is_own(rt, path, &file) {
        Ok(is_own) => Ok(is_own.then_some(file)),
        Err(error) => {
            let _ = fs::remove_file(rt, path);
            Err(error)
        }
    }
}

/// Locks a file that was made, unless another run holds it or has removed it. Where the system has no locks it is free.
fn is_own(rt: &HostRuntime, path: &str, file: &File) -> io::Result<bool> {
    match file.try_lock() {
        Err(TryLockError::WouldBlock) => Ok(false),
        Ok(()) | Err(TryLockError::Error(_)) => is_at(rt, path, file),
    }
}

/// Gives a file that was made a name that ends in its number, unless somebody has that name, or the folder lets no name go.
fn named(rt: &HostRuntime, stem: &str, file: File, path: String) -> io::Result<Made> {
    let (path, is_named) = match renamed(rt, stem, &file, path.as_str()) {
        Ok(Some(named)) => (named, true),
        Ok(None) => (path, true),
        Err(error) if error.kind() == ErrorKind::PermissionDenied => (path, false),
        Err(error) => {
            let _ = fs::remove_file(rt, &path);
            return Err(error);
        }
    };
    Ok(Made {
        file,
        path,
        is_named,
    })
}

/// Renames a file so that its name ends in its number, and gives the new path; none where something is there.
fn renamed(rt: &HostRuntime, stem: &str, file: &File, path: &str) -> io::Result<Option<String>> {
    let to = part_path(rt, stem, file.metadata()?.ino())?;
    if state_at(rt, to.as_str())?.is_some() {
        return Ok(None);
    }
    fs::rename(rt, path, &to)?;
    Ok(Some(to))
}

/// An error where a name leads to a file by something else than the place that links lead to, as one of a file that is removed.
fn require_own_name(rt: &HostRuntime, name: &str, there: &Metadata) -> Result<(), Unmade> {
    let reached = fs::metadata(rt, name)?;
    if is_one(&reached, there) {
        Ok(())
    } else {
        Err(Unmade::stated(FileFault::Nameless))
    }
}

/// A file that is there, opened to be written.
fn opened_to_write(rt: &HostRuntime, path: &str) -> io::Result<File> {
    let mut how = OpenOptions::new();
    how.write(true);
    how.open(rt, path)
}

/// Gives a file the owner and the group of another one.
fn give_to_owner(file: &File, other: &Metadata) -> io::Result<()> {
    let made = file.metadata()?;
    if made.uid() == other.uid() && made.gid() == other.gid() {
        return Ok(());
    }
    fchown(file, Some(other.uid()), Some(other.gid()))
}

/// Gives a new file these rights, where they are known.
fn give_new_rights(file: &File, rights: Option<u32>) -> io::Result<()> {
    let Some(rights) = rights else {
        return Ok(());
    };
    match file.set_permissions(Permissions::from_mode(rights)) {
        // a file system may give all files the same rights
        Err(error) if error.kind() == ErrorKind::PermissionDenied => Ok(()),
        done => done,
    }
}

/// The user's mask; none where the system doesn't say.
fn mask(rt: &HostRuntime) -> io::Result<Option<u32>> {
    let status = match fs::read_to_string(rt, STATUS) {
        Ok(status) => status,
        Err(error) if is_hidden(error.kind()) => return Ok(None),
        Err(error) => return Err(error),
    };
    for line in status.as_str().lines() {
        if let Some(digits) = line.strip_prefix(MASK) {
            return Ok(u32::from_str_radix(digits.trim(), 8).ok());
        }
    }
    Ok(None)
}

/// Whether an error of this kind says that the system has no such file for this process.
fn is_hidden(kind: ErrorKind) -> bool {
    matches!(
        kind,
        ErrorKind::NotFound | ErrorKind::NotADirectory | ErrorKind::PermissionDenied
    )
}

/// This fault where an error says that a user has no right to something, and else the error's own.
pub(crate) fn denied(error: io::Error, fault: FileFault) -> Unmade {
    match error.kind() {
        ErrorKind::PermissionDenied | ErrorKind::ReadOnlyFilesystem => Unmade::stated(fault),
        _ => Unmade::from(error),
    }
}

/// A number that nobody knows before.
fn random_number(rt: &HostRuntime) -> io::Result<u64> {
    let mut bytes = [0; 8];
    rt.fill_bytes(&mut bytes)?;
    Ok(u64::from_le_bytes(bytes))
}

/// The path of a file beside the one of a path, by a number.
fn part_path(rt: &HostRuntime, stem: &str, number: u64) -> io::Result<String> {
    let mut path = String::from_str(rt.alloc(), stem)?;
    let ending = part_ending(rt.alloc(), number)?;
    path.push_str(std::str::from_utf8(&ending).unwrap_or(""))?;
    Ok(path)
}

/// A path whose last name is short enough for an ending.
fn stem_of(path: &str) -> &str {
    let (_, name) = folder_and_name(path);
    let begin = path.len().saturating_sub(name.len());
    let end = path.len().min(begin.saturating_add(NAME_LIMIT));
    path.get(..path.floor_char_boundary(end)).unwrap_or(path)
}
