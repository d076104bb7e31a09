//! Where names lead.

use pcl_files::{Descriptor, FileState, descriptor_at};
use std::fs::{self, Metadata};
use std::io::{self, ErrorKind};
use std::os::unix::fs::{FileTypeExt, MetadataExt};

/// The system's names for the files of standard input and standard output.
const STANDARD_FILES: [&str; 2] = ["/dev/stdin", "/dev/stdout"];

/// The folders of processes and their descriptors begin and end so, and that of this process is called so.
const PROCESSES: &str = "/proc/";

const DESCRIPTORS: &str = "/fd";

const OWN_DESCRIPTORS: &str = "/proc/self/fd";

/// How many links are followed from one to the next.
const LINK_LIMIT: u32 = 40;

/// Whether a path leads to the file of standard input or output, whose place another one would take. A device may be all of these,
/// as a terminal is.
pub(crate) fn is_standard(rt: &HostRuntime, path: &str) -> bool {
    STANDARD_FILES
        .iter()
        .any(|standard| is_same_file(rt, path, standard))
}

/// Whether a path leads to something that is no file, as a device or a folder.
pub(crate) fn is_special(rt: &HostRuntime, path: &str) -> bool {
    match fs::metadata(rt, path) {
        Ok(there) => !there.is_file(),
        Err(_) => false,
    }
}

/// Whether two paths lead to one file, or would where nothing is there yet. No where the system doesn't say.
pub(crate) fn are_one(rt: &HostRuntime, path: &str, other: &str) -> bool {
    if fs::metadata(rt, path).is_ok() || fs::metadata(rt, other).is_ok() {
        return is_same_file(rt, path, other);
    }
    match (place_of(rt, path), place_of(rt, other)) {
        (Ok(place), Ok(other)) => is_same_place(rt, place.as_str(), other.as_str()),
        _ => false,
    }
}

/// Whether two paths lead to one file that is there and no device.
fn is_same_file(rt: &HostRuntime, path: &str, other: &str) -> bool {
    match (fs::metadata(rt, path), fs::metadata(rt, other)) {
        (Ok(file), Ok(other)) => is_one(&file, &other) && !file.file_type().is_char_device(),
        _ => false,
    }
}

/// Whether two places that links don't lead on from have one name in one folder.
pub(crate) fn is_same_place(rt: &HostRuntime, place: &str, other: &str) -> bool {
    let (folder, name) = folder_and_name(place);
    let (other_folder, other_name) = folder_and_name(other);
    match (fs::metadata(rt, folder), fs::metadata(rt, other_folder)) {
        (Ok(folder), Ok(other)) => is_one(&folder, &other) && name == other_name,
        _ => false,
    }
}

/// Whether what is known of two files is of one.
pub(crate) fn is_one(file: &Metadata, other: &Metadata) -> bool {
    file.dev() == other.dev() && file.ino() == other.ino()
}

/// The state of a file of which this is known.
pub(crate) fn state_of(there: &Metadata) -> FileState {
    FileState {
        device: there.dev(),
        number: there.ino(),
        bytes: there.size(),
        seconds: there.mtime(),
        nanoseconds: there.mtime_nsec(),
    }
}

/// The state of what a place has, by no link; none where nothing is there.
pub(crate) fn state_at(rt: &HostRuntime, place: &str) -> io::Result<Option<FileState>> {
    match fs::symlink_metadata(rt, place) {
        Ok(there) => Ok(Some(state_of(&there))),
        Err(error) if error.kind() == ErrorKind::NotFound => Ok(None),
        Err(error) => Err(error),
    }
}

/// The descriptor that a path leads to, by whatever links; none where it leads to none. It fails where memory runs out.
pub(crate) fn descriptor_of(rt: &HostRuntime, path: &str) -> io::Result<Option<Descriptor>> {
    let mut path = String::from_str(rt.alloc(), path)?;
    for _ in 0..LINK_LIMIT {
        if let Some(found) = descriptor_named(rt, path.as_str())? {
            return Ok(Some(found));
        }
        match unless_missing(linked(rt, path.as_str()))? {
            Some(Some(next)) => path = next,
            _ => return Ok(None),
        }
    }
    Ok(None)
}

/// The descriptor whose own name a path is: one in the folder of a process.
fn descriptor_named(rt: &HostRuntime, path: &str) -> io::Result<Option<Descriptor>> {
    let (folder, name) = folder_and_name(path);
    let Some(folder) = unless_missing(fs::canonicalize(rt, folder))? else {
        return Ok(None);
    };
    let folder = folder.into_string();
    let folder = folder.as_str();
    if name.is_empty() || !folder.starts_with(PROCESSES) || !folder.ends_with(DESCRIPTORS) {
        return Ok(None);
    }
    let is_own = match unless_missing(fs::canonicalize(rt, OWN_DESCRIPTORS))? {
        Some(own) => own.into_string().as_str() == folder,
        None => false,
    };
    Ok(Some(descriptor_at(is_own, name)))
}

/// What was found; none where the system has it not, or doesn't say. It fails where memory runs out.
fn unless_missing<T>(found: io::Result<T>) -> io::Result<Option<T>> {
    match found {
        Ok(found) => Ok(Some(found)),
        Err(error) if error.kind() == ErrorKind::OutOfMemory => Err(error),
        Err(_) => Ok(None),
    }
}

/// Where a file is that a path leads to, or would be made: a path that no link leads on from. It is as short as it was given, so that a
/// folder above it may have any name.
pub(crate) fn place_of(rt: &HostRuntime, path: &str) -> io::Result<String> {
    let mut path = String::from_str(rt.alloc(), path)?;
    for _ in 0..LINK_LIMIT {
        match linked(rt, path.as_str())? {
            Some(next) => path = next,
            None if folder_and_name(path.as_str()).1.is_empty() => {
                return Err(io::Error::from(ErrorKind::InvalidInput));
            }
            None => return Ok(path),
        }
    }
    Err(io::Error::from(ErrorKind::FilesystemLoop))
}

/// Where the link of a path leads; none where there is no link. InvalidData is that it leads to a name that isn't text.
fn linked(rt: &HostRuntime, path: &str) -> io::Result<Option<String>> {
    let link = match fs::read_link(rt, path) {
        Ok(link) => link.into_string(),
        Err(error) => return unlinked(rt, path, error),
    };
    if link.as_str().starts_with('/') {
        return Ok(Some(link));
    }
    let (folder, _) = folder_and_name(path);
    Ok(Some(format!(in rt.alloc(); "{folder}/{link}")?))
}

/// None where an error came of reading a link since there is none.
fn unlinked<T>(rt: &HostRuntime, path: &str, error: io::Error) -> io::Result<Option<T>> {
    match fs::symlink_metadata(rt, path) {
        Ok(there) if !there.is_symlink() => Ok(None),
        Ok(_) if error.kind() == ErrorKind::InvalidFilename => {
            Err(io::Error::from(ErrorKind::InvalidData))
        }
        Ok(_) => Err(error),
        Err(missing) if missing.kind() == ErrorKind::NotFound => Ok(None),
        Err(other) => Err(other),
    }
}

/// The folder of a path, and the name there.
pub(crate) fn folder_and_name(path: &str) -> (&str, &str) {
    match path.rsplit_once('/') {
        Some(("", name)) => ("/", name),
        Some(parts) => parts,
        None => (".", path),
    }
}
