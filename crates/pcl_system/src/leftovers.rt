//! What killed runs have left in a folder: files of names that end in their own numbers, which nobody holds.

use crate::places::is_one;
use pcl_files::begun_beside;
use std::fs::{self, File};
use std::io::{self, ErrorKind};
use std::os::unix::fs::MetadataExt;

/// What is in the name of each file that is begun beside another one.
const PART: &str = ".pclmin-part";

/// Removes what killed runs have left in a folder, as far as the system lets it.
pub(crate) fn tidy(rt: &HostRuntime, folder: &str) {
    let Ok(entries) = fs::read_dir(rt, folder) else {
        return;
    };
    for entry in entries {
        // a name that isn't text has no such ending
        if let Ok(entry) = entry {
            if entry.file_name().contains(PART) {
                remove_left(rt, entry.path().as_str(), entry.file_name());
            }
        }
    }
}

/// Removes a file that a run has left which was killed: its name ends in its own number, and nobody holds it.
fn remove_left(rt: &HostRuntime, path: &str, name: &str) {
    if !is_begun(rt, path, name) {
        return;
    }
    let Ok(file) = fs::open(rt, path) else {
        return;
    };
    if file.try_lock().is_ok() && matches!(is_at(rt, path, &file), Ok(true)) {
        let _ = fs::remove_file(rt, path);
    }
}

/// Whether a path of this last name leads, by no link, to a file that a run began beside another one.
fn is_begun(rt: &HostRuntime, path: &str, name: &str) -> bool {
    match fs::symlink_metadata(rt, path) {
        Ok(there) if there.is_file() => matches!(
            begun_beside(rt.alloc(), name.as_bytes(), there.ino()),
            Ok(Some(_))
        ),
        _ => false,
    }
}

/// Whether a path leads to an open file, by no link.
pub(crate) fn is_at(rt: &HostRuntime, path: &str, file: &File) -> io::Result<bool> {
    let file = file.metadata()?;
    match fs::symlink_metadata(rt, path) {
        Ok(there) => Ok(is_one(&there, &file)),
        Err(error) if error.kind() == ErrorKind::NotFound => Ok(false),
        Err(error) => Err(error),
    }
}
