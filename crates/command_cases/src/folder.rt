//! A folder in memory, with the files of a run by their names.

use pcl_files::{FileFault, FileKind, FileState, JobFiles};
use std::alloc::{AllocError, Global};
use std::io::{self, Cursor, ErrorKind, Write};

/// What was written, and how much of it was flushed.
#[derive(Drop)]
pub(crate) struct Held {
    bytes: Vec<u8>,
    flushed: usize,
}

impl Held {
    /// Before anything is written.
    pub(crate) fn new(alloc: Global) -> Held {
        Held {
            bytes: Vec::new(alloc),
            flushed: 0,
        }
    }

    pub(crate) fn bytes(&self) -> &[u8] {
        &self.bytes
    }

    /// Whether nothing was written that wasn't flushed.
    pub(crate) fn is_flushed(&self) -> bool {
        self.flushed == self.bytes.len()
    }
}

impl Write for Held {
    fn write(&mut self, buf: &[u8]) -> io::Result<usize> {
        self.bytes.extend_from_slice(buf)?;
        Ok(buf.len())
    }

    fn flush(&mut self) -> io::Result<()> {
        self.flushed = self.bytes.len();
        Ok(())
    }
}

/// A file of the folder.
#[derive(Drop)]
struct Named {
    name: String,
    bytes: Vec<u8>,
}

/// Files by their names. Of folders below this one `out` alone takes files: nothing can be made in `full`, what lies in `other` is
/// another user's, and no other is there.
#[derive(Drop)]
pub(crate) struct Folder {
    alloc: Global,
    files: Vec<Named>,
}

impl Folder {
    /// Without a file.
    pub(crate) fn new(alloc: Global) -> Folder {
        Folder {
            alloc,
            files: Vec::new(alloc),
        }
    }

    /// The bytes of a file.
    pub(crate) fn bytes_of(&self, name: &str) -> Option<&[u8]> {
        let name = plain(name);
        let file = self.files.iter().find(|file| file.name.as_str() == name)?;
        Some(&file.bytes)
    }

    /// Makes a file with these bytes, in place of one of its name.
    pub(crate) fn put(&mut self, name: &str, bytes: Vec<u8>) -> Result<(), AllocError> {
        self.remove(name);
        let name = String::from_str(self.alloc, name)?;
        Ok(self.files.push(Named { name, bytes })?)
    }

    /// Removes a file, where there is one of this name.
    pub(crate) fn remove(&mut self, name: &str) {
        self.files.retain(|file| file.name.as_str() != name);
    }
}

impl JobFiles for Folder {
    ghost use Rattle.pcl_files.specs.Files.{FileAct};

    type Reader = Cursor<Vec<u8>>;

    type Writer = Held;

    ghost acts = { λ _ _ _. Unit {0} };

    fn open(&self, name: &str) -> io::Result<Cursor<Vec<u8>>> {
        match self.bytes_of(name) {
            Some(bytes) => Ok(Cursor::new(Vec::from_slice(self.alloc, bytes)?)),
            None => Err(io::Error::from(ErrorKind::NotFound)),
        }
    }

    fn are_one(&self, name: &str, other: &str) -> bool {
        plain(name) == plain(other)
    }

    fn kind_of(&self, name: &str) -> Option<FileKind> {
        self.bytes_of(name).map(|_| FileKind::File)
    }

    /// Nobody else changes what is in memory.
    fn state_of(&self, _name: &str) -> Option<FileState> {
        None
    }

    fn make_folder(&mut self, name: &str) -> Result<(), FileFault> {
        match plain(name).split('/').next() {
            Some("out" | ".") => Ok(()),
            _ => Err(FileFault::System),
        }
    }

    fn begin(&mut self, name: &str) -> Result<Held, FileFault> {
        match fault_of(name) {
            Some(why) => Err(why),
            None => Ok(Held::new(self.alloc)),
        }
    }

    fn begin_aside(&mut self, name: &str) -> Result<Held, FileFault> {
        self.begin(name)
    }

    fn begin_over(&mut self, name: &str, _seen: Option<FileState>) -> Result<Held, FileFault> {
        self.begin(name)
    }

    /// What wasn't flushed is lost.
    fn place(&mut self, name: &str, file: Held) -> Result<(), FileFault> {
        let Held { mut bytes, flushed } = file;
        bytes.truncate(flushed);
        Ok(self.put(plain(name), bytes)?)
    }

    fn place_both(
        &mut self,
        name: &str,
        file: Held,
        other: &str,
        other_file: Held,
    ) -> Result<(), FileFault> {
        self.place(name, file)?;
        self.place(other, other_file)
    }

    fn place_three(
        &mut self,
        name: &str,
        file: Held,
        other: &str,
        other_file: Held,
        third: &str,
        third_file: Held,
    ) -> Result<(), FileFault> {
        self.place(name, file)?;
        self.place(other, other_file)?;
        self.place(third, third_file)
    }

    fn discard(&mut self, _name: &str, _file: Held) {}
}

/// A name without what says nothing of its place.
fn plain(name: &str) -> &str {
    name.strip_prefix("./").unwrap_or(name)
}

/// Why a file can't be begun, by its folder.
fn fault_of(name: &str) -> Option<FileFault> {
    match plain(name).split_once('/') {
        None | Some(("out", _)) => None,
        Some(("full", _)) => Some(FileFault::Folder),
        Some(("other", _)) => Some(FileFault::Owner),
        Some(_) => Some(FileFault::System),
    }
}
