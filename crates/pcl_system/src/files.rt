//! The files of the system.

use crate::leftovers::tidy;
use crate::named_file::NamedFile;
use crate::new_file::NewFile;
use crate::places::{
    are_one, descriptor_of, folder_and_name, is_same_place, is_special, is_standard, place_of,
    state_of,
};
use crate::placing::{Placing, place_one};
use crate::troubles::{Access, Cause, Troubles};
use pcl_files::{Descriptor, FileFault, FileKind, FileState, JobFiles};
use std::cell::Cell;
use std::fs;
use std::io::{self, ErrorKind};
use std::os::fd::AsFd;
use std::os::unix::fs::MetadataExt;

/// How files take their places.
#[derive(Clone, Copy, PartialEq, Eq)]
pub enum Replacing {
    /// Another file takes the place of what was there.
    ByAnother,
    /// What is there is written into, and keeps its number.
    InPlace,
}

/// The files of the system, by their paths.
#[derive(Drop)]
pub struct SystemFiles<'a> {
    rt: &'a HostRuntime,
    troubles: &'a Troubles,
    replacing: Replacing,
    /// The folder that was tidied last, by the number of its device and its own.
    tidied: Cell<Option<(u64, u64)>>,
    /// The file that was opened last, by where it is and as it was then.
    read: Cell<Option<(String, FileState)>>,
}

impl<'a> SystemFiles<'a> {
    /// What goes wrong with a file is kept among these troubles.
    pub fn new(
        rt: &'a HostRuntime,
        troubles: &'a Troubles,
        replacing: Replacing,
    ) -> SystemFiles<'a> {
        SystemFiles {
            rt,
            troubles,
            replacing,
            tidied: Cell::new(None),
            read: Cell::new(None),
        }
    }

    /// An error where standard input, output or error is closed: the next file that is opened would take its place.
    fn require_standard_streams(&self) -> io::Result<()> {
        let input = self.rt.stdin();
        let output = self.rt.stdout();
        let errors = self.rt.stderr();
        require_open(&input)?;
        require_open(&output)?;
        require_open(&errors)
    }

    /// Removes what killed runs have left in a folder, unless that was just done there.
    fn tidy_folder(&self, folder: &str) {
        let Ok(there) = fs::metadata(self.rt, folder) else {
            return;
        };
        let number = (there.dev(), there.ino());
        if self.tidied.get() != Some(number) {
            self.tidied.set(Some(number));
            tidy(self.rt, folder);
        }
    }

    /// Keeps where a file is that was opened, and its state.
    fn note_read(&self, name: &str, file: &fs::File) {
        let noted = match file.metadata() {
            Ok(there) if there.is_file() => Some(state_of(&there)),
            _ => None,
        };
        let place = place_of(self.rt, name).ok();
        let _ = self.read.replace(match (noted, place) {
            (Some(state), Some(place)) => Some((place, state)),
            _ => None,
        });
    }

    /// The state of the file that was opened last, where a name leads to its place.
    fn state_read(&self, name: &str) -> Option<FileState> {
        let noted = self.read.replace(None);
        let state = match (&noted, place_of(self.rt, name)) {
            (Some((place, state)), Ok(other))
                if is_same_place(self.rt, place.as_str(), other.as_str()) => { Some(*state) }
            _ => None,
        };
        let _ = self.read.replace(noted);
        state
    }

    /// Begins a file for a name, which has to have what was seen there, where that was.
    fn begin_file(&self, name: &str, seen: Option<FileState>) -> Result<NewFile<'a>, FileFault> {
        let (rt, troubles) = (self.rt, self.troubles);
        match descriptor_of(rt, name)? {
            Some(Descriptor::Output) => Ok(NewFile::output(rt, troubles, name)),
            Some(_) if self.kind_of(name) == Some(FileKind::File) => {
                troubles.note(rt, Access::Writing, name, Cause::Stated);
                Err(FileFault::Nameless)
            }
            _ if is_special(rt, name) => NewFile::device(rt, troubles, name),
            _ => self.begin_plain(name, seen),
        }
    }

    /// Begins a file for a name that leads to a file or to nothing.
    fn begin_plain(&self, name: &str, seen: Option<FileState>) -> Result<NewFile<'a>, FileFault> {
        let (rt, troubles) = (self.rt, self.troubles);
        if let Ok(place) = place_of(rt, name) {
            self.tidy_folder(folder_and_name(place.as_str()).0);
        }
        match self.replacing {
            Replacing::InPlace if self.kind_of(name).is_some() => {
                NewFile::kept(rt, troubles, name, seen)
            }
            _ => NewFile::beside(rt, troubles, name, seen),
        }
    }
}

impl<'a> JobFiles for SystemFiles<'a> {
    type Reader = NamedFile<'a>;

    type Writer = NewFile<'a>;

    ghost acts = { λ _ _ _. Unit {0} };

    fn open(&self, name: &str) -> io::Result<NamedFile<'a>> {
        self.require_standard_streams()?;
        if matches!(descriptor_of(self.rt, name), Ok(Some(Descriptor::Input))) {
            return Ok(NamedFile::input(self.rt, self.troubles, name));
        }
        match fs::open(self.rt, name) {
            Ok(file) => {
                self.note_read(name, &file);
                Ok(NamedFile::new(self.rt, self.troubles, name, file))
            }
            Err(error) => {
                self.troubles
                    .note_error(self.rt, Access::Reading, name, &error);
                Err(error)
            }
        }
    }

    fn are_one(&self, name: &str, other: &str) -> bool {
        are_one(self.rt, name, other)
    }

    fn kind_of(&self, name: &str) -> Option<FileKind> {
        let there = fs::metadata(self.rt, name).ok()?;
        Some(if there.is_file() {
            FileKind::File
        } else if there.is_dir() {
            FileKind::Folder
        } else {
            FileKind::Special
        })
    }

    fn state_of(&self, name: &str) -> Option<FileState> {
        let there = fs::metadata(self.rt, name).ok()?;
        Some(state_of(&there))
    }

    fn make_folder(&mut self, name: &str) -> Result<(), FileFault> {
        match fs::create_dir_all(self.rt, name) {
            Ok(()) => {
                self.tidy_folder(name);
                Ok(())
            }
            Err(error) => {
                let cause = match error.kind() {
                    ErrorKind::AlreadyExists => Cause::NoFolder,
                    kind => Cause::Error(kind),
                };
                self.troubles.note(self.rt, Access::Writing, name, cause);
                Err(FileFault::from(error))
            }
        }
    }

    fn begin(&mut self, name: &str) -> Result<NewFile<'a>, FileFault> {
        self.require_standard_streams()?;
        let seen = self.state_read(name);
        self.begin_file(name, seen)
    }

    fn begin_aside(&mut self, name: &str) -> Result<NewFile<'a>, FileFault> {
        self.require_standard_streams()?;
        if is_standard(self.rt, name) {
            self.troubles
                .note(self.rt, Access::Writing, name, Cause::Standard);
            return Err(FileFault::System);
        }
        self.begin_file(name, None)
    }

    fn begin_over(
        &mut self,
        name: &str,
        seen: Option<FileState>,
    ) -> Result<NewFile<'a>, FileFault> {
        self.require_standard_streams()?;
        self.begin_file(name, seen)
    }

    fn place(&mut self, _name: &str, file: NewFile<'a>) -> Result<(), FileFault> {
        place_one(self.rt, file)
    }

    fn place_both(
        &mut self,
        _name: &str,
        file: NewFile<'a>,
        _other: &str,
        other_file: NewFile<'a>,
    ) -> Result<(), FileFault> {
        let mut placing = Placing::new(self.rt);
        placing.add(file);
        placing.add(other_file);
        placing.place()
    }

    fn place_three(
        &mut self,
        _name: &str,
        file: NewFile<'a>,
        _other: &str,
        other_file: NewFile<'a>,
        _third: &str,
        third_file: NewFile<'a>,
    ) -> Result<(), FileFault> {
        let mut placing = Placing::new(self.rt);
        placing.add(file);
        placing.add(other_file);
        placing.add(third_file);
        placing.place()
    }

    fn discard(&mut self, _name: &str, file: NewFile<'a>) {
        file.discard();
    }
}

/// An error where a stream is closed.
fn require_open<S: AsFd>(stream: &S) -> io::Result<()> {
    let descriptor = stream.as_fd();
    match descriptor.try_clone_to_owned() {
        Ok(_copy) => Ok(()),
        Err(error) => Err(error),
    }
}
