//! The files of a run, by their names.

ghost use Rattle.std.specs.Prelude.{◌≡◌};
ghost use Rattle.pcl_files.specs.Files.{write_fault_of};
ghost use Rattle.pcl_files.specs.declared.files.FileFault.TheVariants.{Memory};

use crate::standing::FileState;
use pcl_streams::Fault;
use std::alloc::AllocError;
use std::io::{self, ErrorKind, Read, Write};

/// Why a file can't be begun or put in its place.
#[derive(Clone, Copy)]
pub enum FileFault {
    /// Memory ran out.
    Memory,
    /// The file could be written, but none can be made in its folder.
    Folder,
    /// The file is another user's, and the one in its place would not be.
    Owner,
    /// It isn't what was seen there before: somebody has changed it, or is about to.
    Changed,
    /// The name is that of a descriptor, and not the file's own.
    Nameless,
    /// The system doesn't do it.
    System,
}

impl From<io::Error> for FileFault {
    fn from(error: io::Error) -> FileFault {
        match error.kind() {
            ErrorKind::OutOfMemory => FileFault::Memory,
            _ => FileFault::System,
        }
    }
}

impl From<AllocError> for FileFault {
    ghost from_gives = { λ _ e. e ≡ Memory };

    fn from(_e: AllocError) -> FileFault {
        FileFault::Memory
    }
}

impl From<FileFault> for Fault {
    ghost from_gives = { λ why e. e ≡ write_fault_of why };

    fn from(why: FileFault) -> Fault {
        match why {
            FileFault::Memory => Fault::Memory,
            FileFault::Folder
            | FileFault::Owner
            | FileFault::Changed
            | FileFault::Nameless
            | FileFault::System => Fault::WriteFault,
        }
    }
}

/// What a name leads to.
#[derive(Clone, Copy, PartialEq, Eq)]
pub enum FileKind {
    File,
    Folder,
    /// What is neither, as a device or a pipe: a read of it may wait for ever.
    Special,
}

/// Files that can be opened and written by their names. A run is proved once for all of them, so it does with them what its contract
/// says and nothing else.
///
/// What is written is begun beside what its name has, and put in its place at the end. So a name keeps what it has until all is done.
pub trait JobFiles {
    ghost use Rattle.std.specs.Prelude.{MatchBool, IfOk, IfErr, OnOk, OnErr};
    ghost use Rattle.pcl_files.specs.Files.{FileAct, Opened, Unopened, OneFile, TwoFiles, FolderMade, Begun, Unbegun, Placed, BothPlaced, ThreePlaced, Unplaced, Dropped};

    /// A file that was opened.
    type Reader: Read + Drop;

    /// A file that was begun.
    type Writer: Write + Drop;

    /// What an act does to the files.
    ghost acts: { Self → FileAct → Self → Type 0 };

    /// Opens the file of a name, to be read from its first byte on.
    fn open(&self, name: &str) -> io::Result<Self::Reader>
        ensures opened { IfOk result (λ file. acts self.now (Opened name.now (Self.Reader.remaining file)) self.now) }
        ensures unopened { OnErr result (acts self.now (Unopened name.now) self.now) };

    /// Whether two names are those of one file. The files themselves say so, and not how the names are written. A name may
    /// have no file yet.
    fn are_one(&self, name: &str, other: &str) -> bool
        ensures { MatchBool result (acts self.now (OneFile name.now other.now) self.now)
            (acts self.now (TwoFiles name.now other.now) self.now) };

    /// What a name leads to. None where nothing is there, or the system doesn't say.
    fn kind_of(&self, name: &str) -> Option<FileKind>;

    /// The state of the file that a name leads to. None where nothing is there, or the system doesn't say.
    fn state_of(&self, name: &str) -> Option<FileState>;

    /// Makes the folder of a name, and those above it that are missing. It is no error that it is there.
    fn make_folder(&mut self, name: &str) -> Result<(), FileFault>
        ensures made { OnOk result (acts self.old (FolderMade name.now) self.new) }
        ensures unmade { IfErr result (λ why. acts self.old (Unbegun name.now why) self.new) };

    /// Begins a file that is to take the place of what this name has. That stays until then. After an error nothing was
    /// begun.
    fn begin(&mut self, name: &str) -> Result<Self::Writer, FileFault>
        ensures begun { IfOk result (λ file. acts self.old (Begun name.now (Self.Writer.contents file)) self.new) }
        ensures unbegun { IfErr result (λ why. acts self.old (Unbegun name.now why) self.new) };

    /// The same where this was seen of what the name has, or that it has nothing: it is an error, here or when it is to take its place,
    /// where that isn't so any more.
    fn begin_over(&mut self, name: &str, seen: Option<FileState>) -> Result<Self::Writer, FileFault>
        ensures begun { IfOk result (λ file. acts self.old (Begun name.now (Self.Writer.contents file)) self.new) }
        ensures unbegun { IfErr result (λ why. acts self.old (Unbegun name.now why) self.new) };

    /// The same for a file beside a job. It is an error too where the name is that of what standard input reads or standard output
    /// writes.
    fn begin_aside(&mut self, name: &str) -> Result<Self::Writer, FileFault>
        ensures begun { IfOk result (λ file. acts self.old (Begun name.now (Self.Writer.contents file)) self.new) }
        ensures unbegun { IfErr result (λ why. acts self.old (Unbegun name.now why) self.new) };

    /// Puts a file that was begun for this name in its place. After an error the file is dropped, and what the name had stays.
    fn place(&mut self, name: &str, file: Self::Writer) -> Result<(), FileFault>
        ensures placed { OnOk result (acts self.old (Placed name.now (Self.Writer.contents file)) self.new) }
        ensures unplaced { IfErr result (λ why. acts self.old (Unplaced name.now why) self.new) };

    /// Puts two files that were begun for these names in their places. After an error both are dropped, and what the names had
    /// stays.
    fn place_both(
        &mut self,
        name: &str,
        file: Self::Writer,
        other: &str,
        other_file: Self::Writer,
    ) -> Result<(), FileFault>
        ensures placed { OnOk result (acts self.old
            (BothPlaced name.now (Self.Writer.contents file) other.now (Self.Writer.contents other_file)) self.new) }
        ensures unplaced { IfErr result (λ why. acts self.old (Unplaced name.now why) self.new) };

    /// The same of three files: they take their places in this order, and what is at the first name says whose the others are.
    fn place_three(
        &mut self,
        name: &str,
        file: Self::Writer,
        other: &str,
        other_file: Self::Writer,
        third: &str,
        third_file: Self::Writer,
    ) -> Result<(), FileFault>
        ensures placed { OnOk result (acts self.old
            (ThreePlaced name.now (Self.Writer.contents file) other.now (Self.Writer.contents other_file)
            third.now (Self.Writer.contents third_file)) self.new) }
        ensures unplaced { IfErr result (λ why. acts self.old (Unplaced name.now why) self.new) };

    /// Drops a file that was begun for this name: what the name had stays.
    fn discard(&mut self, name: &str, file: Self::Writer)
        ensures { acts self.old (Dropped name.now) self.new };
}
