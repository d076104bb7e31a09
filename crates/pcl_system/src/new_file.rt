//! Files that were begun, wherever they are written, and how they take their places.

use crate::kept::KeptFile;
use crate::parts::{Claim, Part, Unmade};
use crate::troubles::{Access, Troubles};
use pcl_files::{FileFault, FileState};
use std::fs::{self, File};
use std::io::{self, Printer, Write};

/// A file that was begun.
#[derive(Drop)]
pub struct NewFile<'a> {
    sink: Sink<'a>,
    called: Called<'a>,
}

/// Where a file is written that was begun.
#[derive(Drop)]
enum Sink<'a> {
    /// To standard output, which one of its names leads to.
    Output(Printer<'a, HostRuntime>),
    /// In place, as a device.
    Device(File),
    /// Into the file that is there, which keeps its number.
    Kept(KeptFile),
    /// Beside the one whose place it takes.
    Beside(Part),
}

/// What a file is called, and where its troubles are kept.
#[derive(Drop)]
struct Called<'a> {
    rt: &'a HostRuntime,
    troubles: &'a Troubles,
    /// None where memory ran out for it.
    name: Option<String>,
}

impl<'a> Called<'a> {
    ghost use Rattle.std.specs.Prelude.{◌≡◌};

    fn new(rt: &'a HostRuntime, troubles: &'a Troubles, name: &str) -> Called<'a> {
        let name = String::from_str(rt.alloc(), name).ok();
        Called { rt, troubles, name }
    }

    /// What came of writing the file. An error is kept among the troubles.
    fn came<T>(&self, done: io::Result<T>) -> io::Result<T>
        ensures { result ≡ done }
    {
        if let (Err(error), Some(name)) = (&done, &self.name) {
            self.troubles
                .note_error(self.rt, Access::Writing, name.as_str(), error);
        }
        done
    }

    /// The same of making it, or putting it in its place.
    fn made<T>(&self, done: Result<T, Unmade>) -> Result<T, FileFault> {
        match done {
            Ok(made) => Ok(made),
            Err(unmade) => {
                if let Some(name) = &self.name {
                    self.troubles
                        .note(self.rt, Access::Writing, name.as_str(), unmade.cause);
                }
                Err(unmade.fault)
            }
        }
    }
}

impl Write for NewFile<'_> {
    fn write(&mut self, buf: &[u8]) -> io::Result<usize> {
        let written = match &mut self.sink {
            Sink::Output(out) => out.write(buf),
            Sink::Device(file) => file.write(buf),
            Sink::Kept(kept) => kept.write(self.called.rt, buf),
            Sink::Beside(part) => part.file.write(buf),
        };
        self.called.came(written)
    }

    fn flush(&mut self) -> io::Result<()> {
        let flushed = match &mut self.sink {
            Sink::Output(out) => out.flush(),
            Sink::Device(file) => file.flush(),
            Sink::Kept(_) => Ok(()),
            Sink::Beside(part) => part.file.flush(),
        };
        self.called.came(flushed)
    }
}

impl<'a> NewFile<'a> {
    /// Standard output, by one of its names.
    pub(crate) fn output(rt: &'a HostRuntime, troubles: &'a Troubles, name: &str) -> NewFile<'a> {
        NewFile {
            sink: Sink::Output(io::writer(rt)),
            called: Called::new(rt, troubles, name),
        }
    }

    /// A file that is written in place, as a device.
    pub(crate) fn device(
        rt: &'a HostRuntime,
        troubles: &'a Troubles,
        name: &str,
    ) -> Result<NewFile<'a>, FileFault> {
        let called = Called::new(rt, troubles, name);
        let sink = Sink::Device(called.came(fs::create(rt, name))?);
        Ok(NewFile { sink, called })
    }

    /// Begins to write into the file of a name, which keeps its number.
    pub(crate) fn kept(
        rt: &'a HostRuntime,
        troubles: &'a Troubles,
        name: &str,
        seen: Option<FileState>,
    ) -> Result<NewFile<'a>, FileFault> {
        let called = Called::new(rt, troubles, name);
        let sink = Sink::Kept(called.made(KeptFile::open(rt, name, seen))?);
        Ok(NewFile { sink, called })
    }

    /// Begins a file beside the one that a name leads to, or beside where it would be.
    pub(crate) fn beside(
        rt: &'a HostRuntime,
        troubles: &'a Troubles,
        name: &str,
        seen: Option<FileState>,
    ) -> Result<NewFile<'a>, FileFault> {
        let called = Called::new(rt, troubles, name);
        let sink = Sink::Beside(called.made(Part::beside(rt, name, seen))?);
        Ok(NewFile { sink, called })
    }

    /// Drops the file: what its name had stays.
    pub(crate) fn discard(self) {
        let NewFile { sink, called } = self;
        let rt = called.rt;
        match sink {
            Sink::Output(_) | Sink::Device(_) => {}
            Sink::Kept(kept) => kept.restore(rt),
            Sink::Beside(part) => part.discard(rt),
        }
    }

    /// Waits until all of the file is on the disk, with its rights.
    pub(crate) fn finish(&mut self) -> Result<(), FileFault> {
        let rt = self.called.rt;
        let done = match &mut self.sink {
            Sink::Output(_) | Sink::Device(_) => Ok(()),
            Sink::Kept(kept) => kept.finish(rt),
            Sink::Beside(part) => part.finish(),
        };
        Ok(self.called.came(done)?)
    }

    /// Takes its place for itself.
    pub(crate) fn claim(&mut self) -> Result<Claim, FileFault> {
        let rt = self.called.rt;
        let claimed = match &mut self.sink {
            Sink::Output(_) | Sink::Device(_) | Sink::Kept(_) => Ok(Claim::Nothing),
            Sink::Beside(part) => part.claim(rt),
        };
        self.called.made(claimed)
    }

    /// Puts a finished file in its place.
    pub(crate) fn put(&self) -> Result<(), FileFault> {
        match &self.sink {
            Sink::Output(_) | Sink::Device(_) | Sink::Kept(_) => Ok(()),
            Sink::Beside(part) => self.called.made(part.put(self.called.rt)),
        }
    }

    /// Takes it away again, where it was put in its place, and puts back what was there.
    pub(crate) fn take_back(self, claim: &Claim) {
        let rt = self.called.rt;
        if let Sink::Beside(part) = &self.sink {
            part.take_back(rt, claim);
        }
        self.discard();
    }
}
