//! Files that are read, by their names.

use crate::troubles::{Access, Troubles};
use std::fs::File;
use std::io::{self, Input, Read, StdinLock};

/// A file that is read. What goes wrong, and how it begins, is kept among a run's troubles.
#[derive(Drop)]
pub struct NamedFile<'a> {
    rt: &'a HostRuntime,
    opened: Opened,
    /// None where memory ran out for it.
    name: Option<String>,
    troubles: &'a Troubles,
    has_begun: bool,
}

/// What a name has opened.
#[derive(Drop)]
enum Opened {
    File(File),
    /// Standard input, which one of its names leads to.
    Input(StdinLock<'static>),
}

impl<'a> NamedFile<'a> {
    /// Of a file.
    pub(crate) fn new(
        rt: &'a HostRuntime,
        troubles: &'a Troubles,
        name: &str,
        file: File,
    ) -> NamedFile<'a> {
        NamedFile::of(rt, troubles, name, Opened::File(file))
    }

    /// Standard input, by one of its names.
    pub(crate) fn input(rt: &'a HostRuntime, troubles: &'a Troubles, name: &str) -> NamedFile<'a> {
        NamedFile::of(rt, troubles, name, Opened::Input(rt.reader()))
    }

    fn of(
        rt: &'a HostRuntime,
        troubles: &'a Troubles,
        name: &str,
        opened: Opened,
    ) -> NamedFile<'a> {
        NamedFile {
            rt,
            opened,
            name: String::from_str(rt.alloc(), name).ok(),
            troubles,
            has_begun: false,
        }
    }
}

impl Read for NamedFile<'_> {
    fn read(&mut self, buf: &mut [u8]) -> io::Result<usize> {
        let read = match &mut self.opened {
            Opened::File(file) => file.read(buf),
            Opened::Input(reader) => reader.read(buf),
        };
        match read {
            Ok(count) => {
                if !self.has_begun {
                    self.has_begun = true;
                    self.troubles.begin(buf.get(..count).unwrap_or(&[]));
                }
                Ok(count)
            }
            Err(error) => {
                if let Some(name) = &self.name {
                    self.troubles
                        .note_error(self.rt, Access::Reading, name.as_str(), &error);
                }
                Err(error)
            }
        }
    }
}
