//! Files that are written into, so that they keep their numbers, and with them their links, access lists and attributes.

use crate::parts::{Claim, Earlier, Unmade};
use crate::places::{place_of, state_of};
use pcl_files::{FileFault, FileState};
use std::fs::{File, OpenOptions};
use std::io::{self, ErrorKind, Read, Seek, SeekFrom, Write};

/// A file that is written into. What it had is held in memory from the first write on, and is put back where the run fails. It is lost
/// where the run is killed between that and its end.
#[derive(Drop)]
pub(crate) struct KeptFile {
    earlier: Earlier,
    place: String,
    /// Once it was written into.
    begun: Option<Begun>,
}

/// What a file had that is written into, what is held of its place, and how many bytes were written.
#[derive(Drop)]
struct Begun {
    bytes: Vec<u8>,
    claim: Claim,
    written: u64,
}

impl KeptFile {
    ghost use Rattle.std.specs.Prelude.{◌≤◌, length, IfOk};

    /// Opens the file of a name, which has to be there as it was seen.
    pub(crate) fn open(
        rt: &HostRuntime,
        name: &str,
        seen: Option<FileState>,
    ) -> Result<KeptFile, Unmade> {
        let place = place_of(rt, name)?;
        let mut how = OpenOptions::new();
        how.read(true).write(true);
        let file = how.open(rt, name)?;
        let there = file.metadata()?;
        if !there.is_file() {
            return Err(Unmade::stated(FileFault::Nameless));
        }
        let state = state_of(&there);
        if !seen.unwrap_or(state).is(state) {
            return Err(Unmade::CHANGED);
        }
        let earlier = Earlier::new(rt, place.as_str(), file, &there)?;
        let begun = None;
        Ok(KeptFile {
            earlier,
            place,
            begun,
        })
    }

    /// Writes into the file, the first time over its first byte.
    pub(crate) fn write(&mut self, rt: &HostRuntime, buf: &[u8]) -> io::Result<usize>
        ensures { IfOk result (λ n. n ≤ length buf.now) }
    {
        self.begin(rt)?;
        let written = self.earlier.file.write(buf)?;
        if let Some(begun) = &mut self.begun {
            begun.written = begun.written.saturating_add(written as u64);
        }
        Ok(written)
    }

    /// Cuts off what is left of the bytes that were there, and waits until all is on the disk.
    pub(crate) fn finish(&mut self, rt: &HostRuntime) -> io::Result<()> {
        self.begin(rt)?;
        let written = match &self.begun {
            Some(begun) => begun.written,
            None => 0,
        };
        self.earlier.file.set_len(written)?;
        self.earlier.file.sync_all()?;
        if let Some(begun) = &self.begun {
            begun.claim.let_go(rt);
        }
        Ok(())
    }

    /// Puts back what the file had, where anything was written.
    pub(crate) fn restore(self, rt: &HostRuntime) {
        let KeptFile { earlier, begun, .. } = self;
        if let Some(begun) = begun {
            let _ = put_back(earlier.file, &begun.bytes);
            begun.claim.let_go(rt);
        }
    }

    /// Takes the file for this run, and holds what it has.
    fn begin(&mut self, rt: &HostRuntime) -> io::Result<()> {
        if self.begun.is_some() {
            return Ok(());
        }
        let claim = match self.earlier.claim(rt, self.place.as_str()) {
            Ok(claim) => claim,
            Err(_) => return Err(io::Error::from(ErrorKind::StaleNetworkFileHandle)),
        };
        let mut bytes = Vec::new(rt.alloc());
        let read = self.earlier.file.read_to_end(&mut bytes);
        let done = match read {
            Ok(_) => self.earlier.file.seek(SeekFrom::Start(0)),
            Err(error) => Err(error),
        };
        if let Err(error) = done {
            claim.let_go(rt);
            return Err(error);
        }
        let written = 0;
        self.begun = Some(Begun {
            bytes,
            claim,
            written,
        });
        Ok(())
    }
}

/// Writes bytes over all that a file has.
fn put_back(mut file: File, bytes: &[u8]) -> io::Result<()> {
    file.seek(SeekFrom::Start(0))?;
    file.write_all(bytes)?;
    file.set_len(bytes.len() as u64)
}
