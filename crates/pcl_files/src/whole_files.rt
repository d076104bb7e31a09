//! Files that are read whole, and files that are written whole or not at all.

ghost use Rattle.pcl_files.specs.WholeFiles.{AreSettled, IsFileRead, IsFileWritten, IsPlainRead, IsSettled, IsSettledAside};

use crate::files::{FileKind, JobFiles};
use pcl_base::INPUT_LIMIT;
use pcl_streams::{Fault, read_all, write_all};
use std::alloc::Global;

/// The bytes of the file of a name. ReadFault comes too where it can't be opened.
pub fn read_file<F: JobFiles>(files: &F, alloc: Global, name: &str) -> Result<Vec<u8>, Fault>
    ensures { IsFileRead F.acts files.now name.now result }
{
    match files.open(name) {
        Ok(mut file) => read_all(alloc, &mut file, INPUT_LIMIT),
        Err(_) => Err(Fault::ReadFault),
    }
}

/// The bytes of a plain file of a name, at most as many: TooLong comes where it has more. ReadFault comes where it can't be opened, and
/// where it is no plain file, as a pipe that may give nothing or a device that gives no end: such a one isn't opened.
pub fn read_plain<F: JobFiles>(
    files: &F,
    alloc: Global,
    name: &str,
    limit: usize,
) -> Result<Vec<u8>, Fault>
    ensures { IsPlainRead F.acts files.now name.now limit result }
{
    if files.kind_of(name) != Some(FileKind::File) {
        return Err(Fault::ReadFault);
    }
    let Ok(mut file) = files.open(name) else {
        return Err(Fault::ReadFault);
    };
    read_all(alloc, &mut file, limit)
}

/// Places a file that was begun where the task that wrote it is done, and else drops it.
pub fn settle<F: JobFiles>(
    files: &mut F,
    name: &str,
    file: F::Writer,
    done: Result<(), Fault>,
) -> Result<(), Fault>
    ensures { IsSettled F.acts name.now (F.Writer.contents file) done files.old files.new result }
{
    match done {
        Ok(()) => match files.place(name, file) {
            Ok(()) => Ok(()),
            Err(why) => Err(Fault::from(why)),
        },
        Err(fault) => {
            files.discard(name, file);
            Err(fault)
        }
    }
}

/// Settles the file of a certificate. Where the job is refused nothing was written to it, and it takes its place so, without a byte.
pub fn settle_aside<F: JobFiles>(
    files: &mut F,
    name: &str,
    file: F::Writer,
    done: Result<(), Fault>,
) -> Result<(), Fault>
    ensures { IsSettledAside F.acts name.now (F.Writer.contents file) done files.old files.new result }
{
    match done {
        Err(Fault::Refused(_)) => {
            let _ = files.place(name, file);
            done
        }
        _ => settle(files, name, file, done),
    }
}

/// Settles the files of a job and its certificate. Where the task that wrote them is done both take their places, or neither
/// does; where the job is refused its file is dropped, and the other one settled without a byte.
pub fn settle_both<F: JobFiles>(
    files: &mut F,
    name: &str,
    file: F::Writer,
    aside: &str,
    aside_file: F::Writer,
    done: Result<(), Fault>,
) -> Result<(), Fault>
    ensures { AreSettled F.acts name.now (F.Writer.contents file) aside.now (F.Writer.contents aside_file) done files.old files.new result }
{
    match done {
        Ok(()) => match files.place_both(aside, aside_file, name, file) {
            Ok(()) => Ok(()),
            Err(why) => Err(Fault::from(why)),
        },
        Err(_) => {
            files.discard(name, file);
            settle_aside(files, aside, aside_file, done)
        }
    }
}

/// Writes a file of these bytes. It takes the place of what its name had only where it is whole. After a fault, which is
/// WriteFault or Memory, what was there stays.
pub fn write_file<F: JobFiles>(files: &mut F, name: &str, bytes: &[u8]) -> Result<(), Fault>
    ensures { IsFileWritten F.acts name.now bytes.now files.old files.new result }
{
    match files.begin(name) {
        Ok(mut file) => {
            let written = write_all(&mut file, bytes);
            settle(files, name, file, written)
        }
        Err(why) => Err(Fault::from(why)),
    }
}
