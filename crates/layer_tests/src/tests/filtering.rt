//! Filters between readers and writers that give or take little, or fail.

use super::assert_gives;
use super::devices::{FailingReader, Held, failing, taking};
use pcl_base::{Dpi, Kind, Name, Refusal};
use pcl_tool::{Fault, filter};
use std::alloc::Global;
use std::fmt::Debug;
use std::io::{ErrorKind, Read};
use std::process::Abort;

/// A job of 30 bytes with the dot (0, 0).
pub const JOB: &[u8] = b"\x1b&l0E\x1b*p0x0Y\x1b*t300R\x1b*r0A\x1b*b1W\x80";

/// What it is written as, 48 bytes.
pub const WRITTEN: &[u8] =
    b"\x1bE\x1b&l1x2a0E\x1b*p0x0Y\x1b*t300R\x1b*r2400s0A\x1b*b1W\x80\x1b*rC\x0c\x1bE";

/// What a filter answers, what the writer then holds, and how often it was flushed.
type Filtered<'a> = (Result<(), Fault>, &'a [u8], usize);

/// The whole job is written.
const WHOLE: Filtered = (Ok(()), WRITTEN, 1);

/// Asserts what comes of a filter between a reader and a writer.
fn assert_filtered<C: Debug, R: Read>(
    rt: &impl Abort,
    alloc: Global,
    case: &C,
    source: &mut R,
    mut out: Held,
    wanted: &Filtered,
) {
    let result = filter(alloc, source, Dpi::Dpi300, &mut out);
    let (wanted, bytes, flushes) = *wanted;
    assert_gives(
        rt,
        case,
        &(result, out.bytes.as_slice(), out.flushes),
        &(wanted, bytes, flushes),
    );
}

/// How a read fails, the most bytes of a read, and how many reads the job takes. The last one finds the end.
const READS: [(ErrorKind, usize, usize); 6] = [
    (ErrorKind::BrokenPipe, 1, 31),
    (ErrorKind::BrokenPipe, 7, 6),
    (ErrorKind::BrokenPipe, usize::MAX, 2),
    (ErrorKind::Interrupted, 1, 31),
    (ErrorKind::Interrupted, 7, 6),
    (ErrorKind::Interrupted, usize::MAX, 2),
];

/// Asserts what is written of the job where the read after `good` ones fails.
fn assert_read_fails(
    rt: &impl Abort,
    alloc: Global,
    kind: ErrorKind,
    most: usize,
    good: usize,
    wanted: &Filtered,
) {
    let mut source = FailingReader {
        rest: JOB,
        most,
        good: Some(good),
        kind,
    };
    let out = taking(alloc, usize::MAX);
    assert_filtered(rt, alloc, &(most, good), &mut source, out, wanted);
}

// Each read fails in turn, whether it gives a byte, a few, or all. Then nothing is written. After the last
// one none is made.
#[test]
fn each_read_fails(rt: HostRuntime) {
    for (kind, most, reads) in &READS {
        for good in 0..*reads {
            let wanted = (Err(Fault::ReadFault), b"".as_slice(), 0);
            assert_read_fails(&rt, rt.alloc(), *kind, *most, good, &wanted);
        }
        assert_read_fails(&rt, rt.alloc(), *kind, *most, *reads, &WHOLE);
    }
}

/// The most bytes of a write, and how many writes the job takes.
pub const WRITES: [(usize, usize); 3] = [(1, 48), (7, 7), (usize::MAX, 1)];

/// What this many writes take of the job as it is written.
pub(super) fn taken(writes: usize, most: usize) -> &'static [u8] {
    WRITTEN
        .get(..writes.saturating_mul(most))
        .unwrap_or(WRITTEN)
}

// Each write fails in turn, whether it takes a byte, a few, or all. The writer then holds what it took. After
// the last one none is made.
#[test]
fn each_write_fails(rt: HostRuntime) {
    let alloc = rt.alloc();
    for (most, writes) in &WRITES {
        for good in 0..*writes {
            let out = failing(alloc, *most, Some(good), false);
            let wanted = (Err(Fault::WriteFault), taken(good, *most), 0);
            assert_filtered(&rt, alloc, &(*most, good), &mut &*JOB, out, &wanted);
        }
        let out = failing(alloc, *most, Some(*writes), false);
        assert_filtered(&rt, alloc, &(*most, *writes), &mut &*JOB, out, &WHOLE);
    }
}

// A write that takes nothing is a fault, and so is a flush that fails; by then the whole job is written.
#[test]
fn nothing_taken_and_no_flush(rt: HostRuntime) {
    let alloc = rt.alloc();
    let full = taking(alloc, 0);
    let nothing = (Err(Fault::WriteFault), b"".as_slice(), 0);
    assert_filtered(&rt, alloc, &"full", &mut &*JOB, full, &nothing);
    let stuck = failing(alloc, usize::MAX, None, true);
    let whole = (Err(Fault::WriteFault), WRITTEN, 1);
    assert_filtered(&rt, alloc, &"stuck", &mut &*JOB, stuck, &whole);
}

/// One page too many.
const TOO_MANY: [u8; 257] = [12; 257];

/// Jobs, and how they are refused.
const REFUSED: [(&[u8], Refusal); 2] = [
    (
        &TOO_MANY,
        Refusal {
            kind: Kind::TooManyPages,
            at: 256,
            name: Name::One(12),
        },
    ),
    (
        b"\x0c\x1b",
        Refusal {
            kind: Kind::Truncated,
            at: 1,
            name: Name::Empty,
        },
    ),
];

// Of one page too many, and of a fault after a page, nothing is written.
#[test]
fn nothing_of_a_refused_job(rt: HostRuntime) {
    let alloc = rt.alloc();
    for (job, refusal) in &REFUSED {
        let mut rest = *job;
        let wanted = (Err(Fault::Refused(*refusal)), b"".as_slice(), 0);
        assert_filtered(
            &rt,
            alloc,
            job,
            &mut rest,
            taking(alloc, usize::MAX),
            &wanted,
        );
    }
}
