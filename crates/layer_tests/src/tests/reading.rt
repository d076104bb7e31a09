//! Reading a whole input, from readers that give little or fail.

use super::assert_gives;
use super::devices::FailingReader;
use pcl_tool::{Fault, read_all};
use std::alloc::{AllocError, Global};
use std::io::ErrorKind;
use std::process::Abort;

/// The bytes of which each source gives a front.
const TEXT: &[u8] = b"abcdefgh";

/// How many bytes a source has, how many a read gives, which read fails, the limit, and how many bytes are
/// read, as they are; and how many the source still has.
type Row = (
    usize,
    usize,
    Option<usize>,
    usize,
    Result<(usize, bool), Fault>,
    usize,
);

const ROWS: [Row; 17] = [
    (4, 9, None, 4, Ok((4, true)), 0),
    (4, 1, None, 4, Ok((4, true)), 0),
    (3, 2, None, 4, Ok((3, true)), 0),
    (0, 9, None, 4, Ok((0, true)), 0),
    (0, 9, None, 0, Ok((0, true)), 0),
    (4, 9, None, usize::MAX, Ok((4, true)), 0),
    (5, 9, None, 4, Err(Fault::TooLong), 0),
    (5, 1, None, 4, Err(Fault::TooLong), 0),
    (8, 9, None, 4, Err(Fault::TooLong), 3),
    (8, 3, None, 4, Err(Fault::TooLong), 3),
    (2, 9, None, 0, Err(Fault::TooLong), 1),
    (4, 9, Some(0), 4, Err(Fault::ReadFault), 4),
    (4, 1, Some(2), 4, Err(Fault::ReadFault), 2),
    (4, 9, Some(1), 4, Err(Fault::ReadFault), 0),
    (4, 9, Some(1), 9, Err(Fault::ReadFault), 0),
    (4, 9, Some(2), 4, Ok((4, true)), 0),
    (5, 9, Some(1), 4, Err(Fault::TooLong), 0),
];

/// How many bytes are read of a source, and whether they are those that it had.
fn read(alloc: Global, source: &mut FailingReader, limit: usize) -> Result<(usize, bool), Fault> {
    let whole = source.rest;
    match read_all(alloc, source, limit) {
        Ok(bytes) => Ok((bytes.len(), bytes.as_slice() == whole)),
        Err(fault) => Err(fault),
    }
}

/// Asserts what is read of a row whose failing read fails so.
fn assert_read(rt: &impl Abort, alloc: Global, kind: ErrorKind, row: &Row) {
    let (len, most, good, limit, wanted, left) = *row;
    let mut source = FailingReader {
        rest: TEXT.get(..len).unwrap_or(TEXT),
        most,
        good,
        kind,
    };
    let given = read(alloc, &mut source, limit);
    assert_gives(rt, row, &(given, source.rest.len()), &(wanted, left));
}

#[test]
fn with_a_limit(rt: HostRuntime) {
    for row in &ROWS {
        assert_read(&rt, rt.alloc(), ErrorKind::BrokenPipe, row);
        assert_read(&rt, rt.alloc(), ErrorKind::Interrupted, row);
    }
}

/// Which read of 150,001 bytes fails, the limit, and how many bytes are read, as they are.
type LongRow = (Option<usize>, usize, Result<(usize, bool), Fault>);

const LONG_ROWS: [LongRow; 3] = [
    (None, 150_001, Ok((150_001, true))),
    (None, 150_000, Err(Fault::TooLong)),
    (Some(2), 150_001, Err(Fault::ReadFault)),
];

/// Asserts what is read of these bytes.
fn assert_long_read(rt: &impl Abort, alloc: Global, bytes: &[u8], row: &LongRow) {
    let (good, limit, wanted) = *row;
    let mut source = FailingReader {
        rest: bytes,
        most: usize::MAX,
        good,
        kind: ErrorKind::Interrupted,
    };
    let given = read(alloc, &mut source, limit);
    assert_gives(rt, row, &given, &wanted);
}

// An input that needs several reads, of which the third fails or not.
#[test]
fn of_many_bytes(rt: HostRuntime) -> Result<(), AllocError> {
    let mut bytes = vec![in rt.alloc(); 7; 150_000]?;
    bytes.push(9)?;
    for row in &LONG_ROWS {
        assert_long_read(&rt, rt.alloc(), &bytes, row);
    }
    Ok(())
}
