ghost use Rattle.pcl_coders.specs.Coding.{IsCodable};

use super::assert_gives;
use pcl_base::Method;
use pcl_coders::{Delta, Packed, Plain, RowCoder, Runs, Window};
use pcl_rows::{decode, is_whole};
use std::alloc::{AllocError, Global};
use std::process::Abort;

const METHODS: [Method; 4] = [Method::Plain, Method::Runs, Method::Packed, Method::Delta];

/// Asserts that data is whole, and decodes to the row.
fn assert_decodes(
    rt: &impl Abort,
    alloc: Global,
    method: Method,
    data: &[u8],
    row: &[u8],
    seed: &[u8],
) -> Result<(), AllocError> {
    assert!(rt; is_whole(method, data, row.len()));
    let mut again = vec![in alloc; 7; seed.len()]?;
    decode(method, seed, data, again.as_mut_slice());
    assert!(rt; again.as_slice() == row);
    Ok(())
}

/// What a coder writes after a byte 9, by a table of its own and along the numbers of the row: the same.
fn written_after<C: RowCoder>(
    rt: &impl Abort,
    alloc: Global,
    coder: &C,
    row: &[u8],
    seed: &[u8],
) -> Result<Vec<u8>, AllocError>
    requires { IsCodable seed.now row.now }
{
    let mut bytes = vec![in alloc; 9]?;
    coder.write(row, seed, &mut bytes)?;
    let mut numbers = vec![in alloc; 7; row.len() + 1]?;
    coder.places(row, seed, &mut numbers);
    let mut along = vec![in alloc; 9]?;
    coder.write_along(row, seed, &numbers, &mut along)?;
    assert!(rt; along.as_slice() == bytes.as_slice());
    Ok(bytes)
}

/// What a coder writes for a row. It is whole, decodes to the row, and has the least length.
fn data_of<C: RowCoder>(
    rt: &impl Abort,
    alloc: Global,
    coder: &C,
    row: &[u8],
    seed: &[u8],
) -> Result<Vec<u8>, AllocError> {
    assert!(rt; row.len() == seed.len() && row.len() <= 600);
    let mut bytes = written_after(rt, alloc, coder, row, seed)?;
    assert!(rt; !bytes.is_empty() && bytes.remove(0) == 9);
    assert!(rt; bytes.len() == coder.least(row, seed));
    assert_decodes(rt, alloc, coder.method(), bytes.as_slice(), row, seed)?;
    Ok(bytes)
}

/// These bytes, with zeros after them.
fn padded(front: &[u8]) -> [u8; 600] {
    let mut row = [0; 600];
    for (slot, byte) in row.iter_mut().zip(front) {
        *slot = *byte;
    }
    row
}

/// What the coder of a method writes for a row of this many bytes. The row and its seed row are given by their first
/// bytes; those after are zeros.
fn data_by(
    rt: &impl Abort,
    alloc: Global,
    method: Method,
    row: &[u8],
    seed: &[u8],
    len: usize,
) -> Result<Vec<u8>, AllocError> {
    let (row, seed) = (padded(row), padded(seed));
    let row = row.get(..len).unwrap_or(&[]);
    let seed = seed.get(..len).unwrap_or(&[]);
    match method {
        Method::Plain => data_of(rt, alloc, &Plain, row, seed),
        Method::Runs => data_of(rt, alloc, &Runs, row, seed),
        Method::Packed => data_of(rt, alloc, &Packed, row, seed),
        Method::Delta => data_of(rt, alloc, &Delta, row, seed),
    }
}

/// The lengths of a row's data: plain, runs, packed, delta.
fn lengths_of(
    rt: &impl Abort,
    alloc: Global,
    row: &[u8],
    seed: &[u8],
    len: usize,
) -> Result<[usize; 4], AllocError> {
    let mut lengths = [0; 4];
    for (slot, method) in lengths.iter_mut().zip(METHODS) {
        *slot = data_by(rt, alloc, method, row, seed, len)?.len();
    }
    Ok(lengths)
}

/// The first bytes of a row and of its seed row, how many they have, and the lengths of the row's data.
const LENGTHS: [(&[u8], &[u8], usize, [usize; 4]); 8] = [
    (b"", b"", 300, [0, 0, 0, 0]),
    (b"", b"\x80", 300, [0, 0, 0, 2]),
    (b"ABBC", b"", 300, [4, 6, 5, 5]),
    (&[255; 300], b"", 300, [300, 4, 6, 338]),
    (b"", b"", 0, [0, 0, 0, 0]),
    (b"\x01", b"\x00", 1, [1, 2, 2, 2]),
    (&[1; 600], b"", 600, [600, 6, 10, 675]),
    (&[1; 600], &[1; 600], 600, [600, 6, 10, 0]),
];

/// Rows whose least lengths are known.
#[test]
fn lengths(rt: HostRuntime) -> Result<(), AllocError> {
    for (row, seed, len, want) in LENGTHS {
        let lengths = lengths_of(&rt, rt.alloc(), row, seed, len)?;
        assert!(rt; lengths == want, "{row:?} {lengths:?}");
    }
    Ok(())
}

/// A row of 600 bytes that are zero but for those of 255 at some places.
fn spotted(places: &[usize]) -> [u8; 600] {
    let mut row = [0; 600];
    for place in places {
        if let Some(slot) = row.get_mut(*place) {
            *slot = 255;
        }
    }
    row
}

/// The place of the byte that differs, and the data.
const OFFSETS: [(usize, &[u8]); 7] = [
    (30, b"\x1e\xff"),
    (31, b"\x1f\x00\xff"),
    (285, b"\x1f\xfe\xff"),
    (286, b"\x1f\xff\x00\xff"),
    (299, b"\x1f\xff\x0d\xff"),
    (541, b"\x1f\xff\xff\x00\xff"),
    (599, b"\x1f\xff\xff\x3a\xff"),
];

/// One byte far from the row's start: the offset is lengthened by bytes 255, and one that is less.
#[test]
fn offsets(rt: HostRuntime) -> Result<(), AllocError> {
    for (place, want) in OFFSETS {
        let data = data_by(&rt, rt.alloc(), Method::Delta, &spotted(&[place]), &[], 600)?;
        assert!(rt; data.as_slice() == want, "{place}");
    }
    Ok(())
}

/// Two bytes, the first of which the row above has.
#[test]
fn offset_over_a_row(rt: HostRuntime) -> Result<(), AllocError> {
    let (above, row) = (spotted(&[31]), spotted(&[31, 286]));
    let data = data_by(&rt, rt.alloc(), Method::Delta, &row, &above, 300)?;
    assert!(rt; data.as_slice() == b"\x1f\xff\x00\xff".as_slice());
    let over_zeros = lengths_of(&rt, rt.alloc(), &above, &[], 300)?;
    let over_above = lengths_of(&rt, rt.alloc(), &row, &above, 300)?;
    assert_eq!(rt; [over_zeros, over_above], [[32, 4, 4, 3], [287, 8, 10, 4]]);
    Ok(())
}

/// A method, the first bytes of a row and of its seed row, how many they have, and the data that is written.
const CODED: [(Method, &[u8], &[u8], usize, &[u8]); 18] = [
    (Method::Packed, b"ABBC", b"", 300, b"\x03ABBC"),
    (Method::Delta, b"ABBC", b"", 300, b"\x60ABBC"),
    (Method::Runs, &[4; 257], b"", 257, b"\xff\x04\x00\x04"),
    (Method::Packed, &[7; 129], b"", 129, b"\x81\x07\x00\x07"),
    (Method::Packed, b"\x01\x01", b"", 2, b"\xff\x01"),
    (Method::Packed, b"\x01\x01\x02", b"", 3, b"\x02\x01\x01\x02"),
    (
        Method::Packed,
        b"\x01\x01\x01\x02",
        b"",
        4,
        b"\xfe\x01\x00\x02",
    ),
    (
        Method::Packed,
        b"\x01\x02\x02\x02",
        b"",
        4,
        b"\x00\x01\xfe\x02",
    ),
    (Method::Packed, b"\x01\x02\x02", b"", 3, b"\x02\x01\x02\x02"),
    (Method::Packed, b"\x00\x00\x01", b"", 3, b"\x02\x00\x00\x01"),
    (Method::Packed, b"\x01\x00\x00", b"", 3, b"\x00\x01"),
    (
        Method::Packed,
        b"\x01\x01\x02\x02",
        b"",
        4,
        b"\xff\x01\xff\x02",
    ),
    (
        Method::Packed,
        b"DDEFG\xff\xff\xff\xff\xff\xff\xff\xff",
        b"",
        13,
        b"\x04DDEFG\xf9\xff",
    ),
    (Method::Delta, b"\x01\x00\x02", b"", 3, b"\x00\x01\x01\x02"),
    (Method::Delta, b"\x05\x06", b"\x05\x00", 2, b"\x01\x06"),
    (Method::Delta, b"\x01\x02", b"", 2, b"\x20\x01\x02"),
    (
        Method::Delta,
        b"\x07\x01\x07",
        b"\x07\x00\x07",
        3,
        b"\x01\x01",
    ),
    (
        Method::Delta,
        b"\x01\x00\x00\x02",
        b"",
        4,
        b"\x00\x01\x02\x02",
    ),
];

/// Which of several least codings is written.
#[test]
fn ties(rt: HostRuntime) -> Result<(), AllocError> {
    for (method, row, seed, len, want) in &CODED {
        let data = data_by(&rt, rt.alloc(), *method, row, seed, *len)?;
        assert_gives(&rt, row, &data.as_slice(), want);
    }
    Ok(())
}

/// The least numbers of all places of a row.
fn numbers_of<C: RowCoder>(coder: &C, row: [u8; 3], seed: [u8; 3]) -> [u16; 4] {
    let mut numbers = [7; 4];
    coder.places(&row, &seed, &mut numbers);
    numbers
}

/// Rows of three bytes, whose numbers are known.
#[test]
fn tables(rt: HostRuntime) {
    let tables = [
        numbers_of(&Plain, [1, 0, 0], [9, 9, 9]),
        numbers_of(&Runs, [0, 0, 1], [9, 9, 9]),
        numbers_of(&Packed, [1, 1, 2], [9, 9, 9]),
        numbers_of(&Delta, [1, 1, 2], [1, 0, 2]),
    ];
    assert_eq!(rt;
        tables,
        [[1, 0, 0, 0], [4, 4, 2, 0], [4, 3, 2, 0], [2, 2, 0, 0]]
    );
}

/// Numbers that are put in and taken out.
#[test]
fn windows(rt: HostRuntime) {
    let mut numbers = [0; 5];
    let mut places = [0; 5];
    let mut window = Window::new(&mut numbers, &mut places);
    window.put(4);
    window.put(7);
    let first = window.least();
    window.take();
    let second = window.least();
    window.put(5);
    window.put(5);
    let third = window.least();
    window.take();
    window.take();
    window.put(9);
    let fourth = window.least();
    window.take();
    let last = window.least();
    assert_eq!(rt; [first, second, third, fourth, last], [4, 7, 5, 5, 9]);
}
