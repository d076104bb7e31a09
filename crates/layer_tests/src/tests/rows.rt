use super::assert_gives;
use pcl_base::Method;
use pcl_rows::{decode, is_whole};
use std::alloc::AllocError;

/// A method, data, a seed row, and the row that the data makes over it.
type Row = (Method, &'static [u8], &'static [u8], &'static [u8]);

const ROWS: [Row; 22] = [
    (Method::Plain, &[], &[9, 9], &[0, 0]),
    (Method::Plain, &[1, 2], &[9, 9, 9], &[1, 2, 0]),
    (Method::Plain, &[1, 2, 3], &[9, 9], &[1, 2]),
    (
        Method::Runs,
        &[2, 255, 0, 192],
        &[9, 9, 9, 9, 9],
        &[255, 255, 255, 192, 0],
    ),
    (Method::Runs, &[255, 1], &[0, 0], &[1, 1]),
    (Method::Runs, &[0, 5, 2], &[9, 9], &[5, 0]),
    (
        Method::Packed,
        &[1, 7, 8, 254, 6],
        &[0, 0, 0, 0, 0, 0],
        &[7, 8, 6, 6, 6, 0],
    ),
    (Method::Packed, &[128, 0, 65], &[9, 9], &[65, 0]),
    (Method::Packed, &[5, 65], &[9, 9], &[65, 0]),
    (Method::Packed, &[255, 1, 255], &[9, 9, 9], &[1, 1, 0]),
    (Method::Packed, &[129, 3, 0, 4], &[0, 0, 0], &[3, 3, 3]),
    (Method::Packed, &[128, 128], &[9], &[0]),
    (Method::Delta, &[], &[1, 2], &[1, 2]),
    (Method::Delta, &[0, 7], &[1, 2], &[7, 2]),
    (
        Method::Delta,
        &[33, 7, 8, 0, 9],
        &[1, 2, 3, 4, 5],
        &[1, 7, 8, 9, 5],
    ),
    (Method::Delta, &[96, 65, 66], &[1, 2, 3, 4], &[65, 66, 3, 4]),
    (Method::Delta, &[2, 9, 9], &[1, 2], &[1, 2]),
    (Method::Delta, &[1], &[1, 2], &[1, 2]),
    (Method::Delta, &[31, 255, 255], &[1, 2], &[1, 2]),
    (Method::Delta, &[31, 0], &[1, 2], &[1, 2]),
    (
        Method::Delta,
        &[224, 1, 2, 3, 4, 5, 6, 7, 8, 0, 9],
        &[0, 0, 0, 0, 0, 0, 0, 0, 0],
        &[1, 2, 3, 4, 5, 6, 7, 8, 9],
    ),
    (Method::Delta, &[0, 1, 2, 3], &[5, 5, 5, 5], &[1, 5, 5, 3]),
];

#[test]
fn rows_of_data(rt: HostRuntime) -> Result<(), AllocError> {
    for (method, bytes, seed, wanted) in &ROWS {
        let mut row = vec![in rt.alloc(); 7; seed.len()]?;
        decode(*method, seed, bytes, row.as_mut_slice());
        assert_gives(&rt, &(*method, *bytes), &row.as_slice(), wanted);
    }
    Ok(())
}

/// Long offsets of method 3, and the place of the one byte that stands after them.
const LONG_OFFSETS: [(&[u8], usize); 6] = [
    (&[30, 255], 30),
    (&[31, 0, 255], 31),
    (&[31, 254, 255], 285),
    (&[31, 255, 0, 255], 286),
    (&[31, 255, 255, 0, 255], 541),
    (&[31, 255, 255, 58, 255], 599),
];

#[test]
fn long_offsets(rt: HostRuntime) {
    for (bytes, place) in &LONG_OFFSETS {
        let mut row = [1; 600];
        decode(Method::Delta, &[0; 600], bytes, &mut row);
        let whole = (
            is_whole(Method::Delta, bytes, 600),
            is_whole(Method::Delta, bytes, *place),
        );
        assert_gives(&rt, bytes, &(row, whole), &(byte_at(*place), (true, false)));
    }
}

/// A row of zeros but for a byte of 255 at a place.
fn byte_at(place: usize) -> [u8; 600] {
    let mut row = [0; 600];
    if let Some(byte) = row.get_mut(place) {
        *byte = 255;
    }
    row
}

/// Data that is whole for a row of some bytes, and data that isn't.
const DATA: [(Method, &[u8], usize, bool); 17] = [
    (Method::Plain, &[], 0, true),
    (Method::Plain, &[1, 2], 2, true),
    (Method::Plain, &[1, 2], 1, false),
    (Method::Runs, &[255, 1], 256, true),
    (Method::Runs, &[255, 1], 255, false),
    (Method::Runs, &[0, 1, 0], 9, false),
    (Method::Packed, &[128], 0, true),
    (Method::Packed, &[1, 7, 8, 128, 129, 6], 130, true),
    (Method::Packed, &[1, 7, 8, 129, 6], 129, false),
    (Method::Packed, &[1, 7], 9, false),
    (Method::Packed, &[255], 9, false),
    (Method::Delta, &[34, 7, 8], 4, true),
    (Method::Delta, &[34, 7, 8], 3, false),
    (Method::Delta, &[34, 7], 9, false),
    (Method::Delta, &[31, 255, 3, 9], 290, true),
    (Method::Delta, &[31, 255, 3, 9], 289, false),
    (Method::Delta, &[31, 255], 999, false),
];

#[test]
fn whole_data(rt: HostRuntime) {
    for (method, bytes, row_bytes, wanted) in &DATA {
        let given = is_whole(*method, bytes, *row_bytes);
        assert_gives(&rt, &(*method, *bytes, *row_bytes), &given, wanted);
    }
}
