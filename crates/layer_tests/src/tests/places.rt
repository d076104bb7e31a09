use super::assert_gives;
use pcl_base::Method;
use pcl_check::first_bad_place;
use pcl_coders::{Delta, Packed, Plain, RowCoder, Runs};
use std::process::Abort;

/// A method, the first byte of a row and of its seed row, the first number of a row table, and the first bad place. All else in
/// the rows and the table is 0.
type First = (Method, u8, u8, u16, Option<usize>);

const FIRST_NUMBERS: [First; 11] = [
    (Method::Plain, 0x80, 0, 1, None),
    (Method::Plain, 0x80, 0, 2, Some(0)),
    (Method::Runs, 0x80, 0, 2, None),
    (Method::Runs, 0x80, 0, 3, Some(0)),
    (Method::Packed, 0x80, 0, 2, None),
    (Method::Packed, 0x80, 0, 3, Some(0)),
    (Method::Delta, 0x80, 0, 2, None),
    (Method::Plain, 0, 0x80, 0, None),
    (Method::Plain, 0, 0x80, 1, Some(0)),
    (Method::Delta, 0, 0x80, 2, None),
    (Method::Delta, 0, 0x80, 3, Some(0)),
];

/// A row of one dot below a white row, and a white row below that one: their least numbers are row tables, and a number that is
/// raised is the first bad one.
#[test]
fn dot_and_white(rt: HostRuntime) {
    for (method, row, seed, number, bad) in &FIRST_NUMBERS {
        let mut numbers = [0; 301];
        numbers[0] = *number;
        let given = first_bad_place(*method, &row_from(*row), &row_from(*seed), &numbers);
        assert_gives(&rt, &(*method, *row, *number), &given, bad);
    }
}

/// A row that is white but for its first byte.
fn row_from(first: u8) -> [u8; 300] {
    let mut row = [0; 300];
    row[0] = first;
    row
}

/// The edge of the window of runs of 256.
#[test]
fn far_runs(rt: HostRuntime) {
    let full = [0xff; 300];
    let mut numbers = [2; 301];
    numbers[..44].fill(4);
    numbers[300] = 0;
    let right = first_bad_place(Method::Runs, &full, &[0; 300], &numbers);
    numbers[44] = 3;
    let raised = first_bad_place(Method::Runs, &full, &[0; 300], &numbers);
    assert_gives(&rt, &"runs", &(right, raised), &(None, Some(44)));
}

/// The edge of the window of literals of 128.
#[test]
fn far_literals(rt: HostRuntime) {
    let mut stairs = [0; 300];
    let mut numbers = [0; 301];
    for place in 0..300 {
        let left = 300 - place;
        stairs[place] = (place % 255 + 1) as u8;
        numbers[place] = (left + left.div_ceil(128)) as u16;
    }
    let right = first_bad_place(Method::Packed, &stairs, &[0; 300], &numbers);
    numbers[172] = 130;
    let raised = first_bad_place(Method::Packed, &stairs, &[0; 300], &numbers);
    assert_gives(&rt, &"literals", &(right, raised), &(None, Some(172)));
}

/// The edges of the windows of replacements, whose offsets are spelled with one byte and with two.
#[test]
fn far_offsets(rt: HostRuntime) {
    let mut far = [0; 300];
    far[31] = 0xff;
    far[286] = 0xff;
    let mut numbers = [0; 301];
    numbers[0] = 6;
    numbers[1..=31].fill(5);
    numbers[32..=255].fill(3);
    numbers[256..=286].fill(2);
    let right = first_bad_place(Method::Delta, &far, &[0; 300], &numbers);
    numbers[255] = 4;
    let late = first_bad_place(Method::Delta, &far, &[0; 300], &numbers);
    numbers[0] = 7;
    let early = first_bad_place(Method::Delta, &far, &[0; 300], &numbers);
    assert_gives(
        &rt,
        &"offsets",
        &(right, late, early),
        &(None, Some(255), Some(0)),
    );
}

/// A row of literal bytes and repeats over another one, at whose ends white rows stand.
fn mixed_row() -> [u8; 300] {
    let mut row = [0; 300];
    for place in 3..290 {
        row[place] = match place {
            20..=30 => 0x55,
            40..=41 => 0xaa,
            60..=250 => 0xff,
            _ => (place % 251 + 1) as u8,
        };
    }
    row
}

/// Numbers of coders never grow, and are row tables by each method. One that is raised by 1 is the first bad one, at the first
/// place, in the middle, and at the last places; so is one that is raised to more than the one before it, or after all that is
/// needed.
#[test]
fn raised_numbers(rt: HostRuntime) {
    let row = mixed_row();
    assert_raised(&rt, &Plain, &row);
    assert_raised(&rt, &Runs, &row);
    assert_raised(&rt, &Packed, &row);
    assert_raised(&rt, &Delta, &row);
}

const RAISED: [usize; 12] = [0, 1, 30, 40, 41, 122, 123, 249, 288, 289, 290, 300];

/// Raises the numbers of a row below a white one at some places, one at a time.
fn assert_raised<C: RowCoder>(rt: &impl Abort, coder: &C, row: &[u8; 300]) {
    let mut numbers = [0; 301];
    coder.places(row, &[0; 300], &mut numbers);
    let right = first_bad_place(coder.method(), row, &[0; 300], &numbers);
    assert_gives(rt, &coder.method(), &right, &None);
    for place in &RAISED {
        for more in [1, 1000] {
            let raised = raised(numbers, *place, more);
            let bad = first_bad_place(coder.method(), row, &[0; 300], &raised);
            assert_gives(rt, &(coder.method(), more), &bad, &Some(*place));
        }
    }
}

/// Numbers of which one is greater by so much.
fn raised(mut numbers: [u16; 301], place: usize, more: u16) -> [u16; 301] {
    if let Some(number) = numbers.get_mut(place) {
        *number = number.saturating_add(more);
    }
    numbers
}

/// Numbers that are less at their begin by so much, and the first bad place.
const LOWERED: [([u16; 3], Option<usize>); 3] = [
    ([1, 0, 0], None),
    ([1, 1, 0], None),
    ([1, 1, 3], Some(0)),
];

/// Lower numbers may be row tables too, whether they grow along the row or not.
#[test]
fn lowered_numbers(rt: HostRuntime) {
    let row = mixed_row();
    let mut least = [0; 301];
    Packed.places(&row, &[0; 300], &mut least);
    for (less, bad) in &LOWERED {
        let mut numbers = least;
        for (number, less) in numbers.iter_mut().zip(less) {
            *number = number.saturating_sub(*less);
        }
        let given = first_bad_place(Method::Packed, &row, &[0; 300], &numbers);
        assert_gives(&rt, less, &given, bad);
    }
}
