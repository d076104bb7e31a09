//! The least length of each short row, found by trying all data of growing length.

use pcl_base::Method;
use pcl_coders::{Delta, Packed, Plain, RowCoder, Runs};
use pcl_rows::{decode, is_whole};
use std::process::Abort;

/// How many rows of four bytes there are, where a byte is 0, 1 or 2.
const ROWS: usize = 81;

/// The bytes of rows.
const ROW_BYTES: &[u8] = &[0, 1, 2];

/// Sets bytes by their number: they are its digits, and an alphabet says which byte a digit is.
pub(super) fn set_bytes(bytes: &mut [u8], number: usize, alphabet: &[u8]) {
    let mut rest = number;
    for slot in bytes.iter_mut() {
        let digit = rest.checked_rem(alphabet.len()).unwrap_or(0);
        *slot = alphabet.get(digit).copied().unwrap_or(0);
        rest = rest.checked_div(alphabet.len()).unwrap_or(0);
    }
}

/// The number of a row, or more than any where it has another byte.
fn number_of(row: &[u8]) -> usize {
    let mut number: usize = 0;
    for byte in row.iter().rev() {
        if *byte > 2 {
            return ROWS;
        }
        number = number.wrapping_mul(3).wrapping_add(usize::from(*byte));
    }
    number
}

/// Notes for the row that data makes over the seed row how few bytes make it. Data that isn't whole makes none.
fn note_data(method: Method, seed: &[u8], bytes: &[u8], least: &mut [usize; ROWS]) {
    let mut row = [0; 4];
    if let Some(row) = row.get_mut(..seed.len()) {
        if is_whole(method, bytes, row.len()) {
            decode(method, seed, bytes, row);
            if let Some(found) = least.get_mut(number_of(row)) {
                *found = (*found).min(bytes.len());
            }
        }
    }
}

/// Notes for each row how few bytes make it over the seed row, among all data of at most `most` bytes from an alphabet.
fn note_all(method: Method, seed: &[u8], alphabet: &[u8], most: usize, least: &mut [usize; ROWS]) {
    let mut count: usize = 1;
    for len in 0..=most {
        for number in 0..count {
            let mut bytes = [0; 8];
            if let Some(bytes) = bytes.get_mut(..len) {
                set_bytes(bytes, number, alphabet);
                note_data(method, seed, bytes, least);
            }
        }
        count = count.wrapping_mul(alphabet.len());
    }
}

/// Compares a coder's least lengths over one seed row with those that trying all data finds.
fn compare<C: RowCoder>(
    rt: &impl Abort,
    coder: &C,
    seed: &[u8],
    alphabet: &[u8],
    most: usize,
    rows: usize,
) {
    let mut least = [99; ROWS];
    note_all(coder.method(), seed, alphabet, most, &mut least);
    let mut row = [0; 4];
    if let Some(row) = row.get_mut(..seed.len()) {
        for (number, want) in least.iter().enumerate().take(rows) {
            set_bytes(row, number, ROW_BYTES);
            assert!(rt; coder.least(row, seed) == *want, "{row:?}");
        }
    }
}

/// Rows of up to four bytes, over each seed row in method 3, and over zeros in the others.
#[test]
fn all_data(rt: HostRuntime) {
    let mut rows: usize = 1;
    for len in 0..5 {
        let mut seed = [0; 4];
        if let Some(seed) = seed.get_mut(..len) {
            compare(&rt, &Plain, seed, ROW_BYTES, len, rows);
            compare(&rt, &Runs, seed, &[0, 1, 2, 3], 2 * len, rows);
            let controls = &[0, 1, 2, 3, 128, 253, 254, 255];
            compare(&rt, &Packed, seed, controls, len + 1, rows);
            for number in 0..rows {
                set_bytes(seed, number, ROW_BYTES);
                let commands = &[0, 1, 2, 3, 32, 33, 34, 64, 65, 96];
                compare(&rt, &Delta, seed, commands, len + 1, rows);
            }
        }
        rows = rows.wrapping_mul(3);
    }
}
