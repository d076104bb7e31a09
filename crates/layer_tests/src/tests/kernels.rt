use super::assert_gives;
use pcl_bitmap::{first_difference, run_end, trimmed_len};
use std::process::Abort;

// A row that is zero but for the byte at `place`, beside zeros.
fn check(rt: &impl Abort, row: &[u8], blank: &[u8], place: usize) {
    assert!(rt; row.len() == blank.len() && place < row.len());
    let differences = (first_difference(row, blank), first_difference(blank, row));
    assert_gives(rt, &place, &differences, &(place, place));
    let ends = (run_end(blank, place), run_end(row, place), trimmed_len(row));
    assert_gives(rt, &place, &ends, &(row.len(), place + 1, place + 1));
    if place > 0 {
        assert_gives(rt, &place, &run_end(row, 0), &place);
    }
}

// Rows of every length from 0 to 70.
#[test]
fn each_length(rt: HostRuntime) {
    let zeros = [0; 70];
    for len in 0..71 {
        let blank = zeros.get(..len).unwrap_or(&[]);
        let given = (first_difference(blank, blank), trimmed_len(blank));
        assert_gives(&rt, &len, &given, &(len, 0));
        for place in 0..len {
            let mut row = [0; 70];
            if let Some(byte) = row.get_mut(place) {
                *byte = 1;
            }
            check(&rt, row.get(..len).unwrap_or(&[]), blank, place);
        }
    }
}
