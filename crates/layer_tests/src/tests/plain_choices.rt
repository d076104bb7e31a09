//! The coders beside plain choices: at each place every element that may stand there is tried, of each length and at each
//! offset, whether it can be a best one or not.

ghost use Rattle.std.specs.Prelude.{◌≡◌, ◌≤◌, length};
ghost use Rattle.pcl_coders.specs.Coding.{IsCodable};

use pcl_base::Method;
use pcl_bitmap::{first_difference, run_end};
use pcl_coders::{Delta, Packed, Plain, RowCoder, Runs};
use std::alloc::{AllocError, Global};
use std::process::Abort;

/// An element that stands at a place of a row.
#[derive(Clone, Copy)]
struct Element {
    /// Its first byte, its control, where it has one.
    control: Option<u8>,
    /// How many bytes of the row stay before those that it gives.
    offset: usize,
    /// How many bytes of the row stand in it.
    literals: usize,
    /// Where the next element stands, from its own place on.
    stop: usize,
    /// How many bytes it and the best elements after it have.
    sum: usize,
}

/// Where no more data is needed.
const END: Element = Element {
    control: None,
    offset: 0,
    literals: 0,
    stop: 0,
    sum: 0,
};

/// What each other element is better than.
const NONE: Element = Element {
    control: None,
    offset: 0,
    literals: 0,
    stop: 0,
    sum: usize::MAX,
};

/// How many bytes lengthen an offset.
fn lengthening(offset: usize) -> usize {
    if offset < 31 {
        0
    } else {
        1 + (offset - 31) / 255
    }
}

impl Element {
    /// The element of these, where `best` are the best ones of its own place, of the next one, and so on.
    fn new(
        best: &[Element],
        control: Option<u8>,
        offset: usize,
        literals: usize,
        stop: usize,
    ) -> Element {
        let after = best.get(stop).copied().unwrap_or(NONE).sum;
        let head = lengthening(offset).saturating_add(usize::from(control.is_some()));
        Element {
            control,
            offset,
            literals,
            stop,
            sum: after.saturating_add(head).saturating_add(literals),
        }
    }

    /// The one of the lesser sum, the other one where both are the same.
    fn or(self, other: Element) -> Element {
        if other.sum <= self.sum { other } else { self }
    }

    /// Appends its bytes, where `wanted` is the row from its place on.
    fn append(self, wanted: &[u8], out: &mut Vec<u8>) -> Result<(), AllocError> {
        if let Some(control) = self.control {
            out.push(control)?;
        }
        if self.offset >= 31 {
            for _ in 0..(self.offset - 31) / 255 {
                out.push(255)?;
            }
            out.push(((self.offset - 31) % 255) as u8)?;
        }
        let literals = wanted.iter().skip(self.offset).take(self.literals);
        for byte in literals {
            out.push(*byte)?;
        }
        Ok(())
    }
}

/// The longest run of the best ones.
fn best_run(run: usize, best: &[Element]) -> Element {
    let mut found = NONE;
    for len in 1..=run.min(256) {
        found = found.or(Element::new(best, Some((len - 1) as u8), 0, 1, len));
    }
    found
}

/// The longest literal or repeat of the best ones, of one length the repeat.
fn best_packed(run: usize, best: &[Element]) -> Element {
    let mut found = NONE;
    for len in 1..129 {
        found = found.or(Element::new(best, Some((len - 1) as u8), 0, len, len));
        if 2 <= len && len <= run {
            found = found.or(Element::new(best, Some((257 - len) as u8), 0, 1, len));
        }
    }
    found
}

/// The replacement of the greatest offset of the best ones, and of those the shortest.
fn best_replacement(same: usize, best: &[Element]) -> Element {
    let mut found = NONE;
    for offset in 0..=same {
        for len in (1..9).rev() {
            let control = 32 * (len - 1) + offset.min(31);
            let stop = offset.saturating_add(len);
            found = found.or(Element::new(best, Some(control as u8), offset, len, stop));
        }
    }
    found
}

/// The best element of each place of a row, and at its end.
fn best_elements(
    alloc: Global,
    method: Method,
    old: &[u8],
    row: &[u8],
) -> Result<Vec<Element>, AllocError>
    requires { IsCodable old.now row.now }
{
    let mut best = vec![in alloc; END; row.len() + 1]?;
    for place in (0..row.len()).rev() {
        let (old, wanted) = (&old[place..], &row[place..]);
        let same = first_difference(old, wanted);
        if same < wanted.len() {
            let after = best.get(place..).unwrap_or(&[]);
            let element = match method {
                Method::Plain => Element::new(after, None, 0, 1, 1),
                Method::Runs => best_run(run_end(wanted, 0), after),
                Method::Packed => best_packed(run_end(wanted, 0), after),
                Method::Delta => best_replacement(same, after),
            };
            if let Some(slot) = best.get_mut(place) {
                *slot = element;
            }
        }
    }
    Ok(best)
}

/// The data of a row along the best elements of its places.
fn data_along(alloc: Global, row: &[u8], best: &[Element]) -> Result<Vec<u8>, AllocError> {
    let mut data = Vec::new(alloc);
    let mut next = 0;
    for (place, element) in best.iter().enumerate() {
        if place == next && element.sum > 0 {
            element.append(row.get(place..).unwrap_or(&[]), &mut data)?;
            next = place.saturating_add(element.stop);
        }
    }
    Ok(data)
}

/// Asserts that the numbers of a coder are the sums of the best elements.
fn assert_numbers<C: RowCoder>(
    rt: &impl Abort,
    coder: &C,
    row: &[u8],
    seed: &[u8],
    best: &[Element],
)
    requires { IsCodable seed.now row.now }
{
    let mut numbers = [7; 601];
    let numbers = &mut numbers[..row.len() + 1];
    coder.places(row, seed, numbers);
    assert!(rt; numbers.len() == best.len());
    for (number, element) in numbers.iter().zip(best) {
        assert!(rt; usize::from(*number) == element.sum);
    }
}

/// Compares a coder's length, numbers and data with those of the best elements.
fn compare<C: RowCoder>(
    rt: &impl Abort,
    alloc: Global,
    coder: &C,
    row: &[u8],
    seed: &[u8],
    old: &[u8],
) -> Result<(), AllocError> {
    assert!(rt; seed.len() == row.len() && old.len() == row.len() && row.len() <= 600);
    let best = best_elements(alloc, coder.method(), old, row)?;
    let wanted = data_along(alloc, row, &best)?;
    assert_numbers(rt, coder, row, seed, &best);
    assert!(rt; coder.least(row, seed) == wanted.len());
    let mut data = Vec::new(alloc);
    coder.write(row, seed, &mut data)?;
    assert!(rt; data.as_slice() == wanted.as_slice());
    Ok(())
}

/// The next number of a linear congruential generator.
fn next(state: &mut u32) -> u32 {
    *state = state.wrapping_mul(1_664_525).wrapping_add(1_013_904_223);
    *state >> 8
}

/// Makes a row and its seed row by their number: some have long runs, some differ at few bytes.
fn make_rows(number: u32, row: &mut [u8], seed: &mut [u8]) {
    let mut state = number;
    let spread = match number % 4 {
        0 => 1,
        1 => 3,
        2 => 20,
        _ => 150,
    };
    let change = match number / 4 % 4 {
        0 => 2,
        1 => 9,
        2 => 40,
        _ => 300,
    };
    let mut byte = 0u8;
    for (slot, above) in row.iter_mut().zip(seed) {
        if next(&mut state) % spread == 0 {
            byte = (next(&mut state) % 3) as u8;
        }
        let is_changed = next(&mut state) % change == 0;
        *slot = byte;
        *above = if is_changed { 5 } else { byte };
    }
}

/// A thousand rows of all lengths from 1 to 600.
#[test]
fn same_as_plain_choices(rt: HostRuntime) -> Result<(), AllocError> {
    let zeros = [0; 600];
    for number in 0..1000u32 {
        let len = 1 + (7 * number % 600) as usize;
        let mut row = [0; 600];
        let mut seed = [0; 600];
        let row = row.get_mut(..len).unwrap_or(&mut []);
        let seed = seed.get_mut(..len).unwrap_or(&mut []);
        let zeros = zeros.get(..len).unwrap_or(&[]);
        make_rows(number, row, seed);
        compare(&rt, rt.alloc(), &Plain, row, seed, zeros)?;
        compare(&rt, rt.alloc(), &Runs, row, seed, zeros)?;
        compare(&rt, rt.alloc(), &Packed, row, seed, zeros)?;
        compare(&rt, rt.alloc(), &Delta, row, seed, seed)?;
    }
    Ok(())
}
