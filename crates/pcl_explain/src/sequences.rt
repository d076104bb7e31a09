//! Sequences that can't be read, and where they end.

/// The byte that begins a sequence.
const ESCAPE: u8 = 27;

/// Puts silent bytes in the place of the sequence, or the control code, that stands around a place, and says where that begins.
pub fn blank_sequence(bytes: &mut [u8], at: usize) -> usize {
    let start = start_of_sequence(bytes, at);
    let end = end_of_sequence(bytes, start);
    for byte in bytes.iter_mut().take(end).skip(start) {
        *byte = 0;
    }
    start
}

/// Where the sequence begins that stands around a place: the last ESC there or before it, or the place itself where that is a
/// control code's.
fn start_of_sequence(bytes: &[u8], at: usize) -> usize {
    if let Some(byte) = bytes.get(at) {
        if *byte < ESCAPE {
            return at;
        }
    }
    let before = bytes.get(..at.saturating_add(1)).unwrap_or(bytes);
    match before.iter().rposition(|byte| *byte == ESCAPE) {
        Some(place) => place,
        None => at,
    }
}

/// Where the sequence ends that begins at a place: after a control code, after two characters, or after the first letter that
/// ends a sequence and the data that follow it, as many as the number before a `W` says.
fn end_of_sequence(bytes: &[u8], start: usize) -> usize {
    if bytes.get(start) != Some(&ESCAPE) {
        return start.saturating_add(1);
    }
    let second = start.saturating_add(1);
    let mut number: usize = 0;
    for (place, byte) in bytes.iter().enumerate().skip(second) {
        let after = place.saturating_add(1);
        match *byte {
            b'0'..=b'~' if place == second => return after,
            b'0'..=b'9' => number = number
                .saturating_mul(10)
                .saturating_add(usize::from(*byte - b'0')),
            b'W' => return after.saturating_add(number),
            b'@'..=b'^' => return after,
            _ => number = 0,
        }
    }
    bytes.len()
}
