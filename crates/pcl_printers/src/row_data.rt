//! Data of rows by method 3 that end within an offset: printers may read on.

/// The offset of a replacement that goes on in the next byte, and what such a byte is where it goes on further.
const LONG_OFFSET: u8 = 31;

const LONGER_OFFSET: u8 = 255;

/// Whether the data of a row by method 3 end within the offset of a replacement. A replacement is a count and an offset, which may go on,
/// and new bytes.
pub fn end_in_offset(bytes: &[u8]) -> bool {
    let mut rest = bytes;
    for _ in 0..bytes.len() {
        let Some((command, data)) = rest.split_first() else {
            return false;
        };
        let Some(data) = after_offset(*command, data) else {
            return true;
        };
        match data.get(usize::from(*command / 32) + 1..) {
            Some(later) => rest = later,
            None => return false,
        }
    }
    false
}

/// What follows the offset of a replacement, if it ends.
fn after_offset(command: u8, data: &[u8]) -> Option<&[u8]> {
    if command % 32 != LONG_OFFSET {
        return Some(data);
    }
    let mut rest = data;
    for _ in 0..data.len() {
        let (byte, later) = rest.split_first()?;
        if *byte != LONGER_OFFSET {
            return Some(later);
        }
        rest = later;
    }
    None
}
