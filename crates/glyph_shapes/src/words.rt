//! Rows eight bytes at a time.

/// The most that each byte of a word may have so that a sum with its like stays in the byte.
const LOW_BITS: u64 = 0x7F7F_7F7F_7F7F_7F7F;

/// The highest bit of each byte of a word.
pub const EACH_BYTE: u64 = 0x8080_8080_8080_8080;

/// The leftmost bit of a word.
pub const LEFTMOST: u64 = 1 << 63;

/// Eight bytes as a number, the leftmost as the highest, with zeros for those that are missing on the right.
pub fn padded_word(bytes: &[u8]) -> u64 {
    let mut word = [0u8; 8];
    for (place, byte) in word.iter_mut().zip(bytes.iter()) {
        *place = *byte;
    }
    u64::from_be_bytes(word)
}

/// The highest bit of each byte of a word that isn't zero.
pub fn inked_bytes(word: u64) -> u64 {
    ((word & LOW_BITS).wrapping_add(LOW_BITS) | word) & EACH_BYTE
}

/// The bits of a word's first bytes, as many as this, up to seven.
pub fn first_bytes(count: usize) -> u64 {
    match count {
        0 => 0,
        1 => 0xFF << 56,
        2 => 0xFFFF << 48,
        3 => 0xFF_FFFF << 40,
        4 => 0xFFFF_FFFF << 32,
        5 => 0xFF_FFFF_FFFF << 24,
        6 => 0xFFFF_FFFF_FFFF << 16,
        _ => 0xFF_FFFF_FFFF_FFFF << 8,
    }
}
