//! Fields of font data: numbers of two bytes, the higher one first.

ghost use Rattle.std.specs.Prelude.{◌≡◌, ◌+◌, ◌≤◌, length};
ghost use Rattle.pcl_fonts.specs.Fields.{word, signed_word};

use byteorder::{BigEndian, ByteOrder};

/// The number in the two bytes from a place on.
pub fn word(bytes: &[u8], place: usize) -> u16
    requires { place + 2 ≤ length bytes.now }
    ensures { result ≡ word bytes.now place }
{
    BigEndian::read_u16(&bytes[place..])
}

/// The signed number there.
pub fn signed_word(bytes: &[u8], place: usize) -> i16
    requires { place + 2 ≤ length bytes.now }
    ensures { result ≡ signed_word bytes.now place }
{
    BigEndian::read_i16(&bytes[place..])
}
