//! The lines of the printer's job language after a universal exit.

ghost use Rattle.std.specs.Prelude.{◌≡◌, ◌≤◌, ◌+◌, length, take};
ghost use Rattle.pcl_escape.specs.Exit.{is_white_space, squeezed};
ghost use Rattle.pcl_escape.specs.inner.Lines.{GivesRest, line_len, lines_at};

use arrayvec::ArrayVec;

/// What the lines of the job language begin with.
const JOB_LINE: &[u8] = b"@PJL";

/// What the line that asks for a language begins with, in upper case and without blanks.
const LANGUAGE: &[u8] = b"@PJLENTERLANGUAGE=";

/// The same of the line that asks for PCL.
const PCL: &[u8] = b"@PJLENTERLANGUAGE=PCL";

/// This many bytes of a line tell what it asks for: one more than the line has that asks for PCL.
const FRONT: usize = 22;

/// The bytes after the lines of the job language, or the place of a line that asks for another language
/// than PCL. The bytes begin at a place.
pub fn skip_lines(place: usize, bytes: &[u8]) -> Result<&[u8], usize>
    requires { place + length bytes.now ≤ 18446744073709551615 }
    ensures { GivesRest result (lines_at place bytes.now) }
{
    let mut rest = bytes;
    while rest.starts_with(JOB_LINE) {
        let (line, after) = rest.split_at(line_len(rest));
        let front = squeezed_front(line);
        if front.as_slice().starts_with(LANGUAGE) {
            return if front.as_slice() == PCL {
                Ok(after)
            } else {
                Err(place + (bytes.len() - rest.len()))
            };
        }
        rest = after;
    }
    Ok(rest)
}

/// How many bytes the line at the front of the bytes has, with its LF.
fn line_len(bytes: &[u8]) -> usize
    ensures count { result ≡ line_len bytes.now }
    ensures within { result ≤ length bytes.now }
{
    for (i, byte) in bytes.iter().enumerate() {
        if *byte == b'\n' {
            return i + 1;
        }
    }
    bytes.len()
}

/// The first bytes of a line that say something, in upper case.
fn squeezed_front(line: &[u8]) -> ArrayVec<u8, FRONT>
    ensures { result.items ≡ take 22 (squeezed line.now) }
{
    let mut front = ArrayVec::new();
    for byte in line {
        if !is_white_space(*byte) && !front.is_full() {
            front.push(byte.to_ascii_uppercase());
        }
    }
    front
}

/// Whether the byte says nothing in a line.
fn is_white_space(byte: u8) -> bool
    ensures { result ≡ is_white_space byte }
{
    matches!(byte, b' ' | b'\t' | b'\r' | b'\n')
}
