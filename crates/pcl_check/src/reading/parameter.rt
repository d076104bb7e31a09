//! Numbers of a text, and the letters after them.

ghost use Rattle.std.specs.Prelude.{◌≡◌, ℕ, ◌≤◌, ◌<◌, false, List, ◌∷◌, ◌++◌, length, min, decimal, MatchOption};
ghost use Rattle.pcl_base.specs.Limits.{data_limit};
ghost use Rattle.std.specs.List.{prefix_len};
ghost use Rattle.pcl_base.specs.Digits.{is_digit, number_of};
ghost use Rattle.pcl_base.specs.Digits.{AreDigits};
ghost use Rattle.pcl_check.specs.inner.Reading.{IsParameter, IsSplit};

use itoa::Buffer;

/// The largest number that a page text says.
const GREATEST: u32 = 65_535;

/// A number as it is spelled, the letter after it, and what stands after that.
#[derive(Clone, Copy)]
pub struct Parameter<'a> {
    /// The digits, which may begin with zeros; 0 may have none.
    pub digits: &'a [u8],
    /// The number, or 65536 where it is larger.
    pub number: u32,
    /// The byte after the digits.
    pub letter: u8,
    /// What stands after that.
    pub rest: &'a [u8],
}

/// Reads a number and the letter after it, which isn't there where all of the text is digits.
pub fn read_parameter(text: &[u8]) -> Option<Parameter<'_>>
    ensures { MatchOption result (AreDigits text.now) (λ found. IsParameter text.now found) }
{
    let (digits, after) = text.split_at(digit_count(text));
    let (letter, rest) = after.split_first()?;
    Some(Parameter {
        digits,
        number: number(digits),
        letter: *letter,
        rest,
    })
}

/// Reads a number without leading zeros and this letter after it: the number, and what stands after the letter.
pub fn read_decimal(text: &[u8], letter: u8) -> Option<(u32, &[u8])>
    requires { is_digit letter ≡ false }
    ensures { MatchOption result ((n : ℕ) (rest : List ℕ) → n ≤ data_limit → text.now ≡ decimal n ++ letter ∷ rest → ⊥)
        (λ found. (text.now ≡ decimal found.0 ++ letter ∷ found.1.now) × (found.0 ≤ 65536)) }
{
    let parameter = read_parameter(text)?;
    let mut shortest = Buffer::new();
    let is_shortest = shortest.format(parameter.number).as_bytes() == parameter.digits;
    if is_shortest && parameter.letter == letter {
        Some((parameter.number, parameter.rest))
    } else {
        None
    }
}

impl<'a> Parameter<'a> {
    /// As many bytes as the number says, and what stands after them.
    pub fn split_data(self) -> Option<(&'a [u8], &'a [u8])>
        ensures { IsSplit self.entry.number self.entry.rest.now result }
    {
        if self.number > GREATEST {
            return None;
        }
        self.rest.split_at_checked(self.number as usize)
    }
}

/// How many digits stand at the front of the bytes.
fn digit_count(bytes: &[u8]) -> usize
    ensures count { result ≡ prefix_len is_digit bytes.now }
    ensures within { result ≤ length bytes.now }
{
    for (i, byte) in bytes.iter().enumerate() {
        if !matches!(*byte, b'0'..=b'9') {
            return i;
        }
    }
    bytes.len()
}

/// The number that digits spell, or 65536 where it is larger.
fn number(digits: &[u8]) -> u32
    ensures { result ≡ min (number_of digits.now) 65536 }
{
    let mut number = 0;
    for digit in digits {
        number = (number * 10 + u32::from(digit.saturating_sub(b'0'))).min(GREATEST + 1);
    }
    number
}
