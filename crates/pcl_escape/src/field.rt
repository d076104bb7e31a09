//! Value fields: the number of a parameter.

ghost use Rattle.std.specs.Prelude.{◌≡◌, ◌≤◌, if◌then◌else◌, Some, None, min, length};
ghost use Rattle.std.specs.List.{prefix_len};
ghost use Rattle.pcl_escape.specs.Field.{spelled, digits_of, digit_at, ten_thousandths, field_value, in_range};
ghost use Rattle.pcl_base.specs.Digits.{is_digit, number_of};
ghost use Rattle.pcl_escape.specs.inner.Fields.{digits_at, sign_at, fraction_at, field_at};

use pcl_base::{Sign, Value};

/// A value field as it stands in a job.
#[derive(Clone, Copy)]
pub struct Field<'a> {
    /// The sign.
    pub sign: Sign,
    /// The digits before the point.
    pub whole: &'a [u8],
    /// The digits after the point, if there is one.
    pub fraction: Option<&'a [u8]>,
}

/// The largest whole part of a value field is below this.
const WHOLE_LIMIT: u32 = 65_536;

/// The magnitude in ten-thousandths up to which a field without a minus sign is in range.
const GREATEST: u32 = 655_350_000;

/// The magnitude in ten-thousandths up to which a field with a minus sign is in range.
const GREATEST_BELOW_ZERO: u32 = 327_670_000;

/// The value field at the front of the bytes, and the bytes after it. Each of its parts may be missing.
#[tactic(auto, unfolding(crate::specs::inner::Fields::field_at))]
pub fn read_field(bytes: &[u8]) -> (Field<'_>, &[u8])
    ensures { (spelled result.0, result.1.now) ≡ field_at bytes.now }
{
    let (sign, rest) = read_sign(bytes);
    let (whole, rest) = read_digits(rest);
    let (fraction, rest) = read_fraction(rest);
    let field = Field {
        sign,
        whole,
        fraction,
    };
    (field, rest)
}

/// The sign at the front of the bytes, if there is one, and the bytes after it.
fn read_sign(bytes: &[u8]) -> (Sign, &[u8])
    ensures { (result.0, result.1.now) ≡ sign_at bytes.now }
{
    match bytes {
        [b'+', after @ ..] => (Sign::Plus, after),
        [b'-', after @ ..] => (Sign::Minus, after),
        _ => (Sign::Absent, bytes),
    }
}

/// The point and the digits at the front of the bytes, if a point is there, and the bytes after them.
fn read_fraction(bytes: &[u8]) -> (Option<&[u8]>, &[u8])
    ensures { (digits_of result.0, result.1.now) ≡ fraction_at bytes.now }
{
    match bytes {
        [b'.', after @ ..] => {
            let (digits, rest) = read_digits(after);
            (Some(digits), rest)
        }
        _ => (None, bytes),
    }
}

/// The digits at the front of the bytes, as far as they go, and the bytes after them.
fn read_digits(bytes: &[u8]) -> (&[u8], &[u8])
    ensures { (result.0.now, result.1.now) ≡ digits_at bytes.now }
{
    bytes.split_at(digit_count(bytes))
}

/// How many digits stand at the front of the bytes.
fn digit_count(bytes: &[u8]) -> usize
    ensures count { result ≡ prefix_len is_digit bytes.now }
    ensures within { result ≤ length bytes.now }
{
    for (i, byte) in bytes.iter().enumerate() {
        if !matches!(*byte, b'0'..=b'9') {
            return i;
        }
    }
    bytes.len()
}

impl Field<'_> {
    ghost use Rattle.pcl_escape.specs.Field.{spelled, field_value, in_range};

    /// The value of the field with four decimals, further ones dropped; none where it is out of range.
    pub fn value(&self) -> Option<Value>
        ensures { result ≡ (if in_range (field_value (spelled self.now)) then Some (field_value (spelled self.now)) else None) }
    {
        let fraction = self.fraction.unwrap_or(&[]);
        let parts = number(self.whole) * 10_000 + ten_thousandths(fraction);
        let greatest = match self.sign {
            Sign::Minus => GREATEST_BELOW_ZERO,
            Sign::Absent | Sign::Plus => GREATEST,
        };
        (parts <= greatest).then_some(Value {
            sign: self.sign,
            parts,
        })
    }
}

/// The number that decimal digits spell, or `WHOLE_LIMIT` where it is larger.
fn number(digits: &[u8]) -> u32
    ensures { result ≡ min (number_of digits.now) 65536 }
{
    let mut number = 0;
    for digit in digits {
        number = (number * 10 + u32::from(digit.saturating_sub(b'0'))).min(WHOLE_LIMIT);
    }
    number
}

/// The first four decimals as a number of ten-thousandths.
fn ten_thousandths(digits: &[u8]) -> u32
    ensures { result ≡ ten_thousandths digits.now }
{
    1000 * digit(digits, 0) + 100 * digit(digits, 1) + 10 * digit(digits, 2) + digit(digits, 3)
}

/// The digit at a place, or 0 past the end.
fn digit(digits: &[u8], place: usize) -> u32
    ensures { result ≡ digit_at digits.now place }
{
    digits
        .get(place)
        .map_or(0, |digit| u32::from(digit.saturating_sub(b'0')))
}
