//! How far a page is moved on its sheet ("Left Offset Registration", "Top Offset Registration"), in ten-thousandths of a decipoint.

ghost use Rattle.std.specs.Prelude.{◌≡◌, ◌++◌, ◌<◌, ◌+◌, OnOk};
ghost use Rattle.pcl_env.specs.Offset.{page_offset, lies_at, offset_text, minus_text, parts_text, decimals_text, decimal_count};

use itoa::Buffer;
use pcl_base::{Sign, Value};
use std::alloc::AllocError;

/// The parts of a whole decipoint.
const WHOLE: u64 = 10_000;

/// The offset that a value says: 0 where its whole part is 0.
pub(crate) fn page_offset(value: Value) -> i64
    ensures { result ≡ page_offset value }
{
    if value.whole() == 0 {
        return 0;
    }
    let parts = i64::from(value.parts);
    match value.sign {
        Sign::Minus => -parts,
        Sign::Absent | Sign::Plus => parts,
    }
}

/// Where an offset that was said puts the page: none puts it at 0.
pub(crate) fn lies_at(said: Option<i64>) -> i64
    ensures { result ≡ lies_at said }
{
    said.unwrap_or(0)
}

/// Appends an offset as a value field spells it: decipoints with as many decimals as it has, -1805000 as `-180.5`.
pub fn append_offset(offset: i64, out: &mut Vec<u8>) -> Result<(), AllocError>
    ensures { OnOk result (out.new.items ≡ out.old.items ++ offset_text offset) }
{
    append_minus(offset, out)?;
    append_parts(offset.unsigned_abs(), out)
}

/// Appends ten-thousandths as a number with decimals.
fn append_parts(parts: u64, out: &mut Vec<u8>) -> Result<(), AllocError>
    ensures { OnOk result (out.new.items ≡ out.old.items ++ parts_text parts) }
{
    out.extend_from_slice(Buffer::new().format(parts / WHOLE).as_bytes())?;
    append_decimals((parts % WHOLE) as u32, out)
}

/// Appends a minus sign where an offset is below 0.
fn append_minus(offset: i64, out: &mut Vec<u8>) -> Result<(), AllocError>
    ensures { OnOk result (out.new.items ≡ out.old.items ++ minus_text offset) }
{
    if offset < 0 {
        return out.extend_from_slice(b"-");
    }
    Ok(())
}

/// Appends ten-thousandths as decimals, up to the last that isn't 0.
fn append_decimals(rest: u32, out: &mut Vec<u8>) -> Result<(), AllocError>
    requires { rest < 10000 }
    ensures { OnOk result (out.new.items ≡ out.old.items ++ decimals_text rest) }
{
    if rest == 0 {
        return Ok(());
    }
    let decimals = [
        digit(rest / 1_000),
        digit(rest / 100 % 10),
        digit(rest / 10 % 10),
        digit(rest % 10),
    ];
    out.extend_from_slice(b".")?;
    out.extend_from_slice(&decimals[..decimal_count(rest)])
}

/// The code of a digit.
fn digit(number: u32) -> u8
    requires { number < 10 }
    ensures { result ≡ 48 + number }
{
    b'0' + number as u8
}

/// How many decimals ten-thousandths have, up to the last that isn't 0.
fn decimal_count(rest: u32) -> usize
    ensures count { result ≡ decimal_count rest }
    ensures few { result < 5 }
{
    if rest % 1_000 == 0 {
        1
    } else if rest % 100 == 0 {
        2
    } else if rest % 10 == 0 {
        3
    } else {
        4
    }
}
