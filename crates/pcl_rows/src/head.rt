//! How an element of row data begins.

ghost use Rattle.std.specs.Prelude.{◌+◌, ◌*◌, ◌^◌, ◌<◌, ◌≤◌, length};
ghost use Rattle.pcl_rows.specs.inner.Fronts.{IsFurther, Opens};
ghost use Rattle.pcl_base.specs.declared.method.Method.TheVariants as methods;

use pcl_base::Method;

/// What an element's bytes before its new bytes say (docs/LANGUAGE.md, "Row data").
#[derive(Clone, Copy)]
pub struct Opening {
    /// How many bytes it takes.
    pub len: usize,
    /// How many bytes of the row stay before the given ones. Many bytes 255 say more than a `usize` holds.
    pub offset: u128,
    /// How many new bytes stand after it.
    pub new_count: usize,
    /// How often each new byte is given.
    pub copies: usize,
}

impl Opening {
    /// Reads the front of row data, which may end within these bytes.
    #[inline(always)]
    pub fn read(method: Method, bytes: &[u8]) -> Opening
        requires { 0 < length bytes.now }
        ensures opens { Opens method bytes.now result.len result.offset result.new_count result.copies }
        ensures few { (result.new_count ≤ 128) × (result.copies ≤ 256) × (result.offset < 2 ^ 100) }
    {
        match method {
            Method::Plain => Opening {
                len: 0,
                offset: 0,
                new_count: 1,
                copies: 1,
            },
            Method::Runs => Opening {
                len: 1,
                offset: 0,
                new_count: 1,
                copies: usize::from(bytes[0]) + 1,
            },
            Method::Packed => control(bytes),
            Method::Delta => command(bytes),
        }
    }
}

/// The control byte of method 2.
fn control(bytes: &[u8]) -> Opening
    requires { 0 < length bytes.now }
    ensures opens { Opens methods.Packed bytes.now result.len result.offset result.new_count result.copies }
    ensures few { (result.new_count ≤ 128) × (result.copies ≤ 256) × (result.offset < 2 ^ 100) }
{
    let control = usize::from(bytes[0]);
    let (new_count, copies) = match control {
        0..=127 => (control + 1, 1),
        128 => (0, 1),
        _ => (1, 257 - control),
    };
    Opening {
        len: 1,
        offset: 0,
        new_count,
        copies,
    }
}

/// The command byte of method 3, with the bytes that lengthen its offset.
fn command(bytes: &[u8]) -> Opening
    requires { 0 < length bytes.now }
    ensures opens { Opens methods.Delta bytes.now result.len result.offset result.new_count result.copies }
    ensures few { (result.new_count ≤ 128) × (result.copies ≤ 256) × (result.offset < 2 ^ 100) }
{
    let new_count = usize::from(bytes[0] / 32) + 1;
    let offset = bytes[0] % 32;
    if offset < 31 {
        return Opening {
            len: 1,
            offset: u128::from(offset),
            new_count,
            copies: 1,
        };
    }
    let further = further(&bytes[1..]);
    Opening {
        len: 1 + further.len,
        offset: 31 + further.sum,
        new_count,
        copies: 1,
    }
}

/// The bytes that lengthen an offset of 31: any number of bytes 255, and one that is less.
#[derive(Clone, Copy)]
struct Lengthening {
    len: usize,
    sum: u128,
}

fn further(bytes: &[u8]) -> Lengthening
    ensures further { IsFurther bytes.now result.len result.sum }
    ensures within { (result.len ≤ length bytes.now + 1) × (result.sum < 2 ^ 80) }
{
    for (full, byte) in bytes.iter().enumerate() {
        if *byte < 255 {
            return Lengthening {
                len: full + 1,
                sum: 255 * full as u128 + u128::from(*byte),
            };
        }
    }
    Lengthening {
        len: bytes.len() + 1,
        sum: 255 * bytes.len() as u128,
    }
}
