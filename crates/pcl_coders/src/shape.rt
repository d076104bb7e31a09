//! The shapes of the elements that coders try.

ghost use Rattle.std.specs.Prelude.{◌≡◌, ◌+◌, ◌<◌, ◌≤◌, ◌/◌, ◌%◌, [], ◌∷◌, ◌++◌, length, replicate, take, OnOk, OnErr};
ghost use Rattle.pcl_base.specs.Limits.{row_limit};
ghost use Rattle.pcl_rows.specs.Elements.{element_bytes};
ghost use Rattle.pcl_rows.specs.Heads.{head_bytes};
ghost use Rattle.pcl_coders.specs.inner.Replacement.{replacement};

use std::alloc::AllocError;

/// The shape of an element of row data: its kind, and the bytes of the row that it gives.
#[derive(Clone, Copy)]
pub enum Shape {
    /// A byte that stands for itself (method 0).
    SingleByte,
    /// A count and a byte (method 1).
    Run { len: usize },
    /// A control and literal bytes (method 2).
    LiteralRun { len: usize },
    /// A control and a byte that it repeats (method 2).
    RepeatRun { len: usize },
    /// A command byte and the bytes that replace those after an offset (method 3).
    Replace { offset: usize, len: usize },
}

impl Shape {
    ghost use Rattle.pcl_coders.specs.inner.Shape.{shape_stop, element_of, IsShapeWithin};

    /// How far it goes from its place.
    pub fn stop(self) -> usize
        requires { IsShapeWithin self 1000 }
        ensures { result ≡ shape_stop self }
    {
        match self {
            Shape::SingleByte => 1,
            Shape::Run { len } | Shape::LiteralRun { len } | Shape::RepeatRun { len } => len,
            Shape::Replace { offset, len } => offset + len,
        }
    }

    /// Appends its bytes, where `wanted` is the row from its place on. Where memory runs out, some of them
    /// may stand there.
    pub fn append(self, wanted: &[u8], out: &mut Vec<u8>) -> Result<(), AllocError>
        requires within { IsShapeWithin self (length wanted.now) }
        requires small { length wanted.now ≤ row_limit }
        ensures ok { OnOk result (out.new.items ≡ out.old.items ++ element_bytes (element_of self wanted.now)) }
        ensures err { OnErr result (take (length out.old.items) out.new.items ≡ out.old.items) }
    {
        match self {
            Shape::SingleByte => out.extend_from_slice(&wanted[..1]),
            Shape::Run { len } => out.extend_from_slice(&[(len - 1) as u8, wanted[0]]),
            Shape::LiteralRun { len } => {
                out.push((len - 1) as u8)?;
                out.extend_from_slice(&wanted[..len])
            }
            Shape::RepeatRun { len } => out.extend_from_slice(&[(257 - len) as u8, wanted[0]]),
            Shape::Replace { offset, len } => {
                append_command(offset, len, out)?;
                out.extend_from_slice(&wanted[offset..offset + len])
            }
        }
    }
}

/// Appends the command byte of a replacement, and the bytes that lengthen its offset.
fn append_command(offset: usize, len: usize, out: &mut Vec<u8>) -> Result<(), AllocError>
    requires { (1 ≤ len) × (len ≤ 8) }
    ensures ok { OnOk result (out.new.items ≡ out.old.items ++ head_bytes (replacement offset len)) }
    ensures err { OnErr result (take (length out.old.items) out.new.items ≡ out.old.items) }
{
    let count = 32 * (len - 1) as u8;
    if offset < 31 {
        out.extend_from_slice(&[count + offset as u8])
    } else {
        append_lengthened(count + 31, offset - 31, out)
    }
}

/// Appends a command byte, and the bytes that lengthen its offset by this many.
fn append_lengthened(command: u8, more: usize, out: &mut Vec<u8>) -> Result<(), AllocError>
    ensures ok { OnOk result (out.new.items ≡ out.old.items ++ command ∷ (replicate (more / 255) 255 ++ more % 255 ∷ [])) }
    ensures err { OnErr result (take (length out.old.items) out.new.items ≡ out.old.items) }
{
    out.push(command)?;
    for _ in 0..more / 255 {
        out.push(255)?;
    }
    out.extend_from_slice(&[(more % 255) as u8])
}
