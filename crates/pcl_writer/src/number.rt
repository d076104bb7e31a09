//! Numbers in a job.

ghost use Rattle.std.specs.Prelude.{◌≡◌, ◌++◌, length, take, if◌then◌else◌, is_ok, decimal, OnOk};
ghost use Rattle.pcl_output.specs.Spelling.{least_spelling};

use itoa::Buffer;
use std::alloc::AllocError;

/// Appends a number in decimal. Where memory runs out `out` stays as it was.
fn append_number(number: u32, out: &mut Vec<u8>) -> Result<(), AllocError>
    ensures { out.new.items ≡ (if is_ok result then out.old.items ++ decimal number else out.old.items) }
{
    let mut digits = Buffer::new();
    out.extend_from_slice(digits.format(number).as_bytes())
}

/// Appends a label and a number in decimal after it, or a prefix of these where memory runs out.
pub fn append_labelled(label: &[u8], number: u32, out: &mut Vec<u8>) -> Result<(), AllocError>
    ensures ok { OnOk result (out.new.items ≡ out.old.items ++ (label.now ++ decimal number)) }
    ensures front { take (length out.old.items) out.new.items ≡ out.old.items }
{
    out.extend_from_slice(label)?;
    append_number(number, out)
}

/// Appends a number in its shortest spelling: 0 has no digit. Where memory runs out `out` stays as it was.
pub fn append_spelling(number: u32, out: &mut Vec<u8>) -> Result<(), AllocError>
    ensures ok { OnOk result (out.new.items ≡ out.old.items ++ least_spelling number) }
    ensures front { take (length out.old.items) out.new.items ≡ out.old.items }
{
    if number > 0 {
        append_number(number, out)?;
    }
    Ok(())
}
