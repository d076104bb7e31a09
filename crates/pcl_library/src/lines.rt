//! Lines for C.

ghost use Rattle.std.specs.Prelude.{IfOk};
ghost use Rattle.pcl_library.specs.Lines.{IsLineOf};

use std::alloc::AllocError;

/// A line and a zero byte, which the caller frees.
pub fn ended(line: Result<Vec<u8>, AllocError>) -> Result<&'static [u8], AllocError>
    ensures { IfOk result (λ text. IsLineOf line text.now) }
{
    let mut text = line?;
    text.push(0)?;
    Ok(text.leak())
}
