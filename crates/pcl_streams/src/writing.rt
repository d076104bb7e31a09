//! Writing whole slices.

ghost use Rattle.pcl_streams.specs.Transfer.{IsWritten};

use crate::Fault;
use std::io::Write;

/// Writes all of the bytes, in as many writes as the writer needs. WriteFault comes where a write failed
/// or took none of some bytes; the writer then holds a prefix of them.
pub fn write_bytes<W: Write>(out: &mut W, bytes: &[u8]) -> Result<(), Fault>
    ensures { IsWritten (W.contents out.old) (W.contents out.new) bytes.now result }
{
    let mut rest = bytes;
    while !rest.is_empty() {
        match out.write(rest) {
            Ok(count) if count > 0 => rest = &rest[count..],
            _ => return Err(Fault::WriteFault),
        }
    }
    Ok(())
}

/// Writes all of the bytes and flushes. After a fault, which is WriteFault, the writer holds a prefix of them.
pub fn write_all<W: Write>(out: &mut W, bytes: &[u8]) -> Result<(), Fault>
    ensures { IsWritten (W.contents out.old) (W.contents out.new) bytes.now result }
{
    write_bytes(out, bytes)?;
    match out.flush() {
        Ok(()) => Ok(()),
        Err(_) => Err(Fault::WriteFault),
    }
}
