//! Reading a whole input.

ghost use Rattle.pcl_streams.specs.Transfer.{IsReadAll};

use crate::Fault;
use std::alloc::Global;
use std::io::Read;

/// How many bytes a read asks for at most.
const CHUNK: usize = 65_536;

/// All that a reader gives, up to its end. ReadFault comes where a read failed, an interrupted one too,
/// TooLong where more than `limit` bytes came; the reader has then given no more than one byte past it.
pub fn read_all<R: Read>(alloc: Global, reader: &mut R, limit: usize) -> Result<Vec<u8>, Fault>
    ensures { IsReadAll (R.remaining reader.old) (R.remaining reader.new) limit result }
{
    let mut bytes = Vec::new(alloc);
    let mut chunk = [0u8; CHUNK];
    while bytes.len() <= limit {
        let room = (limit - bytes.len()).saturating_add(1).min(CHUNK);
        let Ok(count) = reader.read(&mut chunk[..room]) else {
            return Err(Fault::ReadFault);
        };
        if count == 0 {
            return Ok(bytes);
        }
        bytes.extend_from_slice(&chunk[..count])?;
    }
    Err(Fault::TooLong)
}
