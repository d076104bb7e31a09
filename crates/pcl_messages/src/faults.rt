//! What the program says of a fault.

ghost use Rattle.std.specs.Prelude.{◌≡◌, IfOk};
ghost use Rattle.pcl_messages.specs.Faults.{line_of, status_for};

use itoa::Buffer;
use pcl_streams::Fault;
use std::alloc::{AllocError, Global};

/// The line where memory runs out.
pub(crate) const NO_MEMORY: &[u8] = b"pclmin: out of memory\n";

/// What is said of what can't be read. The name of a file may follow.
pub const UNREAD: &str = "cannot read";

/// What is said of what can't be written. The name of a file may follow.
pub const UNWRITTEN: &str = "cannot write";

/// The status where the rules refuse a job, and where it has no page of a number, isn't proved, or isn't the same as another.
pub(crate) const NEGATIVE_STATUS: u8 = 1;

/// The status where a job can't be read, is too long or can't be written, and where memory runs out.
pub const TROUBLE_STATUS: u8 = 3;

/// The status of a usage fault.
pub const USAGE_STATUS: u8 = 2;

/// The line for a fault of a run that was asked for a page, with its line feed.
pub fn fault_line(alloc: Global, fault: &Fault, page: usize) -> Result<Vec<u8>, AllocError>
    ensures { IfOk result (λ line. line.items ≡ line_of fault.now page) }
{
    let mut line = Vec::from_slice(alloc, b"pclmin: ")?;
    match fault {
        Fault::Refused(refusal) => {
            line.extend_from_slice(b"refused: ")?;
            refusal.write_text(&mut line)?;
        }
        Fault::NoSuchPage => {
            line.extend_from_slice(b"no page ")?;
            line.extend_from_slice(Buffer::new().format(page).as_bytes())?;
        }
        Fault::ReadFault => line.extend_from_slice(UNREAD.as_bytes())?,
        Fault::TooLong => line.extend_from_slice(b"input too long")?,
        Fault::CertificateTooLong => line.extend_from_slice(b"certificate too long")?,
        Fault::WriteFault => line.extend_from_slice(UNWRITTEN.as_bytes())?,
        Fault::Memory => line.extend_from_slice(b"out of memory")?,
    }
    line.extend_from_slice(b"\n")?;
    Ok(line)
}

/// What a line says, without the program's name and the line feed.
pub fn text_in(line: &[u8]) -> &str {
    let said = std::str::from_utf8(line).unwrap_or("");
    said.strip_prefix("pclmin: ").unwrap_or(said).trim_end()
}

/// The status of a run that failed so.
pub fn fault_status(fault: &Fault) -> u8
    ensures { result ≡ status_for fault.now }
{
    match fault {
        Fault::Refused(_) | Fault::NoSuchPage => NEGATIVE_STATUS,
        Fault::ReadFault
        | Fault::TooLong
        | Fault::CertificateTooLong
        | Fault::WriteFault
        | Fault::Memory => TROUBLE_STATUS,
    }
}
