//! Fields of certificates, and the bytes after them.

ghost use Rattle.std.specs.Prelude.{◌≡◌};
ghost use Rattle.std.specs.Int.{w16, w32};
ghost use Rattle.pcl_cert.specs.ReadingCertificates.{Gives, uint_at, format_at, pair_at, row_numbers_at};

use crate::fault::CertFault;
use crate::format::Format;
use pcl_output::{ByMethod, RowNumbers};

/// A number of two bytes.
pub fn word_at(bytes: &[u8]) -> Result<(u16, &[u8]), CertFault>
    ensures { Gives (λ x. (x.0, x.1.now)) result (uint_at w16 bytes.now) }
{
    if bytes.len() < 2 {
        return Err(CertFault::Short);
    }
    let (front, rest) = bytes.split_at(2);
    Ok((u16::from_be_bytes([front[0], front[1]]), rest))
}

/// A number of four bytes.
pub fn uint_at(bytes: &[u8]) -> Result<(u32, &[u8]), CertFault>
    ensures { Gives (λ x. (x.0, x.1.now)) result (uint_at w32 bytes.now) }
{
    if bytes.len() < 4 {
        return Err(CertFault::Short);
    }
    let (front, rest) = bytes.split_at(4);
    let number = u32::from_be_bytes([front[0], front[1], front[2], front[3]]);
    Ok((number, rest))
}

/// The format that the first bytes tell.
pub fn format_at(bytes: &[u8]) -> Result<(Format, &[u8]), CertFault>
    ensures { Gives (λ x. (x.0, x.1.now)) result (format_at bytes.now) }
{
    if bytes.starts_with(Format::One.magic()) {
        Ok((Format::One, &bytes[8..]))
    } else if bytes.starts_with(Format::Two.magic()) {
        Ok((Format::Two, &bytes[8..]))
    } else {
        Err(CertFault::BadMagic)
    }
}

/// The numbers after some rows.
#[tactic(auto, unfolding(crate::specs::ReadingCertificates::row_numbers_at))]
pub fn row_numbers_at(bytes: &[u8]) -> Result<(RowNumbers, &[u8]), CertFault>
    ensures { Gives (λ x. (x.0, x.1.now)) result (row_numbers_at bytes.now) }
{
    let (plain, rest) = pair_at(bytes)?;
    let (runs, rest) = pair_at(rest)?;
    let (packed, rest) = pair_at(rest)?;
    let (delta, rest) = pair_at(rest)?;
    let numbers = RowNumbers {
        outside: ByMethod {
            plain: plain.0,
            runs: runs.0,
            packed: packed.0,
            delta: delta.0,
        },
        inside: ByMethod {
            plain: plain.1,
            runs: runs.1,
            packed: packed.1,
            delta: delta.1,
        },
    };
    Ok((numbers, rest))
}

/// The numbers of a method, outside a sequence and inside one.
#[tactic(auto, unfolding(crate::specs::ReadingCertificates::pair_at))]
fn pair_at(bytes: &[u8]) -> Result<((u32, u32), &[u8]), CertFault>
    ensures { Gives (λ x. (x.0, x.1.now)) result (pair_at bytes.now) }
{
    let (outside, rest) = uint_at(bytes)?;
    let (inside, rest) = uint_at(rest)?;
    Ok(((outside, inside), rest))
}
