//! Lists of numbers, put one after the other.

ghost use Rattle.std.specs.Prelude.{◌≡◌, ◌++◌, ◌∷◌, [], ◌^◌, ◌<◌, ◌≤◌, length, take, OnOk};
ghost use Rattle.std.specs.Int.{w16, to_be_bytes};
ghost use Rattle.std.specs.List.{flat_map};
ghost use Rattle.pcl_cert.specs.inner.Listing.{AreWhole, IsTrimmed, HasListMore};

use std::alloc::{AllocError, Global};

/// Lists as they stand in a certificate, and where each begins.
#[derive(Drop)]
pub struct Lists {
    pub bytes: Vec<u8>,
    pub starts: Vec<usize>,
}

impl Lists {
    /// No lists.
    pub fn new(alloc: Global) -> Lists
        ensures bytes { result.bytes.items ≡ [] }
        ensures starts { result.starts.items ≡ [] }
    {
        Lists {
            bytes: Vec::new(alloc),
            starts: Vec::new(alloc),
        }
    }

    /// Puts a list after the others, without the zeros at its end. Where memory runs out it is to be dropped.
    pub fn push(&mut self, numbers: &[u16]) -> Result<(), AllocError>
        requires whole { AreWhole self.old }
        requires few { length numbers.now < 2 ^ 16 }
        ensures { OnOk result (HasListMore self.old self.new numbers.now) }
    {
        let numbers = trimmed(numbers);
        self.starts.push(self.bytes.len())?;
        self.bytes
            .extend_from_slice(&(numbers.len() as u16).to_be_bytes())?;
        append_numbers(numbers, &mut self.bytes)
    }
}

/// Numbers without the zeros at their end.
fn trimmed(numbers: &[u16]) -> &[u16]
    ensures { IsTrimmed numbers.now result.now }
{
    let mut len = numbers.len();
    while len > 0 && numbers[len - 1] == 0 {
        len -= 1;
    }
    &numbers[..len]
}

/// Appends numbers of two bytes, or a prefix of them where memory runs out.
fn append_numbers(numbers: &[u16], out: &mut Vec<u8>) -> Result<(), AllocError>
    ensures { OnOk result (out.new.items ≡ out.old.items ++ flat_map (to_be_bytes w16) numbers.now) }
{
    for number in numbers {
        out.extend_from_slice(&number.to_be_bytes())?;
    }
    Ok(())
}
