//! What stands at a name: whose file that is, and whether it is still the one that was seen.

ghost use Rattle.std.specs.Prelude.{◌≡◌, ◌≢◌, ◌++◌, ◌↔◌, List, ℕ, IfOk, IsTrue, MatchOption, bit_and};
ghost use Rattle.pcl_files.specs.Standing.{IsDescriptorAt, new_rights, part_ending};

use itoa::Buffer;
use std::alloc::{AllocError, Global};

/// One state of one file: where the file system keeps it, its number there, and how long and when written it was.
#[derive(Clone, Copy)]
pub struct FileState {
    pub device: u64,
    pub number: u64,
    pub bytes: u64,
    /// When it was written last, since 1970.
    pub seconds: i64,
    pub nanoseconds: i64,
}

impl FileState {
    /// Whether this is the same file in the same state.
    pub fn is(self, other: FileState) -> bool
        ensures { IsTrue result ↔ (self ≡ other) }
    {
        self.device == other.device
            && self.number == other.number
            && self.bytes == other.bytes
            && self.seconds == other.seconds
            && self.nanoseconds == other.nanoseconds
    }
}

/// Whether a place has what was seen there: the same file in the same state, or none as before. Then another one may take it.
pub fn is_as_seen(seen: Option<FileState>, there: Option<FileState>) -> bool
    ensures { IsTrue result ↔ (seen ≡ there) }
{
    match (seen, there) {
        (Some(seen), Some(there)) => seen.is(there),
        (None, None) => true,
        (Some(_), None) | (None, Some(_)) => false,
    }
}

/// What the name of a file that is begun beside another one ends in: the number of the file itself, which nobody gives it by chance.
pub fn part_ending(alloc: Global, number: u64) -> Result<Vec<u8>, AllocError>
    ensures { IfOk result (λ ending. ending.items ≡ part_ending number) }
{
    let mut ending = Vec::from_slice(alloc, b".pclmin-part")?;
    ending.extend_from_slice(Buffer::new().format(number).as_bytes())?;
    Ok(ending)
}

/// The name of the file beside which one of this name and number was begun; none where it wasn't, since its name doesn't end in its own
/// number: then it is somebody's own.
pub fn begun_beside(alloc: Global, name: &[u8], number: u64) -> Result<Option<&[u8]>, AllocError>
    ensures { IfOk result (λ beside. MatchOption beside ((stem : List ℕ) → name.now ≢ stem ++ part_ending number)
        (λ stem. name.now ≡ stem.now ++ part_ending number)) }
{
    let ending = part_ending(alloc, number)?;
    Ok(name.strip_suffix(&ending))
}

/// What a name in a folder of descriptors leads to.
#[derive(Clone, Copy, Debug, PartialEq, Eq)]
pub enum Descriptor {
    /// Standard input of this process.
    Input,
    /// Standard output of this process.
    Output,
    /// Another one of this process, or one of another.
    Other,
}

/// The descriptor of a name in a folder of these: that of this process, or of another one.
pub fn descriptor_at(is_own: bool, name: &str) -> Descriptor
    ensures { IsDescriptorAt is_own name.now result }
{
    match name {
        "0" if is_own => Descriptor::Input,
        "1" if is_own => Descriptor::Output,
        _ => Descriptor::Other,
    }
}

/// The rights of a file that takes no other's place: to read and write it, but what the user's mask takes away.
pub fn new_rights(mask: u32) -> u32
    ensures { result ≡ new_rights mask }
{
    0o666 & !mask
}

/// The rights of a file that takes another's place: those which that one had when it was seen and has still.
pub fn kept_rights(seen: u32, there: u32) -> u32
    ensures { result ≡ bit_and seen there }
{
    seen & there
}
