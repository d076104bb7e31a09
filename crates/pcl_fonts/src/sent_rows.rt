//! The rows of patterns, as a job sends them.

ghost use Rattle.std.specs.Prelude.{◌≡◌, ◌≤◌, length, true, false, IsTrue, MatchOption, IfOk};
ghost use Rattle.pcl_fonts.specs.Fields.{has_descriptor, is_plain, is_compressed, is_character, pattern_bytes};

use crate::compressed::expand;
use crate::fields::word;
use pcl_base::Profile;
use std::alloc::{AllocError, Global};

/// The bytes before the rows of a pattern.
const DESCRIPTOR_BYTES: usize = 16;

/// The class of a character whose rows stand in its data as they are.
const PLAIN: u8 = 1;

/// The class of a character whose rows are given by runs of bits.
const COMPRESSED: u8 = 2;

/// The most bytes of rows that are expanded from runs, so that few bytes can't ask for much memory or time.
const EXPANDED_LIMIT: usize = 65_536;

/// The rows of a pattern, as a part of the job.
#[derive(Clone, Copy, Debug)]
pub enum SentRows<'a> {
    /// One after the other, each of whole bytes, the left bit the highest.
    Plain(&'a [u8]),
    /// Groups of rows, whose bits runs give.
    Compressed(&'a [u8]),
}

/// The rows of a pattern, one after the other, each of whole bytes, the left bit the highest.
#[derive(Drop, Debug)]
pub enum GlyphRows<'a> {
    /// A part of the job.
    Lent(&'a [u8]),
    /// Those that runs gave.
    Expanded(Vec<u8>),
}

impl<'a> GlyphRows<'a> {
    ghost use Rattle.pcl_fonts.specs.SentRows.{bytes_of_rows};

    /// Their bytes.
    pub fn as_slice(&self) -> &[u8]
        ensures { result.now ≡ bytes_of_rows self.now }
    {
        match self {
            GlyphRows::Lent(bytes) => bytes,
            GlyphRows::Expanded(bytes) => bytes.as_slice(),
        }
    }
}

impl<'a> SentRows<'a> {
    ghost use Rattle.pcl_fonts.specs.SentRows.{is_whole, sent_rows_in, bytes_of_rows};
    ghost use Rattle.pcl_fonts.specs.inner.SentRows.{AreRowsOf};

    /// The rows of a character that the profile takes, if data are one.
    pub(crate) fn read(
        alloc: Global,
        bytes: &'a [u8],
        profile: Profile,
    ) -> Result<Option<SentRows<'a>>, AllocError>
        ensures { IfOk result (λ found. MatchOption found (is_character profile bytes.now ≡ false)
            (λ rows. (is_character profile bytes.now ≡ true) × AreRowsOf bytes.now rows)) }
    {
        let plain = SentRows::plain(bytes);
        match profile {
            Profile::Drivers if plain.is_none() => SentRows::compressed(alloc, bytes),
            Profile::Stated | Profile::Drivers => Ok(plain),
        }
    }

    /// The rows of a plain character, if data are one.
    fn plain(bytes: &'a [u8]) -> Option<SentRows<'a>>
        ensures { MatchOption result (is_plain bytes.now ≡ false)
            (λ rows. (is_plain bytes.now ≡ true) × AreRowsOf bytes.now rows) }
    {
        if !has_descriptor(bytes, PLAIN) {
            return None;
        }
        let size = pattern_bytes(word(bytes, 10), word(bytes, 12));
        if bytes.len() - DESCRIPTOR_BYTES < size {
            return None;
        }
        Some(SentRows::Plain(&bytes[DESCRIPTOR_BYTES..][..size]))
    }

    /// The rows of a compressed character, if data are one.
    fn compressed(alloc: Global, bytes: &'a [u8]) -> Result<Option<SentRows<'a>>, AllocError>
        ensures { IfOk result (λ found. MatchOption found (is_compressed bytes.now ≡ false)
            (λ rows. (is_compressed bytes.now ≡ true) × AreRowsOf bytes.now rows)) }
    {
        if !has_descriptor(bytes, COMPRESSED) {
            return Ok(None);
        }
        let width = word(bytes, 10);
        let height = word(bytes, 12);
        if pattern_bytes(width, height) > EXPANDED_LIMIT {
            return Ok(None);
        }
        let runs = &bytes[DESCRIPTOR_BYTES..];
        let is_whole = expand(alloc, width, height, runs)?.is_some();
        Ok(is_whole.then_some(SentRows::Compressed(runs)))
    }

    /// The bytes of the rows, of a pattern of this width and height.
    pub(crate) fn expanded(
        self,
        alloc: Global,
        width: u16,
        height: u16,
    ) -> Result<GlyphRows<'a>, AllocError>
        requires { is_whole width height self ≡ true }
        ensures { IfOk result (λ rows. bytes_of_rows rows ≡ sent_rows_in width height self.entry) }
    {
        Ok(match self {
            SentRows::Plain(rows) => GlyphRows::Lent(rows),
            SentRows::Compressed(runs) => {
                GlyphRows::Expanded(expand(alloc, width, height, runs)?.unwrap())
            }
        })
    }
}

/// Whether data begin with the descriptor of a character of this class that is taken: format 4, no continuation, a descriptor of 14
/// bytes, portrait.
fn has_descriptor(bytes: &[u8], class: u8) -> bool
    ensures value { result ≡ has_descriptor class bytes.now }
    ensures long { IsTrue result → 16 ≤ length bytes.now }
{
    bytes.len() >= DESCRIPTOR_BYTES
        && bytes[0] == 4
        && bytes[1] == 0
        && bytes[2] == 14
        && bytes[3] == class
        && bytes[4] == 0
}

/// How many bytes the rows of a pattern have, each in whole bytes.
fn pattern_bytes(width: u16, height: u16) -> usize
    ensures { result ≡ pattern_bytes width height }
{
    usize::from(height) * usize::from(width).div_ceil(8)
}
