//! What kinds of refusal mean.

ghost use Rattle.std.specs.Prelude.{◌≡◌, IfOk, MatchOption};
ghost use Rattle.std.specs.Char.{is_ascii_alphabetic};
ghost use Rattle.std.specs.List.{list_all};
ghost use Rattle.pcl_explain.specs.Findings.{ExplainsKind};
ghost use Rattle.pcl_explain.specs.Kinds.{IsKindName, IsNearestKind, edits_to, may_be_kind};

use crate::advice::advice_on_kind;
use pcl_base::Kind;
use std::alloc::{AllocError, Global};
use strsim::generic_levenshtein;

/// As many letters may be wrong, missing or too many in a name for which the nearest kind is looked for.
const MOST_EDITS: usize = 4;

/// A longer name is none of a kind's.
const NAME_LENGTH: usize = 24;

/// All kinds, in the order of their numbers.
const KINDS: [Kind; 14] = [
    Kind::Truncated,
    Kind::BadSequence,
    Kind::ValueRange,
    Kind::UnsupportedCommand,
    Kind::UnsupportedValue,
    Kind::FontHeader,
    Kind::CharacterData,
    Kind::NoFont,
    Kind::MacroOpen,
    Kind::MacroControl,
    Kind::MacroDepth,
    Kind::TooManyCommands,
    Kind::TooManyPages,
    Kind::NotPcl,
];

/// The kind of a name, as messages print it, in capitals or not.
pub fn kind_named(name: &str) -> Option<Kind>
    ensures { MatchOption result ((kind : Kind) → IsKindName name.now kind → ⊥) (IsKindName name.now) }
{
    for kind in KINDS {
        if kind.name().eq_ignore_ascii_case(name) {
            return Some(kind);
        }
    }
    None
}

/// The kind that a word of letters may have been meant for: the one whose name has the fewest letters that differ.
pub fn nearest_kind(alloc: Global, word: &str) -> Result<Option<Kind>, AllocError>
    ensures { IfOk result (IsNearestKind word.now) }
{
    let letters = word.as_bytes();
    if !may_be_kind(letters) {
        return Ok(None);
    }
    let mut nearest = None;
    let mut fewest = MOST_EDITS;
    for kind in KINDS {
        let edits = edits_to(alloc, kind, letters)?;
        if edits < fewest {
            fewest = edits;
            nearest = Some(kind);
        }
    }
    Ok(nearest)
}

/// Whether a word has letters alone, and no more than any name of a kind could.
fn may_be_kind(word: &[u8]) -> bool
    ensures { result ≡ may_be_kind word.now }
{
    word.len() <= NAME_LENGTH && are_letters(word)
}

/// Whether bytes are letters of ASCII.
fn are_letters(bytes: &[u8]) -> bool
    ensures { result ≡ list_all is_ascii_alphabetic bytes.now }
{
    bytes.iter().all(|byte| byte.is_ascii_alphabetic())
}

/// How many letters are wrong, missing or too many in a word that was meant for the name of a kind, in capitals or not.
fn edits_to(alloc: Global, kind: Kind, word: &[u8]) -> Result<usize, AllocError>
    ensures { IfOk result (λ edits. edits ≡ edits_to kind word.now) }
{
    let name = kind.name().as_bytes().to_ascii_lowercase(alloc)?;
    let word = word.to_ascii_lowercase(alloc)?;
    generic_levenshtein(alloc, name.as_slice(), word.as_slice())
}

/// A line on a kind of refusal: its name, what it means and what can be done.
pub fn kind_explanation(alloc: Global, kind: Kind) -> Result<Vec<u8>, AllocError>
    ensures { IfOk result (λ text. ExplainsKind kind text.items) }
{
    let mut text = Vec::from_slice(alloc, kind.name().as_bytes())?;
    text.extend_from_slice(&rest_of_line(alloc, kind)?)?;
    Ok(text)
}

/// What stands after the name of a kind.
fn rest_of_line(alloc: Global, kind: Kind) -> Result<Vec<u8>, AllocError> {
    let mut rest = Vec::from_slice(alloc, b": ")?;
    rest.extend_from_slice(advice_on_kind(kind).as_bytes())?;
    rest.extend_from_slice(b"\n")?;
    Ok(rest)
}
