//! One step of the reading: a silent byte, a control code, a run of text, a two-character sequence, or one
//! parameter; and after a universal exit the lines of the job language.

ghost use Rattle.std.specs.Prelude.{◌≡◌, ◌≤◌, ◌+◌, length, IsTrue, IfOk, Err, Some, None};
ghost use Rattle.std.specs.List.{prefix_len};
ghost use Rattle.pcl_base.specs.Operation.{operation_of};
ghost use Rattle.pcl_base.specs.Refusal.{refusal};
ghost use Rattle.pcl_escape.specs.Letter.{goes_on, is_text, is_letter, prefix_name, parameter_name};
ghost use Rattle.pcl_escape.specs.Checks.{operation_checks, is_exit};
ghost use Rattle.pcl_escape.specs.Said.{view};
ghost use Rattle.pcl_escape.specs.inner.Scan.{GivesReads, step_view, before_rest, step_at, start_at, sequence_at, prefix_at, ungrouped_at, parameter_at, named_at, text_at};

use crate::Command;
use crate::exit::skip_lines;
use crate::field::read_field;
use pcl_base::{Kind, Name, Operation, Profile, Refusal, Value};

/// The byte that begins a sequence.
const ESC: u8 = 27;

/// The name of a universal exit.
const EXIT: Name = Name::Two(b'%', b'X');

/// What the parameters of a sequence share: the bytes after ESC.
#[derive(Clone, Copy, Debug, PartialEq, Eq)]
pub struct Prefix {
    /// The parameterized character, 33 to 47.
    pub parameterized: u8,
    /// The group character, 96 to 126; `(`, `)` and `%` may stand without one.
    pub group: Option<u8>,
}

/// What one step read.
#[derive(Clone, Copy)]
pub struct Progress<'a> {
    /// The command, if the step gave one.
    pub command: Option<Command<'a>>,
    /// The bytes after it.
    pub rest: &'a [u8],
    /// The sequence that goes on there, if one does.
    pub inside: Option<Prefix>,
}

/// Reads what stands at the front of the bytes by a profile, inside a combined sequence or outside. `at` is the
/// place of the front.
// Inlined, as `read_parameter`, in each loop that reads.
#[inline(always)]
pub fn read_step<'a>(
    profile: Profile,
    inside: Option<Prefix>,
    at: usize,
    bytes: &'a [u8],
) -> Result<Progress<'a>, Refusal>
    requires { at + length bytes.now ≤ 18446744073709551615 }
    ensures { GivesReads result (step_at profile inside at bytes.now) }
{
    match inside {
        Some(prefix) => read_parameter(profile, prefix, at, bytes),
        None => read_start(profile, at, bytes),
    }
}

/// Reads what stands at the front of the bytes, outside sequences.
#[tactic(auto, unfolding(crate::specs::inner::Scan::start_at))]
fn read_start<'a>(profile: Profile, at: usize, bytes: &'a [u8]) -> Result<Progress<'a>, Refusal>
    requires { at + length bytes.now ≤ 18446744073709551615 }
    ensures { GivesReads result (start_at profile at bytes.now) }
{
    let Some((&first, after)) = bytes.split_first() else {
        return Ok(silent(bytes));
    };
    match first {
        0 | 7 | 11 => Ok(silent(after)),
        ESC => read_sequence(profile, at, after),
        8..=15 => read_named(at, first, after),
        _ => read_text(at, bytes),
    }
}

/// Reads the sequence whose ESC stands before the bytes, up to its first parameter. `at` is the place of
/// ESC.
#[tactic(auto, unfolding(crate::specs::inner::Scan::sequence_at))]
fn read_sequence<'a>(profile: Profile, at: usize, bytes: &'a [u8]) -> Result<Progress<'a>, Refusal>
    requires { at + 1 + length bytes.now ≤ 18446744073709551615 }
    ensures { GivesReads result (sequence_at profile at bytes.now) }
{
    let Some((&first, after)) = bytes.split_first() else {
        return refused(Kind::Truncated, at, Name::Empty);
    };
    match first {
        48..=126 => read_named(at, first, after),
        33..=47 => read_prefix(profile, at, first, after),
        _ => refused(Kind::BadSequence, at, Name::Empty),
    }
}

/// Reads the group character of a sequence, if it has one, and its first parameter.
#[tactic(auto, unfolding(crate::specs::inner::Scan::prefix_at))]
fn read_prefix<'a>(
    profile: Profile,
    at: usize,
    parameterized: u8,
    bytes: &'a [u8],
) -> Result<Progress<'a>, Refusal>
    requires { at + 2 + length bytes.now ≤ 18446744073709551615 }
    ensures { GivesReads result (prefix_at profile at parameterized bytes.now) }
{
    let Some((&group, after)) = bytes.split_first() else {
        return refused(Kind::Truncated, at, Name::One(parameterized));
    };
    if matches!(group, 96..=126) {
        let prefix = Prefix {
            parameterized,
            group: Some(group),
        };
        return read_parameter(profile, prefix, at, after);
    }
    match parameterized {
        b'(' | b')' | b'%' => read_ungrouped(profile, at, parameterized, bytes),
        _ => refused(Kind::BadSequence, at, Name::One(parameterized)),
    }
}

/// Reads the parameter of a sequence without a group character, and the lines after a universal exit.
#[tactic(auto, unfolding(crate::specs::inner::Scan::ungrouped_at))]
fn read_ungrouped<'a>(
    profile: Profile,
    at: usize,
    parameterized: u8,
    bytes: &'a [u8],
) -> Result<Progress<'a>, Refusal>
    requires { at + 2 + length bytes.now ≤ 18446744073709551615 }
    ensures { GivesReads result (ungrouped_at profile at parameterized bytes.now) }
{
    let prefix = Prefix {
        parameterized,
        group: None,
    };
    let step = read_parameter(profile, prefix, at, bytes)?;
    match step.command {
        Some(command) if is_exit(command.name, command.value) => {
            let place = at + 2 + (bytes.len() - step.rest.len());
            match skip_lines(place, step.rest) {
                Ok(rest) => Ok(with_lines(command, step.rest, rest)),
                Err(line) => refused(Kind::NotPcl, line, EXIT),
            }
        }
        _ => Ok(step),
    }
}

/// A universal exit with the lines that stand before the rest of the bytes after it.
fn with_lines<'a>(command: Command<'a>, bytes: &'a [u8], rest: &'a [u8]) -> Progress<'a>
    requires { length rest.now ≤ length bytes.now }
    ensures { step_view result ≡ record {
      said = Some (record (view command.entry) { bytes = before_rest bytes.now rest.now });
      rest = rest.now;
      inside = None;
    } }
{
    let (lines, _) = bytes.split_at(bytes.len() - rest.len());
    Progress {
        command: Some(Command {
            bytes: lines,
            ..command
        }),
        rest,
        inside: None,
    }
}

/// A control code or a two-character sequence: a command whose name is one byte, without value or data.
#[tactic(auto, unfolding(crate::specs::inner::Scan::named_at))]
fn read_named<'a>(at: usize, code: u8, rest: &'a [u8]) -> Result<Progress<'a>, Refusal>
    ensures { GivesReads result (named_at at code rest.now) }
{
    let name = Name::One(code);
    if Operation::with_name(name).is_none() {
        return refused(Kind::UnsupportedCommand, at, name);
    }
    let command = Command {
        at,
        name,
        value: Value::ZERO,
        bytes: &[],
    };
    Ok(Progress {
        command: Some(command),
        rest,
        inside: None,
    })
}

/// Reads the run of text at the front of the bytes, as long as it goes.
#[tactic(auto, unfolding(crate::specs::inner::Scan::text_at))]
fn read_text<'a>(at: usize, bytes: &'a [u8]) -> Result<Progress<'a>, Refusal>
    ensures { GivesReads result (text_at at bytes.now) }
{
    let (text, rest) = bytes.split_at(text_len(bytes));
    let command = Command {
        at,
        name: Name::TEXT,
        value: Value::ZERO,
        bytes: text,
    };
    Ok(Progress {
        command: Some(command),
        rest,
        inside: None,
    })
}

/// How many bytes of text stand at the front of the bytes.
fn text_len(bytes: &[u8]) -> usize
    ensures count { result ≡ prefix_len is_text bytes.now }
    ensures within { result ≤ length bytes.now }
{
    for (i, byte) in bytes.iter().enumerate() {
        if matches!(*byte, 0 | 7..=15 | ESC) {
            return i;
        }
    }
    bytes.len()
}

/// Reads a parameter: its field, its letter, and its data.
// Inlined, so that a step of each command isn't passed on through memory.
#[inline(always)]
#[tactic(auto, unfolding(crate::specs::inner::Scan::parameter_at, crate::specs::Checks::parameter_checks))]
fn read_parameter<'a>(
    profile: Profile,
    prefix: Prefix,
    at: usize,
    bytes: &'a [u8],
) -> Result<Progress<'a>, Refusal>
    ensures { GivesReads result (parameter_at profile prefix at bytes.now) }
{
    let (field, rest) = read_field(bytes);
    let Some((&letter, after)) = rest.split_first() else {
        return refused(Kind::Truncated, at, prefix.name());
    };
    if !is_letter(prefix, letter) {
        return refused(Kind::BadSequence, at, prefix.name());
    }
    let name = parameter_name(prefix, letter);
    let Some(value) = field.value() else {
        return refused(Kind::ValueRange, at, name);
    };
    let len = match data_len(profile, name, letter, value, after.len()) {
        Err(kind) => return refused(kind, at, name),
        Ok(len) => len,
    };
    let (bytes, rest) = after.split_at(len);
    let command = Command {
        at,
        name,
        value,
        bytes,
    };
    Ok(Progress {
        command: Some(command),
        rest,
        inside: goes_on(letter).then_some(prefix),
    })
}

/// How many bytes of data follow a parameter, of those that are left; or what is wrong.
// Inlined, as `read_parameter`.
#[inline(always)]
fn data_len(
    profile: Profile,
    name: Name,
    letter: u8,
    value: Value,
    left: usize,
) -> Result<usize, Kind>
    ensures checks { result ≡ operation_checks profile (operation_of name) letter value left }
    ensures within { IfOk result (λ len. len ≤ left) }
{
    match Operation::with_name(name) {
        None => Err(Kind::UnsupportedCommand),
        Some(operation) if !operation.is_in(profile) => Err(Kind::UnsupportedCommand),
        Some(operation) if !operation.takes_data() => Ok(0),
        Some(_) if value.whole() < 0 => Err(Kind::ValueRange),
        Some(_) => match value.whole() as usize {
            0 => Ok(0),
            _ if goes_on(letter) => Err(Kind::BadSequence),
            len if left < len => Err(Kind::Truncated),
            len => Ok(len),
        },
    }
}

/// A step that gives no command.
fn silent(rest: &[u8]) -> Progress<'_>
    ensures { step_view result ≡ record { said = None; rest = rest.now; inside = None } }
{
    Progress {
        command: None,
        rest,
        inside: None,
    }
}

/// The fault of a step.
fn refused<'a>(kind: Kind, at: usize, name: Name) -> Result<Progress<'a>, Refusal>
    ensures { result ≡ Err (refusal kind at name) }
{
    Err(Refusal::new(kind, at, name))
}

impl Prefix {
    /// The name of a sequence of which no more was read.
    fn name(self) -> Name
        ensures { result ≡ prefix_name self }
    {
        match self.group {
            None => Name::One(self.parameterized),
            Some(group) => Name::Two(self.parameterized, group),
        }
    }
}

/// Whether the sequence goes on after a parameter with this letter.
fn goes_on(letter: u8) -> bool
    ensures { result ≡ goes_on letter }
{
    matches!(letter, 96..=126)
}

/// Whether the byte ends a parameter. A sequence without a group character has one parameter.
fn is_letter(prefix: Prefix, byte: u8) -> bool
    ensures { result ≡ is_letter prefix byte }
{
    match byte {
        64..=94 => true,
        96..=126 => prefix.group.is_some(),
        _ => false,
    }
}

/// The name of a parameter: the letter is named as an upper-case one.
fn parameter_name(prefix: Prefix, letter: u8) -> Name
    requires { IsTrue (is_letter prefix letter) }
    ensures { result ≡ parameter_name prefix letter }
{
    let upper_case = if goes_on(letter) { letter - 32 } else { letter };
    match prefix.group {
        None => Name::Two(prefix.parameterized, upper_case),
        Some(group) => Name::Three(prefix.parameterized, group, upper_case),
    }
}

/// Whether the command is a universal exit.
fn is_exit(name: Name, value: Value) -> bool
    ensures { result ≡ is_exit name value }
{
    name == EXIT && value.is_exit_number()
}
