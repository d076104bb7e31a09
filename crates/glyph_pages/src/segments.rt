//! Page texts cut into segments, whole commands that other pages may have too.

use std::alloc::{AllocError, Global};

/// The byte that starts a sequence.
const ESCAPE: u8 = 27;

/// Whole commands of a text, from one place in it to another.
#[derive(Clone, Copy)]
pub struct Segment {
    pub start: usize,
    pub end: usize,
    /// Whether macros are defined or run in it, or before and after it.
    pub has_macros: bool,
    /// Whether it stays where it is: a macro is defined there, or counts on an ID that is set before it.
    pub is_fixed: bool,
}

impl Segment {
    /// The same segment of a text in which another text stands before its own, of this many bytes.
    pub fn after(self, bytes: usize) -> Segment {
        Segment {
            start: self.start.saturating_add(bytes),
            end: self.end.saturating_add(bytes),
            has_macros: self.has_macros,
            is_fixed: self.is_fixed,
        }
    }
}

/// What a command is to segments.
#[derive(Clone, Copy, PartialEq, Eq)]
enum Kind {
    /// A move to a row.
    Move,
    LineFeed,
    Return,
    FormFeed,
    RasterEnd,
    /// What defines a macro, runs one after setting its ID, or else runs or ends one.
    MacroStart,
    MacroById,
    Macro,
    Other,
}

impl Kind {
    /// Whether it is about macros.
    fn is_macro(self) -> bool {
        matches!(self, Kind::MacroStart | Kind::MacroById | Kind::Macro)
    }
}

/// The kind of a command.
fn kind_of(command: &[u8]) -> Kind {
    match command {
        [10] => Kind::LineFeed,
        [12] => Kind::FormFeed,
        [13] => Kind::Return,
        [ESCAPE, b'*', b'p', .., b'Y'] => Kind::Move,
        [ESCAPE, b'*', b'r', .., b'C'] => Kind::RasterEnd,
        [ESCAPE, b'&', b'f', .., b'y', b'0', b'X'] => Kind::MacroStart,
        [ESCAPE, b'&', b'f', parameters @ ..] if starts_with_id(parameters) => Kind::MacroById,
        [ESCAPE, b'&', b'f', ..] => Kind::Macro,
        _ => Kind::Other,
    }
}

/// Whether the first of some parameters is an ID.
fn starts_with_id(parameters: &[u8]) -> bool {
    let letter = parameters.iter().find(|byte| !byte.is_ascii_digit());
    letter.is_some_and(|letter| *letter == b'y')
}

/// Whether a segment starts between two commands: after a raster, before a form feed, and where a line or a rule starts, by a move to a
/// row, by line feeds, or by a carriage return and a move.
fn is_cut(before: Kind, next: Kind) -> bool {
    match (before, next) {
        (Kind::RasterEnd, _) | (_, Kind::FormFeed) => true,
        (Kind::Return, Kind::Move) | (Kind::LineFeed, Kind::LineFeed) => false,
        (_, Kind::Move | Kind::LineFeed | Kind::Return) => true,
        _ => false,
    }
}

/// The segments of the text of a page, which lie side by side. None starts in a raster: there only rows stand. Whether what runs macros may
/// stand in one is given.
pub fn segments_of(alloc: Global, text: &[u8], may_run: bool) -> Result<Vec<Segment>, AllocError> {
    let mut cuts = Cuts::new(alloc);
    let mut rest = text;
    for _ in 0..text.len() {
        if rest.is_empty() {
            break;
        }
        let (command, after) = rest.split_at(command_len(rest).min(rest.len()));
        let start = text.len().saturating_sub(rest.len());
        cuts.add(start, kind_of(command))?;
        rest = after;
    }
    cuts.segments(alloc, text.len(), may_run)
}

/// Where the commands of a page about macros stand.
#[derive(Clone, Copy)]
struct MacroRange {
    /// Where the first of them starts, and where the last.
    first: usize,
    last: usize,
    /// Whether all are runs, of which the first sets its ID.
    is_whole: bool,
}

/// Where segments start in a text.
#[derive(Drop)]
struct Cuts {
    starts: Vec<usize>,
    /// The command that was read last.
    before: Kind,
    macros: Option<MacroRange>,
}

impl Cuts {
    /// At the start of the text.
    fn new(alloc: Global) -> Cuts {
        Cuts {
            starts: Vec::new(alloc),
            before: Kind::RasterEnd,
            macros: None,
        }
    }

    /// Adds the next command, which starts in this place.
    fn add(&mut self, start: usize, kind: Kind) -> Result<(), AllocError> {
        if is_cut(self.before, kind) {
            self.starts.push(start)?;
        }
        if kind.is_macro() {
            self.macros = Some(match self.macros {
                Some(range) => MacroRange {
                    first: range.first,
                    last: start,
                    is_whole: range.is_whole && kind != Kind::MacroStart,
                },
                None => MacroRange {
                    first: start,
                    last: start,
                    is_whole: kind == Kind::MacroById,
                },
            });
        }
        self.before = kind;
        Ok(())
    }

    /// The segments of the text, which has this many bytes. All that runs macros is in one, if they may be run there.
    fn segments(
        self,
        alloc: Global,
        len: usize,
        may_run: bool,
    ) -> Result<Vec<Segment>, AllocError> {
        let Cuts {
            mut starts,
            macros,
            ..
        } = self;
        let is_whole = may_run && macros.is_some_and(|range| range.is_whole);
        if is_whole {
            starts.retain(|start: &usize| -> bool { !is_between(*start, macros) });
        }
        let mut segments = Vec::new(alloc);
        for (place, start) in starts.iter().enumerate() {
            let next = starts.get(place.saturating_add(1));
            let end = next.copied().unwrap_or(len);
            let has_macros = has_macros(*start, end, macros);
            segments.push(Segment {
                start: *start,
                end,
                has_macros,
                is_fixed: has_macros && !is_whole,
            })?;
        }
        Ok(segments)
    }
}

/// Whether a place lies after the first and not after the last of the commands about macros.
fn is_between(place: usize, macros: Option<MacroRange>) -> bool {
    macros.is_some_and(|range| range.first < place && place <= range.last)
}

/// Whether what lies between two places has commands about macros, or lies between some.
fn has_macros(start: usize, end: usize, macros: Option<MacroRange>) -> bool {
    macros.is_some_and(|range| range.first < end && start <= range.last)
}

/// How many bytes the first command of a text has, with its data: each code of text is one by itself.
fn command_len(text: &[u8]) -> usize {
    match text {
        [ESCAPE, 33..=47, ..] => sequence_len(text),
        [ESCAPE, _, ..] => 2,
        _ => 1,
    }
}

/// How many bytes the combined sequence has that a text begins with, with the data of its last parameter.
fn sequence_len(text: &[u8]) -> usize {
    let last = text.iter().position(|byte| matches!(*byte, 64..=94));
    let Some(last) = last else {
        return text.len();
    };
    let len = last.saturating_add(1);
    let (parameters, rest) = text.split_at(last.min(text.len()));
    if rest.starts_with(b"W") {
        len.saturating_add(data_len(parameters))
    } else {
        len
    }
}

/// The number with which some parameters end.
fn data_len(parameters: &[u8]) -> usize {
    let mut len: usize = 0;
    for byte in parameters {
        len = match *byte {
            b'0'..=b'9' => len
                .saturating_mul(10)
                .saturating_add(usize::from(byte.saturating_sub(b'0'))),
            _ => 0,
        };
    }
    len
}
