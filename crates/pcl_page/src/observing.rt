//! What is told of how a job is performed, as it goes (docs/ARCHITECTURE.md, "Forms").

use crate::raster::Raster;
use pcl_base::{Name, Operation, Value};
use pcl_bitmap::Ink;
use pcl_env::{Asked, Env};
use pcl_fonts::{FontInfo, Glyph};

/// Who is told how a job is performed. Nothing is promised of it: pages and refusals don't turn on it.
pub trait Observer {
    /// Something happens while this is set, with the cursor there.
    fn see(&mut self, event: Event<'_>, environment: &Env);
}

/// Nobody observes.
#[derive(Clone, Copy, Drop)]
pub struct NoObserver;

impl Observer for NoObserver {
    fn see(&mut self, _event: Event<'_>, _environment: &Env) {}
}

/// What an observer is told.
#[derive(Clone, Copy)]
pub enum Event<'a> {
    /// A command comes, which may end the raster that has begun.
    Comes(Operation, Option<SeenRaster<'a>>),
    /// A command begins: a raster that it ends has ended, and nothing is set.
    Begins(Operation),
    /// A command has set what it sets. It has ejected no page, and drawn nothing.
    Sets(SeenCommand<'a>),
    /// A page that was asked with this was ejected.
    Ejects(Asked),
    /// A rectangle or a character is about to be painted.
    Marks(SeenMark<'a>),
    /// A code is about to print no character.
    Blank(u8),
    /// A command of a macro comes.
    InMacro {
        /// Whether that macro was called, or one that runs it.
        is_called: bool,
    },
    /// The end of a macro comes.
    MacroEnds(SeenEnd<'a>),
    /// The end of the job comes, with a page that is marked, and so ejected, or not.
    JobEnds {
        /// Whether it is marked.
        is_marked: bool,
    },
}

/// A command, as an observer is told of it.
#[derive(Clone, Copy)]
pub struct SeenCommand<'a> {
    /// Its name.
    pub name: Name,
    /// What it does.
    pub operation: Operation,
    /// Its value.
    pub value: Value,
    /// Its data, its text, or the lines of the printer's job language after a universal exit.
    pub bytes: &'a [u8],
    /// Whether the page was marked before it.
    pub is_marked: bool,
    /// The raster that has begun, if it doesn't end it.
    pub raster: Option<SeenRaster<'a>>,
    /// Whether the font that it selects, sends, controls, or sends a character of, was sent by the job and is there.
    pub has_font: bool,
}

/// A rectangle or the pattern of a character that is about to be painted at the cursor.
#[derive(Clone, Copy)]
pub struct SeenMark<'a> {
    /// What is painted.
    pub shape: MarkShape<'a>,
    /// Its left and its upper side on the page, in units of 1/7200 inch.
    pub left: i64,
    pub top: i64,
    /// Its right and its lower side, in the same units.
    pub right: i64,
    pub bottom: i64,
    /// Whether the page is marked.
    pub is_marked: bool,
}

/// What a mark is.
#[derive(Clone, Copy)]
pub enum MarkShape<'a> {
    /// A rectangle of an ink.
    Rectangle(Ink),
    /// A character of a font.
    Character(&'a Glyph<'a>, FontInfo),
}

/// The end of a macro, as an observer is told of it.
#[derive(Clone, Copy)]
pub struct SeenEnd<'a> {
    /// Whether it was called: then its end ends a raster, and puts back what was set.
    pub is_call: bool,
    /// The raster that has begun.
    pub raster: Option<SeenRaster<'a>>,
}

/// A raster that has begun, as an observer is told of it.
#[derive(Clone, Copy)]
pub struct SeenRaster<'a> {
    /// The dot of the page where its rows begin.
    pub left: u32,
    /// The dot row of its first row.
    pub top: u32,
    /// How many dots of the page one of its dots is wide and high.
    pub scale: u32,
    /// How many rows are painted at most, where a height was set.
    pub height: Option<u32>,
    /// How many rows were sent or skipped.
    pub rows: u64,
    /// The row that delta rows start from.
    pub seed: &'a [u8],
}

/// A raster that has begun, if one has, as an observer is told of it.
pub fn seen_raster(raster: &Option<Raster>) -> Option<SeenRaster<'_>> {
    match raster {
        Some(raster) => Some(raster.seen()),
        None => None,
    }
}

/// A rectangle at the cursor, as an observer is told of it, on a page that is marked or not.
pub fn seen_rectangle(ink: Ink, environment: &Env, is_marked: bool) -> SeenMark<'static> {
    let (left, top) = (i64::from(environment.x()), i64::from(environment.y()));
    SeenMark {
        shape: MarkShape::Rectangle(ink),
        left,
        top,
        right: left.saturating_add(signed(environment.rectangle_width())),
        bottom: top.saturating_add(signed(environment.rectangle_height())),
        is_marked,
    }
}

/// The pattern of a character of a font at the cursor, as an observer is told of it, on a page that is marked or not.
pub fn seen_character<'a>(
    glyph: &'a Glyph<'a>,
    font: FontInfo,
    environment: &Env,
    is_marked: bool,
) -> SeenMark<'a> {
    let bit = i64::from(font.resolution.unit());
    let left = i64::from(environment.x()).saturating_add(i64::from(glyph.left).saturating_mul(bit));
    let top = i64::from(environment.y()).saturating_sub(i64::from(glyph.top).saturating_mul(bit));
    SeenMark {
        shape: MarkShape::Character(glyph, font),
        left,
        top,
        right: left.saturating_add(i64::from(glyph.width).saturating_mul(bit)),
        bottom: top.saturating_add(i64::from(glyph.height).saturating_mul(bit)),
        is_marked,
    }
}

/// A length as a signed number.
fn signed(length: u64) -> i64 {
    i64::try_from(length).unwrap_or(i64::MAX)
}
