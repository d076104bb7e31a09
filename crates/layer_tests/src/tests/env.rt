use super::assert_gives;
use pcl_base::Axis::{Horizontal, Vertical};
use pcl_base::Operation::*;
use pcl_base::Sign::{Absent, Minus, Plus};
use pcl_base::Unit::{Column, Decipoint, PclUnit};
use pcl_base::{Asking, Dpi, Method, Operation, Profile, Side, Sign, Size, Value};
use pcl_env::{Asked, Effect, Env, Unsupported};
use std::process::Abort;

const STAY: Result<Effect, Unsupported> = Ok(Effect::Stay);

const EJECT: Result<Effect, Unsupported> = Ok(Effect::Eject);

const EJECT_MARKED: Result<Effect, Unsupported> = Ok(Effect::EjectMarked);

const REFUSED: Result<Effect, Unsupported> = Err(Unsupported);

/// What a command answers, and where the cursor then stands.
type Outcome = (Result<Effect, Unsupported>, u32, u32);

/// A command of a job on an unmarked page: its sign, and its magnitude in ten-thousandths. The last command of a job tells
/// what is wanted of it, and the next one begins a new job.
type Step = (Operation, Sign, u32, Option<Outcome>);

const STEPS: [Step; 137] = [
    // The first line and the top margin.
    (NoEffect, Absent, 0, Some((STAY, 0, 4500))),
    (TopMargin, Absent, 0, Some((STAY, 0, 900))),
    (TopMargin, Minus, 5000, Some((STAY, 0, 900))),
    (TopMargin, Minus, 10_000, Some((REFUSED, 0, 4500))),
    (TopMargin, Absent, 660_000, Some((STAY, 0, 79_200))),
    (TopMargin, Absent, 670_000, Some((STAY, 0, 4500))),
    // Line feeds, the bottom margin and the line spacing.
    (LineFeed, Absent, 0, Some((STAY, 0, 5700))),
    (Move(Vertical, Decipoint), Absent, 70_800_000, None),
    (LineFeed, Absent, 0, Some((STAY, 0, 75_600))),
    (Move(Vertical, Decipoint), Absent, 70_810_000, None),
    (LineFeed, Absent, 0, Some((EJECT, 0, 74_410))),
    (PerforationSkip, Absent, 0, None),
    (Move(Vertical, Decipoint), Absent, 70_810_000, None),
    (LineFeed, Absent, 0, Some((STAY, 0, 75_610))),
    (PerforationSkip, Absent, 0, None),
    (Move(Vertical, Decipoint), Absent, 74_410_000, None),
    (LineFeed, Absent, 0, Some((EJECT, 0, 78_010))),
    (PerforationSkip, Absent, 20_000, Some((REFUSED, 0, 4500))),
    (TextLength, Absent, 100_000, None),
    (Move(Vertical, Decipoint), Absent, 10_800_000, None),
    (LineFeed, Absent, 0, Some((STAY, 0, 15_600))),
    (TextLength, Absent, 100_000, None),
    (Move(Vertical, Decipoint), Absent, 10_810_000, None),
    (LineFeed, Absent, 0, Some((EJECT, 0, 14_410))),
    (TextLength, Absent, 0, Some((REFUSED, 0, 4500))),
    (HalfLineFeed, Absent, 0, Some((STAY, 0, 5100))),
    (VerticalMotionIndex, Absent, 125_000, None),
    (HalfLineFeed, Absent, 0, Some((STAY, 0, 5437))),
    (LineSpacing, Absent, 80_000, None),
    (LineFeed, Absent, 0, Some((STAY, 0, 5400))),
    (LineSpacing, Absent, 50_000, Some((REFUSED, 0, 4500))),
    // Tab stops.
    (HorizontalTab, Absent, 0, Some((STAY, 5760, 4500))),
    (HorizontalTab, Absent, 0, None),
    (HorizontalTab, Absent, 0, Some((STAY, 11_520, 4500))),
    (LeftMargin, Absent, 50_000, None),
    (HorizontalTab, Absent, 0, Some((STAY, 9360, 4500))),
    (LeftMargin, Absent, 50_000, None),
    (Move(Horizontal, PclUnit), Absent, 0, None),
    (HorizontalTab, Absent, 0, Some((STAY, 3600, 4500))),
    (Move(Horizontal, PclUnit), Absent, 100_000, None),
    (HorizontalMotionIndex, Absent, 0, None),
    (HorizontalTab, Absent, 0, Some((STAY, 240, 4500))),
    // The left margin.
    (LeftMargin, Absent, 790_000, Some((STAY, 56_880, 4500))),
    (LeftMargin, Absent, 800_000, Some((STAY, 0, 4500))),
    (Move(Horizontal, PclUnit), Absent, 10_000_000, None),
    (LeftMargin, Absent, 50_000, Some((STAY, 24_000, 4500))),
    (LeftMargin, Absent, 50_000, None),
    (ClearMargins, Absent, 0, None),
    (CarriageReturn, Absent, 0, Some((STAY, 0, 4500))),
    (LeftMargin, Absent, 50_000, None),
    (Move(Horizontal, PclUnit), Plus, 100_000, None),
    (CarriageReturn, Absent, 0, Some((STAY, 3600, 4500))),
    // Line termination.
    (LineTermination, Absent, 10_000, None),
    (Move(Horizontal, PclUnit), Absent, 100_000, None),
    (CarriageReturn, Absent, 0, Some((STAY, 0, 5700))),
    (LineTermination, Absent, 10_000, None),
    (Move(Horizontal, PclUnit), Absent, 100_000, None),
    (LineFeed, Absent, 0, Some((STAY, 240, 5700))),
    (LineTermination, Absent, 20_000, None),
    (Move(Horizontal, PclUnit), Absent, 100_000, None),
    (CarriageReturn, Absent, 0, Some((STAY, 0, 4500))),
    (LineTermination, Absent, 20_000, None),
    (Move(Horizontal, PclUnit), Absent, 100_000, None),
    (LineFeed, Absent, 0, Some((STAY, 0, 5700))),
    (LineTermination, Absent, 20_000, None),
    (Move(Horizontal, PclUnit), Absent, 100_000, None),
    (HalfLineFeed, Absent, 0, Some((STAY, 240, 5100))),
    (LineTermination, Absent, 20_000, None),
    (Move(Horizontal, PclUnit), Absent, 100_000, None),
    (FormFeed, Absent, 0, Some((EJECT, 0, 4500))),
    (Move(Horizontal, PclUnit), Absent, 100_000, None),
    (FormFeed, Absent, 0, Some((EJECT, 240, 4500))),
    (LineTermination, Absent, 30_000, None),
    (Move(Horizontal, PclUnit), Absent, 100_000, None),
    (CarriageReturn, Absent, 0, Some((STAY, 0, 5700))),
    (LineTermination, Absent, 40_000, Some((REFUSED, 0, 4500))),
    // Moves.
    (Move(Horizontal, PclUnit), Absent, 100_000, None),
    (
        Move(Horizontal, PclUnit),
        Minus,
        30_000,
        Some((STAY, 168, 4500)),
    ),
    (Move(Horizontal, PclUnit), Absent, 100_000, None),
    (
        Move(Horizontal, PclUnit),
        Minus,
        110_000,
        Some((STAY, 0, 4500)),
    ),
    (Move(Horizontal, PclUnit), Absent, 100_000, None),
    (
        Move(Horizontal, PclUnit),
        Minus,
        300,
        Some((STAY, 240, 4500)),
    ),
    (Move(Horizontal, PclUnit), Absent, 100_000, None),
    (Move(Horizontal, PclUnit), Minus, 0, Some((STAY, 240, 4500))),
    (
        Move(Horizontal, PclUnit),
        Plus,
        655_350_000,
        Some((STAY, 57_600, 4500)),
    ),
    (
        Move(Vertical, PclUnit),
        Plus,
        655_350_000,
        Some((STAY, 0, 79_200)),
    ),
    (
        Move(Horizontal, Column),
        Absent,
        25_000,
        Some((STAY, 1800, 4500)),
    ),
    (HorizontalMotionIndex, Absent, 15_000, None),
    (
        Move(Horizontal, Column),
        Absent,
        30_000,
        Some((STAY, 270, 4500)),
    ),
    (
        Move(Vertical, Decipoint),
        Absent,
        50_000,
        Some((STAY, 0, 3650)),
    ),
    (
        Move(Vertical, Decipoint),
        Minus,
        100_000,
        Some((STAY, 0, 4400)),
    ),
    (Move(Vertical, PclUnit), Absent, 0, Some((STAY, 0, 3600))),
    (
        Move(Vertical, Column),
        Absent,
        20_000,
        Some((STAY, 0, 6900)),
    ),
    (Move(Vertical, Column), Plus, 20_000, Some((STAY, 0, 6900))),
    (UnitOfMeasure, Absent, 6_000_000, None),
    (
        Move(Horizontal, PclUnit),
        Absent,
        100_000,
        Some((STAY, 120, 4500)),
    ),
    (UnitOfMeasure, Absent, 970_000, Some((REFUSED, 0, 4500))),
    // Page sizes, the cursor stack, resets.
    (Move(Horizontal, PclUnit), Absent, 655_350_000, None),
    (PageSize, Absent, 10_000, None),
    (
        Move(Horizontal, PclUnit),
        Plus,
        655_350_000,
        Some((STAY, 48_600, 4500)),
    ),
    (LeftMargin, Absent, 50_000, None),
    (PageSize, Absent, 20_000, Some((EJECT_MARKED, 0, 4500))),
    (TopMargin, Absent, 0, None),
    (PageSize, Absent, 260_000, Some((EJECT_MARKED, 0, 4500))),
    (PageSize, Absent, 40_000, Some((REFUSED, 0, 4500))),
    (PageSize, Absent, 30_000, None),
    (Move(Vertical, PclUnit), Absent, 40_000_000, None),
    (CursorStack, Absent, 0, None),
    (PageSize, Absent, 20_000, None),
    (CursorStack, Absent, 10_000, Some((STAY, 0, 79_200))),
    (CursorStack, Absent, 10_000, Some((STAY, 0, 4500))),
    (CursorStack, Absent, 20_000, Some((REFUSED, 0, 4500))),
    (LineSpacing, Absent, 80_000, None),
    (Move(Horizontal, PclUnit), Absent, 100_000, None),
    (Reset, Absent, 0, Some((EJECT_MARKED, 0, 4500))),
    (Move(Horizontal, PclUnit), Absent, 100_000, None),
    (
        UniversalExit,
        Minus,
        123_459_000,
        Some((EJECT_MARKED, 0, 4500)),
    ),
    // Commands that change nothing here.
    (Move(Horizontal, PclUnit), Absent, 100_000, None),
    (
        UniversalExit,
        Absent,
        123_450_000,
        Some((REFUSED, 240, 4500)),
    ),
    (OnlyZero, Minus, 9999, Some((STAY, 0, 4500))),
    (OnlyZero, Absent, 10_000, Some((REFUSED, 0, 4500))),
    (Ask(Asking::Orientation), Minus, 9999, Some((STAY, 0, 4500))),
    (
        Ask(Asking::Orientation),
        Absent,
        10_000,
        Some((REFUSED, 0, 4500)),
    ),
    (SeedRowSource, Minus, 9999, Some((STAY, 0, 4500))),
    (SeedRowSource, Absent, 10_000, Some((REFUSED, 0, 4500))),
    (
        Ask(Asking::PaperSource),
        Minus,
        70_000,
        Some((EJECT_MARKED, 0, 4500)),
    ),
    (
        Ask(Asking::SheetSide),
        Absent,
        20_000,
        Some((EJECT_MARKED, 0, 4500)),
    ),
    (Ask(Asking::Sides), Absent, 10_000, Some((STAY, 0, 4500))),
    (FillRectangle, Absent, 50_000, Some((STAY, 0, 4500))),
    (FillRectangle, Absent, 20_000, Some((STAY, 0, 4500))),
    (RasterPresentation, Absent, 30_000, Some((STAY, 0, 4500))),
    (RasterPresentation, Absent, 10_000, Some((REFUSED, 0, 4500))),
    (StartRaster, Absent, 10_000, Some((STAY, 0, 4500))),
    (StartRaster, Absent, 20_000, Some((REFUSED, 0, 4500))),
    (EndRaster, Minus, 50_000, Some((STAY, 0, 4500))),
    (RasterOffset, Minus, 10_000, Some((REFUSED, 0, 4500))),
    (RasterRow, Absent, 800_000, Some((STAY, 0, 4500))),
];

#[test]
fn commands(rt: HostRuntime) {
    assert_steps(&rt, &STEPS);
}

fn assert_steps(rt: &impl Abort, steps: &[Step]) {
    let mut env = Env::new(Profile::Stated);
    for (operation, sign, parts, wanted) in steps {
        let value = Value {
            sign: *sign,
            parts: *parts,
        };
        let answer = env.apply(*operation, value, false, Dpi::Dpi300);
        if let Some(wanted) = wanted {
            assert_gives(
                rt,
                &(*operation, value),
                &(answer, env.x(), env.y()),
                wanted,
            );
            env = Env::new(Profile::Stated);
        }
    }
}

/// Performs a command with a whole number on an unmarked page at 300 dots per inch.
fn say(env: &mut Env, operation: Operation, whole: u32) -> Result<Effect, Unsupported> {
    let value = Value {
        sign: Absent,
        parts: whole.saturating_mul(10_000),
    };
    env.apply(operation, value, false, Dpi::Dpi300)
}

// The last value of each asking counts, and a reset takes all back.
#[test]
fn askings(rt: HostRuntime) {
    let mut env = Env::new(Profile::Stated);
    let answers = (
        say(&mut env, Ask(Asking::Sides), 1),
        say(&mut env, Ask(Asking::OutputBin), 2),
        say(&mut env, Ask(Asking::MediaType), 3),
        say(&mut env, Ask(Asking::PaperSource), 4),
        say(&mut env, Ask(Asking::PaperSource), 5),
        say(&mut env, Ask(Asking::PaperSource), 0),
        say(&mut env, Ask(Asking::SheetSide), 1),
        say(&mut env, Ask(Asking::PageLength), 66),
    );
    let wanted = (
        STAY,
        STAY,
        STAY,
        EJECT_MARKED,
        EJECT_MARKED,
        EJECT_MARKED,
        EJECT_MARKED,
        STAY,
    );
    assert_gives(&rt, &"answers", &answers, &wanted);
    let of_drivers = (
        say(&mut env, Ask(Asking::JobSeparation), 6),
        say(&mut env, Ask(Asking::TextScale), 7),
        say(&mut env, Ask(Asking::PrintQuality), 8),
        say(&mut env, Ask(Asking::Shingling), 9),
        say(&mut env, Ask(Asking::Depletion), 10),
        say(&mut env, Ask(Asking::RasterQuality), 11),
    );
    let all_stay = (STAY, STAY, STAY, STAY, STAY, STAY);
    assert_gives(&rt, &"answers to drivers", &of_drivers, &all_stay);
    let orientation = say(&mut env, Ask(Asking::Orientation), 0);
    assert_gives(&rt, &"answer to an orientation", &orientation, &STAY);
    let asked = Asked {
        copies: None,
        page_size: None,
        page_length: Some(79_200),
        orientation: Some(0),
        sides: Some(1),
        output_bin: Some(2),
        media_type: Some(3),
        paper_source: Some(5),
        left_offset: None,
        top_offset: None,
        text_scale: Some(7),
        print_quality: Some(8),
        shingling: Some(9),
        depletion: Some(10),
        raster_quality: Some(11),
    };
    assert_gives(&rt, &"asked", &env.asked(), &asked);
    let _answer = say(&mut env, Reset, 0);
    assert_gives(&rt, &"after a reset", &env.asked(), &Asked::NOTHING);
}

/// An offset in ten-thousandths of a decipoint, said on a page that is marked or not by a profile, and what comes of it.
type OffsetStep = (Sign, u32, bool, Result<Effect, Unsupported>, Option<i64>);

// The stated profile takes less than a decipoint alone, whatever the page has.
const STATED_OFFSETS: [OffsetStep; 4] = [
    (Absent, 0, true, STAY, Some(0)),
    (Minus, 9_999, false, STAY, Some(0)),
    (Absent, 10_000, false, REFUSED, Some(0)),
    (Minus, 1_800_000, true, REFUSED, Some(0)),
];

// Drivers send any on an unmarked page, and on a marked one that at which it lies.
const DRIVERS_OFFSETS: [OffsetStep; 8] = [
    (Minus, 1_800_000, false, STAY, Some(-1_800_000)),
    (Minus, 1_800_000, true, STAY, Some(-1_800_000)),
    (Plus, 1_800_000, true, REFUSED, Some(-1_800_000)),
    (Absent, 0, true, REFUSED, Some(-1_800_000)),
    (Absent, 361_234, false, STAY, Some(361_234)),
    (Absent, 361_235, true, REFUSED, Some(361_234)),
    (Plus, 5_000, false, STAY, Some(0)),
    (Minus, 9_999, true, STAY, Some(0)),
];

fn assert_offsets(rt: &impl Abort, profile: Profile, steps: &[OffsetStep]) {
    let mut env = Env::new(profile);
    for (sign, parts, is_marked, wanted, said) in steps {
        let value = Value {
            sign: *sign,
            parts: *parts,
        };
        let left = env.apply(Ask(Asking::LeftOffset), value, *is_marked, Dpi::Dpi300);
        let top = env.apply(Ask(Asking::TopOffset), value, *is_marked, Dpi::Dpi300);
        let asked = env.asked();
        assert_gives(
            rt,
            &value,
            &(left, top, asked.left_offset, asked.top_offset),
            &(*wanted, *wanted, *said, *said),
        );
    }
}

#[test]
fn offsets(rt: HostRuntime) {
    assert_offsets(&rt, Profile::Stated, &STATED_OFFSETS);
    assert_offsets(&rt, Profile::Drivers, &DRIVERS_OFFSETS);
}

// The greatest number that each command takes, and the next one.
const GREATEST_NUMBERS: [(Operation, u32, u32); 11] = [
    (Copies, 99, 100),
    (LineSpacing, 48, 49),
    (PerforationSkip, 1, 2),
    (UnitOfMeasure, 7200, 7201),
    (LineTermination, 3, 4),
    (CursorStack, 1, 2),
    (MacroId, 32_767, 32_768),
    (FontId, 32_767, 32_768),
    (CharacterCode, 255, 256),
    (RasterResolution, 300, 600),
    (RasterMethod, 3, 4),
];

#[test]
fn greatest_numbers(rt: HostRuntime) {
    for (operation, greatest, refused) in &GREATEST_NUMBERS {
        let mut env = Env::new(Profile::Stated);
        let answers = (
            say(&mut env, *operation, *greatest),
            say(&mut env, *operation, *refused),
        );
        assert_gives(&rt, operation, &answers, &(STAY, REFUSED));
    }
}

// A raster of 600 dots per inch on a page that has as many, and a top margin on a marked page.
#[test]
fn other_pages(rt: HostRuntime) {
    let mut env = Env::new(Profile::Stated);
    let fine = Value {
        sign: Absent,
        parts: 6_000_000,
    };
    let answer = env.apply(RasterResolution, fine, false, Dpi::Dpi600);
    assert_gives(&rt, &fine, &(answer, env.resolution()), &(STAY, 600));
    assert_margin_stays(&rt, &mut env);
}

/// Asserts that a top margin leaves the cursor of a marked page.
fn assert_margin_stays(rt: &impl Abort, env: &mut Env) {
    let answer = env.apply(TopMargin, Value::ZERO, true, Dpi::Dpi300);
    assert_gives(rt, &"a marked page", &(answer, env.y()), &(STAY, 4500));
}

// The PCL units that can be set: this many of each are an inch.
const UNITS: [u32; 26] = [
    96, 100, 120, 144, 150, 160, 180, 200, 225, 240, 288, 300, 360, 400, 450, 480, 600, 720, 800,
    900, 1200, 1440, 1800, 2400, 3600, 7200,
];

#[test]
fn units_of_an_inch(rt: HostRuntime) {
    for units in &UNITS {
        let mut env = Env::new(Profile::Stated);
        let answers = (
            say(&mut env, UnitOfMeasure, *units),
            say(&mut env, Move(Horizontal, PclUnit), *units),
        );
        assert_gives(&rt, units, &(answers, env.x()), &((STAY, STAY), 7200));
    }
}

// The line spacings: this many lines of each are an inch.
const LINES: [u32; 10] = [1, 2, 3, 4, 6, 8, 12, 16, 24, 48];

#[test]
fn lines_of_an_inch(rt: HostRuntime) {
    for lines in &LINES {
        let mut env = Env::new(Profile::Stated);
        env.move_to(0, 0);
        assert_gives(&rt, lines, &say(&mut env, LineSpacing, *lines), &STAY);
        assert_feeds(&rt, &mut env, *lines);
        assert_gives(&rt, lines, &env.y(), &7200);
    }
}

/// Asserts that this many line feeds can be made.
fn assert_feeds(rt: &impl Abort, env: &mut Env, lines: u32) {
    for _ in 0..lines {
        assert_gives(rt, &lines, &say(env, LineFeed, 0), &STAY);
    }
}

// The twenty-first position isn't kept, and the newest comes back first.
#[test]
fn cursor_stack(rt: HostRuntime) {
    let mut env = Env::new(Profile::Stated);
    for place in 1..=21 {
        assert_pushes(&rt, &mut env, (place, 2 * place));
    }
    for place in (1..=20).rev() {
        assert_pops(&rt, &mut env, (place, 2 * place));
    }
    env.move_to(9, 9);
    let answer = say(&mut env, CursorStack, 1);
    assert_gives(&rt, &"an empty stack", &(answer, env.x()), &(STAY, 9));
}

/// Asserts that a command pushes a position.
fn assert_pushes(rt: &impl Abort, env: &mut Env, (x, y): (u64, u64)) {
    env.move_to(x, y);
    assert_gives(rt, &x, &say(env, CursorStack, 0), &STAY);
}

/// Asserts which position comes back.
fn assert_pops(rt: &impl Abort, env: &mut Env, (x, y): (u32, u32)) {
    let answer = say(env, CursorStack, 1);
    assert_gives(rt, &x, &(answer, env.x(), env.y()), &(STAY, x, y));
}

/// The copies, the macro, the font and the character that are meant, the rectangle's width and height, the raster's
/// resolution, width and height, and its method.
type Settings = (
    (u8, u16, u16, u8),
    (u64, u64),
    (u32, Option<u32>, Option<u32>),
    Method,
);

fn settings(env: &Env) -> Settings {
    let numbers = (
        env.copies(),
        env.macro_id(),
        env.font_id(),
        env.character_code(),
    );
    let rectangle = (env.rectangle_width(), env.rectangle_height());
    let raster = (env.resolution(), env.raster_width(), env.raster_height());
    (numbers, rectangle, raster, env.method())
}

/// The motion index, and which font is in use.
fn text(env: &Env) -> (u32, Side, Option<u16>) {
    (env.hmi(), env.in_use(), env.font_in_use())
}

const DEFAULTS: Settings = ((1, 0, 0, 0), (0, 0), (75, None, None), Method::Plain);

// Commands that a call is made after, and what they set.
const CHANGES: [(Operation, u32); 11] = [
    (Copies, 2),
    (MacroId, 3),
    (FontId, 4),
    (CharacterCode, 5),
    (RectangleSize(Horizontal, PclUnit), 6),
    (RectangleSize(Vertical, Decipoint), 7),
    (RasterResolution, 150),
    (RasterWidth, 8),
    (RasterHeight, 9),
    (RasterMethod, 2),
    (Shift(Side::Secondary), 0),
];

const CHANGED: Settings = (
    (2, 3, 4, 5),
    (144, 70),
    (150, Some(8), Some(9)),
    Method::Packed,
);

// What a call puts back, and what it leaves.
#[test]
fn calls(rt: HostRuntime) {
    let mut env = Env::new(Profile::Stated);
    assert_gives(&rt, &"at first", &settings(&env), &DEFAULTS);
    let saved = env.save();
    assert_changes(&rt, &mut env);
    assert_selects(&rt, &mut env);
    assert_resets_method(&rt, &mut env);
    leave(&mut env);
    env.restore(saved);
    assert_left(&rt, &env);
    env.advance(5);
    env.new_page();
    assert_gives(&rt, &"a new page", &(env.x(), env.y()), &(75, 4500));
}

fn assert_changes(rt: &impl Abort, env: &mut Env) {
    for (operation, whole) in &CHANGES {
        assert_gives(rt, operation, &say(env, *operation, *whole), &STAY);
    }
    assert_gives(rt, &"in the call", &settings(env), &CHANGED);
}

fn assert_selects(rt: &impl Abort, env: &mut Env) {
    env.select(Side::Primary, 11, 60);
    env.select(Side::Secondary, 12, 48);
    assert_gives(rt, &"fonts", &text(env), &(48, Side::Secondary, Some(12)));
}

fn assert_resets_method(rt: &impl Abort, env: &mut Env) {
    let answers = (say(env, PageSize, 3), say(env, EndRasterResetMethod, 0));
    assert_gives(
        rt,
        &"method 0",
        &(answers, env.method()),
        &((EJECT_MARKED, STAY), Method::Plain),
    );
}

/// Sets the method and moves the cursor, as the last commands of a call do.
fn leave(env: &mut Env) {
    env.set_method(Method::Delta);
    env.move_to(100, 200_000);
    env.advance(-30);
}

fn assert_left(rt: &impl Abort, env: &Env) {
    let given = (settings(env), text(env), (env.size(), env.x(), env.y()));
    let wanted = (
        DEFAULTS,
        (720, Side::Primary, None),
        (Size::Legal, 70, 100_800),
    );
    assert_gives(rt, &"behind the call", &given, &wanted);
}
