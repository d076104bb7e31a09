//! What refused commands mean, who sends them, and what to set instead (docs/DRIVERS.md).

use pcl_base::{Kind, Name};

/// What is said of a command that the drivers' profile alone knows, after what it asks for.
macro_rules! known_to_drivers {
    ($what:literal) => {
        concat!(
            $what,
            ": shrink, same, pages and batch know it, and pbm and pgm with --drivers; min and check don't"
        )
    };
}

/// What a kind of refusal means, and what to do.
pub fn advice_on_kind(kind: Kind) -> &'static str {
    match kind {
        Kind::Truncated =>
            "the job ends inside a command or its data: it was cut on its way, so send it again",
        Kind::BadSequence =>
            "a byte has no place in a command: the job is damaged, was sent as text, or isn't PCL 5",
        Kind::ValueRange =>
            "a number is above 65535 or below -32767: the job is damaged, or isn't PCL 5",
        Kind::UnsupportedCommand =>
            "a command that this profile of PCL 5 doesn't have: choose a driver for PCL 5 or PCL 5e in black and white",
        Kind::UnsupportedValue => "a value that this profile of PCL 5 doesn't have for the command",
        Kind::FontHeader =>
            "the header of a soft font is malformed, or the font is of a kind that isn't a bitmap: send fonts as bitmaps",
        Kind::CharacterData =>
            "a character of a soft font is malformed or too large: send fonts as bitmaps",
        Kind::NoFont =>
            "text with no soft font selected: fonts of the printer aren't known here, so let the driver send fonts or graphics",
        Kind::MacroOpen => "a reset or the end of the job comes inside the definition of a macro",
        Kind::MacroControl => "a command on macros has no place where it stands",
        Kind::MacroDepth => "more than three macros would run one within the other",
        Kind::TooManyCommands => "the job performs more than 100,000,000 commands",
        Kind::TooManyPages => "the job has more than 256 pages: send it in parts",
        Kind::NotPcl =>
            "the job asks for another language than PCL: choose a driver for PCL 5 or PCL 5e",
    }
}

/// What a command means that is refused by its name or its value, who sends it, and what to do.
pub fn advice_on_name(name: Name) -> Option<&'static str> {
    match name {
        Name::Three(b'&', b'l', _) => page_control(name),
        Name::Three(b'*', _, _) => graphics(name),
        _ => other_command(name),
    }
}

/// The same of commands on pages.
fn page_control(name: Name) -> Option<&'static str> {
    Some(match name {
        Name::Three(b'&', b'l', b'A') =>
            "page size: Executive (1), Letter (2), Legal (3) and A4 (26) are known; choose one of these",
        Name::Three(b'&', b'l', b'O') =>
            "orientation: portrait (0) alone is known; let the program or the driver turn the page",
        Name::Three(b'&', b'l', b'U') =>
            "left offset: shrink, same, pages and batch know it on a page without marks, and pbm and pgm with --drivers; \
            min and check know 0 alone",
        Name::Three(b'&', b'l', b'Z') =>
            "top offset: shrink, same, pages and batch know it on a page without marks, and pbm and pgm with --drivers; \
            min and check know 0 alone",
        Name::Three(b'&', b'l', b'T') => known_to_drivers!("job separation"),
        Name::Three(b'&', b'l', b'X') => "copies: 1 to 99 are known",
        Name::Three(b'&', b'l', b'D') =>
            "lines per inch: 1, 2, 3, 4, 6, 8, 12, 16, 24 and 48 are known",
        _ => return None,
    })
}

/// The same of graphics.
fn graphics(name: Name) -> Option<&'static str> {
    Some(match name {
        Name::Three(b'*', b'o', b'M' | b'Q' | b'D') => known_to_drivers!("print quality"),
        Name::Three(b'*', b'o', _) =>
            "driver configuration: drivers for colour send it; choose black and white",
        Name::Three(b'*', b'b', b'S') =>
            "seed row source: 0 alone is known, by shrink, same, pages and batch, and by pbm and pgm with --drivers",
        Name::Three(b'*', b'b', b'M') =>
            "compression of rows: methods 0 to 3 are known; drivers for DeskJets and PCL 5e with method 5 or 9 send others",
        Name::Three(b'*', b'b', _) =>
            "raster data in planes or strips: drivers for inkjets and colour send it; choose a LaserJet driver",
        Name::Three(b'*', b'g', _) | Name::Three(b'*', b'i', _) =>
            "raster configuration: drivers for inkjets and colour send it; choose a LaserJet driver",
        Name::Three(b'*', b'r', b'Q') => known_to_drivers!("raster quality"),
        Name::Three(b'*', b'r', b'U') =>
            "planes of colour: drivers for colour send it; choose black and white",
        Name::Three(b'*', b't', b'R') =>
            "raster resolution: 75, 100, 150 and 300 are known at 300 dots per inch, and 200 and 600 with --dpi 600 too",
        Name::Three(b'*', b't', _) =>
            "raster scaling or colour treatment: drivers for colour send it; choose black and white",
        Name::Three(b'*', b'c', b'P') =>
            "fill: black (0), white (1) and the area's pattern (5) are known; grey shades and hatches are patterns",
        Name::Three(b'*', b'c', b'W') | Name::Three(b'*', b'c', b'Q') =>
            "patterns of one's own: aren't known; let the driver send graphics as a raster",
        Name::Three(b'*', b'c', b'T' | b'X' | b'Y' | b'K' | b'L') =>
            "a frame for HP-GL/2 pictures: isn't known; let the driver send graphics as a raster",
        Name::Three(b'*', b'v', _) =>
            "patterns and colours: black alone is known; choose black and white, and graphics as a raster",
        Name::Three(b'*', b'l', _) =>
            "logical operations between dots: aren't known; let the driver send graphics as a raster",
        _ => return None,
    })
}

/// The same of other commands.
fn other_command(name: Name) -> Option<&'static str> {
    Some(match name {
        Name::Two(b'%', b'B') =>
            "HP-GL/2 pictures: aren't known; let the driver send graphics as a raster",
        Name::Three(b'&', b'k', b'W') => known_to_drivers!("text scale, or the mode of a DeskJet"),
        Name::Three(b'&', b'k', b'S') =>
            "pitch of the printer's own fonts: isn't known; let the driver send fonts or graphics",
        Name::Three(b'&', b'f', b'X') =>
            "macro control: 0 to 3 and 6 to 10 are known; overlays (4 and 5) aren't",
        Name::Three(b'&', b'p', b'C') => "palettes of colour: aren't known; choose black and white",
        Name::Three(b'&', b'd', b'D') =>
            "underlining: isn't known; let the driver draw it as a rectangle or a raster",
        Name::Three(b'&', b'b', b'W') => "a command of DeskJets: choose a LaserJet driver",
        Name::Three(b'(' | b')', b'f', _) => "symbol sets of one's own: aren't known",
        _ => return None,
    })
}
