//! The header of a font.

ghost use Rattle.std.specs.Prelude.{◌≡◌, ◌≤◌, ◌*◌, ◌*ℤ◌, pos, length, true, false, IsTrue, MatchOption};
ghost use Rattle.pcl_fonts.specs.Fields.{has_byte, has_format, states_resolution, is_header, resolution_of, defined_font, quarter_dot};

use crate::fields::word;
use pcl_base::{Dpi, Profile};

/// A format of headers.
#[derive(Clone, Copy)]
struct Format {
    /// Its number.
    number: u8,
    /// The least bytes of a header.
    least: usize,
}

/// The format whose fonts have 300 dots per inch.
const PLAIN: Format = Format {
    number: 0,
    least: 64,
};

/// The format whose headers state a resolution.
const WITH_RESOLUTION: Format = Format {
    number: 20,
    least: 68,
};

/// What text has to know of a font.
#[derive(Clone, Copy, Debug, PartialEq, Eq)]
pub struct FontInfo {
    /// Whether each character has an advance of its own; else all have the pitch.
    pub proportional: bool,
    /// The pitch, in quarter dots of the font.
    pub pitch: u16,
    /// How fine the font's dots are.
    pub resolution: Dpi,
}

impl FontInfo {
    /// The width of a column, in units of 1/7200 inch.
    pub fn column(self) -> u32
        ensures { result ≡ self.pitch * quarter_dot self.resolution }
    {
        u32::from(self.pitch) * quarter_dot(self.resolution)
    }

    /// How far a character with this advance in quarter dots goes, in the same units.
    pub fn advance(self, delta: i16) -> i64
        ensures { result ≡ delta *ℤ pos (quarter_dot self.resolution) }
    {
        i64::from(delta) * i64::from(quarter_dot(self.resolution))
    }
}

/// The type of a font, which says what codes it has.
#[derive(Clone, Copy, Debug, PartialEq, Eq)]
pub enum FontType {
    /// Codes 32 to 127 (type 0).
    SevenBit,
    /// Codes 32 to 127 and 160 to 255 (type 1).
    EightBit,
    /// Codes 0 to 255 (type 2).
    EveryCode,
}

impl FontType {
    ghost use Rattle.pcl_fonts.specs.Fields.{has_code};

    /// Whether fonts of the type have a code.
    pub fn has_code(self, code: u8) -> bool
        ensures { result ≡ has_code self code }
    {
        match self {
            FontType::SevenBit => (32..=127).contains(&code),
            FontType::EightBit => (32..=127).contains(&code) || code >= 160,
            FontType::EveryCode => true,
        }
    }
}

/// What a header says of a font.
#[derive(Clone, Copy)]
pub struct Header {
    pub info: FontInfo,
    pub font_type: FontType,
}

impl Header {
    ghost use Rattle.pcl_fonts.specs.Table.{font_in_header};

    /// Reads a header, none where it isn't one that the profile takes, on pages of this resolution.
    pub fn read(bytes: &[u8], profile: Profile, dpi: Dpi) -> Option<Header>
        ensures { MatchOption result (is_header profile dpi bytes.now ≡ false)
            (λ header. (is_header profile dpi bytes.now ≡ true) × (font_in_header header ≡ defined_font bytes.now)) }
    {
        if !is_header(bytes, profile, dpi) {
            return None;
        }
        Some(Header {
            info: FontInfo {
                proportional: bytes[13] == 1,
                pitch: word(bytes, 16),
                resolution: resolution_of(bytes),
            },
            font_type: match bytes[3] {
                0 => FontType::SevenBit,
                1 => FontType::EightBit,
                _ => FontType::EveryCode,
            },
        })
    }

    /// Whether data are a header of a format.
    fn has_format(bytes: &[u8], format: Format) -> bool
        requires { 64 ≤ format.least }
        ensures header { result ≡ has_format format.number format.least bytes.now }
        ensures long { IsTrue result → format.least ≤ length bytes.now }
    {
        if bytes.len() < format.least {
            return false;
        }
        let size = usize::from(word(bytes, 0));
        format.least <= size
            && size <= bytes.len()
            && bytes[2] == format.number
            && bytes[3] <= 2
            && bytes[12] == 0
            && bytes[13] <= 1
    }
}

/// Whether a profile takes data as a header, on pages of this resolution.
fn is_header(bytes: &[u8], profile: Profile, dpi: Dpi) -> bool
    ensures header { result ≡ is_header profile dpi bytes.now }
    ensures long { IsTrue result → 64 ≤ length bytes.now }
    ensures stated { IsTrue result → has_byte bytes.now 2 20 ≡ true → 68 ≤ length bytes.now }
{
    let is_plain = Header::has_format(bytes, PLAIN);
    match profile {
        Profile::Stated => is_plain,
        Profile::Drivers => {
            is_plain
                || (Header::has_format(bytes, WITH_RESOLUTION) && states_resolution(bytes, dpi))
        }
    }
}

/// Whether a header states one resolution, which is 300 dots per inch or that of the pages.
fn states_resolution(bytes: &[u8], dpi: Dpi) -> bool
    requires { 68 ≤ length bytes.now }
    ensures { result ≡ states_resolution dpi bytes.now }
{
    let dots = word(bytes, 64);
    dots == word(bytes, 66) && (dots == 300 || u32::from(dots) == dpi.dots())
}

/// The resolution of a font's dots, by its header.
fn resolution_of(bytes: &[u8]) -> Dpi
    requires long { 64 ≤ length bytes.now }
    requires stated { has_byte bytes.now 2 20 ≡ true → 68 ≤ length bytes.now }
    ensures { result ≡ resolution_of bytes.now }
{
    if bytes[2] == WITH_RESOLUTION.number && word(bytes, 64) == 600 {
        Dpi::Dpi600
    } else {
        Dpi::Dpi300
    }
}

/// A quarter of a font's dot, in units of 1/7200 inch.
fn quarter_dot(resolution: Dpi) -> u32
    ensures { result ≡ quarter_dot resolution }
{
    resolution.unit() / 4
}
