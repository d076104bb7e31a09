//! The page sizes.

ghost use Rattle.std.specs.Prelude.{◌≡◌};
ghost use Rattle.pcl_base.specs.Size.{code_of, size_with_code, size_name, page_width, page_height, page_row_bytes, units_wide, units_high};

use crate::Dpi;
use crate::limits::DOT_UNITS;

/// A size of page, in portrait. All of the logical page can be printed (docs/LANGUAGE.md, "Page sizes").
#[derive(Clone, Copy, Debug, PartialEq, Eq)]
pub enum Size {
    Executive,
    Letter,
    Legal,
    A4,
}

impl Size {
    /// All sizes.
    pub const ALL: [Size; 4] = [Size::Executive, Size::Letter, Size::Legal, Size::A4];

    /// The size that a page size command asks for by its number.
    pub fn from_code(code: u32) -> Option<Size>
        ensures { result ≡ size_with_code code }
    {
        match code {
            1 => Some(Size::Executive),
            2 => Some(Size::Letter),
            3 => Some(Size::Legal),
            26 => Some(Size::A4),
            _ => None,
        }
    }

    /// The number by which a page size command asks for the size.
    pub fn code(self) -> u32
        ensures { result ≡ code_of self }
    {
        match self {
            Size::Executive => 1,
            Size::Letter => 2,
            Size::Legal => 3,
            Size::A4 => 26,
        }
    }

    /// The name of the size, as messages print it.
    pub fn name(self) -> &'static str
        ensures { result.now ≡ size_name self }
    {
        match self {
            Size::Executive => "Executive",
            Size::Letter => "Letter",
            Size::Legal => "Legal",
            Size::A4 => "A4",
        }
    }

    /// The width of the page in dots.
    pub fn width(self, dpi: Dpi) -> u32
        ensures { result ≡ page_width self dpi }
    {
        let at_300 = match self {
            Size::Executive => 2025,
            Size::Letter | Size::Legal => 2400,
            Size::A4 => 2338,
        };
        at_300 * (dpi.dots() / 300)
    }

    /// The height of the page in dots.
    pub fn height(self, dpi: Dpi) -> u32
        ensures { result ≡ page_height self dpi }
    {
        let at_300 = match self {
            Size::Executive => 3150,
            Size::Letter => 3300,
            Size::Legal => 4200,
            Size::A4 => 3507,
        };
        at_300 * (dpi.dots() / 300)
    }

    /// The width of the page in units of 1/7200 inch, at either resolution.
    pub fn units_wide(self) -> u32
        ensures { result ≡ units_wide self }
    {
        self.width(Dpi::Dpi300) * DOT_UNITS
    }

    /// The height of the page in units of 1/7200 inch, at either resolution.
    pub fn units_high(self) -> u32
        ensures { result ≡ units_high self }
    {
        self.height(Dpi::Dpi300) * DOT_UNITS
    }

    /// The bytes of a row of the page. Eight dots make a byte, the last perhaps partly used.
    pub fn row_bytes(self, dpi: Dpi) -> usize
        ensures { result ≡ page_row_bytes self dpi }
    {
        self.width(dpi).div_ceil(8) as usize
    }
}
