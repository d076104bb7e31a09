//! The start of a page text: all that stands before its body.

ghost use Rattle.std.specs.Prelude.{◌≡◌, ◌++◌, ◌∷◌, codes, decimal};
ghost use Rattle.pcl_base.specs.Dpi.{dots_per_inch};
ghost use Rattle.pcl_base.specs.Size.{page_width};
ghost use Rattle.pcl_check.specs.inner.Reading.{IsStart, raster_start};

use super::parameter::read_decimal;
use pcl_base::{COPIES_LIMIT, Dpi, Size};

/// What the start of a page text says, and the body after it.
#[derive(Clone, Copy)]
pub struct Start<'a> {
    /// How many copies are printed, 1 to 99.
    pub copies: u32,
    /// The size of the page.
    pub size: Size,
    /// What stands after the start.
    pub rest: &'a [u8],
}

/// Reads the start of a page text at a resolution (docs/OUTPUT.md, "Page texts").
pub fn read_start(dpi: Dpi, text: &[u8]) -> Option<Start<'_>>
    ensures { IsStart dpi text.now result }
{
    let (copies, rest) = read_decimal(text.strip_prefix(b"\x1b&l")?, b'x')?;
    let (code, rest) = read_decimal(rest, b'a')?;
    let size = Size::from_code(code)?;
    let rest = rest.strip_prefix(raster_start(size, dpi))?;
    if copies == 0 || copies > u32::from(COPIES_LIMIT) {
        return None;
    }
    Some(Start { copies, size, rest })
}

/// What stands between the letter after a size's number and the body.
fn raster_start(size: Size, dpi: Dpi) -> &'static [u8]
    ensures { result.now ≡ raster_start size dpi }
{
    match (size, dpi) {
        (Size::Executive, Dpi::Dpi300) => b"0E\x1b*p0x0Y\x1b*t300R\x1b*r2025s0A",
        (Size::Letter, Dpi::Dpi300) => b"0E\x1b*p0x0Y\x1b*t300R\x1b*r2400s0A",
        (Size::Legal, Dpi::Dpi300) => b"0E\x1b*p0x0Y\x1b*t300R\x1b*r2400s0A",
        (Size::A4, Dpi::Dpi300) => b"0E\x1b*p0x0Y\x1b*t300R\x1b*r2338s0A",
        (Size::Executive, Dpi::Dpi600) => b"0E\x1b*p0x0Y\x1b*t600R\x1b*r4050s0A",
        (Size::Letter, Dpi::Dpi600) => b"0E\x1b*p0x0Y\x1b*t600R\x1b*r4800s0A",
        (Size::Legal, Dpi::Dpi600) => b"0E\x1b*p0x0Y\x1b*t600R\x1b*r4800s0A",
        (Size::A4, Dpi::Dpi600) => b"0E\x1b*p0x0Y\x1b*t600R\x1b*r4676s0A",
    }
}
