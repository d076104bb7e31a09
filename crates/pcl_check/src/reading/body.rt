//! The body of a page text: its sequences, and the rows that they say.

ghost use Rattle.std.specs.Prelude.{◌≡◌, ℕ, ◌≤◌, ◌⊎◌, true, false, List, length};
ghost use Rattle.pcl_base.specs.Limits.{data_limit};
ghost use Rattle.pcl_base.specs.declared.size.Size.{Size};
ghost use Rattle.pcl_base.specs.Size.{page_height, page_row_bytes};
ghost use Rattle.pcl_bitmap.specs.Bitmap.{Picture};
ghost use Rattle.pcl_output.specs.Tokens.{end_bytes};
ghost use Rattle.pcl_check.specs.inner.Reading.{IsParameter, IsStep, IsBodyVerdict, IsPaintedRow};

use super::comparison::Comparison;
use super::parameter::{Parameter, read_parameter};
use pcl_base::{Method, ROW_LIMIT};
use pcl_output::END_PAGE;
use pcl_rows::{decode, is_whole};

/// What opens a sequence.
const OPENING: &[u8] = b"\x1b*b";

/// How far a body is read.
#[derive(Clone, Copy)]
pub struct Place<'a> {
    /// What isn't read.
    pub text: &'a [u8],
    /// How many rows are said.
    pub row: u32,
    /// The method.
    pub method: Method,
    /// Whether a sequence is open.
    pub inside: bool,
    /// Whether the page may be this one, as far as it is read.
    pub is_same: bool,
}

/// Reads a body and the end of its page text, beside a page that may be its own or is surely another: none where the
/// text isn't of the grammar, else whether its rows are the page's.
pub fn read_body(comparison: Comparison<'_>, text: &[u8], is_same: bool) -> Option<bool>
    ensures { IsBodyVerdict comparison.entry.bitmap.now comparison.entry.size text.now is_same result }
{
    let mut space = [0; ROW_LIMIT];
    let above = &mut space[..comparison.row_bytes()];
    let mut place = Place {
        text,
        row: 0,
        method: Method::Plain,
        inside: false,
        is_same,
    };
    while place.inside || place.text != END_PAGE {
        place = step(comparison, place, above)?;
    }
    Some(place.is_same && comparison.has_white_rows(place.row, comparison.height() - place.row))
}

/// Reads a token. `above` is the row above, and becomes the row above what is left.
fn step<'a>(comparison: Comparison<'_>, place: Place<'a>, above: &mut [u8]) -> Option<Place<'a>>
    requires row { place.row ≤ page_height comparison.size comparison.bitmap.now.dpi }
    requires above { length above.old ≡ page_row_bytes comparison.size comparison.bitmap.now.dpi }
    requires goes_on { place.inside ≡ false → place.text.now ≡ end_bytes → ⊥ }
    ensures { IsStep comparison.entry.bitmap.now comparison.entry.size place.entry above.old result above.new }
{
    if !place.inside {
        let text = place.text.strip_prefix(OPENING)?;
        return Some(Place {
            text,
            inside: true,
            ..place
        });
    }
    let parameter = read_parameter(place.text)?;
    match parameter.letter {
        b'm' | b'M' => switch(place, parameter),
        b'y' | b'Y' => skip(comparison, place, parameter, above),
        b'W' => send(comparison, place, parameter, above),
        _ => None,
    }
}

/// Sets the method.
fn switch<'a>(place: Place<'a>, parameter: Parameter<'a>) -> Option<Place<'a>>
    requires inside { place.inside ≡ true }
    requires parameter { IsParameter place.text.now parameter }
    requires letter { (parameter.letter ≡ 77) ⊎ (parameter.letter ≡ 109) }
    ensures { (picture : Picture) (size : Size) (above : List ℕ) → place.entry.row ≤ page_height size picture.dpi
        → IsStep picture size place.entry above result above }
{
    let method = Method::from_code(parameter.number)?;
    Some(Place {
        text: parameter.rest,
        method,
        inside: parameter.letter == b'm',
        ..place
    })
}

/// Skips rows.
fn skip<'a>(
    comparison: Comparison<'_>,
    place: Place<'a>,
    parameter: Parameter<'a>,
    above: &mut [u8],
) -> Option<Place<'a>>
    requires inside { place.inside ≡ true }
    requires parameter { IsParameter place.text.now parameter }
    requires letter { (parameter.letter ≡ 89) ⊎ (parameter.letter ≡ 121) }
    requires row { place.row ≤ page_height comparison.size comparison.bitmap.now.dpi }
    requires above { length above.old ≡ page_row_bytes comparison.size comparison.bitmap.now.dpi }
    ensures { IsStep comparison.entry.bitmap.now comparison.entry.size place.entry above.old result above.new }
{
    let count = parameter.number;
    if count == 0 || count > comparison.height() - place.row {
        return None;
    }
    above.fill(0);
    Some(Place {
        text: parameter.rest,
        row: place.row + count,
        inside: parameter.letter == b'y',
        is_same: place.is_same && comparison.has_white_rows(place.row, count),
        ..place
    })
}

/// Takes the data of a row.
fn send<'a>(
    comparison: Comparison<'_>,
    place: Place<'a>,
    parameter: Parameter<'a>,
    above: &mut [u8],
) -> Option<Place<'a>>
    requires inside { place.inside ≡ true }
    requires parameter { IsParameter place.text.now parameter }
    requires letter { parameter.letter ≡ 87 }
    requires row { place.row ≤ page_height comparison.size comparison.bitmap.now.dpi }
    requires above { length above.old ≡ page_row_bytes comparison.size comparison.bitmap.now.dpi }
    ensures { IsStep comparison.entry.bitmap.now comparison.entry.size place.entry above.old result above.new }
{
    let (bytes, rest) = parameter.split_data()?;
    if place.row == comparison.height() || !paint(comparison, place.method, bytes, above) {
        return None;
    }
    Some(Place {
        text: rest,
        row: place.row + 1,
        inside: false,
        is_same: place.is_same && comparison.has_row(place.row, above),
        ..place
    })
}

/// Makes a row of the row above it, and answers whether its data is whole and its pad bits are clear.
fn paint(comparison: Comparison<'_>, method: Method, bytes: &[u8], above: &mut [u8]) -> bool
    requires above { length above.old ≡ page_row_bytes comparison.size comparison.bitmap.now.dpi }
    requires fits { length bytes.now ≤ data_limit }
    ensures { IsPaintedRow comparison.entry.bitmap.now.dpi comparison.entry.size method above.old bytes.now result above.new }
{
    let mut space = [0; ROW_LIMIT];
    let row = &mut space[..above.len()];
    decode(method, above, bytes, row);
    above.copy_from_slice(row);
    is_whole(method, bytes, above.len()) && comparison.has_clear_pads(above)
}
