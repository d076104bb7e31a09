//! What a job asks of the printer, written again.

ghost use Rattle.std.specs.Prelude.{◌≡◌, ◌++◌, ◌∷◌, ◌-◌, [], codes, drop, OnOk, IfOk, if◌then◌else◌};
ghost use Rattle.pcl_output.specs.Tokens.{frame_bytes};
ghost use Rattle.std.specs.Option.{option_map};
ghost use Rattle.std.specs.Fmt.{signed_decimal};
ghost use Rattle.pcl_env.specs.Offset.{offset_text};
ghost use Rattle.pcl_env.specs.Settings.{nothing_asked};
ghost use Rattle.pcl_page.specs.Asks.{asks_of, exit_of};
ghost use Rattle.pcl_shrink.specs.Asking.{
  exit_with_lines,
  exits_after,
  is_exit_after,
  value_text,
  offset_command,
  asked_text,
  paper_text,
  quality_text,
  offsets_text,
  parameter_text,
  lines_of,
  usual_start,
  start_as_said,
  is_usual,
  fitted,
  is_new,
  new_value,
  part_to_say,
  still_asked,
  as_said,
  asked_at,
  page_start,
  is_reset_before,
  job_end,
};

use itoa::Buffer;
use pcl_env::{Asked, append_offset};
use pcl_output::RESET;
use pcl_page::{AskedPage, Asks, Exit, PageStart};
use std::alloc::AllocError;

/// Ends a job in the printer's job language, and begins another ("Universal Exit Language").
const UNIVERSAL_EXIT: &[u8] = b"\x1b%-12345X";

/// A line of the default spacing, six to the inch, in units of 1/7200 inch.
const LINE: i64 = 1_200;

/// Appends what stands before the text of the page of this number, from 0, after all that stands before the text of the page
/// before it: the universal exits there with their lines, a reset where the page is the first since one and no exit stands there, and
/// what the page is asked with as far as it isn't asked already. Says whether anything of this puts the printer back to its defaults.
pub fn append_page_start(
    asks: &Asks<'_>,
    page: usize,
    out: &mut Vec<u8>,
) -> Result<bool, AllocError>
    ensures text { OnOk result (out.new.items ≡ out.old.items ++ page_start (asks_of asks.now) page) }
    ensures reset { IfOk result (λ is_reset. is_reset ≡ is_reset_before (asks_of asks.now) page) }
{
    let asked = asked_at(asks, page);
    let is_left = append_exits(asks, page, out)?;
    let is_reset = page == 0 || (is_left || asked.start.is_first);
    append_reset(page == 0 || (!is_left && asked.start.is_first), out)?;
    let already = asked_already(asks, page, is_reset);
    append_asked(still_asked(asked.start, already), asked.said, out)?;
    append_value(b"\x1b&a", None, asked.start.sheet_side, b"G", out)?;
    append_offsets(already, asked.said, out)?;
    Ok(is_reset)
}

/// Appends what stands after the last of this many pages: what separates the job from the next, and the universal exits there, or a reset.
pub fn append_end(asks: &Asks<'_>, pages: usize, out: &mut Vec<u8>) -> Result<(), AllocError>
    ensures { OnOk result (out.new.items ≡ out.old.items ++ job_end (asks_of asks.now) pages) }
{
    if pages == 0 {
        append_exits(asks, 0, out)?;
        out.extend_from_slice(RESET)?;
        return out.extend_from_slice(RESET);
    }
    append_value(b"\x1b&l", None, asks.separation, b"T", out)?;
    let is_left = append_exits(asks, pages, out)?;
    append_reset(!is_left, out)
}

/// What the page of a number, from 0, is asked with.
fn asked_at(asks: &Asks<'_>, page: usize) -> AskedPage
    ensures { result ≡ asked_at (asks_of asks.now) page }
{
    match asks.pages.get(page) {
        Some(asked) => *asked,
        None => AskedPage {
            said: Asked::NOTHING,
            start: PageStart::NEXT,
        },
    }
}

/// Whether something puts the printer back to its defaults before the page of a number, from 0.
fn is_reset_before(asks: &Asks<'_>, page: usize) -> bool
    ensures { result ≡ is_reset_before (asks_of asks.now) page }
{
    page == 0 || (has_exit(asks, page) || asked_at(asks, page).start.is_first)
}

/// Whether a universal exit stands after this many pages.
pub fn has_exit(asks: &Asks<'_>, pages: usize) -> bool
    ensures { result ≡ is_exit_after pages (asks_of asks.now).exits }
{
    asks.exits.iter().any(|exit| exit.pages as usize == pages)
}

/// What of this needn't be said before a page that starts so: not sides and a source that were said after the page before.
fn still_asked(start: PageStart, already: Asked) -> Asked
    ensures { result ≡ still_asked start already }
{
    Asked {
        sides: if start.sides.is_some() {
            None
        } else {
            already.sides
        },
        paper_source: if start.source.is_some() {
            None
        } else {
            already.paper_source
        },
        ..already
    }
}

/// What is asked for already before the page of a number: nothing where the printer is put back to its defaults there.
fn asked_already(asks: &Asks<'_>, page: usize, is_reset: bool) -> Asked
    ensures { result ≡ (if is_reset then nothing_asked else (asked_at (asks_of asks.now) (page - 1)).said) }
{
    if is_reset {
        return Asked::NOTHING;
    }
    asked_at(asks, page.saturating_sub(1)).said
}

/// Appends the universal exits that stand after this many pages, and says whether there is one.
fn append_exits(asks: &Asks<'_>, pages: usize, out: &mut Vec<u8>) -> Result<bool, AllocError>
    ensures text { OnOk result (out.new.items ≡ out.old.items ++ exits_after pages (asks_of asks.now).exits) }
    ensures found { IfOk result (λ found. found ≡ is_exit_after pages (asks_of asks.now).exits) }
{
    let mut found = false;
    for exit in asks.exits.iter() {
        if exit.pages as usize == pages {
            append_exit(exit, out)?;
            found = true;
        }
    }
    Ok(found)
}

/// Appends a universal exit with its lines, after a reset where one stands before it.
fn append_exit(exit: &Exit<'_>, out: &mut Vec<u8>) -> Result<(), AllocError>
    ensures { OnOk result (out.new.items ≡ out.old.items ++ exit_with_lines (exit_of exit.now)) }
{
    append_reset(exit.is_reset, out)?;
    out.extend_from_slice(UNIVERSAL_EXIT)?;
    out.extend_from_slice(exit.lines)
}

/// Appends a reset, where it is wanted.
fn append_reset(is_wanted: bool, out: &mut Vec<u8>) -> Result<(), AllocError>
    ensures { OnOk result (out.new.items ≡ out.old.items ++ (if is_wanted then frame_bytes else [])) }
{
    if is_wanted {
        return out.extend_from_slice(RESET);
    }
    Ok(())
}

/// Appends what asks for anything but the side of the sheet and offsets, as far as it isn't asked for already.
fn append_asked(old: Asked, new: Asked, out: &mut Vec<u8>) -> Result<(), AllocError>
    ensures { OnOk result (out.new.items ≡ out.old.items ++ asked_text old new) }
{
    append_paper(old, new, out)?;
    append_quality(old, new, out)
}

/// Appends what asks for a text scale and qualities of printing, as far as they aren't asked for already.
fn append_quality(old: Asked, new: Asked, out: &mut Vec<u8>) -> Result<(), AllocError>
    ensures { OnOk result (out.new.items ≡ out.old.items ++ quality_text old new) }
{
    append_value(b"\x1b&k", old.text_scale, new.text_scale, b"W", out)?;
    append_value(b"\x1b*o", old.print_quality, new.print_quality, b"M", out)?;
    append_value(b"\x1b*o", old.shingling, new.shingling, b"Q", out)?;
    append_value(b"\x1b*o", old.depletion, new.depletion, b"D", out)?;
    append_value(b"\x1b*r", old.raster_quality, new.raster_quality, b"Q", out)
}

/// Appends what asks for an orientation, sides, bins, media and sources, as far as they aren't asked for already.
fn append_paper(old: Asked, new: Asked, out: &mut Vec<u8>) -> Result<(), AllocError>
    ensures { OnOk result (out.new.items ≡ out.old.items ++ paper_text old new) }
{
    append_value(b"\x1b&l", old.orientation, new.orientation, b"O", out)?;
    append_value(b"\x1b&l", old.sides, new.sides, b"S", out)?;
    append_value(b"\x1b&l", old.output_bin, new.output_bin, b"G", out)?;
    append_value(b"\x1b&l", old.media_type, new.media_type, b"M", out)?;
    append_value(b"\x1b&l", old.paper_source, new.paper_source, b"H", out)
}

/// Appends what asks for offsets of the page, as far as they aren't asked for already.
fn append_offsets(old: Asked, new: Asked, out: &mut Vec<u8>) -> Result<(), AllocError>
    ensures { OnOk result (out.new.items ≡ out.old.items ++ offsets_text old new) }
{
    append_new_offset(old.left_offset, new.left_offset, b"U", out)?;
    append_new_offset(old.top_offset, new.top_offset, b"Z", out)
}

/// Appends a command with a value, where that is another than before.
fn append_value(
    start: &[u8],
    old: Option<i64>,
    new: Option<i64>,
    letter: &[u8],
    out: &mut Vec<u8>,
) -> Result<(), AllocError>
    ensures { OnOk result (out.new.items ≡ out.old.items ++ value_text start.now letter.now old new) }
{
    match (old, new) {
        (_, None) => Ok(()),
        (None, Some(value)) => append_command(start, value, letter, out),
        (Some(before), Some(value)) => {
            if before == value {
                return Ok(());
            }
            append_command(start, value, letter, out)
        }
    }
}

/// Appends a command with an offset, where that is another than before.
fn append_new_offset(
    old: Option<i64>,
    new: Option<i64>,
    letter: &[u8],
    out: &mut Vec<u8>,
) -> Result<(), AllocError>
    ensures { OnOk result (out.new.items ≡ out.old.items ++ offset_command letter.now old new) }
{
    match (old, new) {
        (_, None) => Ok(()),
        (None, Some(offset)) => append_offset_command(offset, letter, out),
        (Some(before), Some(offset)) => {
            if before == offset {
                return Ok(());
            }
            append_offset_command(offset, letter, out)
        }
    }
}

/// Appends a command with an offset.
fn append_offset_command(offset: i64, letter: &[u8], out: &mut Vec<u8>) -> Result<(), AllocError>
    ensures { OnOk result (out.new.items ≡ out.old.items ++ (27 ∷ codes "&l" ++ offset_text offset ++ letter.now)) }
{
    out.extend_from_slice(b"\x1b&l")?;
    append_offset(offset, out)?;
    out.extend_from_slice(letter)
}

/// Appends a command with a value.
fn append_command(
    start: &[u8],
    value: i64,
    letter: &[u8],
    out: &mut Vec<u8>,
) -> Result<(), AllocError>
    ensures { OnOk result (out.new.items ≡ out.old.items ++ (start.now ++ signed_decimal value ++ letter.now)) }
{
    let mut digits = Buffer::new();
    out.extend_from_slice(start)?;
    out.extend_from_slice(digits.format(value).as_bytes())?;
    out.extend_from_slice(letter)
}

/// Appends a text of the page of this number, from 0, so that it says what was said of it.
pub fn append_page_text(
    asks: &Asks<'_>,
    page: usize,
    text: &[u8],
    out: &mut Vec<u8>,
) -> Result<(), AllocError>
    ensures { OnOk result (out.new.items ≡ out.old.items ++ as_said (asks_of asks.now) page text.now) }
{
    let asked = asked_at(asks, page);
    let already = asked_already(asks, page, is_reset_before(asks, page));
    append_fitted(part_to_say(already, asked), asked.said, text, out)
}

/// Appends a page text of what was said that says a part of that: itself where the part is copies and a size and no length, else with
/// another start.
fn append_fitted(part: Asked, said: Asked, text: &[u8], out: &mut Vec<u8>) -> Result<(), AllocError>
    ensures { OnOk result (out.new.items ≡ out.old.items ++ fitted part said text.now) }
{
    if is_usual(part) {
        return out.extend_from_slice(text);
    }
    let mut usual = Vec::new(*out.allocator());
    append_usual_start(said, &mut usual)?;
    append_start(part, out)?;
    out.extend_from_slice(after(text, usual.len()))
}

/// What the text of a page says of copies and paper where this is asked for already: all of it with a size, else what is another.
fn part_to_say(already: Asked, page: AskedPage) -> Asked
    ensures { result ≡ part_to_say already page }
{
    let said = page.said;
    if page.start.size.is_some() || is_new(already.page_size, said.page_size) {
        return said;
    }
    Asked {
        copies: new_value(already.copies, said.copies),
        page_size: None,
        page_length: new_value(already.page_length, said.page_length),
        ..said
    }
}

/// A value, where it is another than before.
fn new_value(old: Option<i64>, new: Option<i64>) -> Option<i64>
    ensures { result ≡ new_value old new }
{
    if is_new(old, new) { new } else { None }
}

/// Whether a value is another than before.
fn is_new(old: Option<i64>, new: Option<i64>) -> bool
    ensures { result ≡ is_new old new }
{
    match (old, new) {
        (_, None) => false,
        (None, Some(_)) => true,
        (Some(before), Some(value)) => before != value,
    }
}

/// A text after this many of its bytes: nothing where it has fewer.
fn after(text: &[u8], len: usize) -> &[u8]
    ensures { result.now ≡ drop len text.now }
{
    match text.split_at_checked(len) {
        Some((_, rest)) => rest,
        None => &[],
    }
}

/// Whether copies and a size were said, and no page length.
fn is_usual(said: Asked) -> bool
    ensures { result ≡ is_usual said }
{
    said.copies.is_some() && said.page_size.is_some() && said.page_length.is_none()
}

/// Appends the start of a page text of the copies and the size that were said, or else of one copy and Letter.
fn append_usual_start(said: Asked, out: &mut Vec<u8>) -> Result<(), AllocError>
    ensures { OnOk result (out.new.items ≡ out.old.items ++ usual_start said) }
{
    append_command(b"\x1b&l", said.copies.unwrap_or(1), b"x", out)?;
    append_command(b"", said.page_size.unwrap_or(2), b"a0E", out)
}

/// Appends the start of a page text with what was said.
fn append_start(said: Asked, out: &mut Vec<u8>) -> Result<(), AllocError>
    ensures { OnOk result (out.new.items ≡ out.old.items ++ start_as_said said) }
{
    out.extend_from_slice(b"\x1b&l")?;
    append_parameter(said.copies, b"x", out)?;
    append_parameter(said.page_size, b"a", out)?;
    append_parameter(lines_of(said.page_length), b"p", out)?;
    out.extend_from_slice(b"0E")
}

/// The lines of the default spacing that make a page length.
fn lines_of(length: Option<i64>) -> Option<i64>
    ensures { result ≡ option_map lines_of length }
{
    match length {
        Some(length) => Some(length / LINE),
        None => None,
    }
}

/// Appends a parameter of a sequence, where it has a value.
fn append_parameter(value: Option<i64>, letter: &[u8], out: &mut Vec<u8>) -> Result<(), AllocError>
    ensures { OnOk result (out.new.items ≡ out.old.items ++ parameter_text letter.now value) }
{
    match value {
        Some(value) => append_command(b"", value, letter, out),
        None => Ok(()),
    }
}
