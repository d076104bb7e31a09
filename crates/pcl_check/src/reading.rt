//! What a text is, beside a page: a reader of page texts over the output grammar (docs/OUTPUT.md). It decodes row by row
//! and compares each row with the page's as it goes. It holds a row and the row above it, and takes no memory.

mod body;
mod comparison;
mod parameter;
mod start;

ghost use Rattle.pcl_check.specs.TextVerdicts.{IsTextVerdict};

use body::read_body;
use comparison::Comparison;
use pcl_bitmap::Page;
use start::read_start;

/// What a text is, beside a page.
#[derive(Clone, Copy, Debug, PartialEq, Eq)]
pub enum TextVerdict {
    /// It is no page text at the page's resolution.
    NotGrammar,
    /// It is a page text, and prints another page.
    OtherPage,
    /// It prints the page.
    Prints,
}

/// Whether a text is a page text at a page's resolution, and prints the page (docs/OUTPUT.md). It takes no
/// memory, and its time grows with the bytes of the text and the rows of the page.
pub fn read_page_text(page: &Page, text: &[u8]) -> TextVerdict
    ensures { IsTextVerdict page.now text.now result }
{
    let Some(start) = read_start(page.dpi, text) else {
        return TextVerdict::NotGrammar;
    };
    let comparison = Comparison {
        bitmap: &page.bitmap,
        size: start.size,
    };
    let is_same = start.size == page.size && start.copies == u32::from(page.copies);
    match read_body(comparison, start.rest, is_same) {
        None => TextVerdict::NotGrammar,
        Some(false) => TextVerdict::OtherPage,
        Some(true) => TextVerdict::Prints,
    }
}
