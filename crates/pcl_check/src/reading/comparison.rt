//! The page that a text is read beside, and the rows of the size that the text says.

ghost use Rattle.std.specs.Prelude.{◌≡◌, ℕ, ◌+◌, ◌*◌, ◌^◌, ◌<◌, ◌≤◌, ◌↔◌, false, [], ◌∷◌, length, take, drop, replicate, IsTrue};
ghost use Rattle.pcl_base.specs.Size.{page_width, page_height, page_row_bytes};
ghost use Rattle.pcl_bitmap.specs.Bitmap.{dot_of_row};
ghost use Rattle.pcl_output.specs.PageText.{bitmap_rows};

use pcl_base::Size;
use pcl_bitmap::Bitmap;

/// A page's dots, and the size that a text says, which may be another.
#[derive(Clone, Copy)]
pub struct Comparison<'a> {
    /// The dots of the page.
    pub bitmap: &'a Bitmap,
    /// The size that the text says.
    pub size: Size,
}

impl Comparison<'_> {
    /// How many rows the text's page has.
    pub fn height(&self) -> u32
        ensures { result ≡ page_height self.now.size self.now.bitmap.now.dpi }
    {
        self.size.height(self.bitmap.dpi())
    }

    /// The bytes of a row of the text's page.
    pub fn row_bytes(&self) -> usize
        ensures { result ≡ page_row_bytes self.now.size self.now.bitmap.now.dpi }
    {
        self.size.row_bytes(self.bitmap.dpi())
    }

    /// Whether a row of the text's page has no dot past its width.
    pub fn has_clear_pads(&self, row: &[u8]) -> bool
        requires { length row.now ≡ page_row_bytes self.now.size self.now.bitmap.now.dpi }
        ensures { IsTrue result
            ↔ ((x : ℕ) → page_width self.now.size self.now.bitmap.now.dpi ≤ x → dot_of_row row.now x ≡ false) }
    {
        let width = self.size.width(self.bitmap.dpi()) as usize;
        for x in width..8 * row.len() {
            if is_black(row, x) {
                return false;
            }
        }
        true
    }

    /// Whether a row is the page's row `y`. A row of another length isn't, nor is one that the page doesn't have.
    pub fn has_row(&self, y: u32, row: &[u8]) -> bool
        ensures { IsTrue result ↔ (row.now ∷ [] ≡ take 1 (drop y (bitmap_rows self.now.bitmap.now))) }
    {
        y < self.page_height() && self.bitmap.row(y) == row
    }

    /// Whether this many white rows of the text's page are those of the page from row `y` on.
    pub fn has_white_rows(&self, y: u32, count: u32) -> bool
        requires { y + count < 2 ^ 32 }
        ensures { IsTrue result
            ↔ (replicate count (replicate (page_row_bytes self.now.size self.now.bitmap.now.dpi) 0)
            ≡ take count (drop y (bitmap_rows self.now.bitmap.now))) }
    {
        for row in y..y + count {
            if !self.has_white_row(row) {
                return false;
            }
        }
        true
    }

    /// Whether a white row of the text's page is the page's row `y`.
    fn has_white_row(&self, y: u32) -> bool
        ensures { IsTrue result
            ↔ (replicate (page_row_bytes self.now.size self.now.bitmap.now.dpi) 0 ∷ []
            ≡ take 1 (drop y (bitmap_rows self.now.bitmap.now))) }
    {
        if y >= self.page_height() {
            return false;
        }
        self.bitmap.row(y).len() == self.row_bytes() && self.bitmap.is_blank(y)
    }

    /// How many rows the page has.
    fn page_height(&self) -> u32
        ensures { result ≡ page_height self.now.bitmap.now.size self.now.bitmap.now.dpi }
    {
        self.bitmap.size().height(self.bitmap.dpi())
    }
}

/// Whether dot `x` of a row is black, the left dot of each byte in its highest bit.
fn is_black(row: &[u8], x: usize) -> bool
    requires { x < 8 * length row.now }
    ensures { result ≡ dot_of_row row.now x }
{
    (row[x / 8] >> (7 - x % 8)) % 2 == 1
}
