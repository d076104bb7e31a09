//! The lengths that rows are counted with where the steps of a page are tested.

ghost use Rattle.std.specs.Prelude.{◌≡◌, ℕ, ◌<◌, ◌≤◌};
ghost use Rattle.pcl_base.specs.Limits.{data_limit};
ghost use Rattle.pcl_base.specs.declared.method.Method.{Method as RowMethod};
ghost use Rattle.pcl_base.specs.Size.{page_height, page_row_bytes};
ghost use Rattle.pcl_bitmap.specs.declared.page.Page.{Page as PageModel};
ghost use Rattle.pcl_output.specs.PageText.{bitmap_rows};
ghost use Rattle.pcl_check.specs.Edges.{IsLeastOfRow};

use pcl_base::{Method, ROW_LIMIT};
use pcl_bitmap::Page;
use pcl_coders::RowCoder;
use pcl_output::row_above;

/// What the rows of a page are counted with: a length for each row and each method.
pub trait RowLengths {
    /// Whether the rows of a page have lengths.
    ghost covers: { Self → PageModel → Type 0 };

    /// Whether a row of a page is counted with a length in a method.
    ghost counts: { Self → PageModel → ℕ → RowMethod → ℕ → Type 0 };

    /// The length that a row is counted with in a method, in bytes. There is one such length.
    fn length(&self, page: &Page, row: u32, method: Method) -> u32
        requires covered { covers self.now page.now }
        requires row { row < page_height page.now.size page.now.dpi }
        ensures counts { counts self.now page.now row method result }
        ensures alone { (bytes : ℕ) → counts self.now page.now row method bytes → bytes ≡ result }
        ensures small { result ≤ data_limit };
}

/// The least lengths of row data, as the coders give them.
#[derive(Clone, Copy, Debug)]
pub struct LeastByCoders;

impl RowLengths for LeastByCoders {
    ghost covers = { λ _ _. Unit {0} };

    ghost counts = { λ _ page. IsLeastOfRow (page_row_bytes page.size page.dpi) (bitmap_rows page.bitmap) };

    fn length(&self, page: &Page, row: u32, method: Method) -> u32 {
        let zeros = [0; ROW_LIMIT];
        let seed = row_above(&page.bitmap, row, &zeros);
        method.least(page.bitmap.row(row), seed) as u32
    }
}
