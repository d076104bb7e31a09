//! Rows counted with the first numbers of their row tables.

ghost use Rattle.std.specs.Prelude.{◌≡◌, ◌*◌, length};
ghost use Rattle.pcl_base.specs.Size.{page_height};
ghost use Rattle.pcl_cert.specs.RowTables.{number_at_place};

use crate::tables::RowTables;
use pcl_base::Method;
use pcl_bitmap::Page;
use pcl_check::RowLengths;

/// The first numbers of the row tables of a page.
#[derive(Clone, Copy, Debug)]
pub struct ByRowTables<'t, 'a> {
    pub tables: &'t RowTables<'a>,
}

impl RowLengths for ByRowTables<'_, '_> {
    ghost covers = { λ self page. length self.tables.now ≡ 4 * page_height page.size page.dpi };

    ghost counts = { λ self page row method bytes. bytes ≡ number_at_place self.tables.now row method 0 };

    fn length(&self, _page: &Page, row: u32, method: Method) -> u32 {
        u32::from(self.tables.number(row, method, 0))
    }
}
