//! The rows that a plan is made for.

ghost use Rattle.std.specs.Prelude.{◌≡◌, ◌+◌, ◌*◌, ◌<◌, ◌≤◌, ◌↔◌, length, replicate, IsTrue};
ghost use Rattle.pcl_base.specs.Limits.{row_limit};
ghost use Rattle.pcl_output.specs.Tokens.{IsWhite};
ghost use Rattle.pcl_output.specs.Nodes.{row_at, row_above};

use pcl_bitmap::trimmed_len;

/// Rows of one length, the bytes of one after those of the other. There may be fewer than a page has.
#[derive(Clone, Copy)]
pub struct Rows<'a> {
    pub bytes: &'a [u8],
    pub width: usize,
    pub count: u32,
    ghost whole: { length bytes.now ≡ count * width },
    ghost small: { width ≤ row_limit },
    ghost few: { count ≤ 9999 },
}

impl<'a> Rows<'a> {
    ghost use Rattle.pcl_plan.specs.inner.Rows.{rows_of};
    ghost use Rattle.pcl_output.specs.inner.WhiteRows.{IsWhiteRun};

    /// Row `y`, the topmost row 0.
    pub fn row(&self, y: u32) -> &[u8]
        requires { y < self.now.count }
        ensures row { result.now ≡ row_at (rows_of self.now) y }
        ensures len { length result.now ≡ self.now.width }
    {
        let start = y as usize * self.width;
        &self.bytes[start..start + self.width]
    }

    /// The row above row `y`: the topmost one has zeros above it.
    pub fn row_above<'b>(&'b self, y: u32, zeros: &'b [u8]) -> &'b [u8]
        requires row { y < self.now.count }
        requires zeros { zeros.now ≡ replicate row_limit 0 }
        ensures row { result.now ≡ row_above self.now.width (rows_of self.now) y }
        ensures len { length result.now ≡ self.now.width }
    {
        if y > 0 {
            self.row(y - 1)
        } else {
            &zeros[..self.width]
        }
    }

    /// Whether row `y` is white.
    pub fn is_white(&self, y: u32) -> bool
        requires { y < self.now.count }
        ensures { IsTrue result ↔ IsWhite (row_at (rows_of self.now) y) }
    {
        trimmed_len(self.row(y)) == 0
    }

    /// How many rows are white from row `y` on.
    pub fn white_run(&self, y: u32) -> u32
        requires { y ≤ self.now.count }
        ensures run { IsWhiteRun (rows_of self.now) y result }
        ensures within { y + result ≤ self.now.count }
    {
        let mut run = 0;
        while y + run < self.count && self.is_white(y + run) {
            run += 1;
        }
        run
    }
}
