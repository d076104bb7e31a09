//! The rows of a bitmap, as page texts send them.

ghost use Rattle.std.specs.Prelude.{◌≡◌, ◌<◌, length, replicate};
ghost use Rattle.pcl_base.specs.Limits.{row_limit};
ghost use Rattle.pcl_base.specs.Size.{page_height, page_row_bytes};
ghost use Rattle.pcl_output.specs.Nodes.{row_above};
ghost use Rattle.pcl_output.specs.PageText.{bitmap_rows};

use pcl_bitmap::Bitmap;

/// The row above row `y`, zeros above the topmost one: the seed row of row `y`. `zeros` are as many as the longest row has
/// bytes, `ROW_LIMIT`.
pub fn row_above<'a>(bitmap: &'a Bitmap, y: u32, zeros: &'a [u8]) -> &'a [u8]
    requires row { y < page_height bitmap.now.size bitmap.now.dpi }
    requires zeros { zeros.now ≡ replicate row_limit 0 }
    ensures row { result.now ≡ row_above (page_row_bytes bitmap.now.size bitmap.now.dpi) (bitmap_rows bitmap.now) y }
    ensures len { length result.now ≡ page_row_bytes bitmap.now.size bitmap.now.dpi }
{
    if y > 0 {
        bitmap.row(y - 1)
    } else {
        &zeros[..bitmap.size().row_bytes(bitmap.dpi())]
    }
}
