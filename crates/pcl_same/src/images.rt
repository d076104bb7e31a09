//! The dots at which two pages differ.

ghost use Rattle.std.specs.Prelude.{◌≡◌, ℕ, length, IfOk};
ghost use Rattle.pcl_bitmap.specs.Bitmap.{dot_of_row};
ghost use Rattle.pcl_same.specs.DifferingDots.{differ, IsDifference};

use pcl_base::ROW_LIMIT;
use pcl_bitmap::Bitmap;
use std::alloc::{AllocError, Global};

/// An image of two bitmaps of one size and resolution, black where they differ. It fails where memory runs out.
pub fn differing_dots(alloc: Global, one: &Bitmap, other: &Bitmap) -> Result<Bitmap, AllocError>
    requires size { one.now.size ≡ other.now.size }
    requires dpi { one.now.dpi ≡ other.now.dpi }
    ensures { IfOk result (IsDifference one.now other.now) }
{
    let size = one.size();
    let dpi = one.dpi();
    let mut image = Bitmap::new(alloc, size, dpi)?;
    let mut buffer = [0; ROW_LIMIT];
    for y in 0..size.height(dpi) {
        let bits = &mut buffer[..size.row_bytes(dpi)];
        differing_bits(one.row(y), other.row(y), bits);
        image.paint_row(0, u64::from(y), 1, size.width(dpi), bits);
    }
    Ok(image)
}

/// Sets the bits at which two rows differ, and clears all others.
fn differing_bits(one: &[u8], other: &[u8], bits: &mut [u8])
    requires other { length other.now ≡ length one.now }
    requires bits { length bits.old ≡ length one.now }
    ensures len { length bits.new ≡ length one.now }
    ensures bits { (x : ℕ) → dot_of_row bits.new x ≡ differ (dot_of_row one.now x) (dot_of_row other.now x) }
{
    for place in 0..bits.len() {
        bits[place] = one[place] ^ other[place];
    }
}
