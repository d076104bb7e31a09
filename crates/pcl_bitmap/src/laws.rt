//! Laws of pictures.

ghost use Rattle.std.specs.Prelude.{◌≡◌, ℕ, ◌<◌};
ghost use Rattle.pcl_base.specs.Size.{page_width, page_height};
ghost use Rattle.pcl_bitmap.specs.Bitmap.{Picture, IsPicture, dot};

/// Bitmaps of one size and resolution whose dots agree on the page are the same. A law: the call does
/// nothing.
pub fn same_dots_same_bitmap()
    ensures { (p q : Picture) → IsPicture p → IsPicture q → p.size ≡ q.size → p.dpi ≡ q.dpi
        → ((x y : ℕ) → x < page_width p.size p.dpi → y < page_height p.size p.dpi → dot p x y ≡ dot q x y)
        → p ≡ q }
{}
