//! Images of pages: in Netpbm's raw bitmap form, P4, and in either form.

ghost use Rattle.std.specs.Prelude.{◌≡◌, ◌++◌, IfOk, OnOk, OnErr};
ghost use Rattle.pcl_preview.specs.Image.{header_of, image_of, IsImageWritten};
ghost use Rattle.pcl_preview.specs.PageImages.{image_in};

use crate::form::ImageForm;
use crate::greymap::make_greymap;
use itoa::Buffer;
use pcl_base::{Dpi, Size};
use pcl_bitmap::Bitmap;
use pcl_streams::{Fault, write_all, write_bytes};
use std::alloc::{AllocError, Global};
use std::io::Write;

/// Writes a page as an image, the header and then all rows, and flushes. Memory can run out only before
/// anything is written.
pub fn write_image<W: Write>(alloc: Global, bitmap: &Bitmap, out: &mut W) -> Result<(), Fault>
    ensures { IsImageWritten (W.contents out.old) (W.contents out.new) bitmap.now result }
{
    let header = header(alloc, bitmap.size(), bitmap.dpi())?;
    write_bytes(out, &header)?;
    write_all(out, bitmap.bytes())
}

/// Appends a page as an image in a form. Where memory runs out nothing is appended.
pub fn append_image_in(
    form: ImageForm,
    bitmap: &Bitmap,
    images: &mut Vec<u8>,
) -> Result<(), AllocError>
    ensures appended { OnOk result (images.new.items ≡ images.old.items ++ image_in form bitmap.now) }
    ensures kept { OnErr result (images.new.items ≡ images.old.items) }
{
    match form {
        ImageForm::Bitmap => append_image(bitmap, images),
        ImageForm::Greymap(scale) => {
            let image = make_greymap(*images.allocator(), bitmap, scale)?;
            images.extend_from_slice(&image)
        }
    }
}

/// Appends a page as a bitmap. Where memory runs out nothing is appended.
fn append_image(bitmap: &Bitmap, images: &mut Vec<u8>) -> Result<(), AllocError>
    ensures appended { OnOk result (images.new.items ≡ images.old.items ++ image_of bitmap.now) }
    ensures kept { OnErr result (images.new.items ≡ images.old.items) }
{
    let header = header(*images.allocator(), bitmap.size(), bitmap.dpi())?;
    let before = images.len();
    images.extend_from_slice(&header)?;
    let appended = images.extend_from_slice(bitmap.bytes());
    if appended.is_err() {
        images.truncate(before);
    }
    appended
}

/// The header of an image: the form, the width and the height in dots.
pub fn header(alloc: Global, size: Size, dpi: Dpi) -> Result<Vec<u8>, AllocError>
    ensures { IfOk result (λ header. header.items ≡ header_of size dpi) }
{
    let mut digits = Buffer::new();
    let mut header = Vec::from_slice(alloc, b"P4\n")?;
    header.extend_from_slice(digits.format(size.width(dpi)).as_bytes())?;
    header.extend_from_slice(b" ")?;
    header.extend_from_slice(digits.format(size.height(dpi)).as_bytes())?;
    header.extend_from_slice(b"\n")?;
    Ok(header)
}
