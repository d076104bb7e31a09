//! Parts of lines.

ghost use Rattle.std.specs.Prelude.{◌≡◌, ◌++◌, OnOk};
ghost use Rattle.pcl_messages.specs.Texts.{labelled_number, subject_text};

use itoa::Buffer;
use std::alloc::AllocError;

/// Appends a label and a number in decimal.
pub(crate) fn append_labelled(
    label: &[u8],
    number: usize,
    line: &mut Vec<u8>,
) -> Result<(), AllocError>
    ensures { OnOk result (line.new.items ≡ line.old.items ++ labelled_number label.now number) }
{
    line.extend_from_slice(label)?;
    line.extend_from_slice(Buffer::new().format(number).as_bytes())
}

/// Appends the page or the exit of a number, of which something is said then.
pub(crate) fn append_subject(
    label: &[u8],
    number: usize,
    line: &mut Vec<u8>,
) -> Result<(), AllocError>
    ensures { OnOk result (line.new.items ≡ line.old.items ++ subject_text label.now number) }
{
    line.extend_from_slice(label)?;
    line.extend_from_slice(Buffer::new().format(number).as_bytes())?;
    line.extend_from_slice(b": ")
}
