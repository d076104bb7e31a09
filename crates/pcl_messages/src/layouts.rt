//! What is said on standard output of jobs that were checked or compared.

ghost use Rattle.std.specs.Prelude.{IfOk, ◌≡◌};
ghost use Rattle.pcl_messages.specs.Layouts.{laid_out, truth_text};

use pcl_request::Layout;
use std::alloc::{AllocError, Global};

/// A text in a layout: as a line, or as the `line` of an object of JSON in which a member of this name says whether it holds.
pub(crate) fn laid_out(
    alloc: Global,
    layout: Layout,
    name: &[u8],
    holds: bool,
    text: &[u8],
) -> Result<Vec<u8>, AllocError>
    ensures { IfOk result (λ said. said.items ≡ laid_out layout name.now holds text.now) }
{
    let mut said = Vec::new(alloc);
    match layout {
        Layout::Text => {
            said.extend_from_slice(text)?;
            said.extend_from_slice(b"\n")?;
        }
        Layout::Json => {
            said.extend_from_slice(b"{\"")?;
            said.extend_from_slice(name)?;
            said.extend_from_slice(b"\":")?;
            said.extend_from_slice(truth_text(holds))?;
            said.extend_from_slice(b",\"line\":\"")?;
            said.extend_from_slice(text)?;
            said.extend_from_slice(b"\"}\n")?;
        }
    }
    Ok(said)
}

/// Yes or no, as JSON has them.
fn truth_text(holds: bool) -> &'static [u8]
    ensures { result.now ≡ truth_text holds }
{
    if holds { b"true" } else { b"false" }
}
