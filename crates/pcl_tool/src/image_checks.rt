//! A written job checked beside images of its pages, by a certificate from anybody.

ghost use Rattle.pcl_tool.specs.ImageVerdicts.{IsCheckedByImages};

use crate::CheckAnswer;
use crate::checking::check_job_watched;
use pcl_base::{Dpi, Profile};
use pcl_preview::are_images_of;
use pcl_streams::{Fault, Watcher};
use std::alloc::Global;

/// Checks by a certificate that an output prints the pages of PBM images and is a shortest such job text. The images stand one
/// after the other as [`preview_pages`](crate::preview_pages) writes them (docs/CERTIFICATE.md). So whoever has a renderer of his
/// own needs no input. Copies aren't in an image: the output says how many. A refusal is the output's; else it fails only where
/// memory runs out. The watcher is called for each page that is done.
pub fn check_images<P: Watcher>(
    alloc: Global,
    images: &[u8],
    output: &[u8],
    certificate: &[u8],
    dpi: Dpi,
    watcher: P,
) -> Result<CheckAnswer, Fault>
    ensures { IsCheckedByImages dpi images.now output.now certificate.now result }
{
    if !are_images_of(alloc, images, output, Profile::Stated, dpi)? {
        return Ok(CheckAnswer::OtherImages);
    }
    let verdict = check_job_watched(alloc, output, output, certificate, dpi, watcher)?;
    Ok(CheckAnswer::Job(verdict))
}
