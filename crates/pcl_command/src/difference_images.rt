//! Images of the dots in which two jobs differ, each to a file.

ghost use Rattle.std.specs.Prelude.{◌≡◌, ℕ};
ghost use Rattle.pcl_same.specs.Comparing.{IsComparison};
ghost use Rattle.pcl_command.specs.DifferenceImages.{dotted_page, DifferInDots, IsDifferingPage, IsImageMade, IsImageDrawn};

use pcl_base::{Dpi, Profile};
use pcl_bitmap::Bitmap;
use pcl_files::{JobFiles, settle};
use pcl_preview::{page_dots, write_image};
use pcl_same::{Difference, PageComparison, differing_dots, read_by};
use pcl_streams::Fault;
use std::alloc::Global;

/// Two jobs as they were compared, by this widest profile.
#[derive(Clone, Copy)]
pub struct ComparedJobs<'a> {
    pub first: &'a [u8],
    pub second: &'a [u8],
    pub widest: Profile,
    pub dpi: Dpi,
}

/// Makes the file that is asked for, with an image of the dots that differ on the first page that does; none where that page
/// differs in something else. The jobs are read as they were compared.
pub fn draw_difference<F: JobFiles>(
    files: &mut F,
    alloc: Global,
    image: Option<&str>,
    jobs: ComparedJobs<'_>,
    comparison: &PageComparison,
) -> Result<(), Fault>
    requires { IsComparison jobs.widest jobs.dpi jobs.first.now jobs.second.now comparison.now }
    ensures { IsImageDrawn F.acts image.entry jobs.entry.widest jobs.entry.dpi jobs.entry.first.now jobs.entry.second.now comparison.now
        files.old files.new result }
{
    match (image, dotted_page(comparison)) {
        (Some(name), Some(page)) => {
            let image = differing_page(alloc, jobs, page)?;
            make_image(files, alloc, name, &image)
        }
        _ => Ok(()),
    }
}

/// The number of the page where the first difference is one of dots.
fn dotted_page(comparison: &PageComparison) -> Option<usize>
    ensures { result ≡ dotted_page comparison.now }
{
    match comparison {
        PageComparison::Page {
            number,
            difference: Difference::Dot { .. },
        } => Some(*number),
        _ => None,
    }
}

/// An image of the dots in which the pages of a number differ, which both jobs have, of one size. It fails where memory runs
/// out.
fn differing_page(alloc: Global, jobs: ComparedJobs<'_>, page: usize) -> Result<Bitmap, Fault>
    requires { DifferInDots jobs.widest jobs.dpi jobs.first.now jobs.second.now page }
    ensures { IsDifferingPage jobs.entry.widest jobs.entry.dpi jobs.entry.first.now jobs.entry.second.now page result }
{
    let ComparedJobs {
        first,
        second,
        widest,
        dpi,
    } = jobs;
    let profile = read_by(alloc, first, second, widest, dpi)?;
    let one = page_dots(alloc, first, page, profile, dpi)?;
    let other = page_dots(alloc, second, page, profile, dpi)?;
    Ok(differing_dots(alloc, &one, &other)?)
}

/// Writes an image to the file of a name, which takes its place where it is whole. The fault of a file that can't be begun or placed
/// comes too.
fn make_image<F: JobFiles>(
    files: &mut F,
    alloc: Global,
    name: &str,
    image: &Bitmap,
) -> Result<(), Fault>
    ensures { IsImageMade F.acts name.now image.now files.old files.new result }
{
    let mut file = files.begin_aside(name)?;
    let written = write_image(alloc, image, &mut file);
    settle(files, name, file, written)
}
