//! Pages that are pictures.

use crate::edges::count_runs;
use crate::inked_pages::InkedPage;

/// A picture has more runs of black dots than this many for each byte that it takes as a raster. Pages of text have one, those with a
/// picture beside the text two.
const RUNS_FOR_A_BYTE: usize = 4;

/// Whether a page that takes this many bytes as a raster is a picture, whose shapes would cost more as letters. A row like the one above
/// takes next to nothing, so its runs don't count.
pub fn is_picture(page: &InkedPage<'_>, bytes: usize) -> bool {
    let mut runs: usize = 0;
    for stretch in page.stretches.iter() {
        runs = runs.saturating_add(count_runs(page.row(stretch.top)) as usize);
    }
    runs > bytes.saturating_mul(RUNS_FOR_A_BYTE)
}
