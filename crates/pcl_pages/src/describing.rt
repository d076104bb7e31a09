//! The pages of a job, described.

ghost use Rattle.pcl_pages.specs.Describing.{IsDescribed};

use crate::facts::{JobFacts, PageFacts};
use crate::lines::table;
use pcl_base::{Dpi, JobFault, Profile};
use pcl_page::{Page, PageSink, perform_asked};
use pcl_request::Layout;
use std::alloc::{AllocError, Global};
use std::marker::Model;

/// A text on the pages of a job, by a profile. Of each page it has the number, the resolution, the size, the copies, the sides and the
/// paper source that the job asks for, how many of its dots are black, the bytes of its least page text (docs/OUTPUT.md), and how many of
/// these are row data of each method; last come the sums. A refusal is the job's.
pub fn describe_pages(
    alloc: Global,
    job: &[u8],
    profile: Profile,
    dpi: Dpi,
    layout: Layout,
) -> Result<Vec<u8>, JobFault>
    ensures { IsDescribed profile dpi job.now result }
{
    let mut collected = Collected {
        pages: Vec::new(alloc),
    };
    let asks = perform_asked(alloc, job, profile, dpi, &mut collected)?;
    let facts = JobFacts::new(alloc, dpi, collected.pages, &asks)?;
    Ok(laid_out(alloc, &facts, layout)?)
}

/// The text of facts.
fn laid_out(alloc: Global, facts: &JobFacts, layout: Layout) -> Result<Vec<u8>, AllocError> {
    match layout {
        Layout::Text => table(alloc, facts),
        Layout::Json => {
            let mut text = match serde_json::to_vec(alloc, facts) {
                Ok(text) => text,
                Err(_) => return Err(AllocError),
            };
            text.push(b'\n')?;
            Ok(text)
        }
    }
}

/// The pages so far.
#[derive(Drop)]
struct Collected {
    pages: Vec<PageFacts>,
}

// Of what is known so far nothing is promised.
impl Model for Collected {
    ghost Value = { Unit {0} };

    ghost view = { λ _. tt };
}

impl PageSink for Collected {
    ghost takes = { λ _ _ _. Unit {0} };

    fn page(&mut self, page: &Page) -> Result<(), AllocError> {
        let alloc = *self.pages.allocator();
        let number = self.pages.len().saturating_add(1);
        self.pages.push(PageFacts::of_page(alloc, number, page)?)?;
        Ok(())
    }
}
