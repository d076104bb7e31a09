//! A job while it is written.

ghost use Rattle.std.specs.Prelude.{IfOk};
ghost use Rattle.pcl_cert.specs.Checking.{HasLeastLists};

use pcl_cert::{Format, PageProof, RowTables, add_proof, row_tables};
use pcl_page::{Page, PageSink};
use pcl_plan::plan;
use pcl_writer::write_page;
use std::alloc::{AllocError, Global};
use std::marker::Model;

/// The bytes of a job so far, and the certificate of its pages so far, where one is wanted. Nothing else stays of a page's tables.
#[derive(Drop)]
pub struct WrittenJob {
    /// The format of the certificate: none where none is wanted.
    pub format: Option<Format>,
    pub bytes: Vec<u8>,
    pub certificate: Vec<u8>,
}

impl Model for WrittenJob {
    ghost use Rattle.pcl_tool.specs.inner.WrittenJobs.{SoFar, so_far, HasCount};

    ghost Value = { SoFar };

    ghost view = { so_far };

    ghost invariant = { HasCount };
}

impl PageSink for WrittenJob {
    ghost use Rattle.pcl_tool.specs.inner.WrittenJobs.{TakesText};

    ghost takes = { TakesText };

    fn page(&mut self, page: &Page) -> Result<(), AllocError> {
        let alloc = *self.bytes.allocator();
        let least = plan(alloc, page)?;
        let Some(format) = self.format else {
            return write_page(page, &least, &mut self.bytes);
        };
        let places = places_of(alloc, page, format)?;
        let before = self.bytes.len();
        write_page(page, &least, &mut self.bytes)?;
        let proof = PageProof {
            text_len: (self.bytes.len() - before) as u32,
            table: least.into_table(),
            places,
        };
        match add_proof(&proof, format, &mut self.certificate) {
            Ok(()) => Ok(()),
            Err(failed) => {
                self.bytes.truncate(before);
                Err(failed)
            }
        }
    }
}

/// The row tables of a page, where a certificate of this format has any.
fn places_of(
    alloc: Global,
    page: &Page,
    format: Format,
) -> Result<Option<RowTables<'static>>, AllocError>
    ensures { IfOk result (λ places. HasLeastLists page.now format places) }
{
    match format {
        Format::One => Ok(None),
        Format::Two => Ok(Some(row_tables(alloc, page)?)),
    }
}
