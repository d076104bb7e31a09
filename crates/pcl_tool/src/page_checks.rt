//! The pages of a job, each checked by what a certificate says of it.

ghost use Rattle.std.specs.Prelude.{◌≡◌, ◌++◌, List, ℕ, length, drop, MatchOption, IfOk, IsTrue, ◌↔◌};
ghost use Rattle.pcl_output.specs.Tokens.{frame_bytes};
ghost use Rattle.pcl_tool.specs.JobVerdicts.{text_bytes, IsFramed};
ghost use Rattle.pcl_tool.specs.declared.job_verdict.JobVerdict.TheVariants as job;
ghost use Rattle.pcl_tool.specs.inner.PageChecks.{IsFound};

use crate::JobVerdict;
use pcl_cert::{PageProof, Verdict, check_page};
use pcl_output::RESET;
use pcl_page::{Page, PageSink};
use std::alloc::{AllocError, Global};

/// Checks page after page of a job, until one isn't proved.
#[derive(Drop)]
pub struct Checker<'p, 'c, 't> {
    alloc: Global,
    /// What is said of each page.
    proofs: &'p [PageProof<'c>],
    /// The texts of the pages to come, one after the other.
    texts: &'t [u8],
    /// How many pages have come of which something is said.
    taken: usize,
    /// What is wrong with the frame, with a page or with the number of pages, or Proved as long as nothing is.
    found: JobVerdict,
    ghost as_long: { found ≡ job.Proved → length texts.now ≡ text_bytes (drop taken proofs.now) },
}

impl<'p, 'c, 't> Checker<'p, 'c, 't> {
    ghost use Rattle.std.specs.Prelude.{◌≡◌, drop};
    ghost use Rattle.pcl_tool.specs.inner.CheckerSteps.{IsNewChecker, answer};

    /// Before the first page, with the texts of an output.
    pub fn new(alloc: Global, output: &'t [u8], proofs: &'p [PageProof<'c>]) -> Checker<'p, 'c, 't>
        ensures { IsNewChecker output.now proofs.now result }
    {
        let (texts, found) = match texts_of(output, proofs) {
            Some(texts) => (texts, JobVerdict::Proved),
            None => (output, JobVerdict::Frame),
        };
        Checker {
            alloc,
            proofs,
            texts,
            taken: 0,
            found,
        }
    }

    /// The verdict after the last page.
    pub fn verdict(&self) -> JobVerdict
        ensures { result ≡ answer (drop self.now.taken self.now.proofs.now) self.now.found }
    {
        if self.taken < self.proofs.len() {
            JobVerdict::PageCount
        } else {
            self.found
        }
    }
}

impl<'p, 'c, 't> PageSink for Checker<'p, 'c, 't> {
    ghost use Rattle.pcl_tool.specs.inner.CheckerSteps.{TakesPage};

    ghost takes = { TakesPage };

    fn page(&mut self, page: &Page) -> Result<(), AllocError> {
        let Some(proof) = self.proofs.get(self.taken) else {
            self.found = JobVerdict::PageCount;
            return Ok(());
        };
        if let JobVerdict::Proved = self.found {
            let (text, rest) = self.texts.split_at(proof.text_len as usize);
            self.found = verdict_on(self.alloc, page, text, proof, self.taken + 1)?;
            self.texts = rest;
        }
        self.taken += 1;
        Ok(())
    }
}

/// What is found of the text of the page of this number.
fn verdict_on(
    alloc: Global,
    page: &Page,
    text: &[u8],
    proof: &PageProof<'_>,
    number: usize,
) -> Result<JobVerdict, AllocError>
    ensures { IfOk result (IsFound page.now text.now proof.now number) }
{
    let verdict = check_page(alloc, page, text, &proof.table, proof.places.as_ref())?;
    Ok(match verdict {
        Verdict::Proved => JobVerdict::Proved,
        verdict => JobVerdict::Page {
            page: number,
            verdict,
        },
    })
}

/// The texts of an output, where it is a job text with texts as long as the proofs say.
fn texts_of<'a>(output: &'a [u8], proofs: &[PageProof<'_>]) -> Option<&'a [u8]>
    ensures { MatchOption result ((texts : List ℕ) → IsFramed output.now texts proofs.now → ⊥)
        (λ texts. IsFramed output.now texts.now proofs.now) }
{
    let texts = framed(output)?;
    if have_length(proofs, texts.len()) {
        Some(texts)
    } else {
        None
    }
}

/// What stands between two resets.
fn framed(output: &[u8]) -> Option<&[u8]>
    ensures { MatchOption result ((texts : List ℕ) → output.now ≡ frame_bytes ++ texts ++ frame_bytes → ⊥)
        (λ texts. output.now ≡ frame_bytes ++ texts.now ++ frame_bytes) }
{
    output.strip_prefix(RESET)?.strip_suffix(RESET)
}

/// Whether the texts are so long together.
fn have_length(proofs: &[PageProof<'_>], len: usize) -> bool
    ensures { IsTrue result ↔ (len ≡ text_bytes proofs.now) }
{
    let mut left = len;
    for proof in proofs {
        match left.checked_sub(proof.text_len as usize) {
            Some(less) => left = less,
            None => return false,
        }
    }
    left == 0
}
