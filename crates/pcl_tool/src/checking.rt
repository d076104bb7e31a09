//! A written job checked beside its input, by a certificate from anybody.

ghost use Rattle.std.specs.Prelude.{◌≡◌, ℕ, List, Ok};
ghost use Rattle.pcl_cert.specs.declared.format.Format.{Format};
ghost use Rattle.pcl_cert.specs.ReadingCertificates.{FailsAs, certificate_at};
ghost use Rattle.pcl_tool.specs.JobVerdicts.{IsChecked};

use crate::JobVerdict;
use crate::page_checks::Checker;
use pcl_base::Dpi;
use pcl_cert::{CertFault, PageProof, read_certificate};
use pcl_page::{Page, PageSink};
use pcl_streams::{Fault, Unwatched, Watcher, perform_watched};
use std::alloc::{AllocError, Global};

/// Checks by a certificate that an output prints the pages of an input and is a shortest such job text. The output
/// and the certificate may come from anybody (docs/CERTIFICATE.md). A refusal is the input's; else it fails only
/// where memory runs out.
pub fn check_job(
    alloc: Global,
    input: &[u8],
    output: &[u8],
    certificate: &[u8],
    dpi: Dpi,
) -> Result<JobVerdict, Fault>
    ensures { IsChecked dpi input.now output.now certificate.now result }
{
    check_job_watched(alloc, input, output, certificate, dpi, Unwatched)
}

/// The same, and the watcher is called for each page that is done.
pub fn check_job_watched<P: Watcher>(
    alloc: Global,
    input: &[u8],
    output: &[u8],
    certificate: &[u8],
    dpi: Dpi,
    watcher: P,
) -> Result<JobVerdict, Fault>
    ensures { IsChecked dpi input.now output.now certificate.now result }
{
    match read_certificate(alloc, certificate, dpi) {
        Ok((_, proofs)) => check_pages(alloc, input, output, &proofs, dpi, watcher),
        Err(fault) => check_fault(alloc, input, fault, dpi, watcher),
    }
}

/// The verdict on bytes that are no certificate.
fn check_fault<P: Watcher>(
    alloc: Global,
    input: &[u8],
    fault: CertFault,
    dpi: Dpi,
    watcher: P,
) -> Result<JobVerdict, Fault>
    ensures { (output certificate : List ℕ) → FailsAs fault (certificate_at dpi certificate)
        → IsChecked dpi input.now output certificate result }
{
    match fault {
        CertFault::Memory => Err(Fault::Memory),
        fault => {
            let _ = perform_watched(alloc, input, dpi, Unseen, watcher)?;
            Ok(JobVerdict::Certificate(fault))
        }
    }
}

/// The same, by what a certificate says of each page.
fn check_pages<P: Watcher>(
    alloc: Global,
    input: &[u8],
    output: &[u8],
    proofs: &[PageProof<'_>],
    dpi: Dpi,
    watcher: P,
) -> Result<JobVerdict, Fault>
    ensures { (certificate : List ℕ) (format : Format) → certificate_at dpi certificate ≡ Ok (format, proofs.now)
        → IsChecked dpi input.now output.now certificate result }
{
    let begun = Checker::new(alloc, output, proofs);
    let checker = perform_watched(alloc, input, dpi, begun, watcher)?;
    Ok(checker.verdict())
}

/// Looks at no page.
#[derive(Drop)]
struct Unseen;

impl PageSink for Unseen {
    ghost takes = { λ old page new. Unit {0} };

    fn page(&mut self, _page: &Page) -> Result<(), AllocError> {
        Ok(())
    }
}
