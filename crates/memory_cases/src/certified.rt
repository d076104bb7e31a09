//! Jobs that are written again, with a certificate of each format.

use crate::jobs::{CALLED, DOT, TWO_SIZES, letters};
use pcl_base::Dpi;
use pcl_cert::{CertFault, Format, read_certificate, write_certificate};
use pcl_tool::{Fault, JobVerdict, Output, check_job, minimize};
use std::alloc::{AllocError, Global};
use std::io;

/// Prints how each job is written.
pub(crate) fn print_jobs<R: Print + AllocGlobal>(rt: &R) -> io::Result<()> {
    match letters(rt.alloc()) {
        Ok(job) => print_job(rt, "two letters", &job)?,
        Err(AllocError) => println!(rt; "two letters: no memory for the job")?,
    }
    print_job(rt, "a macro that is called", CALLED)?;
    print_job(rt, "a dot", DOT)?;
    print_job(rt, "pages of two sizes", TWO_SIZES)
}

/// Prints how a job is written with a certificate of each format.
fn print_job<R: Print + AllocGlobal>(rt: &R, name: &str, job: &[u8]) -> io::Result<()> {
    print_written(rt, name, job, Format::One)?;
    print_written(rt, name, job, Format::Two)
}

/// Prints how many bytes a written job and its certificate have, what the checker answers on them, and whether the certificate is
/// read and written again.
fn print_written<R: Print + AllocGlobal>(
    rt: &R,
    name: &str,
    job: &[u8],
    format: Format,
) -> io::Result<()> {
    match written(rt.alloc(), job, format) {
        Ok(output) => {
            let verdict = checked(rt.alloc(), job, &output);
            let again = certificate_again(rt.alloc(), &output.certificate);
            println!(rt;
                "{name}: {} bytes, a certificate of {}, {verdict:?}, {again:?}",
                output.job.len(),
                output.certificate.len()
            )
        }
        Err(fault) => println!(rt; "{name}: {fault:?}"),
    }
}

/// A job written again, tried twice.
fn written(alloc: Global, job: &[u8], format: Format) -> Result<Output, Fault> {
    match minimize(alloc, job, Dpi::Dpi300, format) {
        Err(Fault::Memory) => minimize(alloc, job, Dpi::Dpi300, format),
        answer => answer,
    }
}

/// What the checker answers on a written job, tried twice.
fn checked(alloc: Global, job: &[u8], output: &Output) -> Result<JobVerdict, Fault> {
    match check_job(alloc, job, &output.job, &output.certificate, Dpi::Dpi300) {
        Err(Fault::Memory) => {
            check_job(alloc, job, &output.job, &output.certificate, Dpi::Dpi300)
        }
        answer => answer,
    }
}

/// Whether a certificate is the same where it is read and written again, each tried twice.
fn certificate_again(alloc: Global, certificate: &[u8]) -> Result<bool, CertFault> {
    match read_and_written(alloc, certificate) {
        Err(CertFault::Memory) => read_and_written(alloc, certificate),
        answer => answer,
    }
}

/// Whether a certificate is the same where it is read and written again.
fn read_and_written(alloc: Global, certificate: &[u8]) -> Result<bool, CertFault> {
    let (format, proofs) = read_certificate(alloc, certificate, Dpi::Dpi300)?;
    let mut again = Vec::new(alloc);
    write_certificate(&proofs, format, &mut again)?;
    Ok(again.as_slice() == certificate)
}
