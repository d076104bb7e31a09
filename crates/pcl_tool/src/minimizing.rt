//! A job written again.

ghost use Rattle.std.specs.Prelude.{IfOk};
ghost use Rattle.pcl_tool.specs.Minimizing.{IsMinimized, IsFiltered, IsFilteredCert, IsOutputWritten};
ghost use Rattle.pcl_tool.specs.Writing.{IsJobWritten};
ghost use Rattle.pcl_tool.specs.inner.WrittenJobs.{CertifiesNoPage, IsOutput};

use crate::written_job::WrittenJob;
use pcl_base::{Dpi, INPUT_LIMIT};
use pcl_cert::{Format, write_certificate};
use pcl_streams::{Fault, Unwatched, Watcher, perform_watched, read_all, write_all};
use pcl_writer::write_frame;
use std::alloc::{AllocError, Global};
use std::io::{Read, Write};

/// What a job is written as.
#[derive(Debug, Drop)]
pub struct Output {
    /// The job: its page texts between two resets (docs/OUTPUT.md).
    pub job: Vec<u8>,
    /// The certificate of its page texts (docs/CERTIFICATE.md).
    pub certificate: Vec<u8>,
}

/// Writes a job again as a raster job of the same pages, with a certificate of this format. By it the checker says
/// Proved on each page text. A refusal is the job's.
pub fn minimize(alloc: Global, job: &[u8], dpi: Dpi, format: Format) -> Result<Output, Fault>
    ensures { IsMinimized dpi format job.now result }
{
    minimize_watched(alloc, job, dpi, format, Unwatched)
}

/// The same, and the watcher is called for each page that is done.
pub fn minimize_watched<P: Watcher>(
    alloc: Global,
    job: &[u8],
    dpi: Dpi,
    format: Format,
    watcher: P,
) -> Result<Output, Fault>
    ensures { IsMinimized dpi format job.now result }
{
    write_again(alloc, job, dpi, Some(format), watcher)
}

/// Writes a job again as the least raster job of the same pages, without a certificate. The watcher is called for each page that
/// is done. A refusal is the job's; no fault comes but this and out of memory.
pub fn least_job<P: Watcher>(
    alloc: Global,
    job: &[u8],
    dpi: Dpi,
    watcher: P,
) -> Result<Vec<u8>, Fault>
    ensures { IsJobWritten dpi job.now result }
{
    match write_again(alloc, job, dpi, None, watcher) {
        Ok(output) => Ok(output.job),
        Err(fault) => Err(fault),
    }
}

/// Writes a job again, with a certificate where one of a format is wanted, which else is empty.
fn write_again<P: Watcher>(
    alloc: Global,
    job: &[u8],
    dpi: Dpi,
    format: Option<Format>,
    watcher: P,
) -> Result<Output, Fault>
    ensures { IsOutput dpi job.now format result }
{
    let mut bytes = Vec::new(alloc);
    write_frame(&mut bytes)?;
    let certificate = begun_certificate(alloc, format)?;
    let begun = WrittenJob {
        format,
        bytes,
        certificate,
    };
    let mut written = perform_watched(alloc, job, dpi, begun, watcher)?;
    write_frame(&mut written.bytes)?;
    Ok(Output {
        job: written.bytes,
        certificate: written.certificate,
    })
}

/// The certificate of no page, or nothing where none is wanted.
fn begun_certificate(alloc: Global, format: Option<Format>) -> Result<Vec<u8>, AllocError>
    ensures { IfOk result (λ certificate. CertifiesNoPage format certificate.items) }
{
    let mut certificate = Vec::new(alloc);
    if let Some(format) = format {
        write_certificate(&[], format, &mut certificate)?;
    }
    Ok(certificate)
}

/// Reads a job to its end, writes it again, and flushes. Nothing is written after any fault but of a write, and then a
/// prefix of the job.
pub fn filter<R: Read, W: Write>(
    alloc: Global,
    reader: &mut R,
    dpi: Dpi,
    out: &mut W,
) -> Result<(), Fault>
    ensures { IsFiltered dpi (R.remaining reader.old) (R.remaining reader.new) (W.contents out.old) (W.contents out.new) result }
{
    let job = read_all(alloc, reader, INPUT_LIMIT)?;
    let output = least_job(alloc, &job, dpi, Unwatched)?;
    write_all(out, &output)
}

/// Does what `filter` does, with a certificate of this format (docs/CERTIFICATE.md). It is written and flushed once the whole job
/// is. CertificateTooLong comes where it has more bytes than a check reads. Nothing is written after any fault but of a write; then
/// a prefix of the job and nothing of the certificate, or the whole job and a prefix of the certificate.
pub fn filter_cert<R: Read, W: Write, C: Write>(
    alloc: Global,
    reader: &mut R,
    dpi: Dpi,
    format: Format,
    out: &mut W,
    cert: &mut C,
) -> Result<(), Fault>
    ensures { IsFilteredCert dpi format (R.remaining reader.old) (R.remaining reader.new) (W.contents out.old) (W.contents out.new)
        (C.contents cert.old) (C.contents cert.new) result }
{
    let job = read_all(alloc, reader, INPUT_LIMIT)?;
    let output = minimize(alloc, &job, dpi, format)?;
    write_output(&output, INPUT_LIMIT, out, cert)
}

/// Writes a job and flushes, and then its certificate: nothing of either where the certificate has more bytes than a limit. After a
/// fault of a write there is a prefix of the job and nothing of the certificate, or the whole job and a prefix of the certificate.
pub fn write_output<W: Write, C: Write>(
    output: &Output,
    limit: usize,
    out: &mut W,
    cert: &mut C,
) -> Result<(), Fault>
    ensures { IsOutputWritten limit output.now.job.items output.now.certificate.items (W.contents out.old) (W.contents out.new)
        (C.contents cert.old) (C.contents cert.new) result }
{
    if output.certificate.len() > limit {
        return Err(Fault::CertificateTooLong);
    }
    write_all(out, &output.job)?;
    write_all(cert, &output.certificate)
}
