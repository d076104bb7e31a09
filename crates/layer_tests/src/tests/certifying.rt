//! Jobs that are written with their certificates, between readers and writers that give or take little, or fail.

use super::assert_gives;
use super::devices::{FailingReader, Held, failing, taking};
use super::filtering::{JOB, WRITES, WRITTEN, taken};
use pcl_base::Dpi;
use pcl_cert::Format;
use pcl_tool::{Fault, Output, filter_cert, minimize, write_output};
use std::alloc::{AllocError, Global};
use std::fmt::Debug;
use std::io::{ErrorKind, Read};
use std::process::Abort;

/// The certificate of the job with the dot (0, 0) after the bytes with which those of its format begin, as it is worked out
/// by hand: parts, and how often each comes. The first format ends after the first two.
const PARTS: [(&[u8], usize); 4] = [
    (
        &[
            0, 0, 0, 1, 0, 0, 0, 44, 0x0C, 0xE4, //
            0, 0, 0, 6, 0, 0, 0, 3, 0, 0, 0, 7, 0, 0, 0, 4, //
            0, 0, 0, 7, 0, 0, 0, 4, 0, 0, 0, 7, 0, 0, 0, 4,
        ],
        1,
    ),
    (&[0, 0, 0, 0, 0, 0, 0, 1], 4 * 3300),
    (
        &[
            0, 1, 0, 1, 0, 1, 0, 2, 0, 1, 0, 2, 0, 1, 0, 2, //
            0, 0, 0, 0, 0, 0, 0, 1, 0, 2,
        ],
        1,
    ),
    (&[0], 26_384),
];

/// The whole of it.
fn certificate(alloc: Global, format: Format) -> Result<Vec<u8>, AllocError> {
    let parts = if format == Format::One { 2 } else { 4 };
    let mut bytes = Vec::from_slice(alloc, format.magic())?;
    for (part, times) in PARTS.iter().take(parts) {
        for _ in 0..*times {
            bytes.extend_from_slice(part)?;
        }
    }
    Ok(bytes)
}

/// Asserts what a job is written as, with its certificate.
fn assert_minimized(
    rt: &impl Abort,
    alloc: Global,
    job: &[u8],
    format: Format,
    wanted: &(&[u8], usize, &[u8]),
) {
    let (written, len, certificate) = *wanted;
    let output = minimize(alloc, job, Dpi::Dpi300, format);
    let given = match &output {
        Ok(output) => Ok((
            output.job.as_slice(),
            output.certificate.len(),
            output.certificate.as_slice() == certificate,
        )),
        Err(fault) => Err(*fault),
    };
    assert_gives(rt, &(job, format), &given, &Ok((written, len, true)));
}

/// Formats, the certificate of no page, and the length of that of the page with a dot.
const FORMATS: [(Format, &[u8], usize); 2] = [
    (Format::One, b"PCLCERT1\0\0\0\0", 105_650),
    (Format::Two, b"PCLCERT2\0\0\0\0", 132_060),
];

// The certificates of no page and of the page with a dot, in both formats.
#[test]
fn by_hand(rt: HostRuntime) -> Result<(), AllocError> {
    for (format, none, len) in &FORMATS {
        assert_minimized(&rt, rt.alloc(), b"", *format, &(b"\x1bE\x1bE", 12, none));
        let dot = certificate(rt.alloc(), *format)?;
        assert_minimized(&rt, rt.alloc(), JOB, *format, &(WRITTEN, *len, &dot));
    }
    Ok(())
}

/// What `filter_cert` answers, and what the writers of the job and of the certificate then hold, each with how often it was
/// flushed.
#[derive(Clone, Copy)]
struct Filtered<'a> {
    /// The verdict.
    result: Result<(), Fault>,
    /// The bytes of the job.
    job: &'a [u8],
    /// How often their writer was flushed.
    job_flushes: usize,
    /// The bytes of the certificate.
    certificate: &'a [u8],
    /// How often their writer was flushed.
    certificate_flushes: usize,
}

/// Asserts what comes of a filter in the first format between a reader and two writers.
fn assert_filtered<C: Debug, R: Read>(
    rt: &impl Abort,
    alloc: Global,
    case: &C,
    source: &mut R,
    mut out: Held,
    mut cert: Held,
    wanted: &Filtered,
) {
    let result = filter_cert(alloc, source, Dpi::Dpi300, Format::One, &mut out, &mut cert);
    let certified = (
        cert.bytes.len(),
        cert.bytes.as_slice() == wanted.certificate,
    );
    assert_gives(
        rt,
        case,
        &(
            result,
            (out.bytes.as_slice(), out.flushes),
            certified,
            cert.flushes,
        ),
        &(
            wanted.result,
            (wanted.job, wanted.job_flushes),
            (wanted.certificate.len(), true),
            wanted.certificate_flushes,
        ),
    );
}

// Each read fails in turn; then nothing is written, nor flushed.
#[test]
fn each_read_fails(rt: HostRuntime) {
    let alloc = rt.alloc();
    for kind in [ErrorKind::BrokenPipe, ErrorKind::Interrupted] {
        for good in 0..6 {
            let mut source = FailingReader {
                rest: JOB,
                most: 7,
                good: Some(good),
                kind,
            };
            let (out, cert) = (taking(alloc, usize::MAX), taking(alloc, usize::MAX));
            let wanted = Filtered {
                result: Err(Fault::ReadFault),
                job: b"",
                job_flushes: 0,
                certificate: b"",
                certificate_flushes: 0,
            };
            assert_filtered(&rt, alloc, &good, &mut source, out, cert, &wanted);
        }
    }
}

/// Asserts that the job is written so far where the write after `good` ones fails, or the flush after the last one.
fn assert_job_fails(
    rt: &impl Abort,
    alloc: Global,
    most: usize,
    good: usize,
    job: &[u8],
    flushes: usize,
) {
    let out = failing(alloc, most, Some(good), true);
    let wanted = Filtered {
        result: Err(Fault::WriteFault),
        job,
        job_flushes: flushes,
        certificate: b"",
        certificate_flushes: 0,
    };
    let cert = taking(alloc, usize::MAX);
    assert_filtered(rt, alloc, &(most, good), &mut &*JOB, out, cert, &wanted);
}

// Each write of the job fails in turn, or its flush; then the writer holds what it took, and nothing of the certificate is
// written.
#[test]
fn each_write_of_the_job_fails(rt: HostRuntime) {
    for (most, writes) in &WRITES {
        for good in 0..*writes {
            assert_job_fails(&rt, rt.alloc(), *most, good, taken(good, *most), 0);
        }
        assert_job_fails(&rt, rt.alloc(), *most, *writes, WRITTEN, 1);
    }
}

/// Asserts that the certificate is written so far where the write after `good` ones fails, or the flush after the last one.
fn assert_certificate_fails(
    rt: &impl Abort,
    alloc: Global,
    most: usize,
    good: usize,
    certificate: &[u8],
    flushes: usize,
) {
    let cert = failing(alloc, most, Some(good), true);
    let wanted = Filtered {
        result: Err(Fault::WriteFault),
        job: WRITTEN,
        job_flushes: 1,
        certificate,
        certificate_flushes: flushes,
    };
    let out = taking(alloc, usize::MAX);
    assert_filtered(rt, alloc, &(most, good), &mut &*JOB, out, cert, &wanted);
}

/// The most bytes of a write, and how many writes the certificate takes.
const CERTIFICATE_WRITES: [(usize, usize); 2] = [(10_000, 11), (usize::MAX, 1)];

// Each write of the certificate fails in turn, or its flush; by then the whole job is written and flushed.
#[test]
fn each_write_of_the_certificate_fails(rt: HostRuntime) -> Result<(), AllocError> {
    let whole = certificate(rt.alloc(), Format::One)?;
    for (most, writes) in &CERTIFICATE_WRITES {
        for good in 0..*writes {
            let front = whole.get(..good.saturating_mul(*most)).unwrap_or(&whole);
            assert_certificate_fails(&rt, rt.alloc(), *most, good, front, 0);
        }
        assert_certificate_fails(&rt, rt.alloc(), *most, *writes, &whole, 1);
    }
    Ok(())
}

/// Limits for a certificate of four bytes, the verdict, and what the writers of the job and of the certificate then hold, each with
/// how often it was flushed.
const LIMITS: [(usize, Result<(), Fault>, (&[u8], usize), (&[u8], usize)); 2] = [
    (4, Ok(()), (b"a job", 1), (b"four", 1)),
    (3, Err(Fault::CertificateTooLong), (b"", 0), (b"", 0)),
];

// A certificate of as many bytes as the limit is written; of a longer one nothing is, nor of its job.
#[test]
fn longer_than_a_limit(rt: HostRuntime) -> Result<(), AllocError> {
    let alloc = rt.alloc();
    let output = Output {
        job: Vec::from_slice(alloc, b"a job")?,
        certificate: Vec::from_slice(alloc, b"four")?,
    };
    for (limit, result, job, certificate) in &LIMITS {
        let (mut out, mut cert) = (taking(alloc, usize::MAX), taking(alloc, usize::MAX));
        let given = write_output(&output, *limit, &mut out, &mut cert);
        let held = (
            given,
            (out.bytes.as_slice(), out.flushes),
            (cert.bytes.as_slice(), cert.flushes),
        );
        assert_gives(&rt, limit, &held, &(*result, *job, *certificate));
    }
    Ok(())
}

// A reader that gives one byte a read, and writers that take one a write.
#[test]
fn one_byte_a_call(rt: HostRuntime) -> Result<(), AllocError> {
    let alloc = rt.alloc();
    let whole = certificate(alloc, Format::One)?;
    let mut source = FailingReader {
        rest: JOB,
        most: 1,
        good: None,
        kind: ErrorKind::BrokenPipe,
    };
    let wanted = Filtered {
        result: Ok(()),
        job: WRITTEN,
        job_flushes: 1,
        certificate: &whole,
        certificate_flushes: 1,
    };
    let (out, cert) = (taking(alloc, 1), taking(alloc, 1));
    assert_filtered(&rt, alloc, &"one byte", &mut source, out, cert, &wanted);
    Ok(())
}
