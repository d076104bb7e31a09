//! The digests of a job as it came and of what is written of it.

use hex::encode;
use pcl_request::Rewritten;
use serde::Serialize;
use sha2::{Digest, Sha256};
use std::alloc::{AllocError, Global};

/// The length and the SHA-256 digest of a file.
#[derive(Drop, Serialize)]
pub(crate) struct FileSum {
    pub bytes: usize,
    pub sha256: String,
}

impl FileSum {
    /// Of these bytes.
    pub(crate) fn of(alloc: Global, bytes: &[u8]) -> Result<FileSum, AllocError> {
        let digest: [u8; 32] = Sha256::digest(bytes);
        Ok(FileSum {
            bytes: bytes.len(),
            sha256: encode(alloc, &digest[..])?,
        })
    }
}

/// The line of a digest of a file of this name, as `sha256sum -c` reads it, with its line feed. A name with a backslash, a line feed or a
/// carriage return begins with a backslash, and has `\\`, `\n` and `\r` for them.
fn line(alloc: Global, sha256: &str, name: &str) -> Result<String, AllocError> {
    if !name.contains(|letter| matches!(letter, '\\' | '\n' | '\r')) {
        return format!(in alloc; "{sha256}  {name}\n");
    }
    let name = name.replace(alloc, "\\", "\\\\")?;
    let name = name.as_str().replace(alloc, "\n", "\\n")?;
    let name = name.as_str().replace(alloc, "\r", "\\r")?;
    format!(in alloc; "\\{sha256}  {name}\n")
}

/// The digests of what is written of a job: of the job, and of its certificate where there is one.
#[derive(Drop)]
pub(crate) struct WrittenSums {
    pub job: FileSum,
    pub certificate: Option<FileSum>,
}

impl WrittenSums {
    /// Of what was written again.
    pub(crate) fn of(alloc: Global, again: &Rewritten) -> Result<WrittenSums, AllocError> {
        let job = FileSum::of(alloc, &again.job)?;
        let certificate = match &again.certificate {
            Some(bytes) => Some(FileSum::of(alloc, bytes)?),
            None => None,
        };
        Ok(WrittenSums { job, certificate })
    }

    /// The text of a file of these digests, and of that of the job as it came.
    pub(crate) fn text(
        &self,
        alloc: Global,
        how: &str,
        input: &str,
        name: &str,
    ) -> Result<String, AllocError> {
        let sums = Sums {
            how,
            input,
            job: self.job.sha256.as_str(),
            certificate: self.certificate.as_ref().map(|sum| sum.sha256.as_str()),
        };
        sums.text(alloc, name)
    }
}

/// As many bytes a file of digests has at most: its names have up to 255, each of which may stand as two.
pub(crate) const SUMS_LIMIT: usize = 4096;

/// How many letters a digest has.
const DIGEST_LENGTH: usize = 64;

/// What a file of digests says.
#[derive(Clone, Copy)]
pub(crate) struct Sums<'w> {
    /// The version, the command and the resolution.
    how: &'w str,
    /// The digest of the job as it came.
    pub input: &'w str,
    /// That of what was written.
    job: &'w str,
    /// That of its certificate.
    certificate: Option<&'w str>,
}

impl<'w> Sums<'w> {
    /// Of the bytes of a file beside a job of this name. None where they aren't exactly what a batch writes: then the file is somebody's
    /// own.
    pub(crate) fn parse(
        alloc: Global,
        bytes: &'w [u8],
        name: &str,
    ) -> Result<Option<Sums<'w>>, AllocError> {
        match Sums::read(bytes) {
            Some(sums) if sums.text(alloc, name)?.as_bytes() == bytes => Ok(Some(sums)),
            _ => Ok(None),
        }
    }

    /// What stands at the places of these in a text.
    fn read(bytes: &'w [u8]) -> Option<Sums<'w>> {
        let text = std::str::from_utf8(bytes).ok()?;
        let mut lines = text.lines();
        let head = lines.next()?.strip_prefix("# ")?;
        let (how, input) = head.rsplit_once(" of ")?;
        let job = digest_in(lines.next()?)?;
        let certificate = match lines.next() {
            Some(line) => Some(digest_in(line)?),
            None => None,
        };
        let is_ours = how.starts_with("pclmin ") && is_digest(input);
        is_ours.then_some(Sums {
            how,
            input,
            job,
            certificate,
        })
    }

    /// Whether a certificate is among what was written.
    pub(crate) fn has_certificate(self) -> bool {
        self.certificate.is_some()
    }

    /// The text of a file of digests: in a comment the program's version, its command and resolution, and the digest of the job as it
    /// came; then lines that `sha256sum -c` reads, of the job that was written, whose file has this name, and of a certificate beside it.
    fn text(self, alloc: Global, name: &str) -> Result<String, AllocError> {
        let Sums { how, input, .. } = self;
        let mut text = format!(in alloc; "# {how} of {input}\n")?;
        text.push_str(line(alloc, self.job, name)?.as_str())?;
        if let Some(sha256) = self.certificate {
            let name = format!(in alloc; "{name}.cert")?;
            text.push_str(line(alloc, sha256, name.as_str())?.as_str())?;
        }
        Ok(text)
    }
}

/// The digest at the front of a line.
fn digest_in(line: &str) -> Option<&str> {
    let line = line.strip_prefix('\\').unwrap_or(line);
    let digest = line.get(..DIGEST_LENGTH)?;
    is_digest(digest).then_some(digest)
}

/// Whether a text is a digest, in hexadecimal digits.
fn is_digest(text: &str) -> bool {
    text.len() == DIGEST_LENGTH
        && text.bytes().all(|byte| byte.is_ascii_digit() || (b'a'..=b'f').contains(&byte))
}
