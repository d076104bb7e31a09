//! Jobs of other languages.

ghost use Rattle.std.specs.Prelude.{◌≡◌, false, IsTrue, MatchOption};
ghost use Rattle.pcl_explain.specs.Languages.{begins_as};

/// A language of printers that isn't read here.
#[derive(Clone, Copy, Debug, PartialEq, Eq)]
pub enum Language {
    PostScript,
    Pdf,
    PclXl,
    /// Any, packed.
    Gzip,
}

/// The language of a job, by its first bytes: none where it may be PCL 5.
pub fn language_of(job: &[u8]) -> Option<Language>
    ensures { MatchOption result ((language : Language) → begins_as language job.now ≡ false)
        (λ language. IsTrue (begins_as language job.now)) }
{
    if job.starts_with(b"%!") || job.starts_with(b"\x04%!") {
        return Some(Language::PostScript);
    }
    if job.starts_with(b"\x1f\x8b") {
        return Some(Language::Gzip);
    }
    if job.starts_with(b"%PDF") {
        return Some(Language::Pdf);
    }
    if job.starts_with(b") HP-PCL XL") || job.starts_with(b"( HP-PCL XL") {
        return Some(Language::PclXl);
    }
    None
}

impl Language {
    /// What the language is, and what to do.
    pub fn text(self) -> &'static str {
        match self {
            Language::PostScript =>
                "the job is PostScript, not PCL 5: choose a PCL 5 driver, or send it through ghostscript with -sDEVICE=ljet2p",
            Language::Pdf =>
                "the job is PDF, not PCL 5: choose a PCL 5 driver, or send it through ghostscript with -sDEVICE=ljet2p",
            Language::PclXl =>
                "the job is PCL XL (PCL 6), not PCL 5: choose a driver for PCL 5 or PCL 5e",
            Language::Gzip => "the job is packed by gzip: unpack it first",
        }
    }
}
