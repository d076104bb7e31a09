//! The formats of certificates.

ghost use Rattle.std.specs.Prelude.{◌≡◌};
ghost use Rattle.pcl_cert.specs.CertificateFields.{magic};

/// A format of certificates (docs/CERTIFICATE.md).
#[derive(Clone, Copy, Debug, PartialEq, Eq)]
pub enum Format {
    /// A number for each node of each page.
    One,
    /// A number for each node, and a table for each row and each method.
    Two,
}

impl Format {
    /// The bytes with which its certificates begin.
    pub fn magic(self) -> &'static [u8]
        ensures { result.now ≡ magic self }
    {
        match self {
            Format::One => b"PCLCERT1",
            Format::Two => b"PCLCERT2",
        }
    }
}
