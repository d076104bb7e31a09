//! The methods of row data.

ghost use Rattle.std.specs.Prelude.{◌≡◌};
ghost use Rattle.pcl_base.specs.Method.{method_code, method_with_code};

/// How the bytes of a raster row are sent (PCL 5 manual, "Set Compression Method").
#[derive(Clone, Copy, Debug, PartialEq, Eq)]
pub enum Method {
    /// No compression: each byte stands for itself.
    Plain,
    /// Run-length: a count and a byte.
    Runs,
    /// TIFF packbits: literal bytes and repeats.
    Packed,
    /// Delta row: what differs from the row above.
    Delta,
}

impl Method {
    /// The method that the command asks for by its number, 0 to 3.
    pub fn from_code(code: u32) -> Option<Method>
        ensures { result ≡ method_with_code code }
    {
        match code {
            0 => Some(Method::Plain),
            1 => Some(Method::Runs),
            2 => Some(Method::Packed),
            3 => Some(Method::Delta),
            _ => None,
        }
    }

    /// The number by which the command asks for the method.
    pub fn code(self) -> u32
        ensures { result ≡ method_code self }
    {
        match self {
            Method::Plain => 0,
            Method::Runs => 1,
            Method::Packed => 2,
            Method::Delta => 3,
        }
    }
}
