//! The four coders.

ghost use Rattle.std.specs.Prelude.{◌≡◌, ◌+◌, length, OnOk, OnErr};
ghost use Rattle.pcl_base.specs.declared.method.Method.{Method as RowMethod};
ghost use Rattle.pcl_base.specs.declared.method.Method.TheVariants as methods;
ghost use Rattle.pcl_coders.specs.RowWalks.{IsLeastTable};
ghost use Rattle.pcl_coders.specs.Coding.{IsCodable, IsLeastLength, AppendsLeast};

use crate::table;
use pcl_base::Method;
use std::alloc::AllocError;

/// A writer of row data of one method. What it writes is whole, decodes to the row over the seed row, and
/// no whole data that does is shorter (whole data has at most 65535 bytes). A row and its seed row have one
/// length, of at most 600 bytes.
pub trait RowCoder {
    /// Its method.
    ghost of: { Self → RowMethod };

    /// Its method.
    fn method(&self) -> Method
        ensures { result ≡ of self.now };

    /// The least length of whole data for a row, in bytes.
    fn least(&self, row: &[u8], seed: &[u8]) -> usize
        requires { IsCodable seed.now row.now }
        ensures { IsLeastLength (of self.now) seed.now row.now result }
    {
        table::least(self.method(), row, seed)
    }

    /// How many bytes the rest of a row needs at least, from each place and from its end. `out` is one
    /// longer than the row.
    fn places(&self, row: &[u8], seed: &[u8], out: &mut [u16])
        requires codable { IsCodable seed.now row.now }
        requires size { length out.old ≡ length row.now + 1 }
        ensures { IsLeastTable (of self.now) seed.now row.now out.new }
    {
        table::fill(self.method(), row, seed, out);
    }

    /// Appends whole data of least length for a row. It fails where memory runs out, and then appends nothing.
    fn write(&self, row: &[u8], seed: &[u8], out: &mut Vec<u8>) -> Result<(), AllocError>
        requires { IsCodable seed.now row.now }
        ensures ok { OnOk result (AppendsLeast (of self.now) seed.now row.now out.old.items out.new.items) }
        ensures err { OnErr result (out.new.items ≡ out.old.items) }
    {
        table::append(self.method(), row, seed, out)
    }

    /// The same along the least numbers of the row, as `places` gives them. So a table is filled once for
    /// the length, its first number, and for the data.
    fn write_along(
        &self,
        row: &[u8],
        seed: &[u8],
        numbers: &[u16],
        out: &mut Vec<u8>,
    ) -> Result<(), AllocError>
        requires codable { IsCodable seed.now row.now }
        requires least { IsLeastTable (of self.now) seed.now row.now numbers.now }
        ensures ok { OnOk result (AppendsLeast (of self.now) seed.now row.now out.old.items out.new.items) }
        ensures err { OnErr result (out.new.items ≡ out.old.items) }
    {
        table::append_along(self.method(), row, seed, numbers, out)
    }
}

/// The coder of a method that is known when the program runs.
impl RowCoder for Method {
    ghost of = { λ method. method };

    fn method(&self) -> Method {
        *self
    }
}

/// No compression (method 0).
#[derive(Clone, Copy, Debug)]
pub struct Plain;

impl RowCoder for Plain {
    ghost of = { λ _. methods.Plain };

    fn method(&self) -> Method {
        Method::Plain
    }
}

/// Run-length (method 1).
#[derive(Clone, Copy, Debug)]
pub struct Runs;

impl RowCoder for Runs {
    ghost of = { λ _. methods.Runs };

    fn method(&self) -> Method {
        Method::Runs
    }
}

/// TIFF packbits (method 2).
#[derive(Clone, Copy, Debug)]
pub struct Packed;

impl RowCoder for Packed {
    ghost of = { λ _. methods.Packed };

    fn method(&self) -> Method {
        Method::Packed
    }
}

/// Delta row (method 3).
#[derive(Clone, Copy, Debug)]
pub struct Delta;

impl RowCoder for Delta {
    ghost of = { λ _. methods.Delta };

    fn method(&self) -> Method {
        Method::Delta
    }
}
