//! The least lengths of row data, as the coders give them.

ghost use Rattle.pcl_coders.specs.Coding.{IsCodable, IsLeastLength};

use pcl_base::Method;
use pcl_coders::RowCoder;

/// What a plan asks of the coders of all methods.
pub trait LeastLengths {
    /// The least length of whole data of a method for a row, in bytes.
    fn least(&self, method: Method, row: &[u8], seed: &[u8]) -> u32
        requires { IsCodable seed.now row.now }
        ensures { IsLeastLength method seed.now row.now result };
}

/// The four coders.
#[derive(Clone, Copy)]
pub struct Coders;

impl LeastLengths for Coders {
    fn least(&self, method: Method, row: &[u8], seed: &[u8]) -> u32 {
        method.least(row, seed) as u32
    }
}
