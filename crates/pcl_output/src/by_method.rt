//! Numbers by method.

ghost use Rattle.std.specs.Prelude.{◌≡◌, ◌≢◌, ◌+◌, ◌^◌, ◌<◌, min};
ghost use Rattle.pcl_base.specs.declared.method.Method.{Method as RowMethod};

use pcl_base::Method;

/// A number for each method of row data.
#[derive(Clone, Copy, Debug)]
pub struct ByMethod {
    pub plain: u32,
    pub runs: u32,
    pub packed: u32,
    pub delta: u32,
}

impl ByMethod {
    ghost use Rattle.pcl_output.specs.Table.{by_method, all_alike};

    /// The same number for all methods.
    pub const fn alike(number: u32) -> ByMethod
        ensures { result ≡ all_alike number }
    {
        ByMethod {
            plain: number,
            runs: number,
            packed: number,
            delta: number,
        }
    }

    /// The lesser of each number and `most`.
    pub fn at_most(self, most: u32) -> ByMethod
        ensures { (method : RowMethod) → by_method result method ≡ min (by_method self method) most }
    {
        ByMethod {
            plain: self.plain.min(most),
            runs: self.runs.min(most),
            packed: self.packed.min(most),
            delta: self.delta.min(most),
        }
    }

    /// Each number, and `more`.
    pub fn plus(self, more: u32) -> ByMethod
        requires { (method : RowMethod) → by_method self method + more < 2 ^ 32 }
        ensures { (method : RowMethod) → by_method result method ≡ by_method self method + more }
    {
        ByMethod {
            plain: self.plain + more,
            runs: self.runs + more,
            packed: self.packed + more,
            delta: self.delta + more,
        }
    }

    /// The number of a method.
    pub fn get(&self, method: Method) -> u32
        ensures { result ≡ by_method self.now method }
    {
        match method {
            Method::Plain => self.plain,
            Method::Runs => self.runs,
            Method::Packed => self.packed,
            Method::Delta => self.delta,
        }
    }

    /// Changes the number of a method.
    pub fn set(&mut self, method: Method, number: u32)
        ensures changed { by_method self.new method ≡ number }
        ensures others { (other : RowMethod) → other ≢ method → by_method self.new other ≡ by_method self.old other }
    {
        match method {
            Method::Plain => self.plain = number,
            Method::Runs => self.runs = number,
            Method::Packed => self.packed = number,
            Method::Delta => self.delta = number,
        }
    }
}
