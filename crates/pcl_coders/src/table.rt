//! Tables of least numbers, and data along them.

ghost use Rattle.std.specs.Prelude.{◌≡◌, ◌+◌, ◌≤◌, ◌++◌, length, take, replicate, slice_index, OnOk, OnErr};
ghost use Rattle.pcl_base.specs.Limits.{row_limit};
ghost use Rattle.pcl_base.specs.declared.method.Method.TheVariants as methods;
ghost use Rattle.pcl_rows.specs.Decoding.{base};
ghost use Rattle.pcl_coders.specs.RowWalks.{IsLeastTable};
ghost use Rattle.pcl_coders.specs.Coding.{IsCodable, IsLeastLength, AppendsLeast};
ghost use Rattle.pcl_coders.specs.inner.Filling.{AreRightFrom, AppendsWalk, IsFirstEnd};

use crate::choice::Choice;
use crate::fill::{fill_before, needed_len};
use pcl_base::{Method, ROW_LIMIT};
use std::alloc::AllocError;

/// Fills in the least number of bytes of each place of a row, and of its end.
pub fn fill(method: Method, row: &[u8], seed: &[u8], out: &mut [u16])
    requires codable { IsCodable seed.now row.now }
    requires size { length out.old ≡ length row.now + 1 }
    ensures { IsLeastTable method seed.now row.now out.new }
{
    fill_before(method, row, seed, needed_len(method, row, seed), out);
}

/// The least length of whole data for a row.
pub fn least(method: Method, row: &[u8], seed: &[u8]) -> usize
    requires { IsCodable seed.now row.now }
    ensures { IsLeastLength method seed.now row.now result }
{
    let end = needed_len(method, row, seed);
    if end == 0 {
        return 0;
    }
    match method {
        Method::Plain => end,
        Method::Runs | Method::Packed | Method::Delta => {
            let mut numbers = [0; ROW_LIMIT + 1];
            least_in(method, row, seed, end, &mut numbers[..row.len() + 1])
        }
    }
}

/// The same, in a lent table, where no more data is needed from `end` on.
fn least_in(method: Method, row: &[u8], seed: &[u8], end: usize, numbers: &mut [u16]) -> usize
    requires codable { IsCodable seed.now row.now }
    requires size { length numbers.old ≡ length row.now + 1 }
    requires end { IsFirstEnd (base method seed.now) row.now end }
    ensures { IsLeastLength method seed.now row.now result }
{
    fill_before(method, row, seed, end, numbers);
    usize::from(numbers[0])
}

/// Appends whole data of least length for a row.
pub fn append(method: Method, row: &[u8], seed: &[u8], out: &mut Vec<u8>) -> Result<(), AllocError>
    requires { IsCodable seed.now row.now }
    ensures ok { OnOk result (AppendsLeast method seed.now row.now out.old.items out.new.items) }
    ensures err { OnErr result (out.new.items ≡ out.old.items) }
{
    match method {
        Method::Plain => append_trimmed(row, seed, out),
        Method::Runs | Method::Packed | Method::Delta => {
            let mut numbers = [0; ROW_LIMIT + 1];
            append_in(method, row, seed, &mut numbers[..row.len() + 1], out)
        }
    }
}

/// Appends a row up to where no more of it is needed, which is its data in method 0.
fn append_trimmed(row: &[u8], seed: &[u8], out: &mut Vec<u8>) -> Result<(), AllocError>
    requires { IsCodable seed.now row.now }
    ensures ok { OnOk result (AppendsLeast methods.Plain seed.now row.now out.old.items out.new.items) }
    ensures err { OnErr result (out.new.items ≡ out.old.items) }
{
    let end = needed_len(Method::Plain, row, seed);
    out.extend_from_slice(&row[..end])?;
    Ok(())
}

/// The same, in a lent table.
fn append_in(
    method: Method,
    row: &[u8],
    seed: &[u8],
    numbers: &mut [u16],
    out: &mut Vec<u8>,
) -> Result<(), AllocError>
    requires codable { IsCodable seed.now row.now }
    requires size { length numbers.old ≡ length row.now + 1 }
    ensures ok { OnOk result (AppendsLeast method seed.now row.now out.old.items out.new.items) }
    ensures err { OnErr result (out.new.items ≡ out.old.items) }
{
    fill(method, row, seed, numbers);
    append_along(method, row, seed, numbers, out)
}

/// Appends whole data of least length along the least numbers of a row.
pub fn append_along(
    method: Method,
    row: &[u8],
    seed: &[u8],
    numbers: &[u16],
    out: &mut Vec<u8>,
) -> Result<(), AllocError>
    requires codable { IsCodable seed.now row.now }
    requires least { IsLeastTable method seed.now row.now numbers.now }
    ensures ok { OnOk result (AppendsLeast method seed.now row.now out.old.items out.new.items) }
    ensures err { OnErr result (out.new.items ≡ out.old.items) }
{
    if let Method::Plain = method {
        return append_trimmed(row, seed, out);
    }
    let zeros = [0; ROW_LIMIT];
    let old = base_row(method, seed, &zeros);
    let start = out.len();
    let appended = append_steps(method, old, row, numbers, out);
    if appended.is_err() {
        out.truncate(start);
    }
    appended
}

/// The row before its data comes: zeros, and the seed row in method 3. `zeros` are as many as the longest row has bytes,
/// `ROW_LIMIT`.
pub fn base_row<'a>(method: Method, seed: &'a [u8], zeros: &'a [u8]) -> &'a [u8]
    requires zeros { zeros.now ≡ replicate row_limit 0 }
    requires small { length seed.now ≤ row_limit }
    ensures { result.now ≡ base method seed.now }
{
    match method {
        Method::Plain | Method::Runs | Method::Packed => &zeros[..seed.len()],
        Method::Delta => seed,
    }
}

/// Appends the best element of each place, up to where no more data is needed. Where memory runs out, some
/// of the bytes may stand there.
pub fn append_steps(
    method: Method,
    old: &[u8],
    row: &[u8],
    numbers: &[u16],
    out: &mut Vec<u8>,
) -> Result<(), AllocError>
    requires same { length old.now ≡ length row.now }
    requires small { length row.now ≤ row_limit }
    requires size { length numbers.now ≡ length row.now + 1 }
    requires right { AreRightFrom method old.now row.now numbers.now 0 }
    ensures ok { OnOk result (AppendsWalk method old.now row.now numbers.now out.old.items out.new.items) }
    ensures err { OnErr result (take (length out.old.items) out.new.items ≡ out.old.items) }
{
    let mut place = 0;
    while numbers[place] > 0 {
        let wanted = &row[place..];
        let choice = Choice::along(method, &old[place..], wanted, &numbers[place..]);
        choice.shape.append(wanted, out)?;
        place += choice.shape.stop();
    }
    Ok(())
}
