//! The row tables of a page.

ghost use Rattle.std.specs.Prelude.{◌≡◌, ◌++◌, ◌+◌, ◌*◌, ◌/◌, ◌^◌, ◌<◌, ◌≤◌, ◌↔◌, [], length, take, drop, IsTrue, OnOk};
ghost use Rattle.std.specs.Int.{w16, from_be_bytes};
ghost use Rattle.pcl_cert.specs.RowTables.{numbers_from, list_of, number_at_place};
ghost use Rattle.pcl_cert.specs.TablesModel.{contents, count_at_front, list_from, lists_within, IsListAt};
ghost use Rattle.std.specs.List.{flat_map, AllByRecursion};
ghost use Rattle.pcl_cert.specs.Certificates.{list_bytes};
ghost use Rattle.pcl_cert.specs.PageTables.{table_of};

use pcl_base::Method;
use std::alloc::AllocError;
use std::marker::Model;

/// Bytes that are kept or lent.
#[derive(Drop, Debug)]
pub enum Bytes<'a> {
    Kept(Vec<u8>),
    Lent(&'a [u8]),
}

impl<'a> Bytes<'a> {
    /// The bytes.
    pub fn as_slice(&self) -> &[u8]
        ensures { result.now ≡ contents self.now }
    {
        match self {
            Bytes::Kept(bytes) => bytes.as_slice(),
            Bytes::Lent(bytes) => bytes,
        }
    }
}

/// For each row of a page and each method a list of numbers, one for each place of the row; those after the list's end
/// are 0 (docs/CERTIFICATE.md, "Row tables"). The lists of a certificate stay in its bytes.
#[derive(Drop, Debug)]
pub struct RowTables<'a> {
    // Each list as it stands in a certificate: how many numbers, and these.
    bytes: Bytes<'a>,
    // Where the lists begin: for each row those of methods 0 to 3 in turn.
    starts: Vec<usize>,
}

impl<'a> Model for RowTables<'a> {
    ghost use Rattle.std.specs.Prelude.{ℕ, List};
    ghost use Rattle.pcl_cert.specs.TablesModel.{tables_view, AreTables};

    ghost Value = { List (List ℕ) };

    ghost view = { tables_view };

    ghost invariant = { AreTables };
}

impl<'a> RowTables<'a> {
    ghost use Rattle.std.specs.Prelude.{ℕ};

    /// Row tables whose lists stand in these bytes, from these places on. There are four for each
    /// row.
    pub fn within(bytes: Bytes<'a>, starts: Vec<usize>) -> RowTables<'a>
        requires rows { (rows : ℕ) × (rows ≤ 10000) × (length starts.items ≡ 4 * rows) }
        requires lists { AllByRecursion (IsListAt (contents bytes)) starts.items }
        ensures { result ≡ lists_within (contents bytes.entry) starts.items }
    {
        RowTables { bytes, starts }
    }

    /// The number of a place in the table of a row and a method.
    pub fn number(&self, row: u32, method: Method, place: u32) -> u16
        requires { 4 * row + 4 ≤ length self.now }
        ensures { result ≡ number_at_place self.now row method place }
    {
        let list = 4 * row as usize + method.code() as usize;
        let bytes = self.bytes.as_slice();
        let start = self.starts[list];
        if place < u32::from(word(bytes, start)) {
            word(bytes, start + 2 + 2 * place as usize)
        } else {
            0
        }
    }

    /// Writes out the table of a row and a method. It has a number for each place.
    pub fn copy_table(&self, row: u32, method: Method, out: &mut [u16])
        requires row { 4 * row + 4 ≤ length self.now }
        requires few { length out.old < 2 ^ 32 }
        ensures { out.new ≡ table_of (length out.old) (list_of self.now row method) }
    {
        let list = 4 * row as usize + method.code() as usize;
        copy_numbers(numbers_at(self.bytes.as_slice(), self.starts[list]), out);
    }

    /// Whether the list of a row and a method has no number. Then all of its table are 0.
    pub fn is_empty(&self, row: u32, method: Method) -> bool
        requires { 4 * row + 4 ≤ length self.now }
        ensures { IsTrue result ↔ (list_of self.now row method ≡ []) }
    {
        let list = 4 * row as usize + method.code() as usize;
        numbers_at(self.bytes.as_slice(), self.starts[list]).is_empty()
    }

    /// Appends the lists as they stand in a certificate. Where memory runs out a prefix of them is
    /// appended.
    pub fn append(&self, out: &mut Vec<u8>) -> Result<(), AllocError>
        ensures ok { OnOk result (out.new.items ≡ out.old.items ++ flat_map list_bytes self.now) }
        ensures front { take (length out.old.items) out.new.items ≡ out.old.items }
    {
        append_lists(self.bytes.as_slice(), &self.starts, out)
    }

    /// How many rows the page has.
    pub fn rows(&self) -> u32
        ensures { 4 * result ≡ length self.now }
    {
        (self.starts.len() / 4) as u32
    }
}

/// Appends the lists that begin at these places, or a prefix of them where memory runs out.
fn append_lists(bytes: &[u8], starts: &[usize], out: &mut Vec<u8>) -> Result<(), AllocError>
    requires { AllByRecursion (IsListAt bytes.now) starts.now }
    ensures ok { OnOk result (out.new.items ≡ out.old.items ++ flat_map list_bytes (lists_within bytes.now starts.now)) }
    ensures front { take (length out.old.items) out.new.items ≡ out.old.items }
{
    for start in starts {
        out.extend_from_slice(list_at(bytes, *start))?;
    }
    Ok(())
}

/// The bytes of the list that begins at a place.
fn list_at(bytes: &[u8], start: usize) -> &[u8]
    requires { IsListAt bytes.now start }
    ensures { result.now ≡ list_bytes (list_from (drop start bytes.now)) }
{
    let numbers = usize::from(word(bytes, start));
    &bytes[start..start + 2 + 2 * numbers]
}

/// The bytes of the numbers of the list that begins at a place.
fn numbers_at(bytes: &[u8], start: usize) -> &[u8]
    requires { IsListAt bytes.now start }
    ensures size { length result.now ≡ 2 * count_at_front (drop start bytes.now) }
    ensures numbers { numbers_from (length result.now / 2) result.now ≡ list_from (drop start bytes.now) }
{
    let count = usize::from(word(bytes, start));
    &bytes[start + 2..start + 2 + 2 * count]
}

/// Writes out numbers of two bytes each, and 0 after them.
fn copy_numbers(bytes: &[u8], out: &mut [u16])
    ensures { out.new ≡ table_of (length out.old) (numbers_from (length bytes.now / 2) bytes.now) }
{
    let count = (bytes.len() / 2).min(out.len());
    for place in 0..count {
        out[place] = word(bytes, 2 * place);
    }
    for place in count..out.len() {
        out[place] = 0;
    }
}

/// The number in the two bytes from a place on.
pub fn word(bytes: &[u8], place: usize) -> u16
    requires { place + 2 ≤ length bytes.now }
    ensures { result ≡ from_be_bytes w16 (take 2 (drop place bytes.now)) }
{
    u16::from_be_bytes([bytes[place], bytes[place + 1]])
}
