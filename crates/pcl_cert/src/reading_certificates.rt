//! Reading certificates.

ghost use Rattle.std.specs.Prelude.{◌≡◌, ◌+◌, ◌*◌, ◌<◌, ◌≤◌, List, length, Ok, IfOk};
ghost use Rattle.pcl_base.specs.Size.{page_height, page_row_bytes};
ghost use Rattle.pcl_cert.specs.declared.format.Format.{Format as CertificateFormat};
ghost use Rattle.pcl_cert.specs.declared.page_proof.PageProof.{PageProof as Proof};
ghost use Rattle.pcl_cert.specs.Certificates.{AreProofs, certificate_bytes};
ghost use Rattle.pcl_cert.specs.CertificateFields.{size_with_height, ends_in_zero};
ghost use Rattle.pcl_cert.specs.RowTables.{numbers_from};
ghost use Rattle.pcl_cert.specs.ReadingCertificates.{Gives, contents_of, sized, table_at, list_at, lists_at, places_at, proof_at, proofs_at, certificate_at, beyond};

use crate::fault::CertFault;
use crate::fields::{format_at, row_numbers_at, uint_at, word_at};
use crate::format::Format;
use crate::page_proof::PageProof;
use crate::tables::{Bytes, RowTables, word};
use pcl_base::{Dpi, Size};
use pcl_output::Table;
use std::alloc::Global;

/// What a certificate says of each page, and its format. The pages are at this resolution (docs/CERTIFICATE.md). Row
/// tables stay in its bytes. A fault is that of the first field where something is wrong.
pub fn read_certificate(
    alloc: Global,
    bytes: &[u8],
    dpi: Dpi,
) -> Result<(Format, Vec<PageProof<'_>>), CertFault>
    // What is read is spelled so.
    ensures found { IfOk result (λ read. AreProofs dpi read.0 read.1.items × (bytes.now ≡ certificate_bytes read.0 read.1.items)) }
    // What is spelled so is read, unless memory runs out.
    ensures only { (format : CertificateFormat) (proofs : List Proof) → AreProofs dpi format proofs
        → bytes.now ≡ certificate_bytes format proofs → Gives contents_of result (Ok (format, proofs)) }
    // Which fault it is.
    ensures exact { Gives contents_of result (certificate_at dpi bytes.now) }
{
    read_all(alloc, bytes, dpi)
}

/// Reads all of the bytes.
#[tactic(auto, unfolding(crate::specs::ReadingCertificates::certificate_at))]
fn read_all(
    alloc: Global,
    bytes: &[u8],
    dpi: Dpi,
) -> Result<(Format, Vec<PageProof<'_>>), CertFault>
    ensures { Gives contents_of result (certificate_at dpi bytes.now) }
{
    let (format, rest) = format_at(bytes)?;
    let (count, rest) = uint_at(rest)?;
    let (proofs, rest) = proofs_at(alloc, count, dpi, format, rest)?;
    if !rest.is_empty() {
        return Err(CertFault::Extra);
    }
    Ok((format, proofs))
}

/// Reads what is said of this many pages.
fn proofs_at(
    alloc: Global,
    count: u32,
    dpi: Dpi,
    format: Format,
    bytes: &[u8],
) -> Result<(Vec<PageProof<'_>>, &[u8]), CertFault>
    ensures { Gives (λ x. (x.0.items, x.1.now)) result (proofs_at count dpi format bytes.now) }
{
    let mut proofs = Vec::new(alloc);
    let mut rest = bytes;
    for _ in 0..count {
        let (proof, after) = proof_at(alloc, dpi, format, rest)?;
        proofs.push(proof)?;
        rest = after;
    }
    Ok((proofs, rest))
}

/// Reads what is said of a page.
#[tactic(auto, unfolding(crate::specs::ReadingCertificates::proof_at))]
fn proof_at(
    alloc: Global,
    dpi: Dpi,
    format: Format,
    bytes: &[u8],
) -> Result<(PageProof<'_>, &[u8]), CertFault>
    ensures { Gives (λ x. (x.0, x.1.now)) result (proof_at dpi format bytes.now) }
{
    let (text_len, rest) = uint_at(bytes)?;
    let (rows, rest) = word_at(rest)?;
    let size = size_with_height(u32::from(rows), dpi)?;
    let (table, rest) = table_at(alloc, size.height(dpi), rest)?;
    let (places, rest) = places_at(alloc, format, size.height(dpi), size.row_bytes(dpi), rest)?;
    let proof = PageProof {
        text_len,
        table,
        places,
    };
    Ok((proof, rest))
}

/// The size of pages with this many rows.
fn size_with_height(rows: u32, dpi: Dpi) -> Result<Size, CertFault>
    ensures size { Gives (λ size. size) result (sized (size_with_height dpi rows)) }
    ensures height { IfOk result (λ size. page_height size dpi ≡ rows) }
{
    if rows == Size::Executive.height(dpi) {
        Ok(Size::Executive)
    } else if rows == Size::Letter.height(dpi) {
        Ok(Size::Letter)
    } else if rows == Size::Legal.height(dpi) {
        Ok(Size::Legal)
    } else if rows == Size::A4.height(dpi) {
        Ok(Size::A4)
    } else {
        Err(CertFault::Rows)
    }
}

/// Reads the table of a page of this many rows.
fn table_at(alloc: Global, rows: u32, bytes: &[u8]) -> Result<(Table, &[u8]), CertFault>
    requires { rows ≤ 10000 }
    ensures { Gives (λ x. (x.0, x.1.now)) result (table_at (rows + 1) bytes.now) }
{
    let mut numbers = Vec::new(alloc);
    let mut rest = bytes;
    for _ in 0..rows + 1 {
        let (row, after) = row_numbers_at(rest)?;
        numbers.push(row)?;
        rest = after;
    }
    Ok((Table::of(numbers), rest))
}

/// Reads the row tables of a page of this many rows of this many bytes, where the format has any.
#[tactic(auto, unfolding(crate::specs::ReadingCertificates::places_at))]
fn places_at(
    alloc: Global,
    format: Format,
    rows: u32,
    row_bytes: usize,
    bytes: &[u8],
) -> Result<(Option<RowTables<'_>>, &[u8]), CertFault>
    requires { rows ≤ 10000 }
    ensures { Gives (λ x. (x.0, x.1.now)) result (places_at format rows row_bytes bytes.now) }
{
    match format {
        Format::One => Ok((None, bytes)),
        Format::Two => {
            let (tables, rest) = lists_at(alloc, rows, row_bytes, bytes)?;
            Ok((Some(tables), rest))
        }
    }
}

/// Reads four lists of at most this many numbers for each row.
fn lists_at(
    alloc: Global,
    rows: u32,
    most: usize,
    bytes: &[u8],
) -> Result<(RowTables<'_>, &[u8]), CertFault>
    requires { rows ≤ 10000 }
    ensures { Gives (λ x. (x.0, x.1.now)) result (lists_at (4 * rows) most bytes.now) }
{
    let mut starts = Vec::new(alloc);
    let mut rest = bytes;
    for _ in 0..4 * rows {
        starts.push(bytes.len() - rest.len())?;
        rest = after_list(rest, most)?;
    }
    Ok((RowTables::within(Bytes::Lent(bytes), starts), rest))
}

/// The bytes after a list of at most this many numbers.
#[tactic(auto, unfolding(crate::specs::ReadingCertificates::list_at))]
fn after_list(bytes: &[u8], most: usize) -> Result<&[u8], CertFault>
    ensures { Gives (λ rest. rest.now) result (beyond (list_at most bytes.now)) }
{
    let (count, rest) = word_at(bytes)?;
    let count = usize::from(count);
    if count > most {
        return Err(CertFault::Places);
    }
    if rest.len() < 2 * count {
        return Err(CertFault::Short);
    }
    let (numbers, rest) = rest.split_at(2 * count);
    if ends_in_zero(numbers, count) {
        return Err(CertFault::Places);
    }
    Ok(rest)
}

/// Whether the last of `count` numbers of two bytes is 0.
fn ends_in_zero(numbers: &[u8], count: usize) -> bool
    requires { length numbers.now ≡ 2 * count }
    ensures { result ≡ ends_in_zero (numbers_from count numbers.now) }
{
    match count {
        0 => false,
        _ => word(numbers, 2 * (count - 1)) == 0,
    }
}
