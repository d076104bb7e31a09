//! Writing certificates.

ghost use Rattle.std.specs.Prelude.{◌≡◌, ℕ, ◌+◌, ◌^◌, ◌<◌, ◌≤◌, List, ◌++◌, length, take, OnOk, OnErr};
ghost use Rattle.std.specs.Int.{w32, to_be_bytes};
ghost use Rattle.pcl_base.specs.declared.dpi.Dpi.{Dpi};
ghost use Rattle.pcl_output.specs.declared.table.RowNumbers.{RowNumbers as Numbers};
ghost use Rattle.pcl_cert.specs.Certificates.{FitsFormat, FitFormat, HasProofMore, proof_in, proofs_in, proof_bytes, certificate_bytes, table_bytes, row_bytes, pair_bytes, lists_bytes};

use crate::format::Format;
use crate::page_proof::PageProof;
use pcl_output::{RowNumbers, Table};
use std::alloc::AllocError;

/// Appends the certificate of these pages in a format (docs/CERTIFICATE.md). The first format leaves row tables out; in the
/// second each page has them. Where memory runs out `out` stays as it was.
pub fn write_certificate(
    proofs: &[PageProof<'_>],
    format: Format,
    out: &mut Vec<u8>,
) -> Result<(), AllocError>
    requires { (dpi : Dpi) × FitFormat dpi format (proofs_in format proofs.now) }
    ensures ok { OnOk result (out.new.items ≡ out.old.items ++ certificate_bytes format (proofs_in format proofs.now)) }
    ensures err { OnErr result (out.new.items ≡ out.old.items) }
{
    let before = out.len();
    let written = append_certificate(proofs, format, out);
    if written.is_err() {
        out.truncate(before);
    }
    written
}

/// Adds a page to a certificate of a format. The certificate of some pages becomes that of these and this one. So a page's tables
/// need not stay until all pages are known. Where memory runs out the certificate stays as it was.
pub fn add_proof(
    proof: &PageProof<'_>,
    format: Format,
    certificate: &mut Vec<u8>,
) -> Result<(), AllocError>
    requires fits { (dpi : Dpi) × FitsFormat dpi format (proof_in format proof.now) }
    requires counted { 12 ≤ length certificate.old.items }
    ensures ok { OnOk result (HasProofMore format (proof_in format proof.now) certificate.old.items certificate.new.items) }
    ensures err { OnErr result (certificate.new.items ≡ certificate.old.items) }
    ensures counted { 12 ≤ length certificate.new.items }
{
    let before = certificate.len();
    let added = append_proof(proof, format, certificate);
    match added {
        Ok(()) => count_page(certificate),
        Err(_) => certificate.truncate(before),
    }
    added
}

/// Makes the count of pages one more, in the four bytes after the eight that tell the format.
fn count_page(certificate: &mut [u8])
    requires { 12 ≤ length certificate.old }
    ensures counted { (front rest : List ℕ) (pages : ℕ) → length front ≡ 8 → pages + 1 < 2 ^ 32
        → certificate.old ≡ front ++ to_be_bytes w32 pages ++ rest → certificate.new ≡ front ++ to_be_bytes w32 (pages + 1) ++ rest }
    ensures len { length certificate.new ≡ length certificate.old }
{
    let count = &mut certificate[8..12];
    let pages = u32::from_be_bytes([count[0], count[1], count[2], count[3]]);
    count.copy_from_slice(&pages.saturating_add(1).to_be_bytes());
}

/// Appends a certificate, or a prefix of it where memory runs out.
fn append_certificate(
    proofs: &[PageProof<'_>],
    format: Format,
    out: &mut Vec<u8>,
) -> Result<(), AllocError>
    requires { (dpi : Dpi) × FitFormat dpi format (proofs_in format proofs.now) }
    ensures ok { OnOk result (out.new.items ≡ out.old.items ++ certificate_bytes format (proofs_in format proofs.now)) }
    ensures front { take (length out.old.items) out.new.items ≡ out.old.items }
{
    out.extend_from_slice(format.magic())?;
    out.extend_from_slice(&(proofs.len() as u32).to_be_bytes())?;
    for proof in proofs {
        append_proof(proof, format, out)?;
    }
    Ok(())
}

/// Appends what is said of a page, or a prefix of it where memory runs out.
fn append_proof(proof: &PageProof<'_>, format: Format, out: &mut Vec<u8>) -> Result<(), AllocError>
    requires { (dpi : Dpi) × FitsFormat dpi format (proof_in format proof.now) }
    ensures ok { OnOk result (out.new.items ≡ out.old.items ++ proof_bytes (proof_in format proof.now)) }
    ensures front { take (length out.old.items) out.new.items ≡ out.old.items }
{
    out.extend_from_slice(&proof.text_len.to_be_bytes())?;
    out.extend_from_slice(&(proof.table.rows() as u16).to_be_bytes())?;
    append_table(&proof.table, out)?;
    if let (Format::Two, Some(places)) = (format, &proof.places) {
        places.append(out)?;
    }
    Ok(())
}

/// Appends the numbers of a table, or a prefix of them where memory runs out.
fn append_table(table: &Table, out: &mut Vec<u8>) -> Result<(), AllocError>
    ensures ok { OnOk result (out.new.items ≡ out.old.items ++ table_bytes table.now) }
    ensures front { take (length out.old.items) out.new.items ≡ out.old.items }
{
    for row in 0..=table.rows() {
        append_row(table.row(row), out)?;
    }
    Ok(())
}

/// Appends the numbers after some rows, or a prefix of them where memory runs out.
fn append_row(numbers: RowNumbers, out: &mut Vec<u8>) -> Result<(), AllocError>
    ensures ok { OnOk result (out.new.items ≡ out.old.items ++ row_bytes numbers) }
    ensures front { take (length out.old.items) out.new.items ≡ out.old.items }
{
    let RowNumbers { outside, inside } = numbers;
    append_pair(outside.plain, inside.plain, out)?;
    append_pair(outside.runs, inside.runs, out)?;
    append_pair(outside.packed, inside.packed, out)?;
    append_pair(outside.delta, inside.delta, out)
}

/// Appends the numbers of a method, or a prefix of them where memory runs out.
fn append_pair(outside: u32, inside: u32, out: &mut Vec<u8>) -> Result<(), AllocError>
    ensures ok { OnOk result (out.new.items ≡ out.old.items ++ pair_bytes outside inside) }
    ensures front { take (length out.old.items) out.new.items ≡ out.old.items }
{
    out.extend_from_slice(&outside.to_be_bytes())?;
    out.extend_from_slice(&inside.to_be_bytes())?;
    Ok(())
}
