//! Certificates of page texts: their bytes, and a checker whose yes is a proof that no text of the output grammar that
//! prints the page is shorter, whoever made the certificate (docs/CERTIFICATE.md).
#![tactic(auto)]

mod check;
mod fault;
mod fields;
mod format;
mod listing;
mod page_proof;
mod page_tables;
mod reading_certificates;
mod tables;
mod writing_certificates;

pub use check::{
    Verdict, check_page, proved_tables_are_feasible, proved_texts_are_least, tables_are_proved,
    tables_can_be_certified,
};
pub use fault::CertFault;
pub use format::Format;
pub use page_proof::PageProof;
pub use page_tables::row_tables;
pub use reading_certificates::read_certificate;
pub use tables::RowTables;
pub use writing_certificates::{add_proof, write_certificate};
