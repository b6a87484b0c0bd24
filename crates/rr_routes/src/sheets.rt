//! The words of sheets and certificates: which links each train runs over, and the tree that shows that no run earns
//! more.
//!
//! Stands on `CertTree`, `rr_roster` and `rr_words`. Its promise: sheets and certificates are read exactly where they
//! are spelled, and written as that text; and whether a text has their form is told without memory.

mod certificate;
mod fault;
mod forest;
mod form;
pub mod laws;
mod sheet;
mod word;
mod writing;

pub use certificate::{read_certificate, write_certificate};
pub use fault::Fault;
pub use form::{is_certificate, is_sheet};
pub use sheet::{LinkNumbers, Sheet, TrainWord};
