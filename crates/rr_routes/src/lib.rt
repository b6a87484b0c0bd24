//! Routes, runs and their revenue, and certificates that no run earns more, with the law that such a certificate is
//! right; their words (`sheets`), and what is reached in a graph (`reachability`).
//!
//! Stands on `rr_words` and `rr_roster`, for `sheets` alone. Its promise: a certificate that is accepted for a claim
//! proves that no run earns more, for every net, claim and tree (`laws::optimal`). Their words are read and written
//! exactly as spelled. `reached` marks exactly what is reached in a graph.
#![tactic(auto)]

mod certificate;
pub mod laws;
mod net;
pub mod reachability;
pub mod sheets;

pub use certificate::{CertTree, Fate, MOST_NODES};
pub use net::{CentreLimit, Link, Node};
