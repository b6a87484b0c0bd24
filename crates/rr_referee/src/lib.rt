//! Sheets of runs: whether a sheet is that of a lawful run, what the run earns, and the law of certificates for sheets.
//! And whether a corporation has a route (`trips`).
//!
//! Stands on `rr_checker` and `rr_routes`. Its promise: `legal` returns the revenue of a lawful run's sheet
//! (`IsLegal`), or the first clause that the sheet breaks (`Breaks`). `has_route` is exact; its time has no bound.
#![tactic(auto)]

mod apart;
mod course;
mod judge;
pub mod laws;
mod limit;
mod revenue;
pub mod trips;
mod word;

pub use judge::legal;
pub use limit::limit_of_kind;
pub use rr_checker::{CentreLimit, CertTree, Fate, Link, Net, Node, check};
pub use rr_routes::sheets::{LinkNumbers, Sheet, TrainWord};
