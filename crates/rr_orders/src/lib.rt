//! What is ordered in a corporation's turn of an operating round: one spelling for each order. A line is read word by
//! word (`scan`).
//!
//! Stands on `rr_routes`, `rr_roster` and `rr_words`. Its promise: `Order::read` reads exactly what is spelled, else
//! the line is malformed. An order has one text (`laws::one_spelling`).
#![tactic(auto)]

mod forced;
pub mod laws;
mod order;
mod runs;
pub mod scan;
mod texts;
mod tiles;
mod trains;
mod turns;

pub use order::Order;
pub use texts::{CertificateWords, SheetWords};
