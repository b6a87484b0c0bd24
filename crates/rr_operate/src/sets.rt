//! The sequence of play behind a stock round: sets of operating rounds, what each of them begins with, and what follows
//! by itself where no corporation has a turn left.
//!
//! Stands on `rr_desk`, `rr_market` and `rr_kit`. Its promise: `go_on_in_stock_round` and `go_on_in_operating_round`
//! `Takes` exactly their effects.

mod following;
pub mod laws;
mod rounds;
mod tokens;

pub use following::{go_on_in_operating_round, go_on_in_stock_round};
