//! The corporations' tokens on the stock chart: their prices and zones, how they move, and the operating order; and how
//! far the operating rounds have come (`operations`).
//!
//! Stands on `rr_roster`, `rr_books` and `rr_rounds`. Its promise: moves, prices, zones, pars and the operating order
//! are the book's, whatever entries follow (`IsMarketOf`); the order is strict. So are phase, set, round, the
//! corporation due, its step, debts and bankruptcies (`IsOperationsOf`).
#![tactic(auto)]

mod arrivals;
pub mod laws;
mod market;
mod moves;
pub mod operations;
mod order;
mod parts;

pub use market::{Market, Token};
pub use moves::par_cell;
pub use order::OperatingOrder;
pub use parts::MarketParts;
pub use rr_books::{Cell, Corp};
pub use rr_roster::chart::{Chart, Zone};
