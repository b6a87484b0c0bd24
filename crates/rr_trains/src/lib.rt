//! Which trains are where, what is on sale, what the phase of the game allows, and what the first train of a kind
//! brings about; and what a corporation buys and gives up (`depot`).
//!
//! Stands on `rr_desk` and `rr_market`. Its promise: `train_limit`, `is_on_sale`, `cheapest` and `first_train` are each
//! exactly their definition. Purchases, trades and discards are refused exactly by their verdict over the book, and add
//! exactly their entries (`depot::judge`, `depot::play`).
#![tactic(auto)]

pub mod depot;
mod firsts;
pub mod laws;
mod phases;
mod places;
mod prices;
mod sales;

pub use firsts::{first_train, give_lowest_train};
pub use phases::{is_over_train_limit, sells_privates, train_limit};
pub use places::{has_train_at, lowest_train, trains_at, trains_held};
pub use prices::{TrainOnSale, cheapest, is_traded_in, price, trade_price};
pub use rr_books::{Books, Corp, Kind, Place, Train, TrainSource};
pub use rr_desk::Desk;
pub use rr_market::operations::{is_sold, phase, rounds_in_set};
pub use sales::is_on_sale;
