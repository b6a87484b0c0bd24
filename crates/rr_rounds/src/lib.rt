//! How far the stock rounds of a table have come: whose turn it is, who passed, who sold what, who has priority; and
//! how far its auction has (`bids`).
//!
//! Stands on `rr_books`. Its promise: bids and turns of the auction (`IsBiddingOf`), and the progress of the stock
//! rounds (`IsRoundOf`), are the book's, whatever entries follow.
#![tactic(auto)]

pub mod bids;
pub mod laws;
mod parts;
mod purchases;
mod rounds;
mod sales;

pub use parts::RoundsParts;
pub use purchases::Purchases;
pub use rounds::Rounds;
