//! How far the auction of a table has come, which stands for its book: the bids, the turns, and who owes a par.
//!
//! Stands on `rr_books`. Its promise: `IsBiddingOf`, kept by `follow` for any entry.

mod bidding;
mod bids;
mod parts;
mod unsold;

pub use bidding::Bidding;
pub use parts::BiddingParts;
pub use unsold::{cheapest, is_cheapest, is_unsold, same_private};
