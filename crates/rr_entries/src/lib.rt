//! The entries of a table's book: those with which a table opens, and the words of entries, by the
//! names of the players.
//!
//! Stands on `rr_auction`, `rr_desk` and `rr_orders`. Its promise: `opening_entries` returns the
//! entries with which a table opens, and `text_of` the words of entries (`book_words`).
#![tactic(auto)]

mod certificates;
mod entries;
pub mod laws;
mod opening;
mod places;

pub use entries::text_of;
pub use opening::opening_entries;
