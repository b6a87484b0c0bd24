//! The books of a table: a list of entries, oldest first, and the running balances and places that stand for it.
//!
//! Stands on `rr_words` and `rr_roster`. Its promise: balances and places are those of any list of entries
//! (`IsStateOf`, `Extends`). Payments among a table's parties keep the sum.
#![tactic(auto)]

mod acts;
mod bytes;
mod certificates;
mod clause;
mod entries;
pub mod laws;
mod ledger;
mod parties;
mod parts;
mod refusal;
mod seating;
mod start;

pub use acts::{Act, Names, Words};
pub use certificates::{Cert, ShareNumber, Train};
pub use clause::Clause;
pub use entries::{Cell, Entry, Marker};
pub use ledger::Books;
pub use parties::{Money, Party, Place, Seat};
pub use parts::BooksParts;
pub use refusal::Refusal;
pub use rr_roster::{Corp, Kind, Private, ShareSource, TrainSource};
pub use seating::left_of;
pub use start::{certificate_limit, starting_money};
