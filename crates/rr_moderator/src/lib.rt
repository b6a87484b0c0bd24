//! The moderator: the reply to each line, over the store of the tables.
//!
//! Stands on `rr_store`, `rr_search` and `rr_serve`. Its promises:
//!
//! - `answer`, `line` and `serve` lose nothing that was acknowledged, and make at most one commit for a line, whose
//!   result the reply reports, whatever the file held (`Lasts`).
//! - They give exactly the replies that `Answers` allows, if the games in memory are what their commands play. Then only
//!   the query for a turn's entries may be answered 70 (`MeetsQuery`).
//! - All best runs earn the same, and no rule refuses one. `open` returns a right kit, and the tables for which the
//!   file stands.
#![tactic(auto)]

mod answering;
mod fault;
pub mod laws;
mod moderator;
mod reply;
mod searching;
mod summary;

pub use fault::Fault;
pub use moderator::Moderator;
pub use reply::{Reply, ShortReply};
pub use rr_store::{Refused, Texts, format};
pub use summary::Summary;
