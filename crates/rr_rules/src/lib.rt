//! The rules of a table: which of them are in force, what they refuse, and how the table stands after a lawful command.
//! Names of players are seats here; `rr_books::Act` is a command in these terms.
//!
//! Stands on `rr_auction`, `rr_stock` and `rr_operate`; forced purchases and sales are its own (`forced`). Its promise:
//! `Standing::take` is refused exactly by `judgement`, except that 70 may come after the checks that allocate nothing,
//! and leads to `state_after`. In forced purchases, forced sales and bankruptcies 70 comes only if a train could be
//! owed (`forced::judge`).
#![tactic(auto)]

pub mod forced;
pub mod laws;
mod names;
mod parts;
mod rounds;
mod runs;
mod standing;

pub use parts::StandingParts;
pub use standing::{Standing, Taken};
