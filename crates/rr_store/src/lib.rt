//! The crash-safe store of a club's tables: the world of the requests that one file accepted, whatever a stop leaves of
//! it. `recovery` says what an opening makes of the file's bytes by the rules of the game.
//!
//! Stands on `rr_tables` and `rr_log`. Its promises:
//!
//! - `Store::commit`: each image of each moment stands for the tables before it, or with the one pending lawful
//!   request; after success with it (`CommitAllows`). `Commits` counts its calls. 70 changes nothing, unless the half
//!   has no room after it, and the request is lawful if tables were played.
//! - A commit is judged by the rules of each book for which the position in memory stands, whatever the file had, except
//!   that a lawful take-back may be refused. 52, 54, 66 and 68 come first. Only success changes a table (`Commits`).
//! - After a success of `Store::commit` a checkpoint that was due is under way, or `Store::put_off` says that its first
//!   step was put off since the file is full, which is so then, or for memory.
//! - `Store::tick` and `Store::checkpoint`: each image stands for the same tables, and after the last step has a newer
//!   root (`Steps`).
//! - `open` makes one sync and no write, and answers as `OpenAllows` says; 70 comes only if a root is current.
//!   `Store::replayed` counts the commands after each table's last snapshot, all of a table that lacks one, and those
//!   of the records.
//! - Commits, ticks and checkpoints that succeed keep the rule that a root has exactly the required snapshots, also for
//!   the next root, and a crash within one leaves such a root (`KeepsNames`). `format` leaves the whole new file, or no
//!   store; `format_as` too, of version 1 or 2.
#![tactic(auto)]

mod fault;
mod formatting;
mod found;
mod journal;
mod keeping;
pub mod laws;
mod opening;
pub mod recovery;
mod store;
mod texts;

pub use fault::Fault;
pub use formatting::{format, format_as};
pub use opening::{Refused, open};
pub use rr_checkpoint::Tick;
pub use rr_game::history::Table;
pub use rr_log::PutOff;
pub use store::Store;
pub use texts::Texts;
