//! The file of a crash-safe store, over worlds in words: making a new one (`formatting`), opening one (`opening`), and
//! in an open one (`Log`) keeping records and making checkpoints in ticks, of the tables that the caller lends in
//! words. It knows no game and no command: its rules say which lines lead from world to world.
//!
//! Stands on `rr_checkpoint` and `rr_reading`. Its promises:
//!
//! - On an honest disk that carries its world, whatever a crash leaves of `Log::keep`, `Log::tick` and
//!   `Log::checkpoint` keeps the world from before, or for a record the one with it. A record makes at most two writes
//!   and two syncs, a tick one of each.
//! - After a success of `Log::keep` a checkpoint that was due is under way, or it returns that the first tick was put
//!   off since the file is full, which is so then, or for memory (`BeginsIfDue`).
//! - A file counts as full only if a checkpoint makes no room, or no number is left. A call that answers 60 counts one
//!   fault, any other none; no 60 comes from such a disk while it works. A file grows only if no data page below its
//!   new end is free (`Grows`).
//! - `open_file` makes one sync, then only reads, and returns what the file holds. A file that stands for a world is
//!   refused only with 60 or 70. `format` leaves the whole new file, or no store.
#![tactic(auto)]

mod fault;
pub mod formatting;
mod keeping;
mod log;
pub mod opening;
mod planning;
mod tables;
mod ticking;

pub use fault::Fault;
pub use keeping::PutOff;
pub use log::Log;
pub use tables::TablesInWords;
