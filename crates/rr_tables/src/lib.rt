//! The tables of a store in memory: what the rules say of a request, its record kept before it counts, and the tables
//! in words for a checkpoint, with snapshots of their games. `records` says which records are lawful, which bytes show
//! a game, and what a file then keeps whatever comes. The crate knows no file: what keeps records is a `Journal`.
//!
//! Stands on `rr_game` and `rr_log`. Its promise: `Tables::take` takes a request if no rule refuses it and its record
//! was kept; a refusal changes nothing. Records lead from played tables to one world, never back, and are those of
//! lawful requests. A checkpoint is lent the tables and their snapshots.
#![tactic(auto)]

mod fault;
mod in_words;
mod journal;
mod lending;
pub mod records;
mod tables;
mod taking;

pub use fault::Fault;
pub use journal::{Journal, Standing};
pub use rr_reading::dir::MOST_TABLES;
pub use tables::Tables;
pub use taking::Taken;
