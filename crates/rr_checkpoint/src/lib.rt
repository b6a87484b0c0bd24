//! What is done to the file of a store that is open: records are appended, and checkpoints are made in steps of at most
//! one write and one sync, over any disk and any codec of the file. `plan` makes the plan of a checkpoint from the
//! tables of a world and snapshots of their games; `laws` says which of these snapshots the file has already.
//!
//! Stands on `rr_reading`, `rr_pages` and the laws of `rr_images`. Its promises:
//!
//! - On an honest disk that carries a world, during `Writer::tick` each image keeps that world, during `Writer::append`
//!   that or the one with the record. A tick makes at most one write and one sync.
//! - A checkpoint of p fresh pages has p + 4 ticks, or p + 3 if an opening found it begun; then each image has a newer
//!   root. `plan_checkpoint` keeps the pages of the kit and of every stored snapshot with the same bytes. It finds the
//!   file full only if fewer pages are free than needed.
#![tactic(auto)]

mod checkpoint;
pub mod laws;
mod open_file;
mod place;
pub mod plan;
mod writer;

pub use checkpoint::Plan;
pub use place::Place;
pub use writer::{Tick, Writer};
