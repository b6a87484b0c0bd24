//! What every image of a store's file says: the layouts of its files, the worlds for which they stand, and what each
//! step of a commit and of a checkpoint leaves of them; and the law over schedules of such calls (`schedules`).
//! The crate has no code except laws: its calls do nothing, and their contracts hold of all files, images and worlds.
//!
//! Stands on `rr_pages` and `rr_disk`. Its promise: laws, for any codec. A file stands for at most one world.
//! Checkpoint steps and records leave files with the world from before, or with the record. For any schedule, an
//! opening gives a prefix with every acknowledged command.
#![tactic(auto)]

mod codec;
pub mod laws;
pub mod schedules;

pub use codec::Codec;
