//! The bytes of a store's directory, which says where its kit, its tables and the snapshots of
//! their games stand, and of the commands that a table
//! keeps. Each value has one spelling.
//!
//! Its promise: `Dir::read` and `Dir::write`, inverse of one another.

mod directory;
mod fault;
mod kept;
pub mod laws;
mod reading;
mod version;
mod writing;

pub use directory::{
    ChainRef, Dir, KitChains, MOST_KEPT, MOST_SNAPSHOT_BYTES, MOST_SNAPSHOTS, MOST_TABLES,
    MOST_TEXT, SnapshotEntry, TableEntry,
};
pub use fault::Fault;
pub(crate) use kept::first_command;
pub use version::{NEWEST, Version};
