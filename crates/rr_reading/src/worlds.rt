//! The worlds of a store as its file holds them: the texts of its kit, and its tables with what they keep, each command
//! by its words. A directory and its chains spell a world, and each world that is within their limits has one spelling.
//! The kit's texts keep their chains at a checkpoint, and each table's chain is written.
//!
//! Its promise: `laws::worlds_are_read_back`, which a checkpoint needs of the directory that it writes.

pub mod laws;
mod rules;

pub use rules::{Rules, Worlds};
