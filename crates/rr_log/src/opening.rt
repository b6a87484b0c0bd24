//! The opening of a store's file: after one sync the file is read, and what it holds is given with a writer that goes
//! on behind its last record. It is generic in the disk and in the codec of the file; no rule of the game is needed.
//!
//! Its promise: the clauses `holds` and `carries` of `open_file`: what is given is what the file holds, and where the
//! file is one of ours, the writer carries its world.

mod file;
pub mod laws;
mod opened;
mod place;
mod standing;

pub use file::open_file;
pub use opened::Opened;
