//! What an opening reads of a store's file before the rules judge it: the current root, its directory (`dir`), the
//! chains that this names, and the records of both halves; or the least clause of damage that the bytes alone decide.
//! Also the worlds that such files spell, in words (`worlds`), and chains that lend their bytes (`lending`).
//!
//! Stands on `rr_images` and `rr_pages`. Its promise: `read_file` returns exactly what the file holds, or the least of
//! clauses 1 to 5 that it breaks (`Reads`). In each of its two versions a directory has one spelling. What a checkpoint
//! writes is read back as the same world.
#![tactic(auto)]

mod chains;
mod contents;
pub mod dir;
mod directory;
mod fault;
mod forms;
pub mod laws;
pub mod lending;
mod named;
mod records;
mod root;
mod texts;
pub mod worlds;

pub use contents::{Contents, KitTexts, read_file};
pub use fault::Fault;
