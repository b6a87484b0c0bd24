//! Chains that lend their bytes piece by piece, one page at a time, and the commands in them.
//!
//! Its promise: the pieces that `Chains::next` lends, joined, are the bytes that `read_pieces` would give, and the
//! commands that `Commands::next` lends are those that the bytes spell.

mod chains;
mod commands;
mod joining;
pub mod laws;
mod page_buffer;

pub use chains::{Chains, Piece};
pub use commands::Commands;
pub use joining::JoiningBuffer;
