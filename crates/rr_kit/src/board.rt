//! The board of a kit: its hexes, the homes of corporations and the blocked hexes, read from a text.
//!
//! Stands on `rr_tiles` and `rr_roster`. Its promise: `Board::read` gives what the text `Spells`, or the first wrong
//! line.

mod board;
mod draft;
mod fault;
mod hex;
mod hex_words;
mod home_words;

pub use board::Board;
pub use fault::Fault;
pub use hex::{Block, Colour, GREATEST_CENTRE, Hex, Home, MOST_CENTRES, Place};
pub use home_words::slots_at;
