//! All that runs along with a table's book: the money and the places, the auction, the tokens on the
//! chart, the stock rounds, the operating rounds, the tiles and tokens on the board.
//!
//! Stands on the views. Its promise: `Position::follow` keeps `IsPositionOf` for every book, with any entry that fits.

pub mod laws;
mod parts;
mod position;

pub use parts::PositionParts;
pub use position::{MOST_ENTRIES, Position};
