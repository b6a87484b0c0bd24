//! The tiles and tokens that a table's book has put on the board.
//!
//! Stands on `rr_books`. Its promise: `IsLayoutOf`, kept by `follow` for any entry for which there is room.

mod bytes;
mod layout;

pub use layout::{Lay, Layout, MOST_LAYS, MOST_STATIONS, Station};
