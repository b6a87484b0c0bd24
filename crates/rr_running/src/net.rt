//! The net of links over which one corporation runs its trains, made from the network that lies on a board.
//!
//! Stands on `rr_network` and `rr_checker`. Its promise: `net_of`, the net of the corporation for every book.

mod centres;
mod indexing;
mod joining;
pub mod laws;
mod running;
mod trains;

pub use running::{net_of, net_on_board};
