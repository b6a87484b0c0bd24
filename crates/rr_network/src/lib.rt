//! What was laid on a board, the links of the network that it makes, and what of it a corporation reaches.
//!
//! Stands on `rr_kit`, `rr_desk` and `rr_routes`. Its promise: links, centres and tokens are those on the board
//! (`Network::of`). What a corporation reaches is exactly what a walk ends at (`Reach::of`).
#![tactic(auto)]

mod key;
mod laid;
pub mod laws;
mod network;
mod node;
mod reach;
mod step;
mod survey;

pub use key::{centre_key, hexside_key, name_key};
pub use network::{Network, Stop, last_lay};
pub use node::{Axial, CentreAt, Hexside, Link, Node, across, hexside_at, same_node};
pub use reach::Reach;
pub use step::node_of;
