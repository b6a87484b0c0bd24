//! The tiles of a kit: their tracks and centres, and the manifest of a kit's tiles, read from texts.
//!
//! Stands on `rr_words`. Its promise: tiles and the manifest are read exactly, or refused with the first wrong line
//! (`Spells`, `IsRefusal`). Turning a tile is exact (`turned`), and so is whether one tile keeps another (`keeps`).
#![tactic(auto)]

mod centre_word;
mod edge;
mod element;
mod fault;
mod keeping;
mod manifest;
mod part;
mod supply;
mod tile;

pub use edge::{Edge, Edges};
pub use fault::Fault;
pub use keeping::keeps;
pub use manifest::Manifest;
pub use part::{Centre, Kind, Label, Part, Track};
pub use supply::{Colour, Supply};
pub use tile::Tile;
