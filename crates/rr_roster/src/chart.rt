//! The stock chart of a kit: its cells with their prices and zones, read from a text.
//!
//! Stands on `rr_words`. Its promise: `Chart::read` gives what the text `Spells`, or its `IsRefusal` by line and word.

mod cell;
mod chart;
mod fault;
mod reader;

pub use cell::{Cell, ParCell, Place, Zone};
pub use chart::Chart;
pub use fault::Fault;
