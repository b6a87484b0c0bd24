//! How far the operating rounds of a table have come: which round of which set it is, which corporation is due, and at
//! which step of its turn.
//!
//! Stands on `Market` and on `rr_rounds`. Its promise: `IsOperationsOf`, kept by `follow` for any entry.

mod bytes;
pub mod laws;
mod operations;
mod parts;
mod phases;
mod turn;

pub use operations::Operations;
pub use parts::OperationsParts;
pub use phases::{is_sold, phase, rounds_in_set};
pub use turn::{Stage, TurnStep};
