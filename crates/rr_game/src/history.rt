//! A game's table that can be taken back to the end of an earlier turn.
//!
//! Stands on `Game` and on `rr_turns`. Its promise: each request is refused exactly by `request_judgement`, and keeps
//! `IsTableOf`.

mod change;
mod fault;
mod kept;
pub mod laws;
mod recalled;
mod replaying;
mod running;
mod snapshots;
mod spelled;
mod standing;
mod table;
mod turn_entries;

pub use change::Change;
pub use fault::Fault;
pub use kept::KeptCommands;
pub use rr_turns::Request;
pub use snapshots::{SNAPSHOT_SPACING, Snapshot};
pub use table::Table;
