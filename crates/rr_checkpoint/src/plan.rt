//! The plan of a checkpoint, made from a transcript of the tables that it writes and of snapshots of their games: the
//! chain of each table is laid anew, and of each snapshot that the present root doesn't hold, and the directory behind
//! them; the chains of the other snapshots and of the kit's texts stay where the present root holds them.
//!
//! Its promise: `plan_checkpoint`, whose plan is one for the layout of the file, so that the coming root spells the
//! texts and the tables of a `Transcript`, and names its snapshots.

mod keeping;
mod kit;
mod laying;
mod planning;
mod snapshot;
mod standing;
mod table;
mod transcript;

pub use kit::{KitPages, TextPages};
pub use planning::plan_checkpoint;
pub use snapshot::SnapshotTranscript;
pub use standing::{Planned, StandingSnapshot};
pub use table::TableTranscript;
pub use transcript::Transcript;
