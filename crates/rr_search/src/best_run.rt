//! The run of a corporation that earns most on the board as it lies, in the words of the command that runs it.
//!
//! Stands on `best`, `rr_running` and `rr_orders`. Its promise: what `best_run` gives is a command whose sheet the
//! rules take and whose certificate they accept, and it gives none only where the whole tree is too large or the
//! command too long.

mod finding;
pub mod laws;
mod run;
mod wording;

pub use crate::Fault;
pub use finding::best_run;
pub use run::BestRun;
