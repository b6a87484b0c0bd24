//! The program `moderate` from its words on: what they ask for, which files they name, and with which status it ends.
//!
//! Stands on `rr_moderator`, `rr_disk` and `clap`. Its promise: `run` reads and opens the files that the words name, and
//! no others, does what they ask, and returns its status and the file as it is then (`Runs`). A plan is what clap matches
//! in words that it accepts (`IsPlanOf`); that accepted words are planned isn't said. `act` does what the plan asks
//! (`Acts`).
#![tactic(auto)]

mod acting;
mod arguments;
mod ending;
mod fault;
mod files;
mod path_record;
mod plans;
mod running;

pub use acting::{act, refuse};
pub use arguments::plan;
pub use ending::{Ended, Ending, status};
pub use fault::Fault;
pub use files::{FileSystem, HostFiles, fault_of};
pub use plans::Plan;
pub use running::run;
