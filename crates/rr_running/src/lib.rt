//! A corporation's run as the rules judge it: whether the words of a command spell the sheet of a lawful run of its
//! trains over the board as it lies, what the run earns, and whether a certificate shows that none earns more.
//!
//! Stands on `rr_network` and `rr_referee`, and ties them to the book. Its promise: nets are those of the board, for
//! every book (`net_of`). `judge_run` and `judge_best_run` judge a run by its words, and its certificate, exactly by
//! `IsRunVerdict` and `IsBestRunVerdict`, apart from running out of memory, and return `run_revenue`.
#![tactic(auto)]

mod judging;
pub mod laws;
pub mod net;
mod nets;

pub use judging::{BestRun, judge_best_run, judge_run};
pub use nets::{kinds_held, net_now};
pub use rr_referee::{Net, Sheet};
