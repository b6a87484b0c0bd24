//! The run that earns most, and the certificate that none earns more; for a corporation in the words of its command
//! (`best_run`).
//!
//! Stands on `rr_guesses`. Its promise: what `best` returns is a legal sheet with an accepted certificate. `best_run`
//! returns it in words that fit its line and that the rules accept. It finds none only if memory runs out or
//! `MayLackRun` allows it; one train on eleven links always gets a run, or 70.
#![tactic(auto)]

pub mod best_run;
mod fault;
mod found;
mod full;
mod kinds;
mod search;
mod sheets;
mod whole;

pub use fault::Fault;
pub use search::best;
