//! The roster of a kit: the privates, the corporations and the trains of a game, read from a TOML text; and the stock
//! chart with its prices (`chart`).
//!
//! Stands on `rr_words` and `toml`. Its promise: `Roster::read` returns the roster that the text spells, else 4 if the
//! text hasn't its form, or 5 with the first broken rule (`IsAnswer`). `Chart::read` returns the chart, or the first
//! wrong place.
#![tactic(auto)]

mod bytes;
pub mod chart;
mod company;
mod document;
mod fault;
pub mod laws;
mod numbers;
mod roster;
mod rules;
mod sources;
mod spelled;

pub use company::{Corp, Kind, Private};
pub use fault::{Fault, Rule};
pub use roster::{Roster, names_bank, says_bank};
pub use sources::{ShareSource, TrainSource};
