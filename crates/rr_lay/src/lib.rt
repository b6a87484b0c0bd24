//! The rules of laying tiles and of placing tokens: which ones a table's book takes, and what they add to it.
//!
//! Stands on `rr_network`, `rr_trains` and `rr_desk`. Its promise: `judge_lay` and `judge_station` answer exactly
//! `IsLayVerdict` and `IsStationVerdict`, apart from running out of memory. `play_lay` and `play_station` add exactly
//! the entries.
#![tactic(auto)]

mod colours;
mod costs;
mod hexes;
pub mod laws;
mod laying;
mod placing;
mod slots;
mod upgrades;

pub use laying::{judge_lay, play_lay};
pub use placing::{judge_station, play_station};
