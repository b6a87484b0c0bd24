//! The tests of the crates that read a kit: `rr_words`, `rr_roster`, `rr_tiles` and `rr_kit`.
#![tactic(auto)]

#[cfg(test)]
mod board;
#[cfg(test)]
mod chart;
#[cfg(test)]
mod kit;
#[cfg(test)]
mod roster;
#[cfg(test)]
mod shown;
#[cfg(test)]
mod spelling;
#[cfg(test)]
mod tiles;
#[cfg(test)]
mod words;
