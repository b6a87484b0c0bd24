//! Tests of the rules of a table: what a seat may hold, the auction, the stock rounds, tiles and tokens, the laws, the
//! words of entries, and the game that joins them. Their helpers have almost no contract: what the calls promise is
//! proved where they are defined, and a test compares values as it runs.
//!
//! The tests are written as they are cheap to prove: most have their rows or steps in a static, which one function goes
//! through, and leave what is to be dropped to helpers.
#![tactic(auto)]

#[cfg(test)]
mod auction;
#[cfg(test)]
mod entries;
#[cfg(test)]
mod fixtures;
#[cfg(test)]
mod game;
#[cfg(test)]
mod games;
#[cfg(test)]
mod history;
#[cfg(test)]
mod holdings;
#[cfg(test)]
mod lay;
#[cfg(test)]
mod parts;
#[cfg(test)]
mod sound;
#[cfg(test)]
mod sound_turns;
#[cfg(test)]
mod stock;
