//! Tests of the crates of networks, routes, runs and certificates: worked rows, printed words, and the search beside
//! plain enumeration. Their helpers have hardly any contracts: what the calls promise is proved where they are defined,
//! and a test compares values as it runs.
//!
//! The tests are written as they are cheap to prove: each borrows `rt` once, has its rows in a static, and leaves nets,
//! networks and trees to a helper that makes them and lets them go.
#![tactic(auto)]

#[cfg(test)]
mod board;
#[cfg(test)]
mod checker;
#[cfg(test)]
mod net;
#[cfg(test)]
mod network;
#[cfg(test)]
mod reach;
#[cfg(test)]
mod routes;
#[cfg(test)]
mod runs;
#[cfg(test)]
mod search;
#[cfg(test)]
mod sheets;
#[cfg(test)]
mod small;
#[cfg(test)]
mod trips;
