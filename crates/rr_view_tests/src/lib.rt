//! Tests of the views that follow the entries of a table's book: the auction, the stock chart, the stock rounds, the
//! board, and the position of them all. Their helpers have no contracts: what the calls promise is proved where they
//! are defined, and a test compares values as it runs.
//!
//! The tests are written as they are cheap to prove: each borrows `rt` once, has its rows in a static, and
//! gives an entry to a helper, which lets it go by `drop`, as a test does a chart.
#![tactic(auto)]

#[cfg(test)]
mod bids;
#[cfg(test)]
mod layout;
#[cfg(test)]
mod market;
#[cfg(test)]
mod opening;
#[cfg(test)]
mod operations;
#[cfg(test)]
mod parts;
#[cfg(test)]
mod position;
#[cfg(test)]
mod rounds;
