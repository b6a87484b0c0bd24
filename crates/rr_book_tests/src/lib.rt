//! Tests of the books of a table and of the crates of rules that stand on them alone. Their helpers have no contracts:
//! what the calls promise is proved where they are defined, and a test compares values as it runs.
//!
//! The tests are written as they are cheap to prove: each borrows `rt` once, has its rows in a static, and
//! leaves a desk to a helper that lets it go.
#![tactic(auto)]

#[cfg(test)]
mod books;
#[cfg(test)]
mod desk;
#[cfg(test)]
mod opening;
#[cfg(test)]
mod parts;
#[cfg(test)]
mod refusals;
#[cfg(test)]
mod shares;
#[cfg(test)]
mod trains;
