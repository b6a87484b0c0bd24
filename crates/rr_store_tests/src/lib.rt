//! Tests of the store of a club's tables: what is kept and opened again, refusals, a checkpoint, snapshots, a device
//! that fails; below it the tables in memory and their recovery; and the laws on files and worlds. What every stop and
//! failure leaves is tried in `rr_stop_tests`, and on the built program by `tools/stop-anywhere`; damaged files by
//! `tools/try-the-file`.
//!
//! The tests are written as they are cheap to prove: the calls of a store and what they are to give are rows, which one
//! loop goes through; and a store is opened and let go in helpers, which have no contracts.
#![tactic(auto)]

#[cfg(test)]
mod calls;
#[cfg(test)]
mod checkpoints;
#[cfg(test)]
mod commits;
#[cfg(test)]
mod faults;
#[cfg(test)]
mod files;
#[cfg(test)]
mod formatting;
#[cfg(test)]
mod laws;
#[cfg(test)]
mod snapshots;
#[cfg(test)]
mod tables;
