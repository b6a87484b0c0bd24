//! Tests that stop a store at each of its device calls, and let each of them fail: an opening gives the acknowledged
//! commands, and perhaps the one under way. `tools/stop-anywhere` stops the built program, in a run of recorded games.
//!
//! The tests are written as they are cheap to prove: what a table is to hold is a plain value, disks and stores are made
//! and let go in helpers, which have no contracts, and want of memory ends a test.
#![tactic(auto)]

#[cfg(test)]
mod files;
#[cfg(test)]
mod stopping;
