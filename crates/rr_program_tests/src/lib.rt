//! Tests of the moderator and of the program's command line, over what both make public. Those of the store stand in
//! `rr_store_tests`.
//!
//! The tests are written as they are cheap to prove: what they do stands in short functions without contracts, over any
//! disk where it can, and each borrows `rt` once.
#![tactic(auto)]

#[cfg(test)]
mod acting;
#[cfg(test)]
mod arguments;
#[cfg(test)]
mod calls;
#[cfg(test)]
mod kits;
#[cfg(test)]
mod opening;
#[cfg(test)]
mod plans;
#[cfg(test)]
mod running;
#[cfg(test)]
mod serving;
#[cfg(test)]
mod steps;
