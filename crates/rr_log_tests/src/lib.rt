//! Tests of the open file of a store: how it is opened, how records are kept and checkpoints made, what these write,
//! and which lines its records may have.
#![tactic(auto)]

#[cfg(test)]
mod files;
#[cfg(test)]
mod logs;
#[cfg(test)]
mod openings;
#[cfg(test)]
mod records;
#[cfg(test)]
mod tables;
#[cfg(test)]
mod transcripts;
