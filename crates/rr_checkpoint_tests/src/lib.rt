//! Tests of what an opening reads of the file with checkpoints, and of what writes to it.
#![tactic(auto)]

#[cfg(test)]
mod calls;
#[cfg(test)]
mod checkpoint;
#[cfg(test)]
mod formatting;
#[cfg(test)]
mod plans;
#[cfg(test)]
mod reading;
