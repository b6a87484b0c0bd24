//! Tests of the disks, of the journal and of the parts of a store's file.
#![tactic(auto)]

#[cfg(test)]
mod calls;
#[cfg(test)]
mod directory;
#[cfg(test)]
mod disks;
#[cfg(test)]
mod journal;
#[cfg(test)]
mod lending;
#[cfg(test)]
mod page_set;
#[cfg(test)]
mod pages;
#[cfg(test)]
mod reading;
