//! What is reached from some states of a graph by going on to the states that may follow.
//!
//! Stands on `smallvec`. Its promise: what is marked is exactly what `IsReached`, or `IsReachedWithin`. An index of
//! places by keys (`Index`) finds what may follow without asking each state.

mod graph;
mod marking;
mod noting;
mod search;

pub use graph::Followers;
pub use marking::{is_marked, marked_items};
pub use noting::Index;
pub use search::{reached, reached_within};
