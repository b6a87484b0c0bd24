//! What a table is played with: the kit that four texts spell. The board's text is read here (`board`).
//!
//! Stands on `rr_roster` and `rr_tiles`. Its promise: `Kit::read` returns the kit that four texts spell (`SpellsKit`),
//! or the fault of the first wrong one (`RefusesKit`). Texts spell one kit.
#![tactic(auto)]

pub mod board;
mod fault;
mod kit;
pub mod laws;

pub use fault::Fault;
pub use kit::Kit;
