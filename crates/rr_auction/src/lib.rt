//! The auction of the privates, with which a game begins.
//!
//! Stands on `rr_desk`. Its promise: `judge` answers exactly the verdict over the book, and `play` adds exactly the
//! entries, settling and the auction's end included.
#![tactic(auto)]

mod due;
mod judging;
pub mod laws;
mod opening;
mod playing;
mod pricing;
mod settling;

pub use due::{Due, is_over, turns};
pub use judging::judge;
pub use opening::open_table;
pub use playing::play;
pub use pricing::asked;
