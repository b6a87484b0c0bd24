//! What a corporation buys in its turn besides tiles and tokens: trains of the bank, the pool and other corporations, a
//! D for a train handed in, privates; and the trains that it gives up over its limit.
//!
//! Stands on the rest of the crate and on `rr_desk`. Its promise: `judge` gives the exact verdict over the table's
//! book, `play` adds the exact entries.

mod judging;
pub mod laws;
mod limits;
mod playing;
mod purchases;
mod reading;
mod trading;

pub use judging::judge;
pub use limits::is_over_limit_somewhere;
pub use playing::play;
