//! The stock rounds: pars, purchases and sales of shares, and the end of a round.
//!
//! Stands on `rr_shares`. Its promise: `judge` answers exactly `verdict` over the book for pars, purchases, sales,
//! swaps and the end of a turn, and `play` adds exactly `entries_of`.
#![tactic(auto)]

mod commands;
mod ending;
mod judging;
pub mod laws;
mod playing;
mod reading;
mod trading;
mod waiting;

pub use judging::judge;
pub use playing::play;
pub use reading::proceeds;
pub use trading::{Sale, pay_seller};
pub use waiting::due;
