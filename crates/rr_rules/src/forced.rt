//! A corporation that must own a train and can't pay it: what it needs, the purchase to which its president adds, the
//! president's sale of shares, and its bankruptcy.
//!
//! Stands on the rules of a corporation's turn and on those of sales. Its promise: `needed_train` tells `IsNeed` of the
//! book, `judge` is exactly `IsVerdict` over the book, want of memory apart, and `play` `Takes` exactly `entries_of`.

mod bankruptcy;
mod judging;
pub mod laws;
mod needs;
mod playing;
mod raising;

pub use judging::judge;
pub use needs::{Need, needed_train};
pub use playing::play;
pub use rr_trains::TrainOnSale;
