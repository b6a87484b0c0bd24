//! The recovery of a store's tables from what an opening read of its file: the kit that its texts spell, the commands
//! that its tables keep, played on from each table's last snapshot, and behind them its records. What needs the rules of
//! the game is judged here.
//!
//! Its promise: the clauses of `recover`. What is given is the world that the file tells, and what is refused breaks
//! the clause that is told, and none that is lower.

mod base;
mod fault;
mod playing;
mod plays;
mod records;
mod recovered;
mod shown;
mod tables;
mod texts;
mod words;

pub use fault::Fault;
pub use recovered::{Recovered, recover};
