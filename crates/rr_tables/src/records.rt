//! The rules of records: which request the line of a record spells, when its table may take it, and to which world of
//! tables it leads; and which bytes show the game of a table's first commands. A world stands in memory by its commands
//! and in the file by their words, and each tells the other. There is no code but the refusals of a judge, and laws.
//!
//! Its promise: `laws::prefix`, the law over all schedules for tables of the game.

mod fault;
pub mod laws;
mod rules;

pub use fault::Fault;
pub use rules::TableRules;
