//! The words of a line, one after another: a cursor that reads them, the names and numbers among them, and writing
//! them.
//!
//! Stands on `rr_roster` and `rr_words`. Its promise: a word is taken only where it stands next, it is read as what it
//! names and nothing else, and what is written stands behind what was there.

mod companies;
mod names;
mod words;
mod writing;

pub use companies::{read_corp, read_private};
pub use names::{next_player, next_table, only_table};
pub use words::Words;
pub use writing::{write_number, write_word};
