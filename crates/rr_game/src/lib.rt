//! The game of one table, by the names of its players; and a table that can be taken back (`history`).
//!
//! Stands on `rr_rules`, the kit and `rr_code`. Its promises:
//!
//! - `Game::step` is refused exactly by `command_judgement`, except that 70 may come after the checks that allocate
//!   nothing, and keeps `IsGameOf`. Each query is its definition over the book.
//! - `Game::entries` returns exactly what a lawful command adds to the book, and `Table::book` exactly the entries of a
//!   turn that can be read; it refuses the others (`book_verdict`), and with 70 only if nothing else refuses.
//! - A game made again of its plain values is that game. Bytes are those of at most one game's values.
//! - `Table::step`, `take_back` and `forget` are refused exactly by `request_judgement`, apart from running out of
//!   memory. From the nearest snapshot fewer than 64 commands lead to any turn to which a table with its snapshots can
//!   go back, and `CountsPlays` counts them exactly.
//! - `Table::judge` follows the rules of each book for which the position in memory stands (`IsSeenAs`), whatever the
//!   kept commands play.
#![tactic(auto)]

mod acts;
mod due;
mod game;
pub mod history;
pub mod laws;
mod names;
mod parts;
mod queries;
mod running;
mod turning;
mod wealth;

pub use due::Due;
pub use game::Game;
pub use parts::Parts;
pub use rr_kit::Kit;
pub use rr_market::operations::TurnStep;
