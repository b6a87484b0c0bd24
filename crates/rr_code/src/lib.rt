//! The lines that the moderator reads: one spelling for each request and each query.
//!
//! Stands on `rr_words`, `rr_roster`, `rr_turns` and `rr_orders`. Its promise: `Line::read` and `read_record` read
//! exactly what is spelled, else the line is malformed. A command has one text, and a text one command
//! (`laws::one_spelling`, `laws::one_meaning`).
#![tactic(auto)]

mod auction;
mod bytes;
mod command;
mod fault;
pub mod laws;
mod line;
mod players;
mod query;
mod request;
mod stock;

pub use command::Command;
pub use fault::Fault;
pub use line::Line;
pub use players::Players;
pub use query::{Account, Owner, Query, TrainHolder};
pub use request::{read_record, write_request};
pub use rr_orders::Order;
pub use rr_turns::Request;
