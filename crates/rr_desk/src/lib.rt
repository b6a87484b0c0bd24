//! The desk on which one command of a table is worked out: a working copy of the position, and the entries so far. With
//! it the lowest share of a place, and what the privates pay their owners. `position` joins all six views of a table's
//! book, `layout` among them.
//!
//! Stands on `rr_books`, `rr_market` and `rr_rounds`. Its promise: all six views follow any entry that fits, up to
//! 400,000,000, for every book that they stand for (`IsPositionOf`). Each becomes plain values and is made again of
//! them; values that no view has are refused. `push` adds its entry and nothing else.
#![tactic(auto)]

mod desk;
mod entries;
mod incomes;
pub mod layout;
pub mod position;
mod shares;

pub use crate::position::Position;
pub use desk::Desk;
pub use entries::Entries;
pub use incomes::{dollars, pay_incomes};
pub use rr_books::left_of;
pub use shares::{give_lowest_share, lowest_share};
