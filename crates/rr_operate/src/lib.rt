//! A corporation's turn in an operating round: which commands a table's book takes, and what they add to it.
//!
//! Joins the rules of tiles and tokens (`rr_lay`), runs (`rr_running`), dividends (`dividends`) and trains
//! (`rr_trains`), and what follows a turn by itself (`sets`). Its promise: `judge` answers exactly `IsVerdict` over the
//! book, except that 70 may come after the checks that allocate nothing. `play` adds exactly `entries_of`, dividends
//! and what follows a round included. What trains earned follows `revenue_after`.
#![tactic(auto)]

pub mod dividends;
mod ending;
mod judging;
pub mod laws;
mod order;
mod playing;
mod rows;
pub mod sets;

pub use ending::owes_train;
pub use judging::judge;
pub use order::judge_order;
pub use playing::play;
