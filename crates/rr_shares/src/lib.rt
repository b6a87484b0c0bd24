//! Which certificates move when shares change hands: the lowest shares of a place, the presidency, what is sold, and
//! the money with which a corporation begins. `limits` says what a seat may hold and may sell.
//!
//! Stands on `rr_desk`. Its promise: `sell_shares`, `hand_over` and `float` each add exactly their effect. A seat's
//! limits, the verdict on its sale and whether it must sell first are exact over the book (`judge_sale_in_round`,
//! `must_sell_first`).
#![tactic(auto)]

mod floating;
mod giving;
mod holdings;
pub mod laws;
pub mod limits;
mod selling;
mod succession;

pub use floating::{float, float_if_due, floats_now};
pub use giving::give_lowest_shares;
pub use holdings::{heir, percents};
pub use selling::sell_shares;
pub use succession::{Handover, hand_over, handover_after_sale, handover_due, settle_presidency};
