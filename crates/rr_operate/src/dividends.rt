//! What a corporation's run comes to in an operating round: its revenue is paid out to those who hold its shares, or it
//! keeps it, and its token moves on the chart.
//!
//! Stands on `rr_desk`. Its promise: `pay_out` and `withhold` take exactly the effects `pays_out` and `withholds`, and
//! `judge_pay` gives exactly the verdict `pay_verdict`.

pub mod laws;
mod paying;

pub use paying::{MOST_REVENUE, judge_pay, pay_out, withhold};
