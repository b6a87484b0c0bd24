//! What a seat may hold and what it may sell, by what runs along with the book of a table, and the chart.
//!
//! Stands on `rr_desk`. Its promise: `judge_sale_in_round` and `must_sell_first`, exactly the rules over the book.

pub mod laws;
mod limits;
mod sales;

pub use limits::{
    certificates_counted, is_over_certificates, is_over_limit, is_over_sixty,
    would_be_over_certificates, would_be_over_sixty,
};
pub use rr_books::{Corp, Seat, certificate_limit};
pub use rr_desk::position::Position;
pub use rr_roster::chart::Chart;
pub use sales::{has_lawful_sale, judge_sale, judge_sale_in_round, must_sell_first};
