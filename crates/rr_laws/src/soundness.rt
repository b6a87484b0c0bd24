//! What stays true of a table with each lawful act of the auction and each lawful command of a stock round: laws of the
//! definitions alone.
//!
//! Stands on the rules of both. Its promise: money, places, presidents and the pool stay in order, each by a law.

pub mod laws;
