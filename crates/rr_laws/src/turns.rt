//! What stays true of a table whatever lawful commands of corporations' turns are played: laws of the definitions
//! alone.
//!
//! Stands on `rr_operate` and on `soundness`. Its promise: a table in good order stays in good order.

pub mod laws;
