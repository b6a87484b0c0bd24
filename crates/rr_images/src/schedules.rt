//! The headline over schedules: whatever commits, ticks, faults, stops and openings come, each image keeps the world of
//! the acknowledged commands or that with the pending one. It is generic in commands, in worlds, and in what a file
//! stands for. There is no code but laws.
//!
//! Its promise: `laws::prefix`.

pub mod laws;
mod worlds;

pub use worlds::Worlds;
