//! The disk as a store sees it, with what a stop may leave of it, and three disks: one in memory, one that fails on
//! demand, and a file.
//!
//! Stands on std alone. Its promise: the trait `Disk` says what each call does to the disk's state, and so what a crash
//! may leave (`IsImage`). A failed call counts one fault (up to 2^64 - 1), any other none. The disks in memory keep
//! this; of a real file it is trusted.
#![tactic(auto)]

mod bytes;
mod cached;
mod call;
mod call_log;
mod choice;
mod device;
mod disk;
mod fault;
mod faulty;
mod file;
mod file_record;
mod memory;
mod plan;
mod start;

pub use choice::{Choice, Kept};
pub use device::{put, write};
pub use disk::Disk;
pub use fault::Fault;
pub use faulty::FaultyDisk;
pub use file::FileDisk;
pub use memory::MemoryDisk;
pub use start::{Start, Unknown};
