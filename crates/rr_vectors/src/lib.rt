//! Files of a store as programs wrote them once, for later programs to read: three of version 1, two of version 2.
//! `tools/make-vectors --compare` makes the latter again and compares them.
//!
//! Stands on `rr_words` and `hex`. Its promise: `KeptFile::content` returns the bytes that its lines spell.
#![tactic(auto)]

mod eight_slots;
mod fault;
mod kept;
mod named_bank;
mod new_file;
mod two_checkpoints;
mod within_a_checkpoint;

pub use eight_slots::EIGHT_SLOTS;
pub use fault::Fault;
pub use kept::KeptFile;
pub use named_bank::NAMED_BANK;
pub use new_file::NEW_FILE;
pub use two_checkpoints::TWO_CHECKPOINTS;
pub use within_a_checkpoint::WITHIN_A_CHECKPOINT;
