//! What a store's file is made of: pages of 4,096 bytes, chains of pages, free pages, two roots with gates, and the two
//! halves of the journal (`journal`). Numbers in the file are big-endian.
//!
//! Stands on `rr_disk`. Its promises:
//!
//! - `chain_follow` and `take_root` return exactly what the bytes have, or the first broken clause. At most one root is
//!   current. Writes make exactly their device calls, in order, and none after one that failed.
//! - On an honest disk, during `Half::append` each image has the records from before, or those and the new one whole;
//!   after success the latter. A half is refused as full exactly if its slots don't suffice, or the record is longer
//!   than eight.
#![tactic(auto)]

mod chain;
mod choosing;
mod device;
mod fault;
mod free_pages;
pub mod journal;
pub mod laws;
mod page;
mod page_set;
mod reached_pages;
mod reading;
mod root;

pub use chain::{FreshPage, chain_write};
pub use choosing::{Taken, take_root};
pub use device::shut;
pub use fault::{Damage, Fault};
pub use free_pages::FreePages;
pub use page::{FIRST_DATA, LEAST_PAGES, LINK_BYTES, MOST_PAGES, MOST_USED, OPEN, PAGE_BYTES};
pub use page_set::PageSet;
pub use reached_pages::ReachedPages;
pub use reading::{FollowedChain, Link, ReadChain, chain_follow, read_pieces};
pub use root::{FIRST_VERSION, NEWEST_VERSION, ROOT_BYTES, Root, Roots};
