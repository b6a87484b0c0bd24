//! The journal of a store: numbered records in two halves of a file, each record made durable by two writes and two
//! syncs, and read again up to the first slot that holds no record of the expected number.
//!
//! Its promise: `append` leaves each image with the records from before, or with the new one whole, and from `Ok` on
//! with it.

mod buffer;
mod half;
mod law;
mod layout;
mod reading;

pub use buffer::RecordBuffer;
pub use half::Half;
pub use law::{halves_have_one_run, sizes};
pub use layout::{
    FIRST_SLOT_PAGE, HALF_PAGES, HEADER_BYTES, HalfIndex, LAST_SLOT, MOST_SLOTS, SLOT_BYTES,
};
pub use reading::{RunEnd, Scanned, scan};
