//! Reads lines, hands each to a machine that answers, and writes the replies.
//! A reply is written and flushed before the next line is waited for, so that a program can send a line and wait.
//! Reads and writes that fail are counted, so a failure is reported exactly if one came.
//!
//! Stands on std and `memchr`. Its promise: `serve` is a `Session`: what is written is the machine's replies to the
//! lines that were read, each whole and flushed, or the last cut short by a failure. It ends with 69 exactly if its
//! input or output counted a failure.
#![tactic(auto)]

mod answering;
mod faults;
mod input;
pub mod laws;
mod line_buffer;
mod output;
mod reading;
mod record;
mod serving;

pub use answering::{Machine, line};
pub use faults::Fault;
pub use input::{CountingReader, Input};
pub use line_buffer::LineBuffer;
pub use output::{CountingWriter, Output, send};
pub use reading::Ending;
pub use serving::serve;
