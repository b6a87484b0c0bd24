//! A new file of a store: the four texts of a kit and a directory without tables, laid in memory into pages from the
//! first data page on, and then put on an empty disk.
//!
//! Its promises: `new_file`, whose pages, wherever they stand, spell the world of these texts without a table; and
//! `write_new_file` and `format`, which leave no store or the whole new file, wherever the device stops.

mod disk;
mod kit;
pub mod laws;
mod laying;
mod pages;
mod text;
mod writing;

pub use disk::format;
pub use laying::{NewFile, new_file};
pub use writing::write_new_file;
