//! Values that bytes spell in one way, written behind one another and read from the front.
//!
//! Stands on `byteorder`. Its promise: `Spell`, bytes are read exactly where they begin with what `write` writes.

mod counted;
mod cursor;
mod numbers;
mod options;
mod pairs;
mod rows;
mod spell;

pub use counted::{read_counted, write_counted};
pub use cursor::Cursor;
pub use spell::Spell;
