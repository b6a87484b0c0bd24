//! The words of a line and of a text: names, numbers, and how a line and a text are cut into words; and values that bytes
//! spell in one way (`spelling`).
//!
//! Stands on `byteorder`. Its promise: names, numbers and words are read exactly as spelled (`Name::table`,
//! `Name::player`, `number`). Cutting a line into `words` and joining them are inverse. A value is read exactly if
//! bytes begin with its spelling, and no bytes begin with two (`Spell`, `Form`).
#![tactic(auto)]

mod bytes;
pub mod laws;
pub mod line;
pub mod name;
pub mod numeral;
pub mod spelling;
pub mod text;

pub use line::{LONGEST_LINE, split_word, words};
pub use name::{HexName, Name};
pub use numeral::{number, small_number};
pub use text::{Row, rows};
