//! The limits of what a table keeps.

/// The most commands that a table keeps, the opening among them.
pub const MOST_COMMANDS: usize = 4_096;

/// The most bytes of a command's words: in a table's chain two bytes tell how many they are.
pub const LONGEST_COMMAND: usize = 65_535;

/// The last stamp of a table.
pub const LAST_STAMP: u64 = 4_000_000_000;
