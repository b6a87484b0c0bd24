//! How far a position follows a table. The function does nothing: its contract says it.
ghost use Rattle.std.specs.Prelude.{◌≡◌};

use crate::position::position::MOST_ENTRIES;

/// A position follows 400,000,000 entries.
pub fn most_entries()
    ensures { MOST_ENTRIES ≡ 400000000 }
{}
