ghost use Rattle.std.specs.Prelude.{◌≡◌};
ghost use Rattle.rr_tables.specs.Records.Fault.{of_table};

use rr_books::Refusal;
use thiserror::Error;

/// Why a request isn't lawful at its table.
#[derive(Clone, Copy, Debug, Drop, PartialEq, Eq, Error)]
pub enum Fault {
    /// The rules of the game refuse it. Want of memory isn't told by this, but by `OutOfMemory`.
    #[error("{0}")]
    Game(Refusal),
    /// The stamp isn't the table's, which is given.
    #[error("stale stamp {0}")]
    StaleStamp(u64),
    /// The turn hasn't ended yet, or it is forgotten.
    #[error("turn not kept")]
    TurnNotKept,
    /// The table has all the commands that it can keep, or its last stamp.
    #[error("too many commands")]
    TooManyCommands,
    /// There are 64 tables.
    #[error("too many tables")]
    TooManyTables,
    /// No table has this name.
    #[error("no such table")]
    NoSuchTable,
    /// A request for memory was refused.
    #[error("out of memory")]
    OutOfMemory,
}

impl From<rr_game::history::Fault> for Fault {
    ghost from_gives = { λ fault wrapped. wrapped ≡ of_table fault };

    fn from(fault: rr_game::history::Fault) -> Fault {
        match fault {
            rr_game::history::Fault::Game(fault) => Fault::Game(fault),
            rr_game::history::Fault::StaleStamp(stamp) => Fault::StaleStamp(stamp),
            rr_game::history::Fault::TurnNotKept => Fault::TurnNotKept,
            rr_game::history::Fault::TooManyCommands => Fault::TooManyCommands,
            rr_game::history::Fault::OutOfMemory => Fault::OutOfMemory,
        }
    }
}
