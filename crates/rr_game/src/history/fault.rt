ghost use Rattle.std.specs.Prelude.{◌≡◌};
ghost use Rattle.rr_game.specs.History.Fault.{of_game};
ghost use Rattle.rr_game.specs.declared.history.fault.Fault.TheVariants.{OutOfMemory};

use rr_books::Refusal;
use std::alloc::{AllocError, AllocFailed};
use thiserror::Error;

/// Why a request is refused.
#[derive(Clone, Copy, Debug, Drop, PartialEq, Eq, Error)]
pub enum Fault {
    /// The rules of the game refuse the command. Want of memory isn't told by this, but by `OutOfMemory`.
    #[error("{0}")]
    Game(Refusal),
    /// The stamp isn't the table's, which is given.
    #[error("stale stamp {0}")]
    StaleStamp(u64),
    /// The turn hasn't ended yet, or it is forgotten.
    #[error("turn not kept")]
    TurnNotKept,
    /// The table has all the commands that it can keep, or its last stamp.
    #[error("too many commands")]
    TooManyCommands,
    /// A request for memory was refused.
    #[error("out of memory")]
    OutOfMemory,
}

impl From<Refusal> for Fault {
    ghost from_gives = { λ fault wrapped. wrapped ≡ of_game fault };

    fn from(fault: Refusal) -> Fault {
        match fault {
            Refusal::OutOfMemory => Fault::OutOfMemory,
            _ => Fault::Game(fault),
        }
    }
}

impl From<AllocError> for Fault {
    ghost from_gives = { λ _ fault. fault ≡ OutOfMemory };

    fn from(_error: AllocError) -> Fault {
        Fault::OutOfMemory
    }
}

impl<T: Drop> From<AllocFailed<T>> for Fault {
    ghost from_gives = { λ _ fault. fault ≡ OutOfMemory };

    fn from(_error: AllocFailed<T>) -> Fault {
        Fault::OutOfMemory
    }
}
