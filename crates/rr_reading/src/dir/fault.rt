ghost use Rattle.std.specs.Prelude.{◌≡◌};
ghost use Rattle.rr_reading.specs.declared.dir.fault.Fault.TheVariants.{OutOfMemory};

use std::alloc::{AllocError, AllocFailed};
use thiserror::Error;

/// Why bytes can't be read or written.
#[derive(Clone, Copy, Debug, PartialEq, Eq, Error)]
pub enum Fault {
    /// The bytes spell nothing: they aren't of the form, or past a limit. It is the fifth of the ways in which a file
    /// may be damaged.
    #[error("damaged 5")]
    Damaged,
    /// Memory was wanted and refused.
    #[error("out of memory")]
    OutOfMemory,
}

impl From<AllocError> for Fault {
    ghost from_gives = { λ _ fault. fault ≡ OutOfMemory };

    fn from(_error: AllocError) -> Fault {
        Fault::OutOfMemory
    }
}

impl<T: Drop> From<AllocFailed<T>> for Fault {
    ghost from_gives = { λ _ fault. fault ≡ OutOfMemory };

    fn from(_error: AllocFailed<T>) -> Fault {
        Fault::OutOfMemory
    }
}
