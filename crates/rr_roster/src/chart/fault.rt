ghost use Rattle.std.specs.Prelude.{◌≡◌};
ghost use Rattle.rr_roster.specs.declared.chart.fault.Fault.TheVariants.{OutOfMemory};

use std::alloc::{AllocError, AllocFailed};
use thiserror::Error;

/// Why a text is no chart.
#[derive(Clone, Copy, Debug, PartialEq, Eq, Error)]
pub enum Fault {
    /// The place of the first wrong word: its line in the text and its place in the line, both from
    /// 1. Both are 0 where no single word is wrong.
    #[error("bad chart {line} {word}")]
    BadChart { line: usize, word: usize },
    /// There is no memory to read the text.
    #[error("out of memory")]
    OutOfMemory,
}

impl From<AllocError> for Fault {
    ghost from_gives = { λ _ fault. fault ≡ OutOfMemory };

    fn from(_error: AllocError) -> Fault {
        Fault::OutOfMemory
    }
}

impl<T: Drop> From<AllocFailed<T>> for Fault {
    ghost from_gives = { λ _ fault. fault ≡ OutOfMemory };

    fn from(_error: AllocFailed<T>) -> Fault {
        Fault::OutOfMemory
    }
}
