//! Why words give no plan.
ghost use Rattle.std.specs.Prelude.{◌≡◌};
ghost use Rattle.rr_cli.specs.declared.fault.Fault.TheVariants.{OutOfMemory};
ghost use Rattle.rr_cli.specs.Fault.{ending_of, number_of};

use crate::Ending;
use std::alloc::AllocError;
use thiserror::Error;

/// Why words give no plan.
#[derive(Debug, Drop, Error)]
pub enum Fault {
    /// The words are refused, or ask for help. The text says why, ends with a line feed and goes to
    /// standard error.
    #[error("{0}")]
    Words(String),
    /// Memory was refused.
    #[error("out of memory")]
    OutOfMemory,
}

impl Fault {
    /// The number of the fault, or `None` for refused words, which have none.
    pub fn number(&self) -> Option<u8>
        ensures { result ≡ number_of self.now }
    {
        match self {
            Fault::Words(_) => None,
            Fault::OutOfMemory => Some(70),
        }
    }

    /// How a run ends that goes no further than this fault.
    pub fn ending(&self) -> Ending
        ensures { result ≡ ending_of self.now }
    {
        match self {
            Fault::Words(_) => Ending::WordsRefused,
            Fault::OutOfMemory => Ending::Faulted(rr_moderator::Fault::OutOfMemory),
        }
    }
}

impl From<AllocError> for Fault {
    ghost from_gives = { λ _ e. e ≡ OutOfMemory };

    fn from(_error: AllocError) -> Fault {
        Fault::OutOfMemory
    }
}
