ghost use Rattle.std.specs.Prelude.{◌≡◌};
ghost use Rattle.rr_routes.specs.declared.sheets.fault.Fault.TheVariants.{OutOfMemory};

use std::alloc::{AllocError, AllocFailed};
use thiserror::Error;

/// Why a text is no sheet or no certificate, or can't be written.
#[derive(Clone, Copy, Debug, PartialEq, Eq, Error)]
pub enum Fault {
    /// A word has none of the forms that stand here.
    #[error("malformed words")]
    Malformed,
    /// Each word has one of the forms, but together they are no tree.
    #[error("bad certificate")]
    CertificateRefused,
    /// There is no memory to read or to write the text.
    #[error("out of memory")]
    OutOfMemory,
}

impl From<AllocError> for Fault {
    ghost from_gives = { λ _ fault. fault ≡ OutOfMemory };

    fn from(_error: AllocError) -> Fault {
        Fault::OutOfMemory
    }
}

impl<T: Drop> From<AllocFailed<T>> for Fault {
    ghost from_gives = { λ _ fault. fault ≡ OutOfMemory };

    fn from(_error: AllocFailed<T>) -> Fault {
        Fault::OutOfMemory
    }
}
