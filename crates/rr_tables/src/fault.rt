ghost use Rattle.std.specs.Prelude.{◌≡◌};
ghost use Rattle.rr_tables.specs.declared.records.fault.Fault.TheVariants as R;
ghost use Rattle.rr_tables.specs.declared.fault.Fault.TheVariants.{File, Rules};

use crate::records;
use std::alloc::AllocError;
use thiserror::Error;

/// Why a request isn't taken.
#[derive(Clone, Copy, Debug, Drop, PartialEq, Eq, Error)]
pub enum Fault {
    /// The rules refuse it. `OutOfMemory` among these: memory was wanted before its record was to be kept.
    #[error("{0}")]
    Rules(records::Fault),
    /// It is lawful, but what keeps its record refused.
    #[error("{0}")]
    File(rr_log::Fault),
}

impl From<records::Fault> for Fault {
    ghost from_gives = { λ fault wrapped. wrapped ≡ Rules fault };

    fn from(fault: records::Fault) -> Fault {
        Fault::Rules(fault)
    }
}

impl From<rr_log::Fault> for Fault {
    ghost from_gives = { λ fault wrapped. wrapped ≡ File fault };

    fn from(fault: rr_log::Fault) -> Fault {
        Fault::File(fault)
    }
}

impl From<AllocError> for Fault {
    ghost from_gives = { λ _ fault. fault ≡ Rules R.OutOfMemory };

    fn from(_error: AllocError) -> Fault {
        Fault::Rules(records::Fault::OutOfMemory)
    }
}
