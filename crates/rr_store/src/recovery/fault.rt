use rr_pages::Damage;
use std::alloc::{AllocError, AllocFailed};
use thiserror::Error;

/// Why tables weren't recovered.
#[derive(Clone, Copy, Debug, Drop, PartialEq, Eq, Error)]
pub enum Fault {
    /// The file holds what no store of ours holds.
    #[error("damaged {0}")]
    Damaged(Damage),
    /// A device call failed.
    #[error("{0}")]
    Disk(rr_disk::Fault),
    /// Memory was wanted and refused.
    #[error("out of memory")]
    OutOfMemory,
}

/// Of a record: it spells no request.
impl From<rr_code::Fault> for Fault {
    ghost use Rattle.std.specs.Prelude.{◌≡◌};
    ghost use Rattle.rr_pages.specs.declared.fault.Damage.TheVariants.{Records};
    ghost use Rattle.rr_store.specs.declared.recovery.fault.Fault.TheVariants.{Damaged};

    ghost from_gives = { λ _ fault. fault ≡ Damaged Records };

    fn from(_: rr_code::Fault) -> Fault {
        Fault::Damaged(Damage::Records)
    }
}

impl From<AllocError> for Fault {
    ghost use Rattle.std.specs.Prelude.{◌≡◌};
    ghost use Rattle.rr_store.specs.declared.recovery.fault.Fault.TheVariants.{OutOfMemory};

    ghost from_gives = { λ _ fault. fault ≡ OutOfMemory };

    fn from(_: AllocError) -> Fault {
        Fault::OutOfMemory
    }
}

impl<T: Drop> From<AllocFailed<T>> for Fault {
    ghost use Rattle.std.specs.Prelude.{◌≡◌};
    ghost use Rattle.rr_store.specs.declared.recovery.fault.Fault.TheVariants.{OutOfMemory};

    ghost from_gives = { λ _ fault. fault ≡ OutOfMemory };

    fn from(_: AllocFailed<T>) -> Fault {
        Fault::OutOfMemory
    }
}
