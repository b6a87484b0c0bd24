use crate::dir;
use rr_pages::Damage;
use std::alloc::{AllocError, AllocFailed};
use thiserror::Error;

/// Why a file wasn't read.
#[derive(Clone, Copy, Debug, Drop, PartialEq, Eq, Error)]
pub enum Fault {
    /// The file breaks a clause of its form.
    #[error("damaged {0}")]
    Damaged(Damage),
    /// The file has fewer than 515 pages, no root, or one of a version that isn't known.
    #[error("not a store")]
    NotAStore,
    /// A device call failed.
    #[error("{0}")]
    Disk(rr_disk::Fault),
    /// Memory was wanted and refused.
    #[error("out of memory")]
    OutOfMemory,
}

// Reading takes no free page and appends nothing, so that neither a full file nor a full half is ever told.
impl From<rr_pages::Fault> for Fault {
    ghost use Rattle.std.specs.Prelude.{◌≡◌};
    ghost use Rattle.rr_reading.specs.Faults.{of_pages};

    ghost from_gives = { λ fault wrapped. wrapped ≡ of_pages fault };

    fn from(fault: rr_pages::Fault) -> Fault {
        match fault {
            rr_pages::Fault::Damaged(damage) => Fault::Damaged(damage),
            rr_pages::Fault::NotAStore => Fault::NotAStore,
            rr_pages::Fault::Disk(fault) => Fault::Disk(fault),
            rr_pages::Fault::FileFull | rr_pages::Fault::HalfFull | rr_pages::Fault::OutOfMemory =>
                Fault::OutOfMemory,
        }
    }
}

/// Of a directory.
impl From<dir::Fault> for Fault {
    ghost use Rattle.std.specs.Prelude.{◌≡◌};
    ghost use Rattle.rr_reading.specs.Faults.{of_directory};

    ghost from_gives = { λ fault wrapped. wrapped ≡ of_directory fault };

    fn from(fault: dir::Fault) -> Fault {
        match fault {
            dir::Fault::Damaged => Fault::Damaged(Damage::Form),
            dir::Fault::OutOfMemory => Fault::OutOfMemory,
        }
    }
}

impl From<AllocError> for Fault {
    ghost use Rattle.std.specs.Prelude.{◌≡◌};
    ghost use Rattle.rr_reading.specs.declared.fault.Fault.TheVariants.{OutOfMemory};

    ghost from_gives = { λ _ fault. fault ≡ OutOfMemory };

    fn from(_: AllocError) -> Fault {
        Fault::OutOfMemory
    }
}

impl<T: Drop> From<AllocFailed<T>> for Fault {
    ghost use Rattle.std.specs.Prelude.{◌≡◌};
    ghost use Rattle.rr_reading.specs.declared.fault.Fault.TheVariants.{OutOfMemory};

    ghost from_gives = { λ _ fault. fault ≡ OutOfMemory };

    fn from(_: AllocFailed<T>) -> Fault {
        Fault::OutOfMemory
    }
}
