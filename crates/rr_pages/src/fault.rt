use std::alloc::{AllocError, AllocFailed};
use thiserror::Error;

/// Which clause a damaged file breaks. Its bytes alone decide those before `Form`, and the rules of the game those
/// behind it. Of several the least is told.
#[derive(Clone, Copy, Debug, Drop, PartialEq, Eq, Error)]
pub enum Damage {
    /// A field of an open root is out of bounds, or two open roots have the same number.
    #[error("1")]
    RootField,
    /// A page number is below 514, or not under the page count of the root.
    #[error("2")]
    PageOutside,
    /// A page is reached twice.
    #[error("3")]
    PageTwice,
    /// A page has more than 4,086 used bytes.
    #[error("4")]
    UsedBytes,
    /// A chain has another length than is stated, the bytes of the directory spell none, those of a table's chain
    /// aren't as many commands as it says, kept words of a table are no request's, and no `best`, or a snapshot's bytes
    /// are no game's that has played as many commands.
    #[error("5")]
    Form,
    /// A text of the kit is wrong.
    #[error("6")]
    Kit,
    /// What a table keeps behind its last snapshot, or all of it where snapshots lack, isn't an opening and then
    /// commands that are lawful, each after those before it; or its floor is above the turns that ended in them.
    #[error("7")]
    Kept,
    /// A record spells no request that its table may take, or is damaged.
    #[error("8")]
    Records,
}

impl Damage {
    ghost use Rattle.std.specs.Prelude.{◌≡◌};
    ghost use Rattle.rr_pages.specs.Faults.{clause_of};

    /// The number of the clause, in the order in which they are told.
    pub fn clause(self) -> u8
        ensures { result ≡ clause_of self }
    {
        match self {
            Damage::RootField => 1,
            Damage::PageOutside => 2,
            Damage::PageTwice => 3,
            Damage::UsedBytes => 4,
            Damage::Form => 5,
            Damage::Kit => 6,
            Damage::Kept => 7,
            Damage::Records => 8,
        }
    }
}

/// Why a call failed.
#[derive(Clone, Copy, Debug, Drop, PartialEq, Eq, Error)]
pub enum Fault {
    /// Fewer pages are free than are needed, under the 65,536 that a file has at most.
    #[error("file full")]
    FileFull,
    /// The slots left in a half of the journal don't suffice for the record.
    #[error("half full")]
    HalfFull,
    /// The file breaks a clause of its form.
    #[error("damaged {0}")]
    Damaged(Damage),
    /// The file has fewer than 515 pages, no root, or one of a version that isn't known.
    #[error("not a store")]
    NotAStore,
    /// A device call failed.
    #[error("{0}")]
    Disk(rr_disk::Fault),
    /// Memory was wanted and refused.
    #[error("out of memory")]
    OutOfMemory,
}

impl From<rr_disk::Fault> for Fault {
    ghost use Rattle.std.specs.Prelude.{◌≡◌};
    ghost use Rattle.rr_pages.specs.declared.fault.Fault.TheVariants.{Disk};

    ghost from_gives = { λ fault wrapped. wrapped ≡ Disk fault };

    fn from(fault: rr_disk::Fault) -> Fault {
        Fault::Disk(fault)
    }
}

impl From<AllocError> for Fault {
    ghost use Rattle.std.specs.Prelude.{◌≡◌};
    ghost use Rattle.rr_pages.specs.declared.fault.Fault.TheVariants.{OutOfMemory};

    ghost from_gives = { λ _ fault. fault ≡ OutOfMemory };

    fn from(_: AllocError) -> Fault {
        Fault::OutOfMemory
    }
}

impl<T: Drop> From<AllocFailed<T>> for Fault {
    ghost use Rattle.std.specs.Prelude.{◌≡◌};
    ghost use Rattle.rr_pages.specs.declared.fault.Fault.TheVariants.{OutOfMemory};

    ghost from_gives = { λ _ fault. fault ≡ OutOfMemory };

    fn from(_: AllocFailed<T>) -> Fault {
        Fault::OutOfMemory
    }
}
