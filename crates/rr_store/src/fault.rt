ghost use Rattle.std.specs.Prelude.{◌≡◌};
ghost use Rattle.rr_store.specs.Fault.{of_kit, of_log, of_pages, of_reading, of_recovery, of_rules, of_tables};
ghost use Rattle.rr_store.specs.declared.fault.Fault.TheVariants.{OutOfMemory};

use crate::recovery;
use rr_books::Refusal;
use rr_pages::Damage;
use rr_tables::records;
use std::alloc::{AllocError, AllocFailed};
use thiserror::Error;

/// Why a request, a kit or a file is refused.
#[derive(Clone, Copy, Debug, Drop, PartialEq, Eq, Error)]
pub enum Fault {
    /// A text of the kit is refused. Want of memory isn't told by this, but by `OutOfMemory`.
    #[error("{0}")]
    Kit(rr_kit::Fault),
    /// The rules of the game refuse it. Want of memory isn't told by this, but by `OutOfMemory`.
    #[error("{0}")]
    Game(Refusal),
    /// The stamp isn't the table's, which is given.
    #[error("stale stamp {0}")]
    StaleStamp(u64),
    /// The turn hasn't ended yet, or it is forgotten.
    #[error("turn not kept")]
    TurnNotKept,
    /// The table has all the commands that it can keep, or its last stamp.
    #[error("too many commands")]
    TooManyCommands,
    /// The device failed. Whether the request under way was taken is known when the file is opened again.
    #[error("device failed")]
    DeviceFailed,
    /// A record takes more than eight slots, fewer pages are free than a checkpoint needs, or a number would be past the
    /// last.
    #[error("file full")]
    FileFull,
    /// The file holds what no store of ours holds; the first clause that it breaks.
    #[error("damaged {0}")]
    Damaged(Damage),
    /// The file is no store.
    #[error("not a store")]
    NotAStore,
    /// The file to be formatted isn't empty.
    #[error("not empty")]
    NotEmpty,
    /// The device failed before: the file has to be opened again.
    #[error("open again")]
    OpenAgain,
    /// There are 64 tables.
    #[error("too many tables")]
    TooManyTables,
    /// No table has this name.
    #[error("no such table")]
    NoSuchTable,
    /// A request for memory was refused.
    #[error("out of memory")]
    OutOfMemory,
}

impl From<rr_kit::Fault> for Fault {
    ghost from_gives = { λ fault wrapped. wrapped ≡ of_kit fault };

    fn from(fault: rr_kit::Fault) -> Fault {
        match fault {
            rr_kit::Fault::OutOfMemory => Fault::OutOfMemory,
            _ => Fault::Kit(fault),
        }
    }
}

/// Of a request that isn't lawful at its table.
impl From<records::Fault> for Fault {
    ghost from_gives = { λ fault wrapped. wrapped ≡ of_rules fault };

    fn from(fault: records::Fault) -> Fault {
        match fault {
            records::Fault::Game(fault) => Fault::Game(fault),
            records::Fault::StaleStamp(stamp) => Fault::StaleStamp(stamp),
            records::Fault::TurnNotKept => Fault::TurnNotKept,
            records::Fault::TooManyCommands => Fault::TooManyCommands,
            records::Fault::TooManyTables => Fault::TooManyTables,
            records::Fault::NoSuchTable => Fault::NoSuchTable,
            records::Fault::OutOfMemory => Fault::OutOfMemory,
        }
    }
}

/// Of the open file. A half without room is told as a full file: where a checkpoint makes room, one is made instead.
impl From<rr_log::Fault> for Fault {
    ghost from_gives = { λ fault wrapped. wrapped ≡ of_log fault };

    fn from(fault: rr_log::Fault) -> Fault {
        match fault {
            rr_log::Fault::DeviceFailed => Fault::DeviceFailed,
            rr_log::Fault::HalfFull | rr_log::Fault::FileFull => Fault::FileFull,
            rr_log::Fault::OpenAgain => Fault::OpenAgain,
            rr_log::Fault::OutOfMemory => Fault::OutOfMemory,
        }
    }
}

/// Of tables that don't take a request.
impl From<rr_tables::Fault> for Fault {
    ghost from_gives = { λ fault wrapped. wrapped ≡ of_tables fault };

    fn from(fault: rr_tables::Fault) -> Fault {
        match fault {
            rr_tables::Fault::Rules(fault) => Fault::from(fault),
            rr_tables::Fault::File(fault) => Fault::from(fault),
        }
    }
}

/// Of the pages of a new file.
impl From<rr_pages::Fault> for Fault {
    ghost from_gives = { λ fault wrapped. wrapped ≡ of_pages fault };

    fn from(fault: rr_pages::Fault) -> Fault {
        match fault {
            rr_pages::Fault::FileFull | rr_pages::Fault::HalfFull => Fault::FileFull,
            rr_pages::Fault::Damaged(damage) => Fault::Damaged(damage),
            rr_pages::Fault::NotAStore => Fault::NotAStore,
            rr_pages::Fault::Disk(rr_disk::Fault::DeviceFailed) => Fault::DeviceFailed,
            rr_pages::Fault::Disk(rr_disk::Fault::OutOfMemory) => Fault::OutOfMemory,
            rr_pages::Fault::OutOfMemory => Fault::OutOfMemory,
        }
    }
}

/// Of the bytes of a file.
impl From<rr_reading::Fault> for Fault {
    ghost from_gives = { λ fault wrapped. wrapped ≡ of_reading fault };

    fn from(fault: rr_reading::Fault) -> Fault {
        match fault {
            rr_reading::Fault::Damaged(damage) => Fault::Damaged(damage),
            rr_reading::Fault::NotAStore => Fault::NotAStore,
            rr_reading::Fault::Disk(rr_disk::Fault::DeviceFailed) => Fault::DeviceFailed,
            rr_reading::Fault::Disk(rr_disk::Fault::OutOfMemory) => Fault::OutOfMemory,
            rr_reading::Fault::OutOfMemory => Fault::OutOfMemory,
        }
    }
}

/// Of what the rules of the game say of a file.
impl From<recovery::Fault> for Fault {
    ghost from_gives = { λ fault wrapped. wrapped ≡ of_recovery fault };

    fn from(fault: recovery::Fault) -> Fault {
        match fault {
            recovery::Fault::Damaged(damage) => Fault::Damaged(damage),
            recovery::Fault::Disk(rr_disk::Fault::DeviceFailed) => Fault::DeviceFailed,
            recovery::Fault::Disk(rr_disk::Fault::OutOfMemory) => Fault::OutOfMemory,
            recovery::Fault::OutOfMemory => Fault::OutOfMemory,
        }
    }
}

impl From<AllocError> for Fault {
    ghost from_gives = { λ _ fault. fault ≡ OutOfMemory };

    fn from(_error: AllocError) -> Fault {
        Fault::OutOfMemory
    }
}

impl<T: Drop> From<AllocFailed<T>> for Fault {
    ghost from_gives = { λ _ fault. fault ≡ OutOfMemory };

    fn from(_error: AllocFailed<T>) -> Fault {
        Fault::OutOfMemory
    }
}
