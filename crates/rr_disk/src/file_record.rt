// What was asked of a file and what it answered, which clauses alone read.
ghost use Rattle.std.specs.Prelude.{◌≡◌, List, []};
ghost use Rattle.std.specs.Borrow.{ftrue};
ghost use Rattle.rr_disk.specs.Events.{Event, noted};

use std::marker::{Model, PhantomData};

/// A call that a file answered. Its bytes are noted beside it: those that a read gave, those of a write.
#[derive(Clone, Copy, Debug)]
pub enum FileCall {
    Length { len: u64 },
    Read { at: u64 },
    Write { at: u64 },
    FailedWrite { at: u64 },
    Sync,
}

/// The calls so far, the newest first. It holds nothing when the program runs.
#[derive(Drop)]
pub struct FileRecord {
    marker: PhantomData<u8>,
    pub ghost events: { List Event },
}

impl Model for FileRecord {
    ghost also_owns = { λ _. ftrue };
}

impl FileRecord {
    pub fn new() -> FileRecord
        ensures { result.events ≡ [] }
    {
        FileRecord {
            marker: PhantomData,
        }
    }

    pub fn note(&mut self, _calls: &[FileCall], _bytes: &[u8])
        ensures { self.new.events ≡ noted _calls.now _bytes.now self.old.events }
    {}
}
