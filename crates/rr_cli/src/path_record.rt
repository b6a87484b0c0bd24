// The calls on files by their paths, and how they ended. Clauses alone read this.
ghost use Rattle.std.specs.Prelude.{◌≡◌, List, []};
ghost use Rattle.std.specs.Borrow.{ftrue};
ghost use Rattle.rr_cli.specs.Calls.{PathEvent, noted};

use rr_moderator::Fault;
use std::marker::{Model, PhantomData};

/// How a call on the file at a path ended. The path is noted with it, and the text of a file that was read.
#[derive(Clone, Copy, Debug)]
pub enum PathCall {
    Read,
    NotRead(Fault),
    Opened { make: bool },
    NotOpened { make: bool },
}

/// The calls so far, the newest first. It holds nothing when the program runs.
#[derive(Drop)]
pub struct PathRecord {
    marker: PhantomData<u8>,
    pub ghost events: { List PathEvent },
}

impl Model for PathRecord {
    ghost also_owns = { λ _. ftrue };
}

impl PathRecord {
    pub fn new() -> PathRecord
        ensures { result.events ≡ [] }
    {
        PathRecord {
            marker: PhantomData,
        }
    }

    /// Notes calls on the file at a path, and the text that they gave.
    pub fn note(&mut self, _calls: &[PathCall], _path: &[u8], _text: &[u8])
        ensures { self.new.events ≡ noted _calls.now _path.now _text.now self.old.events }
    {}
}
