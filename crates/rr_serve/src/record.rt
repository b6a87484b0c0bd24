// What went through a stream, which clauses alone read.
ghost use Rattle.std.specs.Prelude.{◌≡◌, ◌+◌, ◌++◌, List, [], ℕ};
ghost use Rattle.std.specs.Borrow.{ftrue};

use std::marker::{Model, PhantomData};

/// The bytes so far, in turn, those of them before the last flush, and how many flushes there were. It holds nothing
/// when the program runs.
#[derive(Drop)]
pub struct StreamRecord {
    marker: PhantomData<u8>,
    pub ghost bytes: { List ℕ },
    pub ghost flushed: { List ℕ },
    pub ghost flushes: { ℕ },
}

impl Model for StreamRecord {
    ghost also_owns = { λ _. ftrue };
}

impl StreamRecord {
    pub fn new() -> StreamRecord
        ensures { (result.bytes ≡ []) × (result.flushed ≡ []) × (result.flushes ≡ 0) }
    {
        StreamRecord {
            marker: PhantomData,
        }
    }

    /// Notes bytes that went through.
    pub fn note(&mut self, _bytes: &[u8])
        ensures { (self.new.bytes ≡ self.old.bytes ++ _bytes.now)
            × (self.new.flushed ≡ self.old.flushed) × (self.new.flushes ≡ self.old.flushes) }
    {}

    /// Notes a flush.
    pub fn note_flush(&mut self)
        ensures { (self.new.bytes ≡ self.old.bytes)
            × (self.new.flushed ≡ self.old.bytes) × (self.new.flushes ≡ self.old.flushes + 1) }
    {}
}
