ghost use Rattle.std.specs.Prelude.{◌≡◌, ◌-◌, ◌<◌, ◌^◌, []};
ghost use Rattle.rr_serve.specs.Parts.{TakesReady};
ghost use Rattle.rr_serve.specs.Reading.{TakesPart};
ghost use Rattle.rr_serve.specs.Streams.{InputState};

use crate::faults::Fault;
use crate::line_buffer::LineBuffer;
use crate::reading::{Ending, Part, part_of};
use crate::record::StreamRecord;
use std::io::BufRead;

/// What gives lines by parts, and counts the reads that fail.
pub trait Input {
    /// What it has seen so far.
    ghost state: { Self → InputState };

    /// Adds to the line what stands ready of it, and tells how it ended, or none where it goes on. Only where nothing
    /// stands ready more is waited for. An error, `StreamFailed`, comes where a read failed, and is counted.
    fn take_part(&mut self, line: &mut LineBuffer) -> Result<Option<Ending>, Fault>
        ensures { TakesPart (state self.old) (state self.new) line.old line.new result };

    /// How many reads failed so far, up to 2^64 - 1.
    fn failures(&self) -> u64
        ensures { result ≡ (state self.now).failures };
}

/// A buffered reader as an input. Once it has told its end it isn't read again; a read behind 2^64 - 1 bytes isn't
/// made, and counts as failed.
#[derive(Drop)]
pub struct CountingReader<R> {
    reader: R,
    at_end: bool,
    /// How many bytes it still gives.
    left: u64,
    failures: u64,
    notes: StreamRecord,
}

impl<R: BufRead> CountingReader<R> {
    ghost use Rattle.rr_serve.specs.Counting.{input_state, reader_beneath};

    pub fn new(reader: R) -> CountingReader<R>
        ensures state { input_state R.remaining result ≡
            record { given = []; remaining = R.remaining reader; most = 2 ^ 64 - 1; failures = 0 } }
        ensures beneath { reader_beneath result ≡ reader }
    {
        CountingReader {
            reader,
            at_end: false,
            left: u64::MAX,
            failures: 0,
            notes: StreamRecord::new(),
        }
    }

    /// The reader beneath.
    pub fn into_inner(self) -> R
        ensures { result ≡ reader_beneath self }
    {
        let CountingReader {
            reader,
            at_end: _,
            left: _,
            failures: _,
            notes: _,
        } = self;
        reader
    }
}

impl<R: BufRead> Input for CountingReader<R> {
    ghost use Rattle.rr_serve.specs.Counting.{input_state};

    ghost state = { λ counting. input_state R.remaining counting };

    fn take_part(&mut self, line: &mut LineBuffer) -> Result<Option<Ending>, Fault> {
        if self.at_end {
            return Ok(Some(Ending::EndOfInput));
        }
        match take_ready(&mut self.reader, self.left, line, &mut self.notes) {
            Some(part) => {
                self.left -= part.count as u64;
                self.at_end = part.count == 0;
                Ok(part.ending)
            }
            None => {
                self.failures = self.failures.saturating_add(1);
                Err(Fault::StreamFailed)
            }
        }
    }

    fn failures(&self) -> u64 {
        self.failures
    }
}

/// Takes out of the reader what stands ready of the line, by at most one read, and notes it. None comes where the read
/// failed, or no byte may be taken any more.
fn take_ready<R: BufRead>(
    reader: &mut R,
    most: u64,
    line: &mut LineBuffer,
    notes: &mut StreamRecord,
) -> Option<Part>
    ensures { TakesReady (R.remaining reader.old) (R.remaining reader.new) notes.old.bytes notes.new.bytes line.old line.new most result }
{
    if most == 0 {
        return None;
    }
    let ready = match reader.fill_buf() {
        Ok(ready) => ready,
        Err(_) => return None,
    };
    let part = part_of(ready, most);
    line.add(&ready[..part.kept]);
    notes.note(&ready[..part.count]);
    reader.consume(part.count);
    Some(part)
}
