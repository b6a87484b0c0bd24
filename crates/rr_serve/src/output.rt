ghost use Rattle.std.specs.Prelude.{◌≡◌, [], IfErr, OnOk, OnErr};
ghost use Rattle.rr_serve.specs.Streams.{OutputState, Takes, FailsToTake, Flushes, FailsToFlush, IsSent, IsCutShort, Writes};

use crate::faults::Fault;
use crate::record::StreamRecord;
use std::io::Write;

/// What takes bytes, and counts the writes and flushes that fail.
pub trait Output {
    /// What it has seen so far.
    ghost state: { Self → OutputState };

    /// Writes all of the bytes. An error, `StreamFailed`, comes where a write failed or took nothing, and is counted.
    /// Each write has bytes to take, so no bytes at all can't fail.
    fn write_all(&mut self, bytes: &[u8]) -> Result<(), Fault>
        ensures ok { OnOk result (Takes (state self.old) bytes.now (state self.new)) }
        ensures err { OnErr result (FailsToTake (state self.old) bytes.now (state self.new)) }
        ensures fault { IfErr result (λ fault. fault ≡ Fault.StreamFailed) };

    /// Holds back nothing of what was written. An error, `StreamFailed`, comes where this failed, and is counted.
    fn flush(&mut self) -> Result<(), Fault>
        ensures ok { OnOk result (Flushes (state self.old) (state self.new)) }
        ensures err { OnErr result (FailsToFlush (state self.old) (state self.new)) }
        ensures fault { IfErr result (λ fault. fault ≡ Fault.StreamFailed) };

    /// How many writes and flushes failed so far, up to 2^64 - 1.
    fn failures(&self) -> u64
        ensures { result ≡ (state self.now).failures };
}

/// Writes a whole reply and flushes it. Behind an error, `StreamFailed`, a front of the reply may be written.
pub fn send<O: Output>(output: &mut O, reply: &[u8]) -> Result<(), Fault>
    ensures ok { OnOk result (IsSent (O.state output.old) reply.now (O.state output.new)) }
    ensures err { OnErr result (IsCutShort (O.state output.old) reply.now (O.state output.new)) }
    ensures fault { IfErr result (λ fault. fault ≡ Fault.StreamFailed) }
{
    output.write_all(reply)?;
    output.flush()?;
    Ok(())
}

/// A writer as an output.
#[derive(Drop)]
pub struct CountingWriter<W> {
    writer: W,
    failures: u64,
    notes: StreamRecord,
}

impl<W: Write> CountingWriter<W> {
    ghost use Rattle.rr_serve.specs.Counting.{output_state, writer_beneath};

    pub fn new(writer: W) -> CountingWriter<W>
        ensures state { output_state W.contents result ≡
            record { written = []; contents = W.contents writer; flushed = []; flushes = 0; failures = 0 } }
        ensures beneath { writer_beneath result ≡ writer }
    {
        CountingWriter {
            writer,
            failures: 0,
            notes: StreamRecord::new(),
        }
    }

    /// The writer beneath.
    pub fn into_inner(self) -> W
        ensures { result ≡ writer_beneath self }
    {
        let CountingWriter {
            writer,
            failures: _,
            notes: _,
        } = self;
        writer
    }
}

impl<W: Write> Output for CountingWriter<W> {
    ghost use Rattle.rr_serve.specs.Counting.{output_state};

    ghost state = { λ counting. output_state W.contents counting };

    fn write_all(&mut self, bytes: &[u8]) -> Result<(), Fault> {
        if write_whole(&mut self.writer, bytes, &mut self.notes) {
            return Ok(());
        }
        self.failures = self.failures.saturating_add(1);
        Err(Fault::StreamFailed)
    }

    fn flush(&mut self) -> Result<(), Fault> {
        if self.writer.flush().is_err() {
            self.failures = self.failures.saturating_add(1);
            return Err(Fault::StreamFailed);
        }
        self.notes.note_flush();
        Ok(())
    }

    fn failures(&self) -> u64 {
        self.failures
    }
}

/// Writes the bytes by as many writes as it takes, and notes those that were taken. Tells whether all were.
fn write_whole<W: Write>(writer: &mut W, bytes: &[u8], notes: &mut StreamRecord) -> bool
    ensures writes { Writes (W.contents writer.old) (W.contents writer.new) notes.old.bytes notes.new.bytes bytes.now result }
    ensures flushed { notes.new.flushed ≡ notes.old.flushed }
    ensures flushes { notes.new.flushes ≡ notes.old.flushes }
{
    let mut written = 0;
    while written < bytes.len() {
        match writer.write(&bytes[written..]) {
            Ok(count) if 0 < count => {
                notes.note(&bytes[written..written + count]);
                written += count;
            }
            _ => return false,
        }
    }
    true
}
