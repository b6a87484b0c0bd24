ghost use Rattle.std.specs.Prelude.{OnOk};
ghost use Rattle.rr_serve.specs.Lines.{taken};
ghost use Rattle.rr_serve.specs.Answering.{Refuses, Replies};
ghost use Rattle.rr_serve.specs.Serving.{AnswersAll, Session};
ghost use Rattle.rr_serve.specs.Streams.{CountsFailures};

use crate::answering::{Machine, line};
use crate::faults::Fault;
use crate::input::Input;
use crate::line_buffer::LineBuffer;
use crate::output::{Output, send};
use crate::reading::{Ending, read_line};

/// How the replies begin that say that the machine's device failed.
const DEVICE_FAILURE: &[u8] = b"no 60 ";

/// The reply to bytes at the end of the input that no line feed ends.
const MALFORMED_LINE: &[u8] = b"no 55 malformed line\n";

/// Answers each line that the reader gives, in turn: a reply is written, and the writer flushed, before the next line
/// is taken. It ends with `Ok` at the end of the input.
///
/// # Errors
/// `DeviceFailed` behind a reply that begins with `no 60 `, `StreamFailed` where a read, a write or a flush failed.
pub fn serve<M: Machine, I: Input, O: Output>(
    machine: &mut M,
    reader: &mut I,
    writer: &mut O,
    buffer: &mut LineBuffer,
) -> Result<(), Fault>
    // At `Ok` all is read, and what is written is the replies to all lines and to a rest.
    ensures whole { OnOk result (AnswersAll M.Answers M.reply_of machine.old machine.new
        (I.state reader.old).remaining (O.state writer.old).contents (O.state writer.new).contents) }

    // However it ends, the machine took the lines that were read, and what is written is their replies as far as it
    // got.
    ensures session { Session M.Answers M.reply_of machine.old machine.new
        (I.state reader.old) (I.state reader.new) (O.state writer.old) (O.state writer.new) result }

    // It tells of a failed stream exactly where a read, a write or a flush failed.
    ensures failures { CountsFailures result (I.state reader.old).failures (I.state reader.new).failures
        (O.state writer.old).failures (O.state writer.new).failures }
{
    loop {
        match read_line(reader, buffer)? {
            Ending::LineFeed => answer(machine, buffer.as_slice(), writer)?,
            Ending::EndOfInput => return refuse_rest(writer, buffer.as_slice()),
        }
    }
}

/// Answers the line, and looks whether the reply says that the device failed.
fn answer<M: Machine, O: Output>(machine: &mut M, bytes: &[u8], writer: &mut O) -> Result<(), Fault>
    ensures answers { M.Answers machine.old (taken bytes.now) machine.new }
    ensures replies { Replies result (M.reply_of machine.new) (O.state writer.old) (O.state writer.new) }
{
    line(machine, bytes, writer)?;
    if machine.reply().starts_with(DEVICE_FAILURE) {
        return Err(Fault::DeviceFailed);
    }
    Ok(())
}

/// Answers what stands at the end of the input with no line feed, if anything does.
fn refuse_rest<O: Output>(writer: &mut O, rest: &[u8]) -> Result<(), Fault>
    ensures { Refuses result rest.now (O.state writer.old) (O.state writer.new) }
{
    if rest.is_empty() {
        return Ok(());
    }
    send(writer, MALFORMED_LINE)?;
    Ok(())
}
