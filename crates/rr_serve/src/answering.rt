ghost use Rattle.std.specs.Prelude.{◌≡◌, ℕ, List, IfErr, OnOk, OnErr};
ghost use Rattle.rr_serve.specs.Lines.{taken};
ghost use Rattle.rr_serve.specs.Streams.{IsSent, IsCutShort};

use crate::faults::Fault;
use crate::output::{Output, send};
use rr_words::LONGEST_LINE;

/// What answers lines: it takes one, and then has the reply to it.
pub trait Machine {
    // In the old state, a line may lead to the new one. A relation, since an answer may be a choice.
    ghost Answers: { Self → List ℕ → Self → Type 0 };

    // The reply that a state holds, with its line feed.
    ghost reply_of: { Self → List ℕ };

    /// Takes a line, without its line feed, and makes the reply to it. Of a line of more than
    /// `LONGEST_LINE` bytes it is handed the first `LONGEST_LINE + 1`, and the line is too long.
    fn take(&mut self, line: &[u8])
        ensures { Answers self.old line.now self.new };

    /// The reply to the line that was taken last, with its line feed.
    fn reply(&self) -> &[u8]
        ensures { result.now ≡ reply_of self.now };
}

/// Hands the line to the machine, and writes and flushes the reply. The machine has taken the line either way.
/// An error, `StreamFailed`, comes where the writer failed.
pub fn line<M: Machine, O: Output>(
    machine: &mut M,
    line: &[u8],
    writer: &mut O,
) -> Result<(), Fault>
    ensures answers { M.Answers machine.old (taken line.now) machine.new }
    ensures ok { OnOk result (IsSent (O.state writer.old) (M.reply_of machine.new) (O.state writer.new)) }
    ensures err { OnErr result (IsCutShort (O.state writer.old) (M.reply_of machine.new) (O.state writer.new)) }
    ensures fault { IfErr result (λ fault. fault ≡ Fault.StreamFailed) }
{
    let known = line.len().min(LONGEST_LINE + 1);
    machine.take(&line[..known]);
    send(writer, machine.reply())
}
