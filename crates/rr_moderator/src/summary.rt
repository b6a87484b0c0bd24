//! How much a file holds, in two numbers.
ghost use Rattle.std.specs.Prelude.{◌≡◌, ◌≤◌, length};
ghost use Rattle.rr_moderator.specs.Answer.{summary_text};

use crate::reply::{Reply, ShortReply};

/// How much a file holds.
#[derive(Clone, Copy, Debug, PartialEq, Eq)]
pub struct Summary {
    /// How many tables there are, 64 at most.
    pub tables: usize,
    /// The number of the last request that was accepted, counted over all tables from 1; 0 where there is none.
    pub last: u64,
}

impl Summary {
    /// The reply that tells it: `ok` and both numbers. It takes no memory.
    pub fn line(&self) -> ShortReply
        ensures text { result ≡ summary_text self.now }
        ensures bounded { length result ≤ 100 }
    {
        let mut reply = ShortReply::new();
        reply.text(b"ok ");
        reply.number(self.tables as u64);
        reply.text(b" ");
        reply.number(self.last);
        reply.text(b"\n");
        reply
    }

    /// Writes that reply.
    pub fn write(&self, reply: &mut Reply)
        ensures { reply.new ≡ summary_text self.now }
    {
        let line = self.line();
        reply.clear();
        reply.text(line.as_bytes());
    }
}
