ghost use Rattle.rr_moderator.specs.declared.reply.TheConstants.{REPLY_ROOM};
ghost use Rattle.std.specs.Prelude.{◌≡◌, ◌+◌, ◌≤◌, [], ◌++◌, codes, length, decimal, IfOk, OnErr, OnOk};
ghost use Rattle.std.specs.Fmt.{signed_decimal};

use arrayvec::ArrayVec;
use itoa::Buffer;
use rr_words::LONGEST_LINE;
use std::alloc::{AllocError, Global};
use std::marker::Model;

/// The room that a reply begins with. Every reply except that to `book` fits: the longest one tells the sheet of a run
/// that a line has room for.
pub const REPLY_ROOM: usize = LONGEST_LINE + 192;

/// The bytes of one reply. It is made with `REPLY_ROOM` bytes of room; after that only `push` allocates memory.
#[derive(Drop)]
pub struct Reply {
    bytes: Vec<u8>,
}

impl Model for Reply {
    ghost use Rattle.std.specs.Prelude.{List, ℕ, vec_capacity, ◌≤◌};
    ghost use Rattle.rr_moderator.specs.declared.reply.TheConstants.{REPLY_ROOM};

    ghost Value = { List ℕ };

    ghost view = { λ reply. reply.bytes.items };

    ghost invariant = { λ reply. REPLY_ROOM ≤ vec_capacity reply.bytes };
}

impl Reply {
    /// An empty reply with room for `REPLY_ROOM` bytes.
    pub fn new(alloc: Global) -> Result<Reply, AllocError>
        ensures { IfOk result (λ reply. reply ≡ []) }
    {
        Ok(Reply {
            bytes: Vec::with_capacity(alloc, REPLY_ROOM)?,
        })
    }

    /// The bytes written since the reply was made or cleared.
    pub fn as_bytes(&self) -> &[u8]
        ensures { result.now ≡ self.now }
    {
        self.bytes.as_slice()
    }

    /// Drops the bytes, and keeps the room.
    pub(crate) fn clear(&mut self)
        ensures { self.new ≡ [] }
    {
        self.bytes.clear();
    }

    /// Writes bytes behind the others.
    pub(crate) fn text(&mut self, text: &[u8])
        requires { length self.old + length text.now ≤ REPLY_ROOM }
        ensures text { self.new ≡ self.old ++ text.now }
        ensures len { length self.new ≡ length self.old + length text.now }
    {
        self.bytes.extend_from_slice(text).unwrap();
    }

    /// Writes bytes after the others, and takes more room if they need it.
    ///
    /// # Errors
    /// `AllocError`; then the reply is as it was.
    pub(crate) fn push(&mut self, text: &[u8]) -> Result<(), AllocError>
        ensures ok { OnOk result (self.new ≡ self.old ++ text.now) }
        ensures err { OnErr result (self.new ≡ self.old) }
    {
        self.bytes.extend_from_slice(text)?;
        Ok(())
    }

    /// A word behind a space.
    pub(crate) fn word(&mut self, word: &[u8])
        requires { length self.old + length word.now + 1 ≤ REPLY_ROOM }
        ensures text { self.new ≡ self.old ++ (codes " " ++ word.now) }
        ensures len { length self.new ≡ length self.old + length word.now + 1 }
    {
        self.text(b" ");
        self.text(word);
    }

    /// Writes a number, in decimal digits.
    pub(crate) fn number(&mut self, number: u64)
        requires { length self.old + 20 ≤ REPLY_ROOM }
        ensures digits { self.new ≡ self.old ++ decimal number }
        ensures bounded { length self.new ≤ length self.old + 20 }
    {
        let mut buffer = Buffer::new();
        self.text(buffer.format(number).as_bytes());
    }

    /// Writes a number in decimal digits, behind a minus sign if it is less than 0.
    pub(crate) fn signed(&mut self, number: i64)
        requires { length self.old + 20 ≤ REPLY_ROOM }
        ensures digits { self.new ≡ self.old ++ signed_decimal number }
        ensures bounded { length self.new ≤ length self.old + 20 }
    {
        let mut buffer = Buffer::new();
        self.text(buffer.format(number).as_bytes());
    }
}

/// The bytes of a reply of at most 128. They lie in the value itself, so it takes no memory.
#[derive(Drop)]
pub struct ShortReply {
    bytes: ArrayVec<u8, 128>,
}

impl Model for ShortReply {
    ghost use Rattle.std.specs.Prelude.{List, ℕ};

    ghost Value = { List ℕ };

    ghost view = { λ reply. reply.bytes.items };
}

impl ShortReply {
    pub(crate) fn new() -> ShortReply
        ensures { result ≡ [] }
    {
        ShortReply {
            bytes: ArrayVec::new(),
        }
    }

    /// The bytes written since the reply was made.
    pub fn as_bytes(&self) -> &[u8]
        ensures { result.now ≡ self.now }
    {
        self.bytes.as_slice()
    }

    /// Writes bytes behind the others.
    pub(crate) fn text(&mut self, text: &[u8])
        requires { length self.old + length text.now ≤ 128 }
        ensures text { self.new ≡ self.old ++ text.now }
        ensures len { length self.new ≡ length self.old + length text.now }
    {
        self.bytes.try_extend_from_slice(text).unwrap();
    }

    /// Writes a number, in decimal digits.
    pub(crate) fn number(&mut self, number: u64)
        requires { length self.old + 20 ≤ 128 }
        ensures digits { self.new ≡ self.old ++ decimal number }
        ensures bounded { length self.new ≤ length self.old + 20 }
    {
        let mut buffer = Buffer::new();
        self.text(buffer.format(number).as_bytes());
    }
}
