ghost use Rattle.std.specs.Prelude.{◌≡◌, [], ◌++◌, IfOk};
ghost use Rattle.rr_serve.specs.Lines.{taken};

use rr_words::LONGEST_LINE;
use std::alloc::{AllocError, Global};
use std::marker::Model;

/// Room for a line. It keeps at most one byte more than the longest line has, which tells that a line is too long.
#[derive(Drop)]
pub struct LineBuffer {
    bytes: Vec<u8>,
}

impl Model for LineBuffer {
    ghost use Rattle.std.specs.Prelude.{ℕ, ◌<◌, ◌≤◌, ◌+◌, List};
    ghost use Rattle.std.specs.Vec.{vec_capacity, vec_len};
    ghost use Rattle.rr_words.specs.declared.line.TheConstants.{LONGEST_LINE};

    ghost Value = { List ℕ };

    ghost view = { λ buffer. buffer.bytes.items };

    ghost invariant = { λ buffer. (LONGEST_LINE < vec_capacity buffer.bytes) × (vec_len buffer.bytes ≤ LONGEST_LINE + 1) };
}

impl LineBuffer {
    /// An empty buffer. All the memory that it ever needs is asked for here.
    pub fn new(alloc: Global) -> Result<LineBuffer, AllocError>
        ensures { IfOk result (λ buffer. buffer ≡ []) }
    {
        let bytes = Vec::with_capacity(alloc, LONGEST_LINE + 1)?;
        Ok(LineBuffer { bytes })
    }

    /// Keeps nothing of the line any more.
    pub fn clear(&mut self)
        ensures { self.new ≡ [] }
    {
        self.bytes.clear();
    }

    /// Adds bytes as far as there is room. Where there isn't, the line is too long, and what else it has is not kept.
    pub fn add(&mut self, bytes: &[u8])
        ensures added { self.new ≡ taken (self.old ++ bytes.now) }
        ensures nothing { bytes.now ≡ [] → self.new ≡ self.old }
    {
        let room = LONGEST_LINE + 1 - self.bytes.len();
        let kept = bytes.len().min(room);
        self.bytes.extend_from_slice(&bytes[..kept]).unwrap();
    }

    /// What is kept of the line.
    pub fn as_slice(&self) -> &[u8]
        ensures { result.now ≡ self.now }
    {
        self.bytes.as_slice()
    }
}
