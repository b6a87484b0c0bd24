ghost use Rattle.std.specs.Prelude.{◌≡◌, ◌+◌, ◌*◌, ◌≤◌, ◌∷◌, [], length, IfOk, vec_len};
ghost use Rattle.std.specs.Vec.{vec_capacity};
ghost use Rattle.rr_disk.specs.Disk.{after_write, after_sync};
ghost use Rattle.rr_disk.specs.Replay.{length_of};

use crate::call::Call;
use std::alloc::{AllocError, Global};

/// What a disk in memory held when it was made, and each write and sync since then. It has its memory from the start.
#[derive(Drop)]
pub struct CallLog {
    /// How many bytes written it may hold, with 16 bytes for each call.
    room: usize,
    base: Vec<u8>,
    calls: Vec<Call>,
    /// The bytes of all writes, one after another.
    bytes: Vec<u8>,
    ghost bytes_room: { room ≤ vec_capacity bytes },
    ghost calls_room: { room ≤ 16 * vec_capacity calls },
    ghost whole: { vec_len bytes ≡ length_of calls.items },
    ghost within: { vec_len bytes + 16 * vec_len calls ≤ room },
}

impl CallLog {
    ghost use Rattle.rr_disk.specs.CallLog.{now_of, past_of, used_of};

    pub fn new(alloc: Global, room: usize, content: &[u8]) -> Result<CallLog, AllocError>
        ensures now { IfOk result (λ log. now_of log ≡ record { content = content.now; settled = content.now; ranges = [] }) }
        ensures past { IfOk result (λ log. past_of log ≡ []) }
        ensures used { IfOk result (λ log. used_of log ≡ 0) }
        ensures room { IfOk result (λ log. log.room ≡ room) }
    {
        let base = content.to_vec(alloc)?;
        let calls = Vec::with_capacity(alloc, room / 16 + 1)?;
        let bytes = Vec::with_capacity(alloc, room)?;
        Ok(CallLog {
            room,
            base,
            calls,
            bytes,
        })
    }

    /// How much of the room is used.
    pub fn used(&self) -> usize
        ensures used { result ≡ used_of self.now }
        ensures within { used_of self.now ≤ self.now.room }
    {
        self.bytes.len() + 16 * self.calls.len()
    }

    pub fn add_write(&mut self, at: u64, bytes: &[u8])
        requires { used_of self.old + length bytes.now + 16 ≤ self.old.room }
        ensures now { now_of self.new ≡ after_write (now_of self.old) at bytes.now }
        ensures past { past_of self.new ≡ now_of self.old ∷ past_of self.old }
        ensures used { used_of self.new ≡ used_of self.old + length bytes.now + 16 }
        ensures room { self.new.room ≡ self.old.room }
    {
        self.calls
            .push(Call::Write {
                at,
                len: bytes.len(),
            })
            .unwrap();
        self.bytes.extend_from_slice(bytes).unwrap();
    }

    pub fn add_sync(&mut self)
        requires { used_of self.old + 16 ≤ self.old.room }
        ensures now { now_of self.new ≡ after_sync (now_of self.old) }
        ensures past { past_of self.new ≡ now_of self.old ∷ past_of self.old }
        ensures used { used_of self.new ≡ used_of self.old + 16 }
        ensures room { self.new.room ≡ self.old.room }
    {
        self.calls.push(Call::Sync).unwrap();
    }
}
