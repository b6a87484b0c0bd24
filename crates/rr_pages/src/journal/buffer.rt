// The bytes that an append writes, made without memory.
ghost use Rattle.std.specs.Prelude.{◌≡◌, ◌+◌, ◌-◌, ◌*◌, ◌^◌, ◌<◌, ◌≤◌, ◌∷◌, ◌++◌, length, replicate, take, drop, vec_len, IfOk};
ghost use Rattle.byteorder.specs.Endian.{big_bytes};
ghost use Rattle.rr_pages.specs.Journal.Layout.{spelling};
ghost use Rattle.rr_pages.specs.declared.journal.layout.TheConstants.{MOST_SLOTS, SLOT_BYTES};

use crate::journal::layout::{HEADER_BYTES, MOST_BYTES, MOST_SLOTS, SLOT_BYTES, slots_for};
use crate::page::OPEN;
use byteorder::{BigEndian, ByteOrder};
use std::alloc::{AllocError, Global};

/// Room for one record as it is written. One buffer serves all records of a store.
#[derive(Drop)]
pub struct RecordBuffer {
    bytes: Vec<u8>,
    ghost most_slots: { vec_len bytes ≡ 1 + MOST_SLOTS * SLOT_BYTES },
}

impl RecordBuffer {
    ghost use Rattle.rr_pages.specs.Journal.Buffer.{room};

    /// Takes all the memory that appends will need.
    pub fn new(alloc: Global) -> Result<RecordBuffer, AllocError>
        ensures { IfOk result (λ buffer. room buffer ≡ 1 + MOST_SLOTS * SLOT_BYTES) }
    {
        Ok(RecordBuffer {
            bytes: vec![in alloc; 0; 1 + MOST_SLOTS * SLOT_BYTES]?,
        })
    }

    // A record as it stands in the file, from its open gate to the closed gate of the slot behind it.
    pub(crate) fn spelled(&mut self, number: u64, bytes: &[u8]) -> &[u8]
        requires { length bytes.now ≤ MOST_BYTES }
        ensures { result.now ≡ spelling number bytes.now }
    {
        let end = 1 + SLOT_BYTES * usize::from(slots_for(bytes.len()));
        spell_in(&mut self.bytes, end, number, bytes);
        &self.bytes[..end]
    }
}

// Spells a record in the front of the buffer.
fn spell_in(buffer: &mut Vec<u8>, end: usize, number: u64, bytes: &[u8])
    requires within { end ≤ vec_len buffer.old }
    requires fits { HEADER_BYTES + length bytes.now ≤ end }
    requires short { length bytes.now < 2 ^ 32 }
    ensures spelled { take end buffer.new.items
        ≡ OPEN ∷ (big_bytes 8 number ++ (big_bytes 4 (length bytes.now) ++ (bytes.now ++ replicate (end - HEADER_BYTES - length bytes.now) 0))) }
    ensures len { vec_len buffer.new ≡ vec_len buffer.old }
{
    spell_front(buffer.as_mut_slice(), end, number, bytes);
}

fn spell_front(room: &mut [u8], end: usize, number: u64, bytes: &[u8])
    requires within { end ≤ length room.old }
    requires fits { HEADER_BYTES + length bytes.now ≤ end }
    requires short { length bytes.now < 2 ^ 32 }
    ensures { take end room.new
        ≡ OPEN ∷ (big_bytes 8 number ++ (big_bytes 4 (length bytes.now) ++ (bytes.now ++ replicate (end - HEADER_BYTES - length bytes.now) 0))) }
{
    spell(&mut room[..end], number, bytes);
}

// Writes the open gate, number, length and bytes, and zeros behind them.
fn spell(room: &mut [u8], number: u64, bytes: &[u8])
    requires fits { HEADER_BYTES + length bytes.now ≤ length room.old }
    requires short { length bytes.now < 2 ^ 32 }
    ensures { room.new
        ≡ OPEN ∷ (big_bytes 8 number ++ (big_bytes 4 (length bytes.now) ++ (bytes.now ++ replicate (length room.old - HEADER_BYTES - length bytes.now) 0))) }
{
    room[0] = OPEN;
    spell_numbered(&mut room[1..], number, bytes);
}

fn spell_numbered(room: &mut [u8], number: u64, bytes: &[u8])
    requires fits { 12 + length bytes.now ≤ length room.old }
    requires short { length bytes.now < 2 ^ 32 }
    ensures { room.new
        ≡ big_bytes 8 number ++ (big_bytes 4 (length bytes.now) ++ (bytes.now ++ replicate (length room.old - 12 - length bytes.now) 0)) }
{
    BigEndian::write_u64(room, number);
    spell_counted(&mut room[8..], bytes);
}

fn spell_counted(room: &mut [u8], bytes: &[u8])
    requires fits { 4 + length bytes.now ≤ length room.old }
    requires short { length bytes.now < 2 ^ 32 }
    ensures { room.new
        ≡ big_bytes 4 (length bytes.now) ++ (bytes.now ++ replicate (length room.old - 4 - length bytes.now) 0) }
{
    BigEndian::write_u32(room, bytes.len() as u32);
    spell_bytes(&mut room[4..], bytes);
}

fn spell_bytes(room: &mut [u8], bytes: &[u8])
    requires { length bytes.now ≤ length room.old }
    ensures { room.new ≡ bytes.now ++ replicate (length room.old - length bytes.now) 0 }
{
    room.fill(0);
    put_front(room, bytes);
}

fn put_front(room: &mut [u8], bytes: &[u8])
    requires { length bytes.now ≤ length room.old }
    ensures { room.new ≡ bytes.now ++ drop (length bytes.now) room.old }
{
    room[..bytes.len()].copy_from_slice(bytes);
}
