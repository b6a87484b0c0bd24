ghost use Rattle.std.specs.Prelude.{◌≡◌, ◌+◌, ◌*◌, ◌<◌, ◌≤◌, All, ◌⊎◌, [], ℕ, length, max, IfOk, vec_len, slice_index};
ghost use Rattle.std.specs.Vec.{vec_capacity};
ghost use Rattle.rr_disk.specs.Disk.{IsImage, furthest_end, IsOutside, length_after, after_write, after_sync};
ghost use Rattle.rr_disk.specs.Range.{IsWithin};

use crate::bytes::{overwrite, put};
use std::alloc::{AllocError, Global};

/// A file in memory that knows what of it is settled. It has its memory from the start, and asks for no more.
#[derive(Drop)]
pub struct CachedFile {
    /// What it may hold, in bytes, with 16 bytes for each unsynced range.
    room: usize,
    content: Vec<u8>,
    settled: Vec<u8>,
    /// The start and the end of each write since the last sync.
    ranges: Vec<(u64, u64)>,
    ghost content_room: { room ≤ vec_capacity content },
    ghost settled_room: { room ≤ vec_capacity settled },
    ghost ranges_room: { room ≤ 16 * vec_capacity ranges },
    ghost within: { vec_len content ≤ room },
    ghost ranges_within: { All (IsWithin (length content.items)) ranges.items },
    ghost len_is: { length content.items ≡ max (length settled.items) (furthest_end ranges.items) },
    ghost may_stay: { IsImage (record { content = content.items; settled = settled.items; ranges = ranges.items }) content.items },
}

impl CachedFile {
    ghost use Rattle.rr_disk.specs.Cached.{state_of};

    /// A settled file. Its bytes are in `content`, which has the memory for `room`.
    pub fn new(alloc: Global, room: usize, content: Vec<u8>) -> Result<CachedFile, AllocError>
        requires room { room ≤ vec_capacity content }
        requires within { vec_len content ≤ room }
        ensures state { IfOk result (λ file. state_of file ≡ record { content = content.items; settled = content.items; ranges = [] }) }
        ensures room { IfOk result (λ file. file.room ≡ room) }
    {
        let mut settled = Vec::with_capacity(alloc, room)?;
        settled.extend_from_slice(&content)?;
        let ranges = Vec::with_capacity(alloc, room / 16 + 1)?;
        Ok(CachedFile {
            room,
            content,
            settled,
            ranges,
        })
    }

    pub fn content(&self) -> &[u8]
        ensures { result.now ≡ (state_of self.now).content }
    {
        &self.content
    }

    pub fn settled(&self) -> &[u8]
        ensures { result.now ≡ (state_of self.now).settled }
    {
        &self.settled
    }

    pub fn ranges(&self) -> &[(u64, u64)]
        ensures ranges { result.now ≡ (state_of self.now).ranges }
        ensures within { All (IsWithin (length (state_of self.now).content)) result.now }
        ensures furthest { length (state_of self.now).content ≡ max (length (state_of self.now).settled) (furthest_end result.now) }
    {
        &self.ranges
    }

    pub fn write(&mut self, at: u64, bytes: &[u8])
        requires room { length_after (length (state_of self.old).content) at (length bytes.now) ≤ self.old.room }
        requires ranges_room { 16 * (length (state_of self.old).ranges + 1) ≤ self.old.room }
        ensures state { state_of self.new ≡ after_write (state_of self.old) at bytes.now }
        ensures len { length (state_of self.new).content ≡ length_after (length (state_of self.old).content) at (length bytes.now) }
        ensures ranges { length (state_of self.new).ranges ≤ length (state_of self.old).ranges + 1 }
        ensures room { self.new.room ≡ self.old.room }
    {
        if bytes.is_empty() {
            return;
        }
        overwrite(&mut self.content, at as usize, bytes);
        self.ranges.push((at, at + bytes.len() as u64)).unwrap();
    }

    pub fn sync(&mut self)
        ensures state { state_of self.new ≡ after_sync (state_of self.old) }
        ensures room { self.new.room ≡ self.old.room }
    {
        settle(&self.content, &mut self.settled, &self.ranges);
        self.ranges.clear();
    }
}

// Brings a file up to another, from which it differs in these ranges and past its end.
fn settle(content: &[u8], settled: &mut Vec<u8>, ranges: &[(u64, u64)])
    requires longer { vec_len settled.old ≤ length content.now }
    requires room { length content.now ≤ vec_capacity settled.old }
    requires same { (i : ℕ) → i < length settled.old.items → IsOutside ranges.now i → slice_index content.now i ≡ slice_index settled.old.items i }
    ensures bytes { settled.new.items ≡ content.now }
    ensures capacity { vec_capacity settled.old ≤ vec_capacity settled.new }
{
    let from = settled.len();
    copy_ranges(content, settled, ranges);
    settled.extend_from_slice(&content[from..]).unwrap();
}

// Copies what lies in these ranges from one file to the other, as far as that goes.
fn copy_ranges(from: &[u8], to: &mut [u8], ranges: &[(u64, u64)])
    requires longer { length to.old ≤ length from.now }
    requires same { (i : ℕ) → i < length to.old → IsOutside ranges.now i → slice_index from.now i ≡ slice_index to.old i }
    ensures { (i : ℕ) → i < length to.old → slice_index from.now i ≡ slice_index to.new i }
{
    for range in ranges {
        copy_range(from, to, range.0, range.1);
    }
}

// Copies what lies between two places, as far as that goes.
fn copy_range(from: &[u8], to: &mut [u8], start: u64, end: u64)
    requires longer { length to.old ≤ length from.now }
    ensures inside { (i : ℕ) → i < length to.old → start ≤ i → i < end → slice_index from.now i ≡ slice_index to.new i }
    ensures outside { (i : ℕ) → (i < start) ⊎ (end ≤ i) → slice_index to.new i ≡ slice_index to.old i }
{
    let start = start as usize;
    let end = to.len().min(end as usize);
    if start < end {
        put(to, start, &from[start..end]);
    }
}
