ghost use Rattle.std.specs.Prelude.{◌≡◌, ◌↔◌, ◌+◌, ◌*◌, ◌^◌, ◌<◌, ◌≤◌, ◌∷◌, [], length, IfOk, OnOk, OnErr, IsOk, IsErrOf, IsTrue, IsOkUnless, true, false, max, vec_len, ◌-◌};
ghost use Rattle.std.specs.Vec.{vec_capacity};
ghost use Rattle.rr_disk.specs.Disk.{IsImage, furthest_end, length_after, IsAt, after_write, after_sync, CountsFault, counted};
ghost use Rattle.rr_disk.specs.Cached.{state_of};
ghost use Rattle.rr_disk.specs.CallLog.{now_of, past_of, used_of};
ghost use Rattle.rr_disk.specs.Choice.{IsChoice, chosen};

use crate::bytes::{copy_over, end_of, grow};
use crate::cached::CachedFile;
use crate::call_log::CallLog;
use crate::choice::{fit_ranges, lay_all};
use crate::{Choice, Disk, Fault};
use std::alloc::{AllocError, Global};

// What a call takes of a disk's room, beside the bytes of a write.
const CALL: usize = 16;

/// A disk in memory. It takes all its memory when it is made, and knows each write and sync that was made on it.
///
/// Its `room`, in bytes, is one limit over the file's length, the bytes of all writes together, and 16 bytes for each
/// write and sync. A call that would pass it is a fault; nothing of it goes out. A disk works until that happens first.
#[derive(Drop)]
pub struct MemoryDisk {
    alloc: Global,
    room: usize,
    file: CachedFile,
    log: CallLog,
    /// A call was refused for want of room.
    full: bool,
    faults: u64,
    writes: u64,
    syncs: u64,
    ghost file_room: { file.room ≡ room },
    ghost log_room: { log.room ≡ room },
    ghost same: { now_of log ≡ state_of file },
    ghost within: { length (state_of file).content + used_of log ≤ room },
    ghost ranges_within: { 16 * length (state_of file).ranges ≤ used_of log },
}

impl MemoryDisk {
    ghost use Rattle.rr_disk.specs.Memory.{memory_state, room_of, IsFresh};

    /// An empty disk.
    ///
    /// # Errors
    /// `OutOfMemory` alone.
    pub fn new(alloc: Global, room: usize) -> Result<MemoryDisk, Fault>
        ensures fresh { IfOk result (IsFresh [] room) }
        ensures err { IsOkUnless result Fault.OutOfMemory }
    {
        MemoryDisk::from_bytes(alloc, room, &[])
    }

    /// A disk with these bytes, all of them settled.
    ///
    /// # Errors
    /// `DeviceFailed` where they pass the room, and else `OutOfMemory` alone.
    pub fn from_bytes(alloc: Global, room: usize, bytes: &[u8]) -> Result<MemoryDisk, Fault>
        ensures fresh { IfOk result (IsFresh bytes.now room) }
        ensures past_room { IsErrOf result Fault.DeviceFailed ↔ (room < length bytes.now) }
    {
        if bytes.len() > room {
            return Err(Fault::DeviceFailed);
        }
        let mut content = Vec::with_capacity(alloc, room)?;
        content.extend_from_slice(bytes)?;
        let disk = MemoryDisk::made(alloc, room, content)?;
        Ok(disk)
    }

    /// What a read gives.
    pub fn content(&self) -> &[u8]
        ensures { result.now ≡ (memory_state self.now).content }
    {
        self.file.content()
    }

    /// How long the file was at the last sync that succeeded, in bytes.
    pub fn settled(&self) -> u64
        ensures { result ≡ length (memory_state self.now).settled }
    {
        self.file.settled().len() as u64
    }

    /// The start and the end of each write since then, in order of writing.
    pub fn unsynced(&self) -> &[(u64, u64)]
        ensures ranges { result.now ≡ (memory_state self.now).ranges }
        ensures furthest { length (memory_state self.now).content ≡ max (length (memory_state self.now).settled) (furthest_end result.now) }
    {
        self.file.ranges()
    }

    /// Whether `stop` takes this choice: one for each unsynced range, no front longer than its range, and a length from
    /// the settled one to that of what a read gives.
    pub fn allows(&self, choice: Choice<'_>) -> bool
        ensures { IsTrue result ↔ IsChoice (memory_state self.now) choice.entry.kept.now choice.entry.len }
    {
        let len = choice.len as usize;
        choice.kept.len() == self.file.ranges().len()
            && self.file.settled().len() <= len
            && len <= self.file.content().len()
            && fit_ranges(self.file.ranges(), choice.kept)
    }

    /// The disk as a stop with this choice leaves it, with the same room. Nothing is unsynced there.
    ///
    /// # Errors
    /// `OutOfMemory` alone.
    pub fn stop(&self, choice: Choice<'_>) -> Result<MemoryDisk, Fault>
        requires { IsChoice (memory_state self.now) choice.kept.now choice.len }
        ensures fresh { IfOk result (IsFresh (chosen (memory_state self.now) choice.entry.kept.now choice.entry.len) (room_of self.now)) }
        ensures image { IfOk result (λ disk. IsImage (memory_state self.now) (memory_state disk).content) }
        ensures err { IsOkUnless result Fault.OutOfMemory }
    {
        let image = self.image(choice)?;
        let disk = MemoryDisk::made(self.alloc, self.room, image)?;
        Ok(disk)
    }

    // The bytes that such a stop leaves, with the memory for the room.
    fn image(&self, choice: Choice<'_>) -> Result<Vec<u8>, AllocError>
        requires { IsChoice (memory_state self.now) choice.kept.now choice.len }
        ensures bytes { IfOk result (λ image. image.items ≡ chosen (memory_state self.now) choice.entry.kept.now choice.entry.len) }
        ensures room { IfOk result (λ image. room_of self.now ≤ vec_capacity image) }
        ensures within { IfOk result (λ image. vec_len image ≤ room_of self.now) }
    {
        let mut image = Vec::with_capacity(self.alloc, self.room)?;
        image.extend_from_slice(self.file.settled())?;
        let content = self.file.content();
        grow(&mut image, content.len());
        lay_all(&mut image, content, self.file.ranges(), choice.kept);
        image.truncate(choice.len as usize);
        Ok(image)
    }

    // A disk with the bytes of a vector that has the memory for its room.
    fn made(alloc: Global, room: usize, content: Vec<u8>) -> Result<MemoryDisk, Fault>
        requires room { room ≤ vec_capacity content }
        requires within { vec_len content ≤ room }
        ensures fresh { IfOk result (IsFresh content.items room) }
        ensures err { IsOkUnless result Fault.OutOfMemory }
    {
        let log = CallLog::new(alloc, room, &content)?;
        let file = CachedFile::new(alloc, room, content)?;
        Ok(MemoryDisk {
            alloc,
            room,
            file,
            log,
            full: false,
            faults: 0,
            writes: 0,
            syncs: 0,
        })
    }
}

// Whether a file of so many bytes and one more call with so many go into what is left of a room.
fn fits(whole: usize, added: usize, left: usize) -> bool
    ensures { IsTrue result ↔ (whole + added + 16 ≤ left) }
{
    left >= CALL && left - CALL >= added && left - CALL - added >= whole
}

// How long a file is after a write of so many bytes that ends there.
fn len_after(len: usize, end: u64, added: usize) -> usize
    requires { added ≤ end }
    ensures { result ≡ length_after len (end - added) added }
{
    if added == 0 {
        len
    } else {
        len.max(end as usize)
    }
}

impl Disk for MemoryDisk {
    ghost use Rattle.std.proofs.Common.{refl};
    ghost use Rattle.rr_disk.specs.Memory.{memory_state, memory_past, memory_faults, memory_writes, memory_syncs, room_of, used_of_room, is_full};

    ghost state = { λ disk. state_of disk.file };

    ghost past = { λ disk. past_of disk.log };

    ghost fault_count = { λ disk. disk.faults };

    ghost write_count = { λ disk. disk.writes };

    ghost sync_count = { λ disk. disk.syncs };

    ghost file_len = { λ disk. length (state_of disk.file).content };

    ghost Honest = { λ _. Unit {0} };

    ghost Works = { λ disk. disk.full ≡ false };

    fn len(&self) -> u64
        ensures { result ≡ length (memory_state self.now).content }
    {
        self.content().len() as u64
    }

    fn read_at(&mut self, at: u64, into: &mut [u8]) -> Result<(), Fault>
        ensures bytes { OnOk result (IsAt (memory_state self.old).content at into.new) }
        ensures same_state { memory_state self.new ≡ memory_state self.old }
        ensures same_past { memory_past self.new ≡ memory_past self.old }
        ensures fault { CountsFault (memory_faults self.old) (memory_faults self.new) result }
        ensures writes { memory_writes self.new ≡ memory_writes self.old }
        ensures syncs { memory_syncs self.new ≡ memory_syncs self.old }

        // It fails past the end alone.
        ensures within { IsOk result ↔ (at + length into.old ≤ length (memory_state self.old).content) }
        ensures works { is_full self.new ≡ is_full self.old }
        ensures used { used_of_room self.new ≡ used_of_room self.old }
        ensures room { room_of self.new ≡ room_of self.old }
    {
        let content = self.file.content();
        let at = at as usize;
        if at <= content.len() && into.len() <= content.len() - at {
            copy_over(into, &content[at..at + into.len()]);
            return Ok(());
        }
        self.faults = self.faults.saturating_add(1);
        Err(Fault::DeviceFailed)
    }

    fn write_at(&mut self, at: u64, bytes: &[u8]) -> Result<(), Fault>
        ensures written { OnOk result (memory_state self.new ≡ after_write (memory_state self.old) at bytes.now) }
        ensures passed { OnOk result (memory_past self.new ≡ memory_state self.old ∷ memory_past self.old) }
        ensures failed_state { OnErr result (memory_state self.new ≡ memory_state self.old) }
        ensures failed_past { OnErr result (memory_past self.new ≡ memory_past self.old) }
        ensures within { OnOk result (at + length bytes.now ≤ 2 ^ 63) }
        ensures fault { CountsFault (memory_faults self.old) (memory_faults self.new) result }
        ensures writes { memory_writes self.new ≡ counted (memory_writes self.old) }
        ensures syncs { memory_syncs self.new ≡ memory_syncs self.old }

        // It fails past the room alone.
        ensures has_room { IsOk result ↔ ((at + length bytes.now ≤ 2 ^ 63)
            × (length_after (length (memory_state self.old).content) at (length bytes.now) + used_of_room self.old + length bytes.now + 16 ≤ room_of self.old)) }
        ensures used { OnOk result (used_of_room self.new ≡ used_of_room self.old + length bytes.now + 16) }
        ensures unused { OnErr result (used_of_room self.new ≡ used_of_room self.old) }
        ensures room { room_of self.new ≡ room_of self.old }
        ensures len { OnOk result (length (memory_state self.new).content ≡ length_after (length (memory_state self.old).content) at (length bytes.now)) }

        // It is full from the first call on that would end by 2^63 and has no room.
        ensures works { OnOk result (is_full self.new ≡ is_full self.old) }
        ensures full { OnErr result (at + length bytes.now ≤ 2 ^ 63 → is_full self.new ≡ true) }
        ensures far { 2 ^ 63 < at + length bytes.now → is_full self.new ≡ is_full self.old }
    {
        self.writes = self.writes.saturating_add(1);
        if let Some(end) = end_of(at, bytes.len()) {
            let whole = len_after(self.file.content().len(), end, bytes.len());
            if fits(whole, bytes.len(), self.room - self.log.used()) {
                self.log.add_write(at, bytes);
                self.file.write(at, bytes);
                return Ok(());
            }
            self.full = true;
            self.faults = self.faults.saturating_add(1);
            return Err(Fault::DeviceFailed);
        }
        self.faults = self.faults.saturating_add(1);
        Err(Fault::DeviceFailed)
    }

    fn sync(&mut self) -> Result<(), Fault>
        ensures settled { OnOk result (memory_state self.new ≡ after_sync (memory_state self.old)) }
        ensures passed { OnOk result (memory_past self.new ≡ memory_state self.old ∷ memory_past self.old) }
        ensures failed_state { OnErr result (memory_state self.new ≡ memory_state self.old) }
        ensures failed_past { OnErr result (memory_past self.new ≡ memory_past self.old) }
        ensures fault { CountsFault (memory_faults self.old) (memory_faults self.new) result }
        ensures writes { memory_writes self.new ≡ memory_writes self.old }
        ensures syncs { memory_syncs self.new ≡ counted (memory_syncs self.old) }

        // It fails past the room alone.
        ensures has_room { IsOk result ↔ (length (memory_state self.old).content + used_of_room self.old + 16 ≤ room_of self.old) }
        ensures used { OnOk result (used_of_room self.new ≡ used_of_room self.old + 16) }
        ensures unused { OnErr result (used_of_room self.new ≡ used_of_room self.old) }
        ensures room { room_of self.new ≡ room_of self.old }
        ensures works { OnOk result (is_full self.new ≡ is_full self.old) }
        ensures full { OnErr result (is_full self.new ≡ true) }
    {
        self.syncs = self.syncs.saturating_add(1);
        if fits(self.file.content().len(), 0, self.room - self.log.used()) {
            self.log.add_sync();
            self.file.sync();
            return Ok(());
        }
        self.full = true;
        self.faults = self.faults.saturating_add(1);
        Err(Fault::DeviceFailed)
    }

    fn faults(&self) -> u64 {
        self.faults
    }

    fn writes(&self) -> u64 {
        self.writes
    }

    fn syncs(&self) -> u64 {
        self.syncs
    }

    ghost content_may_stay = { λ disk honest. disk.file.may_stay };

    ghost length_is_told = { λ disk honest. refl };
}
