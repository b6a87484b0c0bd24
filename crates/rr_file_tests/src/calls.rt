//! Calls on disks without their contracts, so that what a test does costs its proof little.
use rr_disk::{Choice, Disk, Fault, FaultyDisk, Kept, MemoryDisk};
use std::alloc::Global;
use std::process::Abort;

pub(crate) const PAGE: usize = 4096;

// Bytes, and the place where they are written.
pub(crate) type Bytes<'a> = (u64, &'a [u8]);

pub(crate) fn empty(alloc: Global, room: usize) -> Result<MemoryDisk, Fault> {
    MemoryDisk::new(alloc, room)
}

pub(crate) fn in_memory(alloc: Global, room: usize, bytes: &[u8]) -> Result<MemoryDisk, Fault> {
    MemoryDisk::from_bytes(alloc, room, bytes)
}

// A file of so many pages in which every byte is 0.
pub(crate) fn blank(rt: &impl Abort, alloc: Global, pages: usize, room: usize) -> MemoryDisk {
    let bytes = vec![in alloc; 0u8; pages.saturating_mul(PAGE)].expect(rt, "memory");
    in_memory(alloc, room, &bytes).expect(rt, "room")
}

pub(crate) fn failing_after(disk: MemoryDisk, calls: u64) -> FaultyDisk<MemoryDisk> {
    FaultyDisk::after(disk, calls)
}

pub(crate) fn failing_once(disk: MemoryDisk, calls: u64, bytes: usize) -> FaultyDisk<MemoryDisk> {
    FaultyDisk::once(disk, calls, bytes)
}

pub(crate) fn beneath(disk: FaultyDisk<MemoryDisk>) -> MemoryDisk {
    disk.into_inner()
}

pub(crate) fn write<D: Disk>(disk: &mut D, at: u64, bytes: &[u8]) -> Result<(), Fault> {
    disk.write_at(at, bytes)
}

pub(crate) fn write_all(disk: &mut MemoryDisk, all: &[Bytes]) -> Result<(), Fault> {
    for (at, bytes) in all {
        write(disk, *at, bytes)?;
    }
    Ok(())
}

// One write by the function over any disk, and one with its sync.
pub(crate) fn write_once<D: Disk>(disk: &mut D, at: u64, bytes: &[u8]) -> Result<(), Fault> {
    rr_disk::write(disk, at, bytes)
}

pub(crate) fn put<D: Disk>(disk: &mut D, at: u64, bytes: &[u8]) -> Result<(), Fault> {
    rr_disk::put(disk, at, bytes)
}

pub(crate) fn sync<D: Disk>(disk: &mut D) -> Result<(), Fault> {
    disk.sync()
}

// Whether a disk has these bytes, eight at most, at a place.
pub(crate) fn has_at<D: Disk>(disk: &mut D, at: u64, bytes: &[u8]) -> Result<bool, Fault> {
    let mut room = [0u8; 8];
    let count = bytes.len().min(8);
    let found = &mut room[..count];
    disk.read_at(at, found)?;
    Ok(*found == *bytes)
}

// How many calls failed, how many writes and syncs were made, and how long the file is.
pub(crate) fn counts<D: Disk>(disk: &D) -> [u64; 4] {
    [disk.faults(), disk.writes(), disk.syncs(), disk.len()]
}

pub(crate) fn content(disk: &MemoryDisk) -> &[u8] {
    disk.content()
}

pub(crate) fn unsynced(disk: &MemoryDisk) -> &[(u64, u64)] {
    disk.unsynced()
}

pub(crate) fn settled(disk: &MemoryDisk) -> u64 {
    disk.settled()
}

// Stops the disk, if it takes the choice.
pub(crate) fn stopped(
    disk: &MemoryDisk,
    kept: &[Kept],
    len: u64,
) -> Result<Option<MemoryDisk>, Fault> {
    let choice = Choice { kept, len };
    if !disk.allows(choice) {
        return Ok(None);
    }
    let left = disk.stop(choice)?;
    Ok(Some(left))
}
