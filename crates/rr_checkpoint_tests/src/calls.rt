//! Calls on disks without their contracts, so that what a test does costs its proof little.
use rr_disk::{Disk, Fault, MemoryDisk};
use std::alloc::Global;

pub(crate) fn in_memory(alloc: Global, room: usize, bytes: &[u8]) -> Result<MemoryDisk, Fault> {
    MemoryDisk::from_bytes(alloc, room, bytes)
}

fn write(disk: &mut MemoryDisk, at: u64, bytes: &[u8]) -> Result<(), Fault> {
    disk.write_at(at, bytes)
}

// Bytes, and the place where they are written, or where a read is to give them.
pub(crate) type Bytes<'a> = (u64, &'a [u8]);

// How many of these are written.
pub(crate) fn written(disk: &mut MemoryDisk, all: &[Bytes]) -> usize {
    let mut count = 0usize;
    for (at, bytes) in all {
        if write(disk, *at, bytes).is_ok() {
            count = count.saturating_add(1);
        }
    }
    count
}

// Whether a read gives these bytes, 36 at most.
fn gives(disk: &mut MemoryDisk, at: u64, bytes: &[u8]) -> bool {
    let mut room = [0u8; 36];
    let read = &mut room[..bytes.len().min(36)];
    disk.read_at(at, read).is_ok() && *read == *bytes
}

// How many of these a read gives.
pub(crate) fn given(disk: &mut MemoryDisk, all: &[Bytes]) -> usize {
    let mut count = 0usize;
    for (at, bytes) in all {
        if gives(disk, *at, bytes) {
            count = count.saturating_add(1);
        }
    }
    count
}

// How many calls failed, how many writes and syncs were made, and how long the file is.
pub(crate) fn counts(disk: &MemoryDisk) -> [u64; 4] {
    [disk.faults(), disk.writes(), disk.syncs(), disk.len()]
}
