//! Files in memory, and the stores on them. The functions have no contracts, so that what a test does costs its proof
//! little.
use crate::calls::{Call, check_calls};
use rr_disk::{Disk, FaultyDisk, MemoryDisk};
use rr_store::{Fault, Refused, Store, Texts, format, format_as, open};
use std::alloc::Global;
use std::process::Abort;

// The byte at which slot 0 of the second half begins.
pub(crate) const FAR: u64 = 1_056_768;

// Room for a file of 521 pages and for what is written when it is made.
const ROOM: usize = 1 << 23;

pub(crate) const CHART: &[u8] = b"60y 67 71 76 82 90 100p\n";

pub(crate) const BOARD: &[u8] = b"hex A 0,0 white\n";

pub(crate) const ROSTER: &[u8] = b"private = [
 {name=\"SV\", face=20, income=5}, {name=\"C&SL\", face=40, income=10},
 {name=\"D&H\", face=70, income=15}, {name=\"M&H\", face=110, income=20},
 {name=\"C&A\", face=160, income=25}, {name=\"B&O\", face=220, income=30}]
corporation = [
 {name=\"PRR\", tokens=4}, {name=\"NYC\", tokens=4}, {name=\"CPR\", tokens=4},
 {name=\"B&O\", tokens=3}, {name=\"C&O\", tokens=3}, {name=\"ERIE\", tokens=3},
 {name=\"NYNH\", tokens=2}, {name=\"B&M\", tokens=2}]
train = [
 {name=\"2\", price=80, count=6}, {name=\"3\", price=180, count=5},
 {name=\"4\", price=300, count=4}, {name=\"5\", price=450, count=3},
 {name=\"6\", price=630, count=2}, {name=\"D\", price=1100, count=6, trade=800}]
";

fn texts() -> Texts<'static> {
    Texts {
        chart: CHART,
        roster: ROSTER,
        tiles: b"",
        board: BOARD,
    }
}

pub(crate) fn empty_disk(rt: &(impl Abort + AllocGlobal)) -> MemoryDisk {
    MemoryDisk::new(rt.alloc(), ROOM).expect(rt, "memory")
}

// Makes a store of this version, with this roster, and tells why not.
pub(crate) fn refused_as(
    alloc: Global,
    disk: &mut MemoryDisk,
    roster: &[u8],
    version: u16,
) -> Option<Fault> {
    let texts = Texts {
        chart: CHART,
        roster,
        tiles: b"",
        board: BOARD,
    };
    format_as(alloc, disk, texts, version).err()
}

fn format_new(alloc: Global, disk: &mut MemoryDisk) -> Result<(), Fault> {
    format(alloc, disk, texts())
}

// A new file: four texts on pages 514 to 517, and an empty directory on page 518.
pub(crate) fn new_file(rt: &(impl Abort + AllocGlobal)) -> MemoryDisk {
    let mut disk = empty_disk(rt);
    format_new(rt.alloc(), &mut disk).expect(rt, "room");
    disk
}

// Bytes, and the place where they are written.
pub(crate) type Bytes<'a> = (u64, &'a [u8]);

// A disk with these bytes, all of them settled, that has seen no call.
fn disk_with(alloc: Global, bytes: &[u8]) -> Result<MemoryDisk, rr_disk::Fault> {
    MemoryDisk::from_bytes(alloc, ROOM, bytes)
}

fn write(disk: &mut MemoryDisk, at: u64, bytes: &[u8]) -> Result<(), rr_disk::Fault> {
    disk.write_at(at, bytes)
}

fn write_all(disk: &mut MemoryDisk, all: &[Bytes]) -> Result<(), rr_disk::Fault> {
    for (at, bytes) in all {
        write(disk, *at, bytes)?;
    }
    Ok(())
}

pub(crate) fn content(disk: &MemoryDisk) -> &[u8] {
    disk.content()
}

// A copy of a file with other bytes at some places.
pub(crate) fn with_bytes(
    rt: &(impl Abort + AllocGlobal),
    file: &MemoryDisk,
    other: &[Bytes],
) -> MemoryDisk {
    let mut disk = disk_with(rt.alloc(), content(file)).expect(rt, "room");
    write_all(&mut disk, other).expect(rt, "room");
    disk
}

pub(crate) fn failing_after(disk: MemoryDisk, calls: u64) -> FaultyDisk<MemoryDisk> {
    FaultyDisk::after(disk, calls)
}

fn open_on<D: Disk + Drop>(alloc: Global, disk: D) -> Result<Store<D>, Refused<D>> {
    open(alloc, disk)
}

pub(crate) fn opened<D: Disk + Drop>(alloc: Global, disk: D) -> Result<Store<D>, Fault> {
    match open_on(alloc, disk) {
        Ok(store) => Ok(store),
        Err(refused) => Err(refused.fault),
    }
}

pub(crate) fn open_store<D: Disk + Drop>(rt: &(impl Abort + AllocGlobal), disk: D) -> Store<D> {
    opened(rt.alloc(), disk).expect(rt, "a file of a store")
}

pub(crate) fn new_store(rt: &(impl Abort + AllocGlobal)) -> Store<MemoryDisk> {
    open_store(rt, new_file(rt))
}

pub(crate) fn disk_of<D: Disk + Drop>(store: Store<D>) -> D {
    store.into_disk()
}

// The file behind these calls, for which it is opened.
pub(crate) fn file_behind<D: Disk + Drop>(
    rt: &(impl Abort + AllocGlobal),
    file: D,
    calls: &[Call],
) -> D {
    let mut store = open_store(rt, file);
    check_calls(rt, &mut store, calls);
    disk_of(store)
}

// Opens a file for these calls. It is let go here and in no test, so that this is proved once.
pub(crate) fn check_file<D: Disk + Drop>(rt: &(impl Abort + AllocGlobal), file: D, calls: &[Call]) {
    drop(file_behind(rt, file, calls));
}

static PLAYED: [Call; 2] = [
    Call::Commit(0, b"t1 open a b", Ok(1)),
    Call::Commit(1, b"t1 buy a", Ok(2)),
];

// The file of a new store that has accepted two requests for the table t1, behind these calls.
pub(crate) fn played_file(rt: &(impl Abort + AllocGlobal), calls: &[Call]) -> MemoryDisk {
    let mut store = new_store(rt);
    check_calls(rt, &mut store, &PLAYED);
    check_calls(rt, &mut store, calls);
    disk_of(store)
}
