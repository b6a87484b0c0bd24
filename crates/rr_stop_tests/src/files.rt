//! Files in memory, and the stores on them. The functions have no contracts, so that what a test does costs its proof
//! little.
use rr_code::read_record;
use rr_disk::{Disk, FaultyDisk, MemoryDisk};
use rr_store::{Fault, Refused, Store, Table, Texts, Tick, format_as, open};
use rr_words::Name;
use std::alloc::Global;
use std::process::Abort;

// Room for a file of 521 pages and for what is written when it is made.
const ROOM: usize = 1 << 23;

const CHART: &[u8] = b"60y 67 71 76 82 90 100p\n";

const ROSTER: &[u8] = b"private = [
 {name=\"SV\", face=20, income=5}, {name=\"C&SL\", face=40, income=10},
 {name=\"D&H\", face=70, income=15}, {name=\"M&H\", face=110, income=20},
 {name=\"C&A\", face=160, income=25}, {name=\"B&O\", face=220, income=30}]
corporation = [
 {name=\"PRR\", tokens=4}, {name=\"NYC\", tokens=4}, {name=\"CPR\", tokens=4},
 {name=\"B&O\", tokens=3}, {name=\"C&O\", tokens=3}, {name=\"ERIE\", tokens=3},
 {name=\"NYNH\", tokens=2}, {name=\"B&M\", tokens=2}]
train = [
 {name=\"2\", price=80, count=6}, {name=\"3\", price=180, count=5},
 {name=\"4\", price=300, count=4}, {name=\"5\", price=450, count=3},
 {name=\"6\", price=630, count=2}, {name=\"D\", price=1100, count=6, trade=800}]
";

// A track that the first table lays between the two cities.
const TILES: &[u8] = b"yellow 9 x7 0-3\n";

const BOARD: &[u8] = b"hex A 0,0 grey c20/1:5
hex B 1,0 white
hex C 2,0 grey c30/1:2
home PRR A 1
";

fn texts() -> Texts<'static> {
    Texts {
        chart: CHART,
        roster: ROSTER,
        tiles: TILES,
        board: BOARD,
    }
}

fn format_new(alloc: Global, disk: &mut MemoryDisk, version: u16) -> Result<(), Fault> {
    format_as(alloc, disk, texts(), version)
}

/// The bytes of a new file of a version.
pub(crate) fn new_file(rt: &(impl Abort + AllocGlobal), version: u16) -> Vec<u8> {
    let mut disk = disk_with(rt, b"");
    format_new(rt.alloc(), &mut disk, version).expect(rt, "room");
    content(&disk).to_vec(rt.alloc()).expect(rt, "memory")
}

fn from_bytes(alloc: Global, bytes: &[u8]) -> Result<MemoryDisk, rr_disk::Fault> {
    MemoryDisk::from_bytes(alloc, ROOM, bytes)
}

/// A disk with these bytes, all of them settled, that has seen no call.
pub(crate) fn disk_with(rt: &(impl Abort + AllocGlobal), bytes: &[u8]) -> MemoryDisk {
    from_bytes(rt.alloc(), bytes).expect(rt, "room")
}

fn write(disk: &mut MemoryDisk, at: u64, bytes: &[u8]) -> Result<(), rr_disk::Fault> {
    disk.write_at(at, bytes)
}

/// The same with another byte at a place.
pub(crate) fn disk_with_byte(
    rt: &(impl Abort + AllocGlobal),
    bytes: &[u8],
    at: u64,
    byte: u8,
) -> MemoryDisk {
    let mut disk = disk_with(rt, bytes);
    write(&mut disk, at, &[byte]).expect(rt, "room");
    disk
}

pub(crate) fn content(disk: &MemoryDisk) -> &[u8] {
    disk.content()
}

/// How many writes and syncs were asked for.
pub(crate) fn counts<D: Disk>(disk: &D) -> (u64, u64) {
    (disk.writes(), disk.syncs())
}

fn after(disk: MemoryDisk, calls: u64) -> FaultyDisk<MemoryDisk> {
    FaultyDisk::after(disk, calls)
}

fn once(disk: MemoryDisk, calls: u64, bytes: usize) -> FaultyDisk<MemoryDisk> {
    FaultyDisk::once(disk, calls, bytes)
}

/// A disk with these bytes that fails behind so many calls.
pub(crate) fn failing_after(
    rt: &(impl Abort + AllocGlobal),
    bytes: &[u8],
    calls: u64,
) -> FaultyDisk<MemoryDisk> {
    after(disk_with(rt, bytes), calls)
}

/// A disk with these bytes that fails once behind so many calls, a write behind so many of its bytes.
pub(crate) fn failing_once(
    rt: &(impl Abort + AllocGlobal),
    bytes: &[u8],
    calls: u64,
    out: usize,
) -> FaultyDisk<MemoryDisk> {
    once(disk_with(rt, bytes), calls, out)
}

pub(crate) fn beneath(disk: FaultyDisk<MemoryDisk>) -> MemoryDisk {
    disk.into_inner()
}

fn open_on<D: Disk + Drop>(alloc: Global, disk: D) -> Result<Store<D>, Refused<D>> {
    open(alloc, disk)
}

/// Why a file isn't opened, and its disk then.
pub(crate) fn refusal<D: Disk + Drop>(alloc: Global, disk: D) -> Option<(Fault, D)> {
    match open_on(alloc, disk) {
        Ok(_) => None,
        Err(Refused { fault, disk }) => Some((fault, disk)),
    }
}

fn opened<D: Disk + Drop>(alloc: Global, disk: D) -> Result<Store<D>, Fault> {
    match open_on(alloc, disk) {
        Ok(store) => Ok(store),
        Err(refused) => Err(refused.fault),
    }
}

/// The store of a file that the run left behind so many calls.
pub(crate) fn open_store<D: Disk + Drop>(
    rt: &(impl Abort + AllocGlobal),
    disk: D,
    calls: usize,
) -> Store<D> {
    match opened(rt.alloc(), disk) {
        Ok(store) => store,
        Err(fault) => panic!(rt; "{fault:?} behind {calls} calls"),
    }
}

pub(crate) fn disk_of<D: Disk + Drop>(store: Store<D>) -> D {
    store.into_disk()
}

/// Commits the request of this record with this stamp.
pub(crate) fn commit<D: Disk + Drop>(
    store: &mut Store<D>,
    stamp: u64,
    record: &[u8],
) -> Result<u64, Fault> {
    let Ok((name, request)) = read_record(record) else {
        return Err(Fault::OutOfMemory);
    };
    store.commit(&name, stamp, &request)
}

pub(crate) fn tick<D: Disk + Drop>(store: &mut Store<D>) -> Result<Tick, Fault> {
    store.tick()
}

pub(crate) fn ticks_left<D: Disk + Drop>(store: &Store<D>) -> usize {
    store.ticks_left()
}

fn is_broken<D: Disk + Drop>(store: &Store<D>) -> bool {
    store.is_broken()
}

fn table_count<D: Disk + Drop>(store: &Store<D>) -> Result<usize, Fault> {
    store.count()
}

/// Whether a store refuses each call, and is to be opened again.
pub(crate) fn refuses<D: Disk + Drop>(store: &mut Store<D>) -> bool {
    let broken = is_broken(store);
    let faults = [
        commit(store, 0, b"t4 open a b").err(),
        tick(store).err(),
        table_count(store).err(),
    ];
    broken && faults == [Some(Fault::OpenAgain); 3]
}

pub(crate) fn last_number<D: Disk + Drop>(store: &Store<D>) -> Result<u64, Fault> {
    store.last()
}

pub(crate) fn table<'a, D: Disk + Drop>(
    store: &'a Store<D>,
    name: &Name,
) -> Result<&'a Table, Fault> {
    store.table(name)
}

/// The stamp, the floor, the turns and the number of kept commands of a table.
pub(crate) type Standing = (u64, u64, u64, usize);

pub(crate) fn standing_of(table: &Table) -> Standing {
    (
        table.stamp(),
        table.floor(),
        table.turns(),
        table.commands().len(),
    )
}
