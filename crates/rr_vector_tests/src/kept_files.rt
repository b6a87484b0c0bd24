//! Each file is opened, and asked what `moderate check` printed when it was written, and for the stamps of its tables,
//! which are how many lines each was sent; then it makes a tick, and takes one command more. After a whole checkpoint it
//! is a file of version 2 that says the same. Calls stand without their contracts, so that what a test does costs its
//! proof little. The file with records of eight slots is left out, since the prover runs out of stack on its literal; the
//! tests of `club/` open it.
use rr_code::read_record;
use rr_disk::MemoryDisk;
use rr_store::{Fault, Refused, Store, Tick, open};
use rr_vectors::{KeptFile, NAMED_BANK, NEW_FILE, TWO_CHECKPOINTS, WITHIN_A_CHECKPOINT};
use rr_words::Name;
use std::alloc::Global;
use std::test::Fail;

// Room for a file of 535 pages and for what is written after an opening.
const ROOM: usize = 1 << 23;

fn content(alloc: Global, file: &KeptFile) -> Result<Vec<u8>, rr_vectors::Fault> {
    file.content(alloc)
}

fn disk_with(alloc: Global, file: &KeptFile) -> Result<MemoryDisk, Fail> {
    let bytes = content(alloc, file)?;
    let disk = MemoryDisk::from_bytes(alloc, ROOM, bytes.as_slice())?;
    Ok(disk)
}

fn open_on(alloc: Global, disk: MemoryDisk) -> Result<Store<MemoryDisk>, Refused<MemoryDisk>> {
    open(alloc, disk)
}

fn opened(alloc: Global, disk: MemoryDisk) -> Result<Store<MemoryDisk>, Fault> {
    match open_on(alloc, disk) {
        Ok(store) => Ok(store),
        Err(refused) => Err(refused.fault),
    }
}

fn table_count(store: &Store<MemoryDisk>) -> Result<usize, Fault> {
    store.count()
}

fn last_number(store: &Store<MemoryDisk>) -> Result<u64, Fault> {
    store.last()
}

fn tick(store: &mut Store<MemoryDisk>) -> Result<Tick, Fault> {
    store.tick()
}

fn checkpoint(store: &mut Store<MemoryDisk>) -> Result<(), Fault> {
    store.checkpoint()
}

fn disk_of(store: Store<MemoryDisk>) -> MemoryDisk {
    store.into_disk()
}

fn bytes_of(disk: &MemoryDisk) -> &[u8] {
    disk.content()
}

fn ticks_left(store: &Store<MemoryDisk>) -> usize {
    store.ticks_left()
}

// Commits the request of this record with this stamp.
fn commit(store: &mut Store<MemoryDisk>, stamp: u64, record: &[u8]) -> Result<u64, Fault> {
    let Ok((name, request)) = read_record(record) else {
        return Err(Fault::OutOfMemory);
    };
    store.commit(&name, stamp, &request)
}

// What `moderate check` prints of a store.
fn answer(alloc: Global, store: &Store<MemoryDisk>) -> Result<String, Fail> {
    let (tables, last) = (table_count(store)?, last_number(store)?);
    let line = format!(in alloc; "ok {tables} {last}")?;
    Ok(line)
}

fn name_at(store: &Store<MemoryDisk>, place: usize) -> Option<&Name> {
    match store.name(place) {
        Ok(name) => name,
        Err(_) => None,
    }
}

fn stamp_of(store: &Store<MemoryDisk>, name: &Name) -> Option<u64> {
    match store.table(name) {
        Ok(table) => Some(table.stamp()),
        Err(_) => None,
    }
}

// A table's name and stamp.
type Row = (&'static [u8], u64);

// Whether the table at a place is that of a row.
fn is_row(store: &Store<MemoryDisk>, place: usize, row: &Row) -> bool {
    match name_at(store, place) {
        Some(name) => name.as_bytes() == row.0 && stamp_of(store, name) == Some(row.1),
        None => false,
    }
}

// The first place at which another table stands.
fn first_other(store: &Store<MemoryDisk>, rows: &[Row]) -> Option<usize> {
    for (place, row) in rows.iter().enumerate() {
        if !is_row(store, place, row) {
            return Some(place);
        }
    }
    None
}

// Whether the opened file tells what was printed of it, at which place another table stands than one of the rows, how a
// tick ends and how many are left then, and how the commit of a record ends.
type Told = (
    bool,
    Option<usize>,
    Result<Tick, Fault>,
    usize,
    Result<u64, Fault>,
);

fn told(
    alloc: Global,
    file: &KeptFile,
    rows: &[Row],
    stamp: u64,
    record: &[u8],
) -> Result<Told, Fail> {
    let mut store = opened(alloc, disk_with(alloc, file)?)?;
    let same = answer(alloc, &store)?.as_str() == file.answer;
    let other = first_other(&store, rows);
    let end = tick(&mut store);
    let left = ticks_left(&store);
    Ok((same, other, end, left, commit(&mut store, stamp, record)))
}

// The number and the version of the root that begins here.
fn root_at(file: &[u8], at: usize) -> Option<(u64, u16)> {
    let root = file.get(at..at.checked_add(36)?)?;
    let number = u64::from_be_bytes(root.get(1..9)?.try_into().ok()?);
    let version = u16::from_be_bytes(root.get(34..36)?.try_into().ok()?);
    Some((number, version))
}

// The version of the root of greater number.
fn version_of(file: &[u8]) -> Option<u16> {
    let (first, second) = (root_at(file, 0)?, root_at(file, 4096)?);
    Some(if first.0 < second.0 {
        second.1
    } else {
        first.1
    })
}

// The version of a kept file; what `moderate check` prints after a whole checkpoint, and the version then.
fn over_a_checkpoint(
    alloc: Global,
    file: &KeptFile,
) -> Result<(Option<u16>, String, Option<u16>), Fail> {
    let disk = disk_with(alloc, file)?;
    let before = version_of(bytes_of(&disk));
    let mut store = opened(alloc, disk)?;
    checkpoint(&mut store)?;
    let store = opened(alloc, disk_of(store))?;
    let line = answer(alloc, &store)?;
    let disk = disk_of(store);
    Ok((before, line, version_of(bytes_of(&disk))))
}

#[test]
fn a_checkpoint_writes_version_2(rt: HostRuntime) -> Result<(), Fail> {
    let files = [
        (&NEW_FILE, 1),
        (&WITHIN_A_CHECKPOINT, 1),
        (&TWO_CHECKPOINTS, 1),
        (&NAMED_BANK, 2),
    ];
    for (file, version) in files {
        let (before, line, after) = over_a_checkpoint(rt.alloc(), file)?;
        assert!(&rt; line.as_str() == file.answer);
        assert!(&rt; (before, after) == (Some(version), Some(2)));
    }
    Ok(())
}

#[test]
fn a_new_file_is_opened(rt: HostRuntime) -> Result<(), Fail> {
    let told = told(rt.alloc(), &NEW_FILE, &[], 0, b"ops open a b")?;
    assert!(rt; told == (true, None, Ok(Tick::Idle), 0, Ok(1)));
    Ok(())
}

const WITHIN: [Row; 4] = [(b"ops", 62), (b"g1", 35), (b"g5", 34), (b"g2", 1)];

// The checkpoint is begun anew. Its first tick writes a page for the first table; the others are one for each table more,
// one for the directory, the gate of the other root, that root, and its gate.
#[test]
fn a_file_within_a_checkpoint_is_opened(rt: HostRuntime) -> Result<(), Fail> {
    let told = told(
        rt.alloc(),
        &WITHIN_A_CHECKPOINT,
        &WITHIN,
        62,
        b"ops end B&O",
    )?;
    assert!(rt; told == (true, None, Ok(Tick::More), 7, Ok(63)));
    Ok(())
}

const BEHIND: [Row; 3] = [(b"ops", 120), (b"pair", 81), (b"turns", 66)];

#[test]
fn a_file_behind_two_checkpoints_is_opened(rt: HostRuntime) -> Result<(), Fail> {
    let told = told(rt.alloc(), &TWO_CHECKPOINTS, &BEHIND, 120, b"ops done a")?;
    assert!(rt; told == (true, None, Ok(Tick::Idle), 0, Ok(121)));
    Ok(())
}

#[test]
fn a_new_file_with_a_named_bank_is_opened(rt: HostRuntime) -> Result<(), Fail> {
    let told = told(rt.alloc(), &NAMED_BANK, &[], 0, b"ops open a b")?;
    assert!(rt; told == (true, None, Ok(Tick::Idle), 0, Ok(1)));
    Ok(())
}
