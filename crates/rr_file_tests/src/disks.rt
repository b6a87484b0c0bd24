use crate::calls;
use crate::calls::{
    beneath, counts, empty, failing_after, failing_once, has_at, in_memory, put, stopped, sync,
    write, write_once,
};
use rr_disk::{Disk, Fault, FileDisk, Kept, MemoryDisk, Unknown};
use std::alloc::Global;
use std::process::Abort;
use std::test::Fail;
use std::{env, fs, process};

// A call on a disk: a read that is to give these bytes, a write, or a sync.
#[derive(Clone, Copy)]
enum Call {
    Read(u64, &'static [u8]),
    Write(u64, &'static [u8]),
    // The write by the function over any disk, and the one with its sync.
    WriteOnce(u64, &'static [u8]),
    Put(u64, &'static [u8]),
    Sync,
}

// Whether a call did what it is for, or why it failed.
type Answer = Result<bool, Fault>;

const DONE: Answer = Ok(true);

const FAILED: Answer = Err(Fault::DeviceFailed);

fn answer<D: Disk>(disk: &mut D, call: Call) -> Answer {
    match call {
        Call::Read(at, bytes) => has_at(disk, at, bytes),
        Call::Write(at, bytes) => write(disk, at, bytes).map(|_| true),
        Call::WriteOnce(at, bytes) => write_once(disk, at, bytes).map(|_| true),
        Call::Put(at, bytes) => put(disk, at, bytes).map(|_| true),
        Call::Sync => sync(disk).map(|_| true),
    }
}

// Whether each call is answered so.
fn are_answered<D: Disk>(disk: &mut D, calls: &[(Call, Answer)]) -> bool {
    for (call, wanted) in calls {
        if answer(disk, *call) != *wanted {
            return false;
        }
    }
    true
}

fn check_calls<D: Disk>(rt: &impl Abort, disk: &mut D, calls: &[(Call, Answer)]) {
    assert!(rt; are_answered(disk, calls));
}

fn check_counts<D: Disk>(rt: &impl Abort, disk: &D, wanted: [u64; 4]) {
    assert!(rt; counts(disk) == wanted);
}

fn check_memory(
    rt: &impl Abort,
    disk: &MemoryDisk,
    content: &[u8],
    unsynced: &[(u64, u64)],
    settled: u64,
) {
    let is_right = [
        calls::content(disk) == content,
        calls::unsynced(disk) == unsynced,
        calls::settled(disk) == settled,
    ];
    assert!(rt; is_right == [true; 3]);
}

static TEXTS: [(Fault, &str); 2] = [
    (Fault::DeviceFailed, "device failed"),
    (Fault::OutOfMemory, "out of memory"),
];

#[test]
fn faults_have_texts(rt: HostRuntime) {
    for (fault, text) in TEXTS.iter() {
        assert!(&rt; fault.to_string(rt.alloc()).expect(&rt, "memory").as_str() == *text);
    }
}

static WRITES_WITH_A_GAP: [(Call, Answer); 2] = [
    (Call::Write(5, b"Z"), DONE),
    (Call::Write(9, b""), DONE),
];

static READS_OF_A_GAP: [(Call, Answer); 3] = [
    (Call::Read(2, b"c\0\0Z"), DONE),
    (Call::Read(3, b"\0\0Z\0"), FAILED),
    (Call::Sync, DONE),
];

#[test]
fn a_gap_is_zeros(rt: HostRuntime) {
    let mut disk = in_memory(rt.alloc(), 1000, b"abc").expect(&rt, "room");
    check_calls(&rt, &mut disk, &WRITES_WITH_A_GAP);
    check_memory(&rt, &disk, b"abc\0\0Z", &[(5, 6)], 3);
    check_calls(&rt, &mut disk, &READS_OF_A_GAP);
    check_memory(&rt, &disk, b"abc\0\0Z", &[], 6);
    check_counts(&rt, &disk, [1, 2, 1, 6]);
}

static WRITE_ONCE: [(Call, Answer); 1] = [(Call::WriteOnce(1, b"XY"), DONE)];

static PUT: [(Call, Answer); 1] = [(Call::Put(3, b"Z"), DONE)];

static PUT_WITHOUT_SYNC: [(Call, Answer); 1] = [(Call::Put(0, b"WW"), FAILED)];

#[test]
fn a_put_is_synced(rt: HostRuntime) {
    let mut disk = in_memory(rt.alloc(), 1000, b"abc").expect(&rt, "room");
    check_calls(&rt, &mut disk, &WRITE_ONCE);
    check_memory(&rt, &disk, b"aXY", &[(1, 3)], 3);
    check_calls(&rt, &mut disk, &PUT);
    check_memory(&rt, &disk, b"aXYZ", &[], 4);
    check_counts(&rt, &disk, [0, 2, 1, 4]);
    let mut failing = failing_after(disk, 1);
    check_calls(&rt, &mut failing, &PUT_WITHOUT_SYNC);
    check_memory(&rt, &beneath(failing), b"WWYZ", &[(0, 2)], 4);
}

static TWO_WRITES: [(Call, Answer); 2] = [
    (Call::Write(1, b"XY"), DONE),
    (Call::Write(4, b"123"), DONE),
];

// A disk with two writes that no sync settled.
fn written_twice(rt: &impl Abort, alloc: Global) -> MemoryDisk {
    let mut disk = in_memory(alloc, 1000, b"abc").expect(rt, "room");
    check_calls(rt, &mut disk, &TWO_WRITES);
    disk
}

// What a stop keeps of each write, how long it leaves the file, and what it leaves.
static STOPS: [([Kept; 2], u64, &[u8]); 6] = [
    ([Kept::Old, Kept::Old], 3, b"abc"),
    ([Kept::Old, Kept::Old], 7, b"abc\0\0\0\0"),
    ([Kept::New, Kept::Old], 3, b"aXY"),
    ([Kept::New, Kept::New], 7, b"aXY\x00123"),
    ([Kept::Front(1), Kept::Front(2)], 7, b"aXc\x0012\0"),
    ([Kept::Fill(b'*'), Kept::New], 6, b"a**\x0012"),
];

fn stopped_as_chosen(disk: &MemoryDisk, kept: &[Kept], len: u64) -> Option<MemoryDisk> {
    stopped(disk, kept, len).ok()?
}

#[test]
fn a_stop_leaves_what_was_chosen(rt: HostRuntime) {
    let disk = written_twice(&rt, rt.alloc());
    for (kept, len, image) in STOPS.iter() {
        let left = stopped_as_chosen(&disk, kept, *len).expect(
            &rt,
            "a choice that a stop may make",
        );
        check_memory(&rt, &left, image, &[], *len);
    }
}

static NO_STOPS: [(&[Kept], u64); 4] = [
    (&[Kept::Front(3), Kept::Old], 7),
    (&[Kept::Old, Kept::Old], 2),
    (&[Kept::Old, Kept::Old], 8),
    (&[Kept::Old], 7),
];

#[test]
fn no_stop_leaves_what_no_call_made(rt: HostRuntime) {
    let disk = written_twice(&rt, rt.alloc());
    for (kept, len) in NO_STOPS.iter() {
        assert!(rt; stopped(&disk, kept, *len).expect(&rt, "room").is_none());
    }
}

static WRITE_WITHOUT_ROOM: [(Call, Answer); 1] = [(Call::Write(0, b"abc"), FAILED)];

static SYNC_WITHOUT_ROOM: [(Call, Answer); 2] = [
    (Call::Write(0, b"abc"), DONE),
    (Call::Sync, FAILED),
];

// An empty disk with so much room, on which calls are made.
fn filled(rt: &impl Abort, alloc: Global, room: usize, calls: &[(Call, Answer)]) -> MemoryDisk {
    let mut disk = empty(alloc, room).expect(rt, "memory");
    check_calls(rt, &mut disk, calls);
    disk
}

// A write of 3 bytes takes 22 of the room: the file's, those written down, and 16 for the call.
#[test]
fn the_room_is_a_limit(rt: HostRuntime) {
    let small = filled(&rt, rt.alloc(), 21, &WRITE_WITHOUT_ROOM);
    check_counts(&rt, &small, [1, 1, 0, 0]);
    let disk = filled(&rt, rt.alloc(), 22, &SYNC_WITHOUT_ROOM);
    check_memory(&rt, &disk, b"abc", &[(0, 3)], 0);
    check_counts(&rt, &disk, [1, 1, 1, 3]);
    let full = in_memory(rt.alloc(), 2, b"abc").err();
    assert!(rt; full == Some(Fault::DeviceFailed));
}

static CALLS_OF_WHICH_TWO_ARE_MADE: [(Call, Answer); 5] = [
    (Call::Write(0, b"abc"), DONE),
    (Call::Sync, DONE),
    (Call::Write(0, b"XYZ"), FAILED),
    (Call::Read(0, b"a"), FAILED),
    (Call::Sync, FAILED),
];

#[test]
fn all_calls_after_some_fail(rt: HostRuntime) {
    let disk = empty(rt.alloc(), 1000).expect(&rt, "memory");
    let mut disk = failing_after(disk, 2);
    check_calls(&rt, &mut disk, &CALLS_OF_WHICH_TWO_ARE_MADE);
    check_counts(&rt, &disk, [3, 2, 2, 3]);
    check_memory(&rt, &beneath(disk), b"abc", &[], 3);
}

static CALLS_OF_WHICH_ONE_FAILS: [(Call, Answer); 3] = [
    (Call::Sync, DONE),
    (Call::Write(0, b"WXYZ"), FAILED),
    (Call::Read(0, b"WXcd"), DONE),
];

#[test]
fn one_call_fails(rt: HostRuntime) {
    let disk = in_memory(rt.alloc(), 1000, b"abcd").expect(&rt, "room");
    let mut disk = failing_once(disk, 1, 2);
    check_calls(&rt, &mut disk, &CALLS_OF_WHICH_ONE_FAILS);
    check_memory(&rt, &beneath(disk), b"WXcd", &[(0, 2)], 4);
}

#[test]
fn a_hundred_thousand_calls(rt: HostRuntime) {
    let mut disk = empty(rt.alloc(), 8_000_000).expect(&rt, "memory");
    for turn in 0..50_000u64 {
        write(&mut disk, turn.saturating_mul(37), &turn.to_be_bytes()).expect(&rt, "room");
        sync(&mut disk).expect(&rt, "room");
    }
    // The last write ends the file.
    check_counts(&rt, &disk, [0, 50_000, 50_000, 37 * 49_999 + 8]);
    let last = has_at(&mut disk, 37 * 49_999, &49_999u64.to_be_bytes());
    assert!(rt; last == DONE);
}

fn open(rt: &HostRuntime, path: &str, make: bool) -> Result<FileDisk<Unknown>, Fault> {
    FileDisk::open(rt, path, make, Unknown)
}

fn fails_to_open(rt: &HostRuntime, path: &str, make: bool) -> bool {
    open(rt, path, make).err() == Some(Fault::DeviceFailed)
}

static CALLS_ON_A_FILE: [(Call, Answer); 3] = [
    (Call::Write(2, b"abc"), DONE),
    (Call::Sync, DONE),
    (Call::Read(0, b"\0\0abc\0"), FAILED),
];

static READ_OF_A_FILE: [(Call, Answer); 1] = [(Call::Read(0, b"\0\0abc"), DONE)];

// Whether a file that is made answers those, and that read when it is opened again.
fn keeps_its_bytes(rt: &HostRuntime, path: &str) -> Result<bool, Fault> {
    let mut disk = open(rt, path, true)?;
    let is_made = are_answered(&mut disk, &CALLS_ON_A_FILE) && counts(&disk) == [1, 1, 1, 5];
    let mut again = open(rt, path, false)?;
    Ok(is_made && are_answered(&mut again, &READ_OF_A_FILE))
}

#[test]
fn a_file_keeps_its_bytes(rt: HostRuntime) -> Result<(), Fail> {
    let folder = env::temp_dir(&rt)?;
    let number = process::id(rt.process());
    let path = format!(in rt.alloc(); "{}/rr_disk_test_{number}", folder.display())?;
    let is_right = [
        fails_to_open(&rt, path.as_str(), false),
        fails_to_open(&rt, folder.as_str(), true),
        keeps_its_bytes(&rt, path.as_str()) == DONE,
    ];
    assert!(rt; is_right == [true; 3]);
    fs::remove_file(&rt, path.as_str())?;
    Ok(())
}
