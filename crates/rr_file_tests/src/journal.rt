use crate::calls::{
    PAGE, beneath, blank, content, failing_after, failing_once, in_memory, stopped, sync, unsynced,
    write,
};
use rr_disk::{Disk, Kept, MemoryDisk};
use rr_pages::Fault;
use rr_pages::journal::{
    Half, HalfIndex, RecordBuffer, RunEnd, Scanned, halves_have_one_run, scan,
};
use std::alloc::{AllocError, Global};
use std::process::Abort;

// Both runs below append so many records; each tenth takes two slots.
const RECORDS: u64 = 50;

// Room for a file of 58 pages, and for the calls of a run.
const ROOM: usize = 1 << 20;

// The calls below have no contracts, so that what a test does costs its proof little.

fn make_buffer(alloc: Global) -> Result<RecordBuffer, AllocError> {
    RecordBuffer::new(alloc)
}

fn first_half() -> Half {
    Half {
        index: HalfIndex::First,
        next_slot: 0,
    }
}

fn next_gate(index: HalfIndex, next_slot: u8) -> u64 {
    Half { index, next_slot }.next_gate()
}

// Appends a record. An empty one has no room.
fn append<D: Disk>(
    disk: &mut D,
    half: &mut Half,
    buffer: &mut RecordBuffer,
    number: u64,
    bytes: &[u8],
) -> Result<(), Fault> {
    if bytes.is_empty() {
        return Err(Fault::HalfFull);
    }
    half.append(disk, buffer, number, bytes)
}

// A disk, and the half on it to which records are appended.
#[derive(Drop)]
struct Journal {
    disk: MemoryDisk,
    half: Half,
    buffer: RecordBuffer,
}

impl Journal {
    // On a file of so many pages in which every gate is closed.
    fn blank(rt: &impl Abort, alloc: Global, pages: usize, room: usize) -> Journal {
        Journal {
            disk: blank(rt, alloc, pages, room),
            half: first_half(),
            buffer: make_buffer(alloc).expect(rt, "memory"),
        }
    }

    fn append(&mut self, number: u64, bytes: &[u8]) -> Result<(), Fault> {
        append(
            &mut self.disk,
            &mut self.half,
            &mut self.buffer,
            number,
            bytes,
        )
    }

    fn record(&mut self, rt: &impl Abort, number: u64, bytes: &[u8]) {
        self.append(number, bytes).expect(rt, "a record");
    }

    fn write(&mut self, rt: &impl Abort, at: u64, bytes: &[u8]) {
        write(&mut self.disk, at, bytes).expect(rt, "room");
    }

    // Whether a record finds no room.
    fn refuses(&mut self, number: u64, bytes: &[u8]) -> bool {
        self.append(number, bytes) == Err(Fault::HalfFull)
    }
}

// Scans the first half from a small number on.
fn scan_first<D: Disk>(alloc: Global, disk: &mut D, first_number: u8) -> Result<Scanned, Fault> {
    scan(alloc, disk, HalfIndex::First, u64::from(first_number))
}

// Why the run of records ended, how many there are, and the slot behind them.
fn check_scan(
    rt: &impl Abort,
    alloc: Global,
    disk: &mut MemoryDisk,
    first_number: u8,
    end: RunEnd,
    count: usize,
    next_slot: u8,
) {
    let scanned = scan_first(alloc, disk, first_number).expect(rt, "a run");
    let is_right = [
        scanned.end == end,
        scanned.records.len() == count,
        scanned.half.index == HalfIndex::First,
        scanned.half.next_slot == next_slot,
    ];
    assert!(rt; is_right == [true; 4]);
}

fn bytes_of(alloc: Global, number: u64) -> Result<Vec<u8>, AllocError> {
    let count = if number % 10 == 0 { 5000 } else { 20 };
    vec![in alloc; (number % 256) as u8; count]
}

// Appends the record that has this number in both runs.
fn append_numbered<D: Disk>(
    alloc: Global,
    disk: &mut D,
    half: &mut Half,
    buffer: &mut RecordBuffer,
    number: u64,
) -> Result<(), Fault> {
    let bytes = bytes_of(alloc, number)?;
    append(disk, half, buffer, number, &bytes)
}

// Appends the records from this number on until all are there or one fails. The last number that was acknowledged.
fn append_from<D: Disk>(
    rt: &impl Abort,
    alloc: Global,
    disk: &mut D,
    half: Half,
    first: u64,
) -> u64 {
    let mut half = half;
    let mut buffer = make_buffer(alloc).expect(rt, "memory");
    let mut last = first.saturating_sub(1);
    for number in first..RECORDS + 1 {
        if append_numbered(alloc, disk, &mut half, &mut buffer, number).is_err() {
            return last;
        }
        last = number;
    }
    last
}

// Whether these are the records from number 1 on.
fn are_numbered(alloc: Global, records: &[Vec<u8>]) -> Result<bool, AllocError> {
    let mut number = 0u64;
    for bytes in records {
        number = number.saturating_add(1);
        if bytes.as_slice() != bytes_of(alloc, number)?.as_slice() {
            return Ok(false);
        }
    }
    Ok(true)
}

// Scans the half: it has the records up to the last acknowledged one, and perhaps the next. The half, and how many it
// has.
fn check_records<D: Disk>(
    rt: &impl Abort,
    alloc: Global,
    disk: &mut D,
    acknowledged: u64,
) -> (Half, u64) {
    let scanned = scan_first(alloc, disk, 1).expect(rt, "a run");
    let count = scanned.records.len() as u64;
    assert!(rt; count == acknowledged || count == acknowledged.saturating_add(1));
    let are_right = are_numbered(alloc, &scanned.records).expect(rt, "memory");
    assert!(rt; [scanned.end == RunEnd::Closed, are_right] == [true; 2]);
    (scanned.half, count)
}

// Stops the disk with one choice for every unsynced range but the last.
fn check_stop(
    rt: &impl Abort,
    alloc: Global,
    disk: &MemoryDisk,
    acknowledged: u64,
    each: Kept,
    last: Kept,
) {
    let mut kept = vec![in alloc; each; unsynced(disk).len()].expect(rt, "memory");
    if let Some(end) = kept.last_mut() {
        *end = last;
    }
    let image = stopped(disk, &kept, disk.len()).expect(rt, "room");
    let mut image = image.expect(rt, "a choice that a stop may make");
    check_records(rt, alloc, &mut image, acknowledged);
}

fn check_stops(rt: &impl Abort, alloc: Global, disk: &MemoryDisk, acknowledged: u64) {
    for kept in [Kept::Old, Kept::New, Kept::Fill(0xa5), Kept::Fill(0)] {
        check_stop(rt, alloc, disk, acknowledged, kept, kept);
    }
    check_stop(rt, alloc, disk, acknowledged, Kept::New, Kept::Front(1));
}

// The gate of the first record of a half, its number, the length of its line, and the line.
static FIRST_RECORD: [u8; 28] = [
    0xa5, 0, 0, 0, 0, 0, 0, 0, 1, 0, 0, 0, 0x0f, 0x67, 0x31, 0x20, 0x6f, 0x70, 0x65, 0x6e, 0x20,
    0x61, 0x20, 0x62, 0x20, 0x63, 0x20, 0x64,
];

// Whether a file of four pages has that record alone.
fn has_first_record(file: &[u8]) -> bool {
    file.len() == 4 * PAGE && &file[8192..8220] == FIRST_RECORD.as_slice() && file[12288] == 0
}

#[test]
fn first_record_of_a_half(rt: HostRuntime) {
    let alloc = rt.alloc();
    let mut journal = Journal::blank(&rt, alloc, 4, 1 << 16);
    journal.record(&rt, 1, b"g1 open a b c d");
    let is_right = [
        journal.half.next_slot == 1,
        has_first_record(content(&journal.disk)),
    ];
    assert!(rt; is_right == [true; 2]);
    check_scan(&rt, alloc, &mut journal.disk, 1, RunEnd::Closed, 1, 1);
}

#[test]
fn halves_lie_behind_the_roots(rt: HostRuntime) {
    for (index, slot, gate) in [
        (HalfIndex::First, 0, 8_192),
        (HalfIndex::First, 254, 1_048_576),
        (HalfIndex::Second, 0, 1_056_768),
        (HalfIndex::Second, 254, 2_097_152),
    ] {
        assert!(&rt; next_gate(index, slot) == gate);
    }
}

// Whether slots 248 to 254 have no room for the longest record, and slots 247 to 254 take it, and nothing else.
fn takes_last_slots(journal: &mut Journal, long: &[u8], longer: &[u8]) -> bool {
    journal.half = Half {
        index: HalfIndex::Second,
        next_slot: 248,
    };
    let is_refused = [journal.refuses(1, long), journal.half.next_slot == 248];
    journal.half.next_slot = 247;
    let is_right = [
        journal.half.has_room(32_755),
        !journal.half.has_room(32_756),
        !journal.half.has_room(0),
        journal.half.next_gate() == 2_068_480,
        journal.refuses(1, longer),
        journal.append(1, long).is_ok(),
        journal.half.next_slot == 255,
        journal.refuses(2, b"one more"),
    ];
    (is_refused, is_right) == ([true; 2], [true; 8])
}

#[test]
fn slot_255_holds_nothing(rt: HostRuntime) {
    let alloc = rt.alloc();
    let mut journal = Journal::blank(&rt, alloc, 514, 1 << 22);
    let longer = vec![in alloc; 7u8; 32_756].expect(&rt, "memory");
    let long = &longer[..32_755];
    assert!(rt; takes_last_slots(&mut journal, long, &longer));
}

// The slot after a record of so many bytes in slot 0.
fn slot_after(alloc: Global, journal: &mut Journal, count: usize) -> Result<u8, Fault> {
    journal.half = first_half();
    let bytes = vec![in alloc; 7u8; count]?;
    journal.append(1, &bytes)?;
    Ok(journal.half.next_slot)
}

// How many bytes a record has, and the slots that it takes. The longest line without its stamp has 31,998.
static SLOTS: [(usize, u8); 6] = [
    (4_083, 1),
    (4_084, 2),
    (8_179, 2),
    (8_180, 3),
    (31_998, 8),
    (32_755, 8),
];

#[test]
fn a_record_takes_the_slots_that_its_bytes_fill(rt: HostRuntime) {
    let alloc = rt.alloc();
    let mut journal = Journal::blank(&rt, alloc, 514, 1 << 22);
    for &(count, slots) in &SLOTS {
        let after = slot_after(alloc, &mut journal, count).expect(&rt, "room");
        assert!(&rt; after == slots);
    }
}

// The length that is written to the second record, 0 and then 32,756 bytes.
static WRONG_LENGTHS: [[u8; 4]; 2] = [[0, 0, 0, 0], [0, 0, 0x7f, 0xf4]];

#[test]
fn scan_says_why_it_ended(rt: HostRuntime) {
    let alloc = rt.alloc();
    let mut journal = Journal::blank(&rt, alloc, 5, 1 << 16);
    journal.record(&rt, 6, b"six");
    journal.record(&rt, 8, b"eight");
    check_scan(&rt, alloc, &mut journal.disk, 6, RunEnd::OtherNumber, 1, 1);
    journal.write(&rt, 12288 + 8, &[7]);
    check_scan(&rt, alloc, &mut journal.disk, 6, RunEnd::Closed, 2, 2);
    for length in WRONG_LENGTHS.iter() {
        journal.write(&rt, 12288 + 9, length);
        check_scan(&rt, alloc, &mut journal.disk, 6, RunEnd::Damaged, 1, 1);
    }
}

// A half that has older records is written over once its slot 0 is shut.
#[test]
fn older_records_are_written_over(rt: HostRuntime) {
    let alloc = rt.alloc();
    let mut journal = Journal::blank(&rt, alloc, 5, 1 << 16);
    journal.record(&rt, 1, b"one");
    journal.record(&rt, 2, b"two");
    check_scan(&rt, alloc, &mut journal.disk, 7, RunEnd::OtherNumber, 0, 0);
    journal.write(&rt, next_gate(HalfIndex::First, 0), &[0]);
    check_scan(&rt, alloc, &mut journal.disk, 7, RunEnd::Closed, 0, 0);
    journal.half = first_half();
    journal.record(&rt, 7, b"seven");
    check_scan(&rt, alloc, &mut journal.disk, 7, RunEnd::Closed, 1, 1);
}

// Numbers go on up to the last that 64 bits have.
#[test]
fn great_numbers_are_counted(rt: HostRuntime) {
    let alloc = rt.alloc();
    let mut journal = Journal::blank(&rt, alloc, 5, 1 << 16);
    let first = u64::MAX - 255;
    journal.record(&rt, first, b"one");
    journal.record(&rt, first + 1, b"two");
    let scanned = scan(alloc, &mut journal.disk, HalfIndex::First, first).expect(&rt, "a run");
    let is_right = [scanned.records.len() == 2, scanned.end == RunEnd::Closed];
    assert!(rt; is_right == [true; 2]);
}

// Stops the append of this record after so many device calls, or within the next one.
fn check_append(
    rt: &impl Abort,
    alloc: Global,
    file: &[u8],
    half: Half,
    number: u64,
    calls: u64,
    within: bool,
) {
    let disk = in_memory(alloc, ROOM, file).expect(rt, "room");
    let mut faulty = if within {
        failing_once(disk, calls, usize::MAX)
    } else {
        failing_after(disk, calls)
    };
    let mut stopped = half;
    let mut buffer = make_buffer(alloc).expect(rt, "memory");
    let result = append_numbered(alloc, &mut faulty, &mut stopped, &mut buffer, number);
    assert!(rt; [result == Err(DEVICE_FAILED), stopped == half] == [true; 2]);
    check_stops(rt, alloc, &beneath(faulty), number.saturating_sub(1));
}

#[test]
fn every_stop_leaves_what_was_acknowledged(rt: HostRuntime) {
    let alloc = rt.alloc();
    let mut journal = Journal::blank(&rt, alloc, 58, ROOM);
    for number in 1..RECORDS + 1 {
        for calls in 0..4 {
            check_append(
                &rt,
                alloc,
                content(&journal.disk),
                journal.half,
                number,
                calls,
                false,
            );
            check_append(
                &rt,
                alloc,
                content(&journal.disk),
                journal.half,
                number,
                calls,
                true,
            );
        }
        let bytes = bytes_of(alloc, number).expect(&rt, "memory");
        journal.record(&rt, number, &bytes);
        check_stops(&rt, alloc, &journal.disk, number);
    }
}

// One call fails, behind so many, while the records are appended. Opened again, the half goes on with what it has.
fn check_fault(rt: &impl Abort, alloc: Global, calls: u64) {
    let mut disk = failing_once(blank(rt, alloc, 58, ROOM), calls, 3);
    let acknowledged = append_from(rt, alloc, &mut disk, first_half(), 1);
    assert!(rt; acknowledged == calls / 4);
    sync(&mut disk).expect(rt, "room");
    let (half, count) = check_records(rt, alloc, &mut disk, acknowledged);
    let last = append_from(rt, alloc, &mut disk, half, count.saturating_add(1));
    assert!(rt; last == RECORDS);
    check_records(rt, alloc, &mut disk, RECORDS);
}

#[test]
fn every_call_fails_once(rt: HostRuntime) {
    for calls in 0..4 * RECORDS {
        check_fault(&rt, rt.alloc(), calls);
    }
}

const DEVICE_FAILED: Fault = Fault::Disk(rr_disk::Fault::DeviceFailed);

static TEXTS: [(Fault, &str); 3] = [
    (Fault::HalfFull, "half full"),
    (DEVICE_FAILED, "device failed"),
    (Fault::OutOfMemory, "out of memory"),
];

#[test]
fn faults_have_their_texts(rt: HostRuntime) {
    let alloc = rt.alloc();
    halves_have_one_run();
    for (fault, text) in TEXTS.iter() {
        assert!(&rt; fault.to_string(alloc).expect(&rt, "memory").as_str() == *text);
    }
    let mut disk = blank(&rt, alloc, 1, 1 << 13);
    assert!(&rt; scan_first(alloc, &mut disk, 1).err() == Some(DEVICE_FAILED));
}
