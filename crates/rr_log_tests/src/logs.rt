use crate::files::{
    FAR, FIRST, Found, failing_after, found, new_file, open, parts, with_free_pages, write,
};
use crate::tables::{AnyLine, OneTable, one_table, transcript_of};
use rr_checkpoint::Tick;
use rr_checkpoint::plan::Transcript;
use rr_disk::{Disk, FaultyDisk, MemoryDisk};
use rr_log::opening::Opened;
use rr_log::{Fault, Log, PutOff};
use rr_reading::lending::Commands;
use rr_reading::worlds::Worlds;
use std::alloc::Global;
use std::test::Fail;

// The calls below have almost no contracts, so that what a test does costs its proof little.

fn log_on<D: Disk + Drop>(
    alloc: Global,
    disk: D,
    opened: Opened<Worlds<AnyLine>>,
    base: Option<Transcript>,
) -> Log<D, AnyLine> {
    let (writer, kit) = parts(opened);
    Log::new(alloc, disk, writer, kit, Vec::new(alloc), base)
}

fn new_log(alloc: Global) -> Result<Log<MemoryDisk, AnyLine>, Fail> {
    let mut disk = new_file(alloc)?;
    let opened = open(alloc, &mut disk)?;
    Ok(log_on(alloc, disk, opened, None))
}

fn keep<D: Disk + Drop>(
    log: &mut Log<D, AnyLine>,
    tables: &OneTable,
    line: &[u8],
) -> Result<Option<PutOff>, Fault> {
    if line.is_empty() {
        return Err(Fault::OutOfMemory);
    }
    log.keep(tables, line)
}

fn tick<D: Disk + Drop>(log: &mut Log<D, AnyLine>, tables: &OneTable) -> Result<Tick, Fault> {
    log.tick(tables)
}

fn checkpoint<D: Disk + Drop>(log: &mut Log<D, AnyLine>, tables: &OneTable) -> Result<(), Fault> {
    log.checkpoint(tables)
}

// The number of the last record, how many ticks are left, and whether the log is broken.
type State = (u64, usize, bool);

fn state<D: Disk + Drop>(log: &Log<D, AnyLine>) -> State {
    (log.last(), log.ticks_left(), log.is_broken())
}

fn disk_of<D: Disk + Drop>(log: Log<D, AnyLine>) -> D {
    log.into_disk()
}

// Keeps so many records of one slot each.
fn keep_all(log: &mut Log<MemoryDisk, AnyLine>, tables: &OneTable, count: u8) -> Result<(), Fault> {
    for _ in 0..count {
        keep(log, tables, b"g1 buy a")?;
    }
    Ok(())
}

// How many ticks are left behind each of the next six records.
fn left_behind_six(
    log: &mut Log<MemoryDisk, AnyLine>,
    tables: &OneTable,
) -> Result<[usize; 6], Fault> {
    let mut left = [0; 6];
    for behind in &mut left {
        keep(log, tables, b"g1 buy a")?;
        *behind = log.ticks_left();
    }
    Ok(left)
}

// What an opening finds in the file of a log, and whether its directory has one table, which keeps the two commands.
fn reopened(alloc: Global, log: Log<MemoryDisk, AnyLine>) -> Result<(Found, bool), Fail> {
    let mut disk = disk_of(log);
    let mut opened = open(alloc, &mut disk)?;
    let table = has_the_table(&mut disk, &mut opened);
    Ok((found(&opened), table))
}

fn has_the_table(disk: &mut MemoryDisk, opened: &mut Opened<Worlds<AnyLine>>) -> bool {
    opened.dir.tables.len() == 1 && keeps_both(disk, &mut opened.tables)
}

fn keeps_both(disk: &mut MemoryDisk, tables: &mut Commands) -> bool {
    tables.turn_to(0);
    tables.chain_count() == 1
        && keeps(disk, tables, b"open a b")
        && keeps(disk, tables, b"buy a")
        && matches!(tables.next(disk), Ok(None))
}

// Whether the next command has these words.
fn keeps(disk: &mut MemoryDisk, tables: &mut Commands, words: &[u8]) -> bool {
    match tables.next(disk) {
        Ok(Some(next)) => next == words,
        _ => false,
    }
}

// The faults of a record, and then of each call, on a log whose device fails behind so many calls; and how many records
// an opening then reads.
fn faults(
    alloc: Global,
    tables: &OneTable,
    calls: u64,
) -> Result<([Option<Fault>; 4], usize), Fail> {
    let mut disk = new_file(alloc)?;
    let opened = open(alloc, &mut disk)?;
    let mut log = log_on(alloc, failing_after(disk, calls), opened, None);
    let faults = [
        keep(&mut log, tables, b"g1 buy a").err(),
        keep(&mut log, tables, b"g1 buy a").err(),
        tick(&mut log, tables).err(),
        checkpoint(&mut log, tables).err(),
    ];
    let mut left = beneath(disk_of(log));
    let opened = open(alloc, &mut left)?;
    Ok((faults, opened.near.records.len()))
}

fn beneath(disk: FaultyDisk<MemoryDisk>) -> MemoryDisk {
    disk.into_inner()
}

// What is told before, during and behind the ticks that 134 records make.
fn through_a_checkpoint(
    log: &mut Log<MemoryDisk, AnyLine>,
    tables: &OneTable,
) -> Result<(State, [usize; 6], State, Tick), Fault> {
    keep_all(log, tables, 128)?;
    let before = state(log);
    let left = left_behind_six(log, tables)?;
    let behind = tick(log, tables)?;
    Ok((before, left, state(log), behind))
}

// The checkpoint of a table and the directory has six ticks, and begins where 128 slots are used.
#[test]
fn records_129_to_134_make_a_tick_each(rt: HostRuntime) -> Result<(), Fail> {
    let mut log = new_log(rt.alloc())?;
    let told = through_a_checkpoint(&mut log, &one_table(false)?)?;
    let whole = (
        (128, 0, false),
        [5, 4, 3, 2, 1, 0],
        (134, 0, false),
        Tick::Idle,
    );
    assert!(rt; told == whole);
    assert!(rt; reopened(rt.alloc(), log)? == ((2, 135, 6, 0, None), true));
    Ok(())
}

// Three records, a checkpoint, and a record more.
fn around_a_checkpoint(
    log: &mut Log<MemoryDisk, AnyLine>,
    tables: &OneTable,
) -> Result<State, Fault> {
    keep_all(log, tables, 3)?;
    checkpoint(log, tables)?;
    keep_all(log, tables, 1)?;
    Ok(state(log))
}

#[test]
fn a_whole_checkpoint_is_opened_again(rt: HostRuntime) -> Result<(), Fail> {
    let mut log = new_log(rt.alloc())?;
    let told = around_a_checkpoint(&mut log, &one_table(false)?)?;
    assert!(rt; told == (4, 0, false));
    assert!(rt; reopened(rt.alloc(), log)? == ((2, 5, 1, 0, None), true));
    Ok(())
}

// How many pages a new file has behind so many checkpoints.
fn pages_behind(alloc: Global, count: u8) -> Result<u64, Fail> {
    let tables = one_table(false)?;
    let mut log = new_log(alloc)?;
    for _ in 0..count {
        checkpoint(&mut log, &tables)?;
    }
    Ok(disk_of(log).len() / 4096)
}

// A checkpoint writes a page of the table and one of the directory. The first one lets go of the old directory's alone,
// and each later one of as many as it writes.
#[test]
fn a_file_grows_only_where_no_page_is_free(rt: HostRuntime) -> Result<(), Fail> {
    for (count, pages) in [(0, 519), (1, 521), (2, 522), (3, 522), (4, 522)] {
        assert!(rt; pages_behind(rt.alloc(), count)? == pages, "{count}");
    }
    Ok(())
}

// How many pages a new file has behind so many records.
fn pages_behind_records(alloc: Global, count: u8) -> Result<u64, Fail> {
    let tables = one_table(false)?;
    let mut log = new_log(alloc)?;
    keep_all(&mut log, &tables, count)?;
    Ok(disk_of(log).len() / 4096)
}

// Of the six ticks that records 129 to 134 make, the second and the third write a page each.
#[test]
fn only_a_tick_that_writes_a_page_makes_a_file_longer(rt: HostRuntime) -> Result<(), Fail> {
    for (count, pages) in [(128, 519), (129, 519), (130, 520), (131, 521), (134, 521)] {
        assert!(rt;
            pages_behind_records(rt.alloc(), count)? == pages,
            "{count}"
        );
    }
    Ok(())
}

// A log on a file with a record in the other half, which tells that a checkpoint was begun before that record.
fn begun_log(alloc: Global) -> Result<Log<MemoryDisk, AnyLine>, Fail> {
    let mut disk = new_file(alloc)?;
    write(&mut disk, FAR, FIRST)?;
    let opened = open(alloc, &mut disk)?;
    let base = transcript_of(alloc, &one_table(false)?)?;
    Ok(log_on(alloc, disk, opened, Some(base)))
}

// What is told behind a tick, and behind the whole checkpoint.
fn tick_and_finish(
    log: &mut Log<MemoryDisk, AnyLine>,
    tables: &OneTable,
) -> Result<(Tick, State, State), Fault> {
    let answer = tick(log, tables)?;
    let begun = state(log);
    checkpoint(log, tables)?;
    Ok((answer, begun, state(log)))
}

// It is made of the tables from before the record, and those that are lent aren't asked. Of its five ticks the first
// one writes the table's page.
#[test]
fn a_checkpoint_that_was_begun_is_made_anew(rt: HostRuntime) -> Result<(), Fail> {
    let mut log = begun_log(rt.alloc())?;
    let told = tick_and_finish(&mut log, &one_table(true)?)?;
    assert!(rt; told == (Tick::More, (1, 4, false), (1, 0, false)));
    assert!(rt; reopened(rt.alloc(), log)? == ((2, 2, 1, 0, None), true));
    Ok(())
}

// Why a record of so many bytes isn't kept in a new file, and what is told then.
fn kept(alloc: Global, count: usize) -> Result<(Option<Fault>, State), Fail> {
    let line = vec![in alloc; b'a'; count]?;
    let mut log = new_log(alloc)?;
    let fault = keep(&mut log, &one_table(false)?, &line).err();
    Ok((fault, state(&log)))
}

// Eight slots hold the 13 bytes of a record's header and 32,755 more.
#[test]
fn a_record_takes_eight_slots_at_most(rt: HostRuntime) -> Result<(), Fail> {
    let full = Some(Fault::HalfFull);
    assert!(rt; kept(rt.alloc(), 32_756)? == (full, (0, 0, false)));
    assert!(rt; kept(rt.alloc(), 32_755)? == (None, (1, 0, false)));
    Ok(())
}

// How a record and a tick end where a half is used up and no checkpoint can begin, and what is told then.
fn behind_a_full_half(
    log: &mut Log<MemoryDisk, AnyLine>,
    tables: &OneTable,
) -> Result<(Option<Fault>, Option<Fault>, State), Fault> {
    keep_all(log, tables, 255)?;
    let record = keep_all(log, tables, 1).err();
    let next = tick(log, tables).err();
    Ok((record, next, state(log)))
}

// What a tick wants is told where the record has no room, and once it has it the record goes to the other half.
#[test]
fn the_want_of_a_tick_is_put_off(rt: HostRuntime) -> Result<(), Fail> {
    let want = Some(Fault::OutOfMemory);
    let mut log = new_log(rt.alloc())?;
    let told = behind_a_full_half(&mut log, &one_table(true)?)?;
    assert!(rt; told == (want, want, (255, 0, false)));
    keep_all(&mut log, &one_table(false)?, 1)?;
    assert!(rt; state(&log) == (256, 5, false));
    Ok(())
}

// A log on a new file of whose pages only so many are free.
fn full_log(alloc: Global, count: u8) -> Result<Log<MemoryDisk, AnyLine>, Fail> {
    let mut disk = new_file(alloc)?;
    let (writer, kit) = parts(open(alloc, &mut disk)?);
    let full = with_free_pages(alloc, &writer, count)?;
    Ok(Log::new(alloc, disk, full, kit, Vec::new(alloc), None))
}

#[test]
fn a_file_without_free_pages_is_told_to_be_full(rt: HostRuntime) -> Result<(), Fail> {
    let full = Some(Fault::FileFull);
    let mut log = full_log(rt.alloc(), 0)?;
    let told = behind_a_full_half(&mut log, &one_table(false)?)?;
    assert!(rt; told == (full, full, (255, 0, false)));
    Ok(())
}

// Why the first tick of a checkpoint was put off with the records 128 and 129, and how many ticks are then left.
fn put_off_from_128(
    log: &mut Log<MemoryDisk, AnyLine>,
    tables: &OneTable,
) -> Result<(Option<PutOff>, Option<PutOff>, usize), Fault> {
    keep_all(log, tables, 127)?;
    let before = keep(log, tables, b"g1 buy a")?;
    let due = keep(log, tables, b"g1 buy a")?;
    Ok((before, due, log.ticks_left()))
}

// A checkpoint is due once 128 slots are used: it begins with record 129, or the reason is told.
#[test]
fn record_129_begins_a_checkpoint_or_tells_why_not(rt: HostRuntime) -> Result<(), Fail> {
    let mut begun = new_log(rt.alloc())?;
    let told = put_off_from_128(&mut begun, &one_table(false)?)?;
    assert!(rt; told == (None, None, 5));
    let mut wanting = new_log(rt.alloc())?;
    let told = put_off_from_128(&mut wanting, &one_table(true)?)?;
    assert!(rt; told == (None, Some(PutOff::OutOfMemory), 0));
    let mut full = full_log(rt.alloc(), 1)?;
    let told = put_off_from_128(&mut full, &one_table(false)?)?;
    assert!(rt; told == (None, Some(PutOff::FileFull), 0));
    Ok(())
}

// Why a whole checkpoint isn't made where so many pages are free. The table and the directory take a page each.
#[test]
fn a_checkpoint_takes_just_its_pages(rt: HostRuntime) -> Result<(), Fail> {
    for (count, fault) in [(1, Some(Fault::FileFull)), (2, None)] {
        let mut log = full_log(rt.alloc(), count)?;
        assert!(rt;
            checkpoint(&mut log, &one_table(false)?).err() == fault,
            "{count}"
        );
    }
    Ok(())
}

// A record is two writes, each with a sync. Only where the last sync alone fails, a read finds it.
#[test]
fn a_log_whose_device_failed_is_to_be_opened_again(rt: HostRuntime) -> Result<(), Fail> {
    let tables = one_table(false)?;
    let again = Some(Fault::OpenAgain);
    let told = [Some(Fault::DeviceFailed), again, again, again];
    for (calls, count) in [(0, 0), (1, 0), (2, 0), (3, 1)] {
        let left = faults(rt.alloc(), &tables, calls)?;
        assert!(rt; left == (told, count), "{calls}");
    }
    Ok(())
}

// The text of the first fault that has another one than it is to have.
fn unlike(alloc: Global) -> Result<Option<&'static str>, Fail> {
    let rows = [
        (Fault::DeviceFailed, "device failed"),
        (Fault::HalfFull, "half full"),
        (Fault::FileFull, "file full"),
        (Fault::OpenAgain, "open again"),
        (Fault::OutOfMemory, "out of memory"),
    ];
    for (fault, text) in rows {
        if fault.to_string(alloc)?.as_str() != text {
            return Ok(Some(text));
        }
    }
    Ok(None)
}

#[test]
fn faults_have_texts(rt: HostRuntime) -> Result<(), Fail> {
    let row = unlike(rt.alloc())?;
    assert_eq!(rt; row, None);
    Ok(())
}
