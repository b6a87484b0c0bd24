use crate::calls::{Bytes, counts, given, in_memory};
use crate::reading::has_texts;
use rr_disk::{Disk, MemoryDisk};
use rr_log::formatting::laws::new_files_stand;
use rr_log::formatting::{format, new_file, write_new_file};
use rr_pages::Fault;
use rr_pages::journal::RunEnd;
use rr_reading::dir::NEWEST;
use rr_reading::worlds::Rules;
use rr_reading::worlds::laws::{
    checkpoints_spell_worlds, worlds_are_exact, worlds_are_read, worlds_are_read_back,
};
use rr_reading::{Contents, read_file};
use std::alloc::Global;

// Room for a file of 519 pages, and for the calls of a test.
const ROOM: usize = 1 << 23;

// What the directory says of the bank.
const BANK: Option<u64> = Some(12_000);

// A root: its open gate, number 1, its directory on page 518, half 0, first record 1, 519 pages, version 2.
const ROOT: &[u8] = b"\xa5\0\0\0\0\0\0\0\x01\0\0\0\0\0\0\x02\x06\0\0\0\0\0\0\0\0\x01\
\0\0\0\0\0\0\x02\x07\0\x02";

// Rules by which no record is lawful, and no bytes show a game. They have no code.
struct NoRecords;

impl Rules for NoRecords {
    ghost rules = { record { takes = λ line old new. ⊥; shows = λ world commands bytes. ⊥; banks = λ text bank. Unit {0} } };
}

// The calls below have almost no contracts, so that what a test does costs its proof little.

// The pages of a new file with a chart of so many bytes, and its page count.
fn laid(alloc: Global, count: usize) -> Result<(usize, u64), Fault> {
    let chart = vec![in alloc; 46u8; count.min(65536)]?;
    if chart.len() > 65536 {
        return Err(Fault::FileFull);
    }
    let file = new_file::<NoRecords>(alloc, NEWEST, BANK, &chart, b"r", b"", b"b")?;
    Ok((file.fresh.len(), file.root.pages))
}

// A page for each text and one for the directory; a text takes a page more from 4,087 bytes on.
#[test]
fn a_new_file_has_a_page_for_each_4086_bytes(rt: HostRuntime) {
    assert!(rt; laid(rt.alloc(), 4086) == Ok((5, 519)));
    assert!(rt; laid(rt.alloc(), 4087) == Ok((6, 520)));
}

fn format_short(alloc: Global, disk: &mut MemoryDisk) -> Result<(), Fault> {
    if disk.len() != 0 {
        return Err(Fault::NotAStore);
    }
    format::<NoRecords, MemoryDisk>(
        alloc, disk, NEWEST, BANK, b"chart", b"roster", b"tiles", b"board",
    )
}

// Lays the same file first, and then writes it.
fn write_short(alloc: Global, disk: &mut MemoryDisk) -> Result<(), Fault> {
    if disk.len() != 0 {
        return Err(Fault::NotAStore);
    }
    let file = new_file::<NoRecords>(alloc, NEWEST, BANK, b"chart", b"roster", b"tiles", b"board")?;
    write_new_file::<NoRecords, MemoryDisk>(disk, &file)?;
    Ok(())
}

// Pages 514 to 518 are reached, and there are no tables and no records.
fn is_new(has: &Contents) -> bool {
    has.reached.has(514)
        && has.reached.has(518)
        && !has.reached.has(519)
        && has.dir.tables.is_empty()
        && has.near.records.is_empty()
        && has.far.records.is_empty()
        && [has.near.end, has.far.end] == [RunEnd::Closed; 2]
}

fn is_read(alloc: Global, disk: &mut MemoryDisk) -> bool {
    match read_file(alloc, disk) {
        Ok(has) => has_texts(&has) && is_new(&has),
        Err(_) => false,
    }
}

// Whether a new file is read as it is to be, how many of the bytes a read gives, and which calls were made.
fn made(
    alloc: Global,
    is_laid_first: bool,
    bytes: &[Bytes],
) -> Result<(bool, usize, [u64; 4]), Fault> {
    let mut disk = in_memory(alloc, ROOM, b"")?;
    if is_laid_first {
        write_short(alloc, &mut disk)?;
    } else {
        format_short(alloc, &mut disk)?;
    }
    let counts = counts(&disk);
    let count = given(&mut disk, bytes);
    Ok((is_read(alloc, &mut disk), count, counts))
}

// A write for each of the 519 pages, the first byte and the gate, and three syncs.
#[test]
fn a_formatted_disk_is_read_back(rt: HostRuntime) {
    new_files_stand::<NoRecords>();
    worlds_are_exact::<NoRecords>();
    worlds_are_read::<NoRecords>();
    worlds_are_read_back::<NoRecords>();
    checkpoints_spell_worlds::<NoRecords>();
    let told = (true, 1, [0, 521, 3, 2_125_824]);
    assert!(rt; made(rt.alloc(), false, &[(0, ROOT)]) == Ok(told));
    assert!(rt; made(rt.alloc(), true, &[(0, ROOT)]) == Ok(told));
}
