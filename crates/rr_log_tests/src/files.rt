//! Files in memory and their openings, by calls without their contracts, so that what a test does costs its proof
//! little.
use crate::tables::AnyLine;
use rr_checkpoint::Writer;
use rr_checkpoint::plan::{KitPages, TextPages};
use rr_disk::{Disk, FaultyDisk, MemoryDisk};
use rr_log::formatting::format;
use rr_log::opening::{Opened, open_file};
use rr_pages::journal::RecordBuffer;
use rr_pages::{FreePages, ReachedPages, ReadChain};
use rr_reading::dir::{ChainRef, KitChains, NEWEST};
use rr_reading::worlds::Worlds;
use rr_reading::{Fault, KitTexts};
use std::alloc::{AllocError, Global};
use std::test::Fail;

// The bytes at which slot 0 of half 0 and of half 1 begin.
pub(crate) const NEAR: u64 = 8_192;

pub(crate) const FAR: u64 = 1_056_768;

// A record of number 1.
pub(crate) const FIRST: &[u8] = b"\xa5\0\0\0\0\0\0\0\x01\0\0\0\x0bg1 open a b";

// Room for a file of 521 pages, for 256 records, and for the calls of a test.
const ROOM: usize = 1 << 23;

// A file of four texts, on pages 514 to 517, and an empty directory on page 518.
pub(crate) fn new_file(alloc: Global) -> Result<MemoryDisk, Fail> {
    let mut disk = MemoryDisk::new(alloc, ROOM)?;
    format_short(alloc, &mut disk)?;
    Ok(disk)
}

fn format_short(alloc: Global, disk: &mut MemoryDisk) -> Result<(), rr_pages::Fault> {
    if disk.len() != 0 {
        return Err(rr_pages::Fault::NotAStore);
    }
    format::<AnyLine, MemoryDisk>(
        alloc,
        disk,
        NEWEST,
        Some(12_000),
        b"chart",
        b"roster",
        b"tiles",
        b"board",
    )
}

pub(crate) fn write(disk: &mut MemoryDisk, at: u64, bytes: &[u8]) -> Result<(), rr_disk::Fault> {
    disk.write_at(at, bytes)
}

pub(crate) fn failing_after(disk: MemoryDisk, calls: u64) -> FaultyDisk<MemoryDisk> {
    FaultyDisk::after(disk, calls)
}

pub(crate) fn open<D: Disk>(alloc: Global, disk: &mut D) -> Result<Opened<Worlds<AnyLine>>, Fault> {
    open_file(alloc, disk)
}

// The number of the root and of the next record, how many records stand in the half that the root names and in the
// other one, and the number at which a checkpoint was begun.
pub(crate) type Found = (u64, u64, usize, usize, Option<u64>);

pub(crate) fn found(opened: &Opened<Worlds<AnyLine>>) -> Found {
    let place = opened.writer.place();
    (
        opened.writer.taken().root.number,
        place.number,
        opened.near.records.len(),
        opened.far.records.len(),
        place.begun,
    )
}

// What goes on with the file, and where its texts stand.
pub(crate) fn parts(opened: Opened<Worlds<AnyLine>>) -> (Writer<Worlds<AnyLine>>, KitPages) {
    let Opened {
        writer,
        dir,
        directory: _,
        texts,
        tables: _,
        snapshots: _,
        near: _,
        far: _,
    } = opened;
    (writer, kit_pages(&dir.kit, texts))
}

// What goes on with the same file, of whose pages only so many are free, the first ones behind the directory.
pub(crate) fn with_free_pages(
    alloc: Global,
    writer: &Writer<Worlds<AnyLine>>,
    count: u8,
) -> Result<Writer<Worlds<AnyLine>>, AllocError> {
    let mut reached = ReachedPages::new(alloc)?;
    for page in 514..519 {
        reached.take(page);
    }
    for page in 519 + u32::from(count)..65536 {
        reached.take(page);
    }
    let free = FreePages::new(alloc, reached)?;
    let record = RecordBuffer::new(alloc)?;
    Ok(Writer::new(writer.taken(), writer.place(), free, record))
}

fn kit_pages(kit: &KitChains, texts: KitTexts) -> KitPages {
    let KitTexts {
        chart,
        roster,
        tiles,
        board,
    } = texts;
    KitPages {
        chart: text_pages(kit.chart, chart),
        roster: text_pages(kit.roster, roster),
        tiles: text_pages(kit.tiles, tiles),
        board: text_pages(kit.board, board),
        bank: 12_000,
    }
}

fn text_pages(chain: ChainRef, read: ReadChain) -> TextPages {
    let ReadChain { pages, bytes: _ } = read;
    TextPages { chain, pages }
}
