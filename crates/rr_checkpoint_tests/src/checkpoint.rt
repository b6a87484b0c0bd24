ghost use Rattle.rr_images.specs.Example.{lists};

use crate::calls::{Bytes, counts, given, in_memory};
use rr_checkpoint::{Place, Plan, Tick, Writer};
use rr_disk::MemoryDisk;
use rr_images::Codec;
use rr_images::laws::{
    chains_are_laid_in_turn, chains_begin_with_their_pages, checkpoints_begin, example,
    files_read_the_same_keep_the_same, files_stand_for_one_world, formatted_files_keep,
    fresh_pages_are_written, kept_files_stand, made_plans_are_plans, records_are_appended,
    refused_files_stand_for_nothing, roots_are_read, roots_change_places,
};
use rr_pages::journal::{Half, HalfIndex, RecordBuffer};
use rr_pages::{Fault, FreePages, FreshPage, ReachedPages, Root, Roots, Taken};
use rr_reading::laws::{damaged_files_are_refused, held_files_stand};
use std::alloc::{AllocError, Global};
use std::test::Fail;

const PAGE: usize = 4096;

// Room for a file of 520 pages, and for the calls of a test.
const ROOM: usize = 1 << 22;

// A codec of lists of lines. It has no code.
struct Lists;

impl Codec for Lists {
    ghost codec = { lists };
}

// A root whose directory is on this page, with which records begin at number 1.
fn root_of(number: u64, directory: u64, half: HalfIndex) -> Root {
    Root {
        number,
        directory,
        half,
        first: 1,
        pages: 517,
        version: 1,
    }
}

// The calls below have almost no contracts, so that what a test does costs its proof little.

// A file with one root, an empty directory on page 514, and two shut halves.
fn formatted(alloc: Global) -> Result<MemoryDisk, rr_disk::Fault> {
    let bytes = vec![in alloc; 0u8; 517 * PAGE]?;
    let mut disk = in_memory(alloc, ROOM, &bytes)?;
    let mut roots = Roots { taken: true };
    roots.flip(&mut disk, &root_of(1, 514, HalfIndex::First))?;
    Ok(disk)
}

// What goes on with that file.
fn opened(alloc: Global) -> Result<Writer<Lists>, AllocError> {
    let half = Half {
        index: HalfIndex::First,
        next_slot: 0,
    };
    let place = Place {
        half,
        number: 1,
        begun: None,
    };
    opened_at(alloc, place)
}

// The same where a record stands in the other half, of number 1: a checkpoint was begun before it.
fn opened_as_begun(alloc: Global) -> Result<Writer<Lists>, AllocError> {
    let half = Half {
        index: HalfIndex::Second,
        next_slot: 1,
    };
    let place = Place {
        half,
        number: 2,
        begun: Some(1),
    };
    opened_at(alloc, place)
}

fn opened_at(alloc: Global, place: Place) -> Result<Writer<Lists>, AllocError> {
    let mut reached = ReachedPages::new(alloc)?;
    reached.take(514);
    let free = FreePages::new(alloc, reached)?;
    let taken = Taken {
        side: false,
        root: root_of(1, 514, HalfIndex::First),
    };
    Ok(Writer::new(taken, place, free, RecordBuffer::new(alloc)?))
}

fn page_of(alloc: Global, page: u32, byte: u8) -> Result<FreshPage, AllocError> {
    let bytes = vec![in alloc; byte; PAGE]?;
    Ok(FreshPage { page, bytes })
}

// A directory on page 515, and a page beside it.
fn two_pages(alloc: Global) -> Result<Vec<FreshPage>, Fault> {
    let mut fresh = Vec::new(alloc);
    fresh.push(page_of(alloc, 515, 0)?)?;
    fresh.push(page_of(alloc, 516, 7)?)?;
    Ok(fresh)
}

fn begin(
    disk: &mut MemoryDisk,
    writer: &mut Writer<Lists>,
    fresh: Vec<FreshPage>,
) -> Result<(), rr_disk::Fault> {
    if writer.ticks_left() > 0 {
        return Err(rr_disk::Fault::OutOfMemory);
    }
    let root = root_of(2, 515, HalfIndex::Second);
    writer.begin(disk, Plan { root, fresh })
}

fn tick(disk: &mut MemoryDisk, writer: &mut Writer<Lists>) -> Result<Tick, rr_disk::Fault> {
    writer.tick(disk)
}

fn finish(disk: &mut MemoryDisk, writer: &mut Writer<Lists>) -> Result<(), rr_disk::Fault> {
    writer.finish(disk)
}

fn append(disk: &mut MemoryDisk, writer: &mut Writer<Lists>, line: &[u8]) -> Result<(), Fault> {
    if line.is_empty() || writer.place().number >= 1 << 63 {
        return Err(Fault::OutOfMemory);
    }
    writer.append(disk, line)
}

// How many ticks are left of a checkpoint that is begun, what the first of them answers, how many are left once a
// record is kept; and what a tick answers once all are made, and another record is kept.
type Answers = (usize, Tick, usize, Tick);

fn through_a_checkpoint(
    disk: &mut MemoryDisk,
    writer: &mut Writer<Lists>,
    fresh: Vec<FreshPage>,
) -> Result<Answers, Fault> {
    begin(disk, writer, fresh)?;
    let begun = writer.ticks_left();
    let first = tick(disk, writer)?;
    append(disk, writer, b"one")?;
    let meanwhile = writer.ticks_left();
    finish(disk, writer)?;
    append(disk, writer, b"two")?;
    Ok((begun, first, meanwhile, tick(disk, writer)?))
}

// The half, slot and number of the next record, and the root that is taken and its side.
type Told = (HalfIndex, u8, u64, u64, bool);

fn told(writer: &Writer<Lists>) -> Told {
    let place = writer.place();
    let taken = writer.taken();
    (
        place.half.index,
        place.half.next_slot,
        place.number,
        taken.root.number,
        taken.side,
    )
}

// What is answered, what the writer then tells, how many of the bytes a read gives, and which calls were made.
fn checkpoint(alloc: Global, bytes: &[Bytes]) -> Result<(Answers, Told, usize, [u64; 4]), Fault> {
    let fresh = two_pages(alloc)?;
    let mut writer = opened(alloc)?;
    let mut disk = formatted(alloc)?;
    let answers = through_a_checkpoint(&mut disk, &mut writer, fresh)?;
    let told = told(&writer);
    Ok((answers, told, given(&mut disk, bytes), counts(&disk)))
}

// Two fresh pages take six ticks, of which the beginning is one. A record between two of them goes to slot 0 of the
// other half, and the next one behind it. The file's root takes 2 writes and 3 syncs, the checkpoint 4 of each, a
// record 2.
#[test]
fn records_go_to_the_other_half_meanwhile(rt: HostRuntime) {
    let bytes = [
        (
            4096,
            b"\xa5\0\0\0\0\0\0\0\x02\0\0\0\0\0\0\x02\x03\x01".as_slice(),
        ),
        (8192, b"\0"),
        (4096 * 258, b"\xa5\0\0\0\0\0\0\0\x01\0\0\0\x03one"),
        (4096 * 259, b"\xa5\0\0\0\0\0\0\0\x02\0\0\0\x03two"),
        (4096 * 517 - 1, b"\x07"),
    ];
    let answers = (5, Tick::More, 4, Tick::Idle);
    let told = (HalfIndex::Second, 2, 3, 2, true);
    let calls = [0, 10, 11, 4096 * 517];
    assert!(rt; checkpoint(rt.alloc(), &bytes) == Ok((answers, told, 5, calls)));
}

// The page beside the directory comes first. How many ticks are left of a checkpoint that is begun by this, how many of
// the bytes a read gives then, and which calls were made.
fn first_tick(
    alloc: Global,
    mut writer: Writer<Lists>,
    bytes: &[Bytes],
) -> Result<(usize, usize, [u64; 4]), Fault> {
    let mut fresh = two_pages(alloc)?;
    fresh.reverse();
    let mut disk = formatted(alloc)?;
    begin(&mut disk, &mut writer, fresh)?;
    let left = writer.ticks_left();
    Ok((left, given(&mut disk, bytes), counts(&disk)))
}

// Of a checkpoint that an opening found begun the first tick writes the first page, and syncs nothing. Else it syncs
// the other half's slot 0, which is shut, and six ticks are to be made in place of five.
#[test]
fn a_checkpoint_that_was_begun_has_a_tick_less(rt: HostRuntime) -> Result<(), Fail> {
    let page = [(4096 * 516, [7u8; 4].as_slice())];
    let begun = opened_as_begun(rt.alloc())?;
    let begun = first_tick(rt.alloc(), begun, &page);
    assert!(rt; begun == Ok((4, 1, [0, 3, 3, 4096 * 517])));
    let resting = opened(rt.alloc())?;
    let resting = first_tick(rt.alloc(), resting, &page);
    assert!(rt; resting == Ok((5, 0, [0, 2, 4, 4096 * 517])));
    Ok(())
}

fn lay(
    alloc: Global,
    writer: &mut Writer<Lists>,
    fresh: &mut Vec<FreshPage>,
    text: &[u8],
) -> Result<u32, Fault> {
    if writer.ticks_left() > 0 {
        return Err(Fault::OutOfMemory);
    }
    writer.lay(alloc, fresh, text)
}

// Begins anew, with this page kept.
fn keep_only(writer: &mut Writer<Lists>, page: u16) {
    if writer.ticks_left() == 0 {
        writer.abandon();
        writer.keep(u32::from(page));
    }
}

fn plan(alloc: Global, writer: &mut Writer<Lists>, fresh: Vec<FreshPage>) -> Result<Plan, Fault> {
    let low = writer.place().number < 1 << 63 && writer.taken().root.number < (1 << 63) - 1;
    if writer.ticks_left() > 0 || !low {
        return Err(Fault::OutOfMemory);
    }
    writer.plan(alloc, fresh, b"directory")
}

// Lays a text, which is abandoned, and another one, and gives its page and the plan.
fn laid(alloc: Global, writer: &mut Writer<Lists>) -> Result<(u32, Plan), Fault> {
    let mut fresh = Vec::new(alloc);
    lay(alloc, writer, &mut fresh, b"lost")?;
    fresh.clear();
    keep_only(writer, 514);
    let page = lay(alloc, writer, &mut fresh, b"abc")?;
    let plan = plan(alloc, writer, fresh)?;
    Ok((page, plan))
}

// That page, how many pages are fresh, and the root's number, directory, half, first record, page count and version.
type Planned = (u32, usize, (u64, u64, HalfIndex, u64, u64, u16));

fn planned(alloc: Global) -> Result<Planned, Fault> {
    let mut writer = opened(alloc)?;
    let (page, plan) = laid(alloc, &mut writer)?;
    let root = plan.root;
    let fields = (
        root.number,
        root.directory,
        root.half,
        root.first,
        root.pages,
        root.version,
    );
    Ok((page, plan.fresh.len(), fields))
}

// The laws do nothing.
fn cite_laws_of_layouts() {
    formatted_files_keep::<Lists>();
    kept_files_stand::<Lists>();
    files_stand_for_one_world::<Lists>();
    roots_are_read::<Lists>();
    refused_files_stand_for_nothing::<Lists>();
    files_read_the_same_keep_the_same::<Lists>();
    held_files_stand::<Lists>();
    damaged_files_are_refused::<Lists>();
    example();
}

fn cite_laws_of_steps() {
    checkpoints_begin::<Lists>();
    fresh_pages_are_written::<Lists>();
    roots_change_places::<Lists>();
    records_are_appended::<Lists>();
    chains_begin_with_their_pages();
    chains_are_laid_in_turn();
    made_plans_are_plans::<Lists>();
}

// Page 514 is reached now and kept, 515 has the chain's text, 516 the directory. The next root is of number 2, on the
// other half, whose first record is the next one, number 1. It is of version 2, though the present one is of version 1.
#[test]
fn a_plan_lays_its_directory_behind_its_chains(rt: HostRuntime) {
    cite_laws_of_layouts();
    cite_laws_of_steps();
    assert!(rt; planned(rt.alloc()) == Ok((515, 2, (2, 516, HalfIndex::Second, 1, 517, 2))));
}
