ghost use Rattle.std.specs.Prelude.{◌≡◌, [], ◌∷◌, length, map, IfOk};
ghost use Rattle.rr_checkpoint.specs.Plan.Transcript.{snapshots_of, table_of, tables_of};
ghost use Rattle.rr_reading.specs.Worlds.World.{Table as OfTable};

use rr_checkpoint::laws::standing_snapshots_are_found;
use rr_checkpoint::plan::{
    KitPages, Planned, SnapshotTranscript, StandingSnapshot, TableTranscript, TextPages,
    Transcript, plan_checkpoint,
};
use rr_checkpoint::{Place, Writer};
use rr_pages::journal::{Half, HalfIndex, RecordBuffer};
use rr_pages::{Fault, FreePages, FreshPage, ReachedPages, ReadChain, Root, Taken};
use rr_reading::dir::{ChainRef, SnapshotEntry};
use rr_reading::worlds::{Rules, Worlds};
use rr_turns::KeptWords;
use rr_words::Name;
use std::alloc::{AllocError, Global};
use std::rc::RcSlice;
use std::test::Fail;

// Rules by which no record is lawful, and any bytes show a game. They have no code.
struct AnyGame;

impl Rules for AnyGame {
    ghost rules = { record { takes = λ line old new. ⊥; shows = λ world commands bytes. Unit {0}; banks = λ text bank. Unit {0} } };
}

// The page of a table's chain: no next page, 17 bytes used, and its two commands.
const TABLE: &[u8] = b"\0\0\0\0\0\0\0\0\0\x11\0\x08open a b\0\x05buy a\0";

// The pages of the snapshots' chains: one of 3 bytes, one of two pages, the first of which is full, and one of 5 bytes.
const FIRST: &[u8] = b"\0\0\0\0\0\0\0\0\0\x03one\0";

const SECOND: &[u8] = b"\0\0\0\0\0\0\x02\x0c\x0f\xf6222";

const REST: &[u8] = b"\0\0\0\0\0\0\0\0\0\x012\0";

const THIRD: &[u8] = b"\0\0\0\0\0\0\0\0\0\x05three\0";

// The page of the directory: no next page, 176 bytes used, a bank of 12,000, the texts on pages 514 to 517, two tables
// of stamp 2, floor 0 and 2 kept commands, on pages 520 and 521, and three snapshots: of 1 and of 2 commands of the
// first table, on page 522 and from page 523 on, and of 1 command of the second, on page 525.
const DIRECTORY: &[u8] = b"\0\0\0\0\0\0\0\0\0\xb0\
\0\0\0\0\0\0\x2e\xe0\
\0\0\0\0\0\0\x02\x02\0\0\0\x05\0\0\0\0\0\0\x02\x03\0\0\0\x06\
\0\0\0\0\0\0\x02\x04\0\0\0\x05\0\0\0\0\0\0\x02\x05\0\0\0\x05\0\x02\
\x02g1\0\0\0\0\0\0\0\x02\0\0\0\0\0\0\0\x02\0\0\0\0\0\0\x02\x08\0\0\0\x11\
\x02g2\0\0\0\0\0\0\0\x02\0\0\0\0\0\0\0\x02\0\0\0\0\0\0\x02\x09\0\0\0\x11\0\x03\
\0\0\0\0\0\x01\0\0\0\0\0\0\x02\x0a\0\0\0\x03\
\0\0\0\0\0\x02\0\0\0\0\0\0\x02\x0b\0\0\x0f\xf7\
\0\x01\0\0\0\x01\0\0\0\0\0\0\x02\x0d\0\0\0\x05\0";

// The same where the last snapshot stays on page 519, where it stands.
const KEEPING: &[u8] = b"\0\0\0\0\0\0\0\0\0\xb0\
\0\0\0\0\0\0\x2e\xe0\
\0\0\0\0\0\0\x02\x02\0\0\0\x05\0\0\0\0\0\0\x02\x03\0\0\0\x06\
\0\0\0\0\0\0\x02\x04\0\0\0\x05\0\0\0\0\0\0\x02\x05\0\0\0\x05\0\x02\
\x02g1\0\0\0\0\0\0\0\x02\0\0\0\0\0\0\0\x02\0\0\0\0\0\0\x02\x08\0\0\0\x11\
\x02g2\0\0\0\0\0\0\0\x02\0\0\0\0\0\0\0\x02\0\0\0\0\0\0\x02\x09\0\0\0\x11\0\x03\
\0\0\0\0\0\x01\0\0\0\0\0\0\x02\x0a\0\0\0\x03\
\0\0\0\0\0\x02\0\0\0\0\0\0\x02\x0b\0\0\x0f\xf7\
\0\x01\0\0\0\x01\0\0\0\0\0\0\x02\x07\0\0\0\x05\0";

// The calls below have almost no contracts, so that what a test does costs its proof little.

// What writes to a file whose texts stand on pages 514 to 517, its directory on page 518, and a snapshot on page 519; so
// many pages behind are free.
fn writer(alloc: Global, count: u8) -> Result<Writer<Worlds<AnyGame>>, AllocError> {
    let mut reached = ReachedPages::new(alloc)?;
    for page in 514..520 {
        reached.take(page);
    }
    for page in 520 + u32::from(count)..65536 {
        reached.take(page);
    }
    let root = Root {
        number: 1,
        directory: 518,
        half: HalfIndex::First,
        first: 1,
        pages: 520,
        version: 1,
    };
    let half = Half {
        index: HalfIndex::First,
        next_slot: 0,
    };
    let place = Place {
        half,
        number: 1,
        begun: None,
    };
    let free = FreePages::new(alloc, reached)?;
    let taken = Taken { side: true, root };
    Ok(Writer::new(taken, place, free, RecordBuffer::new(alloc)?))
}

fn text(alloc: Global, page: u16, length: u8) -> Result<TextPages, AllocError> {
    let chain = ChainRef {
        head: u64::from(page),
        length: u32::from(length),
    };
    let pages = vec![in alloc; u32::from(page)]?;
    Ok(TextPages { chain, pages })
}

fn kit(alloc: Global) -> Result<KitPages, AllocError> {
    Ok(KitPages {
        chart: text(alloc, 514, 5)?,
        roster: text(alloc, 515, 6)?,
        tiles: text(alloc, 516, 5)?,
        board: text(alloc, 517, 5)?,
        bank: 12_000,
    })
}

// A table of this name that keeps two commands.
fn table(alloc: Global, name: &Name) -> Result<TableTranscript, Fault>
    ensures named { IfOk result (λ table. (table_of table).name ≡ name.now) }
    ensures counted { IfOk result (λ table. length (table_of table).kept.commands ≡ 2) }
{
    let mut commands = KeptWords::new(alloc);
    commands.reserve(8)?;
    commands.push(b"open a b");
    commands.reserve(5)?;
    commands.push(b"buy a");
    TableTranscript::of(alloc, name, 2, 0, &commands)
}

// Two such tables.
fn tables(alloc: Global, first: &Name, second: &Name) -> Result<Transcript, Fault>
    ensures counted { IfOk result (λ transcript. map (λ (table : OfTable). length table.kept.commands) (tables_of transcript) ≡ 2 ∷ 2 ∷ []) }
    ensures none { IfOk result (λ transcript. snapshots_of transcript ≡ []) }
{
    if first == second {
        return Err(Fault::OutOfMemory);
    }
    let mut transcript = Transcript::new(alloc);
    transcript.push(table(alloc, first)?)?;
    transcript.push(table(alloc, second)?)?;
    Ok(transcript)
}

// With a snapshot of each of the first table's commands, and one of the second's first.
fn with_snapshots(alloc: Global, first: &Name, second: &Name) -> Result<Transcript, Fault> {
    let mut transcript = tables(alloc, first, second)?;
    let bytes = RcSlice::from_slice(alloc, b"one")?;
    transcript.push_snapshot(SnapshotTranscript {
        table: 0,
        kept: 1,
        bytes,
    })?;
    let bytes = RcSlice::from_slice(alloc, &[b'2'; 4087])?;
    transcript.push_snapshot(SnapshotTranscript {
        table: 0,
        kept: 2,
        bytes,
    })?;
    let bytes = RcSlice::from_slice(alloc, b"three")?;
    transcript.push_snapshot(SnapshotTranscript {
        table: 1,
        kept: 1,
        bytes,
    })?;
    Ok(transcript)
}

// A snapshot of the first command of the second table, which stands on page 519.
fn standing(alloc: Global, bytes: &[u8]) -> Result<Vec<StandingSnapshot>, Fault> {
    let entry = SnapshotEntry {
        table: 1,
        kept: 1,
        chain: ChainRef {
            head: 519,
            length: 5,
        },
    };
    let chain = ReadChain {
        pages: vec![in alloc; 519u32]?,
        bytes: bytes.to_vec(alloc)?,
    };
    let standing = vec![in alloc; StandingSnapshot::of(&entry, chain)?]?;
    Ok(standing)
}

fn plan(
    alloc: Global,
    writer: &mut Writer<Worlds<AnyGame>>,
    kit: &KitPages,
    standing: &[StandingSnapshot],
    transcript: &Transcript,
) -> Result<Planned, Fault> {
    let low = writer.place().number < 1 << 63 && writer.taken().root.number < (1 << 63) - 1;
    if writer.ticks_left() > 0 || !low {
        return Err(Fault::OutOfMemory);
    }
    plan_checkpoint(alloc, writer, kit, standing, transcript)
}

// The plan of a checkpoint of these where so many pages are free, and these bytes stand already.
fn planned(alloc: Global, count: u8, bytes: &[u8]) -> Result<Result<Planned, Fault>, Fail> {
    let first = Name::table(b"g1").ok_or("no name")?;
    let second = Name::table(b"g2").ok_or("no name")?;
    let transcript = with_snapshots(alloc, &first, &second)?;
    let standing = standing(alloc, bytes)?;
    let kit = kit(alloc)?;
    let mut writer = writer(alloc, count)?;
    Ok(plan(alloc, &mut writer, &kit, &standing, &transcript))
}

// How many of the fresh pages begin with the bytes that are wanted, the first of them on page 520, and each other one
// behind the one before it.
fn right_pages(fresh: &[FreshPage], pages: &[&[u8]]) -> usize {
    let mut count = 0usize;
    let mut page = 520u32;
    for (found, bytes) in fresh.iter().zip(pages) {
        if found.page == page && found.bytes.starts_with(bytes) {
            count = count.saturating_add(1);
        }
        page = page.saturating_add(1);
    }
    count
}

// The first page of the snapshot at this place in the coming root.
fn page_of(standing: &[StandingSnapshot], place: usize) -> Option<u32> {
    match standing.get(place) {
        None => None,
        Some(snapshot) => snapshot.pages.first().copied(),
    }
}

// Where the snapshots of the coming root stand.
fn pages_of(standing: &[StandingSnapshot]) -> [Option<u32>; 4] {
    [
        page_of(standing, 0),
        page_of(standing, 1),
        page_of(standing, 2),
        page_of(standing, 3),
    ]
}

// How many pages are fresh, how many of these are the ones that are wanted, and where the snapshots will stand.
type Found = (usize, usize, [Option<u32>; 4]);

fn found(alloc: Global, bytes: &[u8], pages: &[&[u8]]) -> Result<Found, Fail> {
    let Planned { plan, standing } = planned(alloc, 7, bytes)??;
    let right = right_pages(&plan.fresh, pages);
    Ok((plan.fresh.len(), right, pages_of(&standing)))
}

// The tables' chains come first, then the snapshots', and then the directory. Of other bytes than those that stand is a
// snapshot of as many commands laid, too.
#[test]
fn a_plan_lays_snapshots_behind_the_tables(rt: HostRuntime) -> Result<(), Fail> {
    let pages = [TABLE, TABLE, FIRST, SECOND, REST, THIRD, DIRECTORY];
    let stand = [Some(522), Some(523), Some(525), None];
    assert!(rt; found(rt.alloc(), b"tree", &pages)? == (7, 7, stand));
    Ok(())
}

// The law does nothing.
#[test]
fn a_snapshot_that_stands_stays(rt: HostRuntime) -> Result<(), Fail> {
    standing_snapshots_are_found();
    let pages = [TABLE, TABLE, FIRST, SECOND, REST, KEEPING];
    let stand = [Some(522), Some(523), Some(519), None];
    assert!(rt; found(rt.alloc(), b"three", &pages)? == (6, 6, stand));
    Ok(())
}

// The root's number, directory and page count.
fn root(alloc: Global) -> Result<(u64, u64, u64), Fail> {
    let root = planned(alloc, 7, b"")??.plan.root;
    Ok((root.number, root.directory, root.pages))
}

#[test]
fn the_coming_root_names_the_directory(rt: HostRuntime) -> Result<(), Fail> {
    assert!(rt; root(rt.alloc())? == (2, 526, 527));
    Ok(())
}

// Why no plan is made where so many pages are free, and these bytes stand already.
fn fault(alloc: Global, count: u8, bytes: &[u8]) -> Result<Option<Fault>, Fail> {
    Ok(planned(alloc, count, bytes)?.err())
}

// A page for each table and for the directory, and four for the snapshots, or three where one stays.
#[test]
fn a_plan_takes_a_page_for_each_that_is_laid(rt: HostRuntime) -> Result<(), Fail> {
    let full = Some(Fault::FileFull);
    assert!(rt; [fault(rt.alloc(), 6, b"")?, fault(rt.alloc(), 5, b"three")?] == [full, full]);
    Ok(())
}
