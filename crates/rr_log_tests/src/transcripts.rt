use crate::files::{new_file, open, parts, with_free_pages};
use crate::tables::{AnyLine, one_table, transcript_of};
use rr_checkpoint::plan::{KitPages, Planned, TableTranscript, Transcript, plan_checkpoint};
use rr_checkpoint::{Plan, Writer};
use rr_pages::journal::HalfIndex;
use rr_pages::{Fault, FreshPage};
use rr_reading::worlds::Worlds;
use rr_turns::{KeptWords, LONGEST_COMMAND};
use rr_words::Name;
use std::alloc::Global;
use std::test::Fail;

// The page of the table's chain: no next page, 17 bytes used, and the two commands, each with the length of its words
// before it.
const CHAIN: &[u8] = b"\0\0\0\0\0\0\0\0\0\x11\0\x08open a b\0\x05buy a";

// The page of the directory: no next page, 89 bytes used, a bank of 12,000, the texts on pages 514 to 517, and one table
// of stamp 2, floor 0 and 2 kept commands, on page 519.
const DIRECTORY: &[u8] = b"\0\0\0\0\0\0\0\0\0\x59\
\0\0\0\0\0\0\x2e\xe0\
\0\0\0\0\0\0\x02\x02\0\0\0\x05\0\0\0\0\0\0\x02\x03\0\0\0\x06\
\0\0\0\0\0\0\x02\x04\0\0\0\x05\0\0\0\0\0\0\x02\x05\0\0\0\x05\0\x01\
\x02g1\0\0\0\0\0\0\0\x02\0\0\0\0\0\0\0\x02\0\0\0\0\0\0\x02\x07\0\0\0\x11";

fn plan(
    alloc: Global,
    writer: &mut Writer<Worlds<AnyLine>>,
    kit: &KitPages,
    transcript: &Transcript,
) -> Result<Plan, Fault> {
    let low = writer.place().number < 1 << 63 && writer.taken().root.number < (1 << 63) - 1;
    if writer.ticks_left() > 0 || !low {
        return Err(Fault::OutOfMemory);
    }
    let Planned { plan, standing: _ } = plan_checkpoint(alloc, writer, kit, &[], transcript)?;
    Ok(plan)
}

// The plan of a first checkpoint.
fn first_plan(alloc: Global) -> Result<Plan, Fail> {
    let mut disk = new_file(alloc)?;
    let opened = open(alloc, &mut disk)?;
    let transcript = transcript_of(alloc, &one_table(false)?)?;
    let (mut writer, kit) = parts(opened);
    Ok(plan(alloc, &mut writer, &kit, &transcript)?)
}

// The root's number, directory, half, first record, page count and version.
fn root_of(plan: &Plan) -> (u64, u64, HalfIndex, u64, u64, u16) {
    let root = plan.root;
    (
        root.number,
        root.directory,
        root.half,
        root.first,
        root.pages,
        root.version,
    )
}

// Whether this page begins with these bytes.
fn begins(fresh: Option<&FreshPage>, page: u32, bytes: &[u8]) -> bool {
    match fresh {
        None => false,
        Some(fresh) => fresh.page == page && fresh.bytes.starts_with(bytes),
    }
}

// Whether there are these two pages alone.
fn has_two_pages(plan: &Plan) -> bool {
    plan.fresh.len() == 2
        && begins(plan.fresh.get(0), 519, CHAIN)
        && begins(plan.fresh.get(1), 520, DIRECTORY)
}

// The first record behind the coming root is the next one, number 1, in the other half.
#[test]
fn a_plan_lays_the_table_and_then_the_directory(rt: HostRuntime) -> Result<(), Fail> {
    let plan = first_plan(rt.alloc())?;
    assert!(rt; root_of(&plan) == (2, 520, HalfIndex::Second, 1, 521, 2));
    assert!(rt; has_two_pages(&plan));
    Ok(())
}

// One table that keeps this command.
fn keeping(alloc: Global, name: &Name, words: &[u8]) -> Result<Transcript, Fault> {
    if words.len() > LONGEST_COMMAND {
        return Err(Fault::OutOfMemory);
    }
    let mut commands = KeptWords::new(alloc);
    commands.reserve(words.len())?;
    commands.push(words);
    let table = TableTranscript::of(alloc, name, 2, 0, &commands)?;
    let mut transcript = Transcript::new(alloc);
    transcript.push(table)?;
    Ok(transcript)
}

// One table that keeps one command of so many bytes, of which its chain has two more.
fn of_length(alloc: Global, count: u16) -> Result<Transcript, Fail> {
    let name = Name::table(b"g1").ok_or("no name")?;
    let words = vec![in alloc; b'a'; usize::from(count)]?;
    Ok(keeping(alloc, &name, &words)?)
}

// How many pages such a checkpoint takes where so many are free, or why it is none.
fn taken(alloc: Global, count: u16, free: u8) -> Result<Result<usize, Fault>, Fail> {
    let mut disk = new_file(alloc)?;
    let transcript = of_length(alloc, count)?;
    let (writer, kit) = parts(open(alloc, &mut disk)?);
    let mut writer = with_free_pages(alloc, &writer, free)?;
    Ok(plan(alloc, &mut writer, &kit, &transcript).map(|plan| plan.fresh.len()))
}

// A page has 4,086 bytes of a chain. The directory takes one page more.
#[test]
fn a_full_page_takes_no_other(rt: HostRuntime) -> Result<(), Fail> {
    let full = Err(Fault::FileFull);
    let rows = [
        (4084, 2, Ok(2)),
        (4084, 1, full),
        (4085, 3, Ok(3)),
        (4085, 2, full),
        (8170, 3, Ok(3)),
        (8171, 3, full),
    ];
    for (count, free, pages) in rows {
        assert!(rt; taken(rt.alloc(), count, free)? == pages, "{count} {free}");
    }
    Ok(())
}
