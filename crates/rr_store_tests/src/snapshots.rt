//! Stores that are opened from snapshots of their tables' games.
use crate::calls::{Call, Standing};
use crate::files::{Bytes, check_file, content, file_behind, opened, played_file, with_bytes};
use crate::tables::read;
use rr_disk::MemoryDisk;
use rr_log::opening::Opened;
use rr_pages::Damage;
use rr_reading::worlds::Worlds;
use rr_store::Fault;
use rr_tables::records::TableRules;
use std::alloc::Global;
use std::process::Abort;

// Calls on a store of two commands. They leave a root with a table of 70 commands, and a snapshot of the first 64.
const UP_TO_70: &[Call] = &[Call::Passes(2, 70), Call::Checkpoint];

// A table of 130 commands. The 129th begins a checkpoint, which is ended behind the 130th: a root with the first 128,
// and two records.
const UP_TO_130: &[Call] = &[Call::Passes(2, 130), Call::Checkpoint];

// Behind the 194th another one is made.
const UP_TO_194: &[Call] = &[
    Call::Passes(2, 130),
    Call::Checkpoint,
    Call::Passes(130, 194),
    Call::Checkpoint,
];

// Two tables, of 70 commands with a snapshot of the first 64, and of two; and a record that takes the first one back to
// 67.
const TWO_TABLES: &[Call] = &[
    Call::Passes(2, 70),
    Call::Commit(0, b"t2 open a b", Ok(1)),
    Call::Commit(1, b"t2 buy a", Ok(2)),
    Call::Checkpoint,
    Call::Commit(70, b"t1 back 66", Ok(71)),
];

// Behind the first checkpoint page 519 has the table's commands, and page 520 its snapshot: ten bytes before each.
const COMMANDS: u64 = 2_125_834;

const SNAPSHOT: u64 = 2_129_930;

// The last letters of the third and of the 66th command. From the third on each takes eight bytes.
const THIRD: u64 = COMMANDS + 24;

const BEHIND: u64 = COMMANDS + 528;

// How the table stands that is opened, and how a pass and a take-back end then.
const STANDS: Call = Call::Stands(b"t1", Ok((70, 0, 69, 70)));

const PASS: Call = Call::Commit(70, b"t1 pass b", Ok(71));

const TAKE_BACK: Call = Call::Commit(71, b"t1 back 3", Ok(72));

#[test]
fn a_store_goes_on_from_a_snapshot(rt: HostRuntime) {
    let rt = &rt;
    check_file(rt, played_file(rt, UP_TO_70), &[STANDS, PASS, TAKE_BACK]);
}

// The file of 70 commands with another byte.
fn file_with_byte(rt: &(impl Abort + AllocGlobal), at: u64, byte: &[u8]) -> MemoryDisk {
    with_bytes(rt, &played_file(rt, UP_TO_70), &[(at, byte)])
}

// The third command becomes one that wasn't lawful, and isn't judged.
#[test]
fn commands_before_a_snapshot_are_trusted(rt: HostRuntime) {
    let rt = &rt;
    check_file(rt, file_with_byte(rt, THIRD, b"a"), &[STANDS, PASS]);
}

// Why no store opens the file.
fn refusal(alloc: Global, file: MemoryDisk) -> Option<Fault> {
    opened(alloc, file).err()
}

#[test]
fn commands_behind_a_snapshot_are_judged(rt: HostRuntime) {
    let rt = &rt;
    let told = refusal(rt.alloc(), file_with_byte(rt, BEHIND, b"b"));
    assert!(rt; told == Some(Fault::Damaged(Damage::Kept)));
}

// Nine players are at no table; and the letter of a player's name may be no digit.
#[test]
fn bytes_of_no_game_are_damage(rt: HostRuntime) {
    let rt = &rt;
    let players = refusal(rt.alloc(), file_with_byte(rt, SNAPSHOT, b"\x09"));
    let name = refusal(rt.alloc(), file_with_byte(rt, SNAPSHOT + 2, b"1"));
    assert!(rt; [players, name] == [Some(Fault::Damaged(Damage::Form)); 2]);
}

// What a root names: the page of its directory, that of the table's commands, and of each snapshot how many of these it
// plays, and its page.
type Named = (u64, Option<u64>, [Option<(u32, u64)>; 4]);

fn snapshot_at(opened: &Opened<Worlds<TableRules>>, place: usize) -> Option<(u32, u64)> {
    let snapshot = opened.snapshots.get(place)?;
    let page = snapshot.pages.first()?;
    Some((snapshot.kept, u64::from(*page)))
}

fn commands_page(opened: &Opened<Worlds<TableRules>>) -> Option<u64> {
    match opened.dir.tables.first() {
        None => None,
        Some(table) => Some(table.chain.head),
    }
}

fn named_by(opened: &Opened<Worlds<TableRules>>) -> Named {
    let snapshots = [
        snapshot_at(opened, 0),
        snapshot_at(opened, 1),
        snapshot_at(opened, 2),
        snapshot_at(opened, 3),
    ];
    let directory = opened.writer.taken().root.directory;
    (directory, commands_page(opened), snapshots)
}

fn check_root(rt: &(impl Abort + AllocGlobal), file: &mut MemoryDisk, named: Named) {
    let opened = read(rt, file);
    assert!(rt; named_by(&opened) == named);
}

// The first checkpoint lays the table on page 519, two snapshots on 520 and 521, and the directory on 522. These
// snapshots stay there. The second one lays the table on page 518, where the first directory stood, and a third
// snapshot and the directory behind all others.
#[test]
fn snapshots_that_stand_stay_where_they_stand(rt: HostRuntime) {
    let rt = &rt;
    let mut grown = played_file(rt, UP_TO_194);
    let snapshots = [Some((64, 520)), Some((128, 521)), Some((192, 523)), None];
    check_root(rt, &mut grown, (524, Some(518), snapshots));
    check_file(rt, grown, &[Call::Stands(b"t1", Ok((194, 0, 193, 194)))]);
}

// The root that a checkpoint behind this line leaves names these.
fn check_checkpoint(
    rt: &(impl Abort + AllocGlobal),
    file: MemoryDisk,
    line: Call,
    named: Named,
) -> MemoryDisk {
    let mut file = file_behind(rt, file, &[line, Call::Checkpoint]);
    check_root(rt, &mut file, named);
    file
}

// A checkpoint of the table taken back to 70 commands lays the table and the directory on pages 519 and 522, where
// those before the last stood. Then, for another one, pages 518, of the last table, and 521, of a snapshot that was
// taken back, are the first free ones.
#[test]
fn pages_of_snapshots_that_were_taken_back_are_free(rt: HostRuntime) {
    let rt = &rt;
    let kept = [Some((64, 520)), None, None, None];
    let grown = played_file(rt, UP_TO_194);
    let back = Call::Commit(194, b"t1 back 69", Ok(195));
    let file = check_checkpoint(rt, grown, back, (522, Some(519), kept));
    let forget = Call::Commit(195, b"t1 forget 1", Ok(196));
    check_checkpoint(rt, file, forget, (521, Some(518), kept));
}

// A checkpoint of the table that forgets all before its 128th command lays the table on page 518, where the first
// directory stood, and the directory behind all others. Then, for another one, pages 519, of the last table, and 520,
// of the snapshot below the floor, are the first free ones.
#[test]
fn pages_of_snapshots_below_the_floor_are_free(rt: HostRuntime) {
    let rt = &rt;
    let kept = [Some((128, 521)), None, None, None];
    let long = played_file(rt, UP_TO_130);
    let forget = Call::Commit(130, b"t1 forget 127", Ok(131));
    let file = check_checkpoint(rt, long, forget, (523, Some(518), kept));
    let pass = Call::Commit(131, b"t1 pass b", Ok(132));
    check_checkpoint(rt, file, pass, (520, Some(519), kept));
}

// Of the file of 130 commands, and of the one of two tables, page 522 has the directory: how many of its bytes are
// used, and from byte 10 on what stands before the tables, in 58 bytes, 31 for each table, the number of snapshots in
// two, and 18 for each of these.
const USED: u64 = 2_138_121;

const NUMBER: u64 = 2_138_212;

const FIRST: u64 = 2_138_213;

const SECOND: usize = 2_138_231;

// What is done to a file before its opening is tried.
#[derive(Clone, Copy)]
enum Change {
    Nothing,
    // It is opened for these calls.
    Calls(&'static [Call]),
    // It gets other bytes.
    Writes(&'static [Bytes<'static>]),
    // Its root names the second of two snapshots alone.
    SecondSnapshotAlone,
}

fn rewritten(rt: &(impl Abort + AllocGlobal), file: MemoryDisk, other: &[Bytes]) -> MemoryDisk {
    with_bytes(rt, &file, other)
}

fn with_second_snapshot_alone(rt: &(impl Abort + AllocGlobal), file: MemoryDisk) -> MemoryDisk {
    let second = content(&file).get(SECOND..SECOND + 18);
    let second = second.expect(rt, "a directory of two snapshots");
    with_bytes(
        rt,
        &file,
        &[(USED, b"\x6d"), (NUMBER, b"\x01"), (FIRST, second)],
    )
}

fn changed(rt: &(impl Abort + AllocGlobal), file: MemoryDisk, change: Change) -> MemoryDisk {
    match change {
        Change::Nothing => file,
        Change::Calls(calls) => file_behind(rt, file, calls),
        Change::Writes(other) => rewritten(rt, file, other),
        Change::SecondSnapshotAlone => with_second_snapshot_alone(rt, file),
    }
}

// Calls that leave a file, what is done to it, how many commands its opening plays then, and how the table t1 stands.
type Opening = (&'static [Call], Change, u64, Standing);

fn check_openings(rt: &(impl Abort + AllocGlobal), openings: &[Opening]) {
    for (calls, change, replayed, standing) in openings {
        let file = changed(rt, played_file(rt, calls), *change);
        let told = [
            Call::Replayed(*replayed),
            Call::Stands(b"t1", Ok(*standing)),
        ];
        check_file(rt, file, &told);
    }
}

// How the table of 130 commands stands, and one that is taken back from 70 to 67.
const WHOLE: Standing = (130, 0, 129, 130);

const BACK: Standing = (71, 0, 66, 67);

// What stands behind the last snapshot is played, and a record's take-back from the nearest one: of the file of 130
// commands; of one whose root has all 130 commands; of one whose third command wasn't lawful; of one that a checkpoint
// made of the table taken back to 70 commands; and of one with a record that takes such a table back to 67.
static OPENINGS: [Opening; 5] = [
    (UP_TO_130, Change::Nothing, 2, WHOLE),
    (
        UP_TO_130,
        Change::Calls(&[Call::Commit(130, b"t1 forget 1", Ok(131)), Call::Checkpoint]),
        2,
        (131, 1, 129, 130),
    ),
    (UP_TO_130, Change::Writes(&[(THIRD, b"a")]), 2, WHOLE),
    (
        UP_TO_130,
        Change::Calls(&[Call::Commit(130, b"t1 back 69", Ok(131)), Call::Checkpoint]),
        6,
        (131, 0, 69, 70),
    ),
    (
        UP_TO_70,
        Change::Calls(&[Call::Commit(70, b"t1 back 66", Ok(71))]),
        9,
        BACK,
    ),
];

#[test]
fn few_commands_are_played_by_an_opening(rt: HostRuntime) {
    check_openings(&rt, &OPENINGS);
}

// Of the file of 130 commands, whose root names no snapshot, or one of both; and of two tables, whose root names the
// snapshot, or none. Two records are played behind 127 commands from the opening, behind 64 from the first snapshot,
// and behind none from the second and then 127, since the first is lacking then. Of two tables 6 and 1, or 69 and 1,
// and then 3 for the record.
static LACKING: [Opening; 5] = [
    (UP_TO_130, Change::Writes(&[(USED, b"\x59")]), 129, WHOLE),
    (
        UP_TO_130,
        Change::Writes(&[(USED, b"\x6d"), (NUMBER, b"\x01")]),
        66,
        WHOLE,
    ),
    (UP_TO_130, Change::SecondSnapshotAlone, 129, WHOLE),
    (TWO_TABLES, Change::Nothing, 10, BACK),
    (TWO_TABLES, Change::Writes(&[(USED, b"\x78")]), 73, BACK),
];

#[test]
fn tables_that_lack_snapshots_are_played_from_what_there_is(rt: HostRuntime) {
    check_openings(&rt, &LACKING);
}
