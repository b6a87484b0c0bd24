//! The tables in memory, and their recovery from a file.
use crate::checkpoints::begun_file;
use crate::files::{BOARD, CHART, ROSTER, new_file, played_file, with_bytes};
use rr_code::read_record;
use rr_disk::MemoryDisk;
use rr_kit::Kit;
use rr_log::opening::{Opened, open_file};
use rr_pages::Damage;
use rr_reading::worlds::Worlds;
use rr_store::recovery::{self, Recovered, recover};
use rr_tables::records::{self, TableRules};
use rr_tables::{Fault, Standing, Tables};
use rr_words::Name;
use std::alloc::Global;
use std::process::Abort;

// The functions below have no contracts, so that what a test does costs its proof little.

fn kit(rt: &(impl Abort + AllocGlobal)) -> Kit {
    Kit::read(rt.alloc(), CHART, ROSTER, b"", BOARD).expect(rt, "a kit")
}

fn no_tables(rt: &(impl Abort + AllocGlobal)) -> Tables {
    Tables::new(rt.alloc(), kit(rt)).expect(rt, "memory")
}

fn name(rt: &impl Abort, word: &[u8]) -> Name {
    Name::table(word).expect(rt, "a name")
}

// Takes the request of this record: the new stamp, and how many commands were played.
fn take(
    alloc: Global,
    tables: &mut Tables,
    stamp: u64,
    record: &[u8],
) -> Result<(u64, usize), Fault> {
    let Ok((name, request)) = read_record(record) else {
        return Err(Fault::Rules(records::Fault::OutOfMemory));
    };
    let taken = tables.take(alloc, stamp, &name, &request, &mut Standing)?;
    Ok((taken.stamp, taken.plays))
}

// How many turns have ended at a table, if there is one.
fn turns(tables: &Tables, name: &Name) -> Option<u64> {
    match tables.table(name) {
        Ok(table) => Some(table.turns()),
        Err(_) => None,
    }
}

// Whether there are two tables, of which this one is the last.
fn is_last_of_two(tables: &Tables, name: &Name) -> bool {
    tables.name(1) == Some(name) && tables.name(2).is_none()
}

// How many tables there are, the stamps of two tables, the second's turns, and whether it is the last.
type State = (usize, u64, u64, Option<u64>, bool);

fn state(tables: &Tables, first: &Name, second: &Name) -> State {
    (
        tables.count(),
        tables.stamp(first),
        tables.stamp(second),
        turns(tables, second),
        is_last_of_two(tables, second),
    )
}

// A stamp, a record, and how its request ends.
type Row = (u64, &'static [u8], Result<(u64, usize), Fault>);

static ROWS: [Row; 6] = [
    (0, b"t1 open a b", Ok((1, 0))),
    (1, b"t1 buy a", Ok((2, 1))),
    (0, b"t2 open c d e", Ok((1, 0))),
    (
        1,
        b"t1 pass b",
        Err(Fault::Rules(records::Fault::StaleStamp(2))),
    ),
    (
        0,
        b"t3 pass b",
        Err(Fault::Rules(records::Fault::NoSuchTable)),
    ),
    (
        2,
        b"t1 forget 2",
        Err(Fault::Rules(records::Fault::TurnNotKept)),
    ),
];

// The place of the first row that ends otherwise.
fn first_other(alloc: Global, tables: &mut Tables) -> Option<usize> {
    for (index, (stamp, record, end)) in ROWS.iter().enumerate() {
        if take(alloc, tables, *stamp, record) != *end {
            return Some(index);
        }
    }
    None
}

#[test]
fn tables_take_requests(rt: HostRuntime) {
    let rt = &rt;
    let first = name(rt, b"t1");
    let second = name(rt, b"t2");
    let mut tables = no_tables(rt);
    let none = state(&tables, &first, &second);
    let other = first_other(rt.alloc(), &mut tables);
    let told = (none, other, state(&tables, &first, &second));
    assert!(rt; told == ((0, 0, 0, None, false), None, (2, 2, 1, Some(0), true)));
}

pub(crate) fn read(
    rt: &(impl Abort + AllocGlobal),
    disk: &mut MemoryDisk,
) -> Opened<Worlds<TableRules>> {
    let opened = open_file::<MemoryDisk, Worlds<TableRules>>(rt.alloc(), disk);
    opened.expect(rt, "a file of a store")
}

fn recover_tables(
    alloc: Global,
    disk: &mut MemoryDisk,
    opened: &mut Opened<Worlds<TableRules>>,
) -> Result<Recovered, recovery::Fault> {
    recover::<MemoryDisk, TableRules>(alloc, disk, opened)
}

fn told_of(found: &Recovered) -> (usize, u64, bool) {
    let stamp = match found.tables.name(0) {
        Some(name) => found.tables.stamp(name),
        None => 0,
    };
    (found.tables.count(), stamp, found.base.is_some())
}

// How many tables are recovered, the first one's stamp, and whether a checkpoint is to be made anew of other tables.
type Found = Result<(usize, u64, bool), recovery::Fault>;

fn recovered(rt: &(impl Abort + AllocGlobal), mut disk: MemoryDisk) -> Found {
    let mut opened = read(rt, &mut disk);
    match recover_tables(rt.alloc(), &mut disk, &mut opened) {
        Ok(found) => Ok(told_of(&found)),
        Err(fault) => Err(fault),
    }
}

// A new file whose roster has a wrong key.
fn file_of_a_wrong_kit(rt: &(impl Abort + AllocGlobal)) -> MemoryDisk {
    with_bytes(rt, &new_file(rt), &[(4096 * 515 + 10, b"q")])
}

// A new file, that one, one with a record in either half, and one with two in the first.
#[test]
fn tables_are_recovered(rt: HostRuntime) {
    let rt = &rt;
    let found = [
        recovered(rt, new_file(rt)),
        recovered(rt, file_of_a_wrong_kit(rt)),
        recovered(rt, begun_file(rt)),
        recovered(rt, played_file(rt, &[])),
    ];
    let wanted = [
        Ok((0, 0, false)),
        Err(recovery::Fault::Damaged(Damage::Kit)),
        Ok((1, 3, true)),
        Ok((1, 2, false)),
    ];
    assert!(rt; found == wanted);
}
