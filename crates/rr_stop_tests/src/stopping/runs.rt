//! The run on a disk, up to its end or to the call that fails, and what a store holds.
use crate::files::{
    Standing, commit, disk_with, last_number, new_file, open_store, standing_of, table, tick,
};
use crate::stopping::lines::{Line, all_lines, name_at};
use crate::stopping::schedule::{Event, Schedule, whole_schedule};
use crate::stopping::worlds::{Side, World};
use crate::stopping::{Told, Wrong, check, first_wrong, unless};
use rr_disk::{Disk, MemoryDisk};
use rr_store::{Fault, Store, Table};
use rr_words::Name;
use rr_words::spelling::Spell;
use std::alloc::AllocError;
use std::process::Abort;

/// What the tests go by.
#[derive(Drop)]
pub(crate) struct Plan {
    /// The bytes of a new file.
    pub(crate) file: Vec<u8>,
    pub(crate) lines: Vec<Line>,
    pub(crate) schedule: Schedule,
    /// Behind each command the game of its table, in bytes, in a run without stops.
    pub(crate) states: Vec<Vec<u8>>,
}

/// The plan of the run on a new file of a version.
pub(crate) fn whole_plan(rt: &(impl Abort + AllocGlobal), version: u16) -> Plan {
    let file = new_file(rt, version);
    let lines = all_lines(rt);
    let states = all_states(rt, &file, &lines);
    Plan {
        file,
        lines,
        schedule: whole_schedule(rt),
        states,
    }
}

// The game of a table behind its command, which is accepted.
fn state_behind(
    rt: &(impl Abort + AllocGlobal),
    store: &mut Store<MemoryDisk>,
    line: &Line,
) -> Vec<u8> {
    check(rt, 0, commit_line(store, line));
    state_in(rt, store, line.table)
}

fn all_states(rt: &(impl Abort + AllocGlobal), file: &[u8], lines: &[Line]) -> Vec<Vec<u8>> {
    let mut store = open_store(rt, disk_with(rt, file), 0);
    let mut states = Vec::new(rt.alloc());
    for line in lines {
        let state = state_behind(rt, &mut store, line);
        states.push(state).expect(rt, "memory");
    }
    states
}

/// That a commit gives this stamp.
pub(crate) fn gives(end: Result<u64, Fault>, stamp: u64) -> Told {
    unless(end == Ok(stamp), Wrong::Commit(end))
}

// Commits a command, whose reply is to be the next stamp.
fn commit_line<D: Disk + Drop>(store: &mut Store<D>, line: &Line) -> Told {
    let end = commit(store, line.stamp, line.record.as_bytes());
    gives(end, line.stamp.saturating_add(1))
}

fn tick_once<D: Disk + Drop>(store: &mut Store<D>) -> Told {
    match tick(store) {
        Ok(_) => Ok(()),
        Err(fault) => Err(Wrong::Tick(fault)),
    }
}

/// Commits the command at a place.
pub(crate) fn commit_at<D: Disk + Drop>(
    store: &mut Store<D>,
    lines: &[Line],
    place: usize,
) -> Told {
    match lines.get(place) {
        Some(line) => commit_line(store, line),
        None => Err(Wrong::Commands),
    }
}

fn act<D: Disk + Drop>(store: &mut Store<D>, plan: &Plan, event: &Event) -> Told {
    match event.place {
        Some(place) => commit_at(store, &plan.lines, place),
        None => tick_once(store),
    }
}

/// Goes through the events of the run up to the first that ends otherwise than it is to, and gives how many were done,
/// and that end.
pub(crate) fn run<D: Disk + Drop>(store: &mut Store<D>, plan: &Plan) -> (usize, Told) {
    let mut done = 0usize;
    for event in &plan.schedule.events {
        let told = act(store, plan, event);
        if told.is_err() {
            return (done, told);
        }
        done = done.saturating_add(1);
    }
    (done, Ok(()))
}

fn name_of(rt: &impl Abort, index: usize) -> Name {
    Name::table(name_at(index).as_bytes()).expect(rt, "a name")
}

fn write_state(table: &Table, bytes: &mut Vec<u8>) -> Result<(), AllocError> {
    table.game().parts().write(bytes)
}

// A game's values, in bytes.
fn state_of(rt: &(impl Abort + AllocGlobal), table: &Table) -> Vec<u8> {
    let mut bytes = Vec::new(rt.alloc());
    write_state(table, &mut bytes).expect(rt, "memory");
    bytes
}

fn state_in(rt: &(impl Abort + AllocGlobal), store: &Store<MemoryDisk>, index: usize) -> Vec<u8> {
    let table = table(store, &name_of(rt, index));
    state_of(rt, table.expect(rt, "a table"))
}

// The words of a command, behind its table's name.
fn words_of(line: Option<&Line>) -> &[u8] {
    match line {
        Some(line) => line.record.as_bytes().get(3..).unwrap_or(b""),
        None => b"",
    }
}

// Whether the commands of the table are those of these places, one by one.
fn keeps_words(table: &Table, lines: &[Line], side: &Side) -> bool {
    let words = table.commands().words();
    for index in 0..side.kept.len() {
        let place = side.kept.get(index).unwrap_or(usize::MAX);
        if words.get(index) != Some(words_of(lines.get(place))) {
            return false;
        }
    }
    true
}

fn is_state(rt: &(impl Abort + AllocGlobal), table: &Table, state: Option<&Vec<u8>>) -> bool {
    let bytes = state_of(rt, table);
    match state {
        Some(state) => bytes.as_slice() == state.as_slice(),
        None => false,
    }
}

fn standing_in(side: &Side) -> Standing {
    (side.stamp, side.floor, side.turns(), side.kept.len())
}

// That a table is this one, whose last command is the one at this place: its numbers, the words of its commands, and its
// game.
fn judge_table(
    rt: &(impl Abort + AllocGlobal),
    plan: &Plan,
    table: &Table,
    side: &Side,
    last: usize,
) -> Told {
    let is_standing = standing_of(table) == standing_in(side);
    let keeps = keeps_words(table, &plan.lines, side);
    let is_game = is_state(rt, table, plan.states.get(last));
    first_wrong(&[
        unless(is_standing, Wrong::Numbers),
        unless(keeps, Wrong::Words),
        unless(is_game, Wrong::Game),
    ])
}

/// That a table of the store is this one, or none where it isn't open yet.
pub(crate) fn holds_table(
    rt: &(impl Abort + AllocGlobal),
    plan: &Plan,
    store: &Store<MemoryDisk>,
    index: usize,
    side: &Side,
) -> Told {
    match (table(store, &name_of(rt, index)), side.last()) {
        (Ok(table), Some(last)) => judge_table(rt, plan, table, side, last),
        (Err(Fault::NoSuchTable), None) => Ok(()),
        _ => Err(Wrong::Tables),
    }
}

/// That a store holds a world, and nothing else.
pub(crate) fn holds(
    rt: &(impl Abort + AllocGlobal),
    plan: &Plan,
    store: &Store<MemoryDisk>,
    world: &World,
) -> Told {
    let is_last = last_number(store) == Ok(world.count as u64);
    first_wrong(&[
        unless(is_last, Wrong::Last),
        holds_table(rt, plan, store, 0, &world.sides[0]),
        holds_table(rt, plan, store, 1, &world.sides[1]),
        holds_table(rt, plan, store, 2, &world.sides[2]),
    ])
}
