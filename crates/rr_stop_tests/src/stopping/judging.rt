//! What is wrong is seen: files that lack an acknowledged command, or have another one, and turns that haven't ended.
use crate::files::{content, disk_with, disk_with_byte, open_store};
use crate::stopping::images::{Stop, disk_at, go_back, stop_behind, try_opened};
use crate::stopping::lines::world_of;
use crate::stopping::runs::Plan;
use crate::stopping::{Told, Wrong};
use rr_disk::MemoryDisk;
use rr_store::Fault;
use std::process::Abort;

// The calls and the number of the first commits.
const CALLS: usize = 240;

const COUNT: usize = 60;

// The gate of the last of their records, in slot 59 of the half that begins on page 2; and in the one before it the
// last digit of the bid `s1 bid b M&H 230`, behind the gate, twelve bytes of numbers, and fifteen of the text.
const LAST_GATE: u64 = 61 * 4096;

const LAST_DIGIT: u64 = 60 * 4096 + 28;

// What is told of this file, where so many commands are to be in it.
fn tried(rt: &(impl Abort + AllocGlobal), plan: &Plan, disk: MemoryDisk, count: usize) -> Told {
    let stop = Stop {
        calls: CALLS,
        done: 0,
        count,
        pending: false,
        within: false,
    };
    let mut store = open_store(rt, disk, CALLS);
    try_opened(rt, plan, &mut store, &stop)
}

fn back_to_a_later_turn(rt: &(impl Abort + AllocGlobal), plan: &Plan, disk: MemoryDisk) -> Told {
    let mut store = open_store(rt, disk, CALLS);
    let mut side = world_of(&plan.lines, COUNT).sides[1];
    let later = side.turns().saturating_add(1);
    go_back(rt, plan, &mut store, 1, &mut side, later)
}

/// What is seen to be wrong.
#[derive(Clone, Copy, PartialEq)]
pub(crate) enum Seen {
    Nothing,
    Last,
    Words,
    /// The turn to which a table was to be taken back.
    Turn,
    Other,
}

fn told_as(told: Told) -> Seen {
    match told {
        Ok(()) => Seen::Nothing,
        Err(Wrong::Last) => Seen::Last,
        Err(Wrong::Words) => Seen::Words,
        Err(Wrong::Commit(Err(Fault::TurnNotKept))) => Seen::Turn,
        Err(_) => Seen::Other,
    }
}

// What is seen of this right file; of a command too few in it, and of one too many; of a last record that is shut, of
// another bid, and of a turn that hasn't ended.
fn judged_file(rt: &(impl Abort + AllocGlobal), plan: &Plan, file: &[u8]) -> [Seen; 6] {
    let shut = disk_with_byte(rt, file, LAST_GATE, 0);
    let other = disk_with_byte(rt, file, LAST_DIGIT, b'1');
    [
        told_as(tried(rt, plan, disk_with(rt, file), COUNT)),
        told_as(tried(rt, plan, disk_with(rt, file), COUNT + 1)),
        told_as(tried(rt, plan, disk_with(rt, file), COUNT - 1)),
        told_as(tried(rt, plan, shut, COUNT)),
        told_as(tried(rt, plan, other, COUNT)),
        told_as(back_to_a_later_turn(rt, plan, disk_with(rt, file))),
    ]
}

/// The same of the file behind so many calls.
pub(crate) fn judged(rt: &(impl Abort + AllocGlobal), plan: &Plan) -> [Seen; 6] {
    let disk = disk_at(rt, plan, &stop_behind(&plan.schedule.events, CALLS));
    judged_file(rt, plan, content(&disk))
}
