//! Stops and failures at each device call of a run of 525 commands on three tables, through four checkpoints, the last
//! of which drops a snapshot: whatever the disk keeps, an opening gives the acknowledged commands, and perhaps the one
//! under way. The same holds in the first checkpoint of a file of version 1, which writes version 2.
mod images;
mod judging;
mod lines;
mod openings;
mod runs;
mod schedule;
mod worlds;

use crate::files::{content, disk_of, disk_with, open_store};
use crate::stopping::images::{check_failures, check_stop, stop_behind};
use crate::stopping::judging::{Seen, judged};
use crate::stopping::lines::{Line, all_lines, world_of};
use crate::stopping::openings::{check_openings, check_whole};
use crate::stopping::runs::{Plan, run, whole_plan};
use rr_store::Fault;
use std::process::Abort;

/// What isn't as it is to be.
#[derive(Clone, Copy, Debug, Drop)]
pub(crate) enum Wrong {
    /// How a commit ended, or a tick.
    Commit(Result<u64, Fault>),
    Tick(Fault),
    /// There is another command to be made.
    Commands,
    /// What a store holds: the number of its last command, its tables, their numbers, commands and games.
    Last,
    Tables,
    Numbers,
    Words,
    Game,
    /// The device calls of an event, and the last one that was made.
    Calls,
    LastCall,
    /// The answer to the call of the store whose device call failed, those behind it, and device calls behind it.
    Answer,
    AnswerBehind,
    CallsBehind,
    /// An opening whose device call of this number failed, or that made so many.
    Opening(u64),
}

/// That nothing is wrong, or what is.
pub(crate) type Told = Result<(), Wrong>;

/// Stops where something is wrong, where the run was stopped behind so many calls.
pub(crate) fn check(rt: &impl Abort, calls: usize, told: Told) {
    if let Err(wrong) = told {
        panic!(rt; "{wrong:?} behind {calls} calls");
    }
}

/// What is told of something that is to hold.
pub(crate) fn unless(holds: bool, wrong: Wrong) -> Told {
    if holds { Ok(()) } else { Err(wrong) }
}

/// The first of these that is wrong. All are asked before one is looked at, so that functions have one place of return;
/// what comes behind a wrong one says nothing.
pub(crate) fn first_wrong(all: &[Told]) -> Told {
    for told in all {
        if told.is_err() {
            return *told;
        }
    }
    Ok(())
}

// The number of the version that is written.
const NEWEST: u16 = 2;

// So many tests share the calls out. (Most commits make four, so that each test has all kinds.)
const PARTS: usize = 11;

// The stops behind each call of a part, and the failure of the next one.
fn check_calls(rt: &(impl Abort + AllocGlobal), plan: &Plan, part: usize) {
    for calls in 0..plan.schedule.calls.len() {
        if calls % PARTS == part {
            let stop = stop_behind(&plan.schedule.events, calls);
            check_stop(rt, plan, &stop);
            check_failures(rt, plan, &stop);
        }
    }
}

// The calls of the six commands before which a step of the first checkpoint is made, of the last one before them, and of
// the first one after them. The 128 commands before make four calls each, and a step two.
const FIRST_CHECKPOINT: [usize; 2] = [508, 552];

// Stops and failures while a file of version 1 becomes one of version 2.
fn check_first_checkpoint(rt: &(impl Abort + AllocGlobal)) {
    let plan = whole_plan(rt, 1);
    for calls in FIRST_CHECKPOINT[0]..FIRST_CHECKPOINT[1] {
        let stop = stop_behind(&plan.schedule.events, calls);
        check_stop(rt, &plan, &stop);
        check_failures(rt, &plan, &stop);
    }
}

#[test]
fn stops_and_failures_while_a_file_changes_its_version(rt: HostRuntime) {
    check_first_checkpoint(&rt);
}

// The versions of both roots after the whole run on a file of a version: the last byte of each.
fn versions_behind(rt: &(impl Abort + AllocGlobal), version: u16) -> [Option<u8>; 2] {
    let plan = whole_plan(rt, version);
    let mut store = open_store(rt, disk_with(rt, &plan.file), 0);
    let (_, told) = run(&mut store, &plan);
    check(rt, 0, told);
    let disk = disk_of(store);
    let file = content(&disk);
    [file.get(35).copied(), file.get(4096 + 35).copied()]
}

#[test]
fn checkpoints_write_version_2(rt: HostRuntime) {
    let versions = [versions_behind(&rt, 1), versions_behind(&rt, 2)];
    assert!(rt; versions == [[Some(2); 2]; 2]);
}

fn check_part(rt: &(impl Abort + AllocGlobal), part: usize) {
    check_calls(rt, &whole_plan(rt, NEWEST), part);
}

fn judged_files(rt: &(impl Abort + AllocGlobal)) -> [Seen; 6] {
    judged(rt, &whole_plan(rt, NEWEST))
}

#[test]
fn wrong_files_are_seen(rt: HostRuntime) {
    let seen = judged_files(&rt);
    assert!(rt;
        seen == [
            Seen::Nothing,
            Seen::Last,
            Seen::Last,
            Seen::Last,
            Seen::Words,
            Seen::Turn
        ]
    );
}

fn whole_run(rt: &(impl Abort + AllocGlobal)) -> (usize, usize) {
    let plan = whole_plan(rt, NEWEST);
    check_whole(rt, &plan);
    (plan.schedule.begun, plan.schedule.calls.len())
}

// Four checkpoints were begun. 525 commits make four calls each, the first checkpoint 12, the next two, which lay one
// snapshot each, 15, and the last one 14.
#[test]
fn the_run_makes_the_calls_of_its_schedule(rt: HostRuntime) {
    assert!(rt; whole_run(&rt) == (4, 2156));
}

// How many commands the second table keeps at its floor behind so many of all.
fn kept_at_floor(lines: &[Line], count: usize) -> usize {
    let side = world_of(lines, count).sides[1];
    side.kept_at(side.floor)
}

fn floors(rt: &(impl Abort + AllocGlobal)) -> (usize, usize) {
    let lines = all_lines(rt);
    (
        kept_at_floor(&lines, 3 * 128),
        kept_at_floor(&lines, 4 * 128),
    )
}

// As the third checkpoint begins the snapshot behind 64 commands is still wanted, for turns before the one that ended
// behind 128; as the fourth does it isn't, and that checkpoint leaves its pages.
#[test]
fn the_last_checkpoint_drops_a_snapshot(rt: HostRuntime) {
    assert!(rt; floors(&rt) == (126, 186));
}

fn check_each_opening(rt: &(impl Abort + AllocGlobal)) {
    check_openings(rt, &whole_plan(rt, NEWEST));
}

#[test]
fn openings_that_fail_change_nothing(rt: HostRuntime) {
    check_each_opening(&rt);
}

#[test]
fn stops_and_failures_at_calls_from_0(rt: HostRuntime) {
    check_part(&rt, 0);
}

#[test]
fn stops_and_failures_at_calls_from_1(rt: HostRuntime) {
    check_part(&rt, 1);
}

#[test]
fn stops_and_failures_at_calls_from_2(rt: HostRuntime) {
    check_part(&rt, 2);
}

#[test]
fn stops_and_failures_at_calls_from_3(rt: HostRuntime) {
    check_part(&rt, 3);
}

#[test]
fn stops_and_failures_at_calls_from_4(rt: HostRuntime) {
    check_part(&rt, 4);
}

#[test]
fn stops_and_failures_at_calls_from_5(rt: HostRuntime) {
    check_part(&rt, 5);
}

#[test]
fn stops_and_failures_at_calls_from_6(rt: HostRuntime) {
    check_part(&rt, 6);
}

#[test]
fn stops_and_failures_at_calls_from_7(rt: HostRuntime) {
    check_part(&rt, 7);
}

#[test]
fn stops_and_failures_at_calls_from_8(rt: HostRuntime) {
    check_part(&rt, 8);
}

#[test]
fn stops_and_failures_at_calls_from_9(rt: HostRuntime) {
    check_part(&rt, 9);
}

#[test]
fn stops_and_failures_at_calls_from_10(rt: HostRuntime) {
    check_part(&rt, 10);
}
