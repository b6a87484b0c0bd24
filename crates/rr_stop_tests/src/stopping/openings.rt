//! The whole run, and openings whose device calls fail.
use crate::files::{
    beneath, commit, content, counts, disk_of, disk_with, failing_after, failing_once, open_store,
    refusal, ticks_left,
};
use crate::stopping::images::{OPENING, Stop, check_opened, counts_of, disk_at, stop_behind};
use crate::stopping::runs::{Plan, run};
use crate::stopping::{Wrong, check, first_wrong, unless};
use rr_disk::{Disk, MemoryDisk};
use rr_store::{Fault, Store};
use std::process::Abort;

// Whether the run goes through.
fn is_whole<D: Disk + Drop>(plan: &Plan, store: &mut Store<D>) -> bool {
    let (done, told) = run(store, plan);
    done == plan.schedule.events.len() && told.is_ok()
}

// Whether the run goes through on a disk that goes on, and how many writes and syncs it makes.
fn whole_counts(rt: &(impl Abort + AllocGlobal), plan: &Plan) -> (bool, (u64, u64)) {
    let mut store = open_store(rt, disk_with(rt, &plan.file), 0);
    let goes_through = is_whole(plan, &mut store);
    (goes_through, counts(&disk_of(store)))
}

// Whether the run goes through, and a store that makes one call more is broken.
fn breaks_behind<D: Disk + Drop>(plan: &Plan, store: &mut Store<D>) -> bool {
    is_whole(plan, store)
        && ticks_left(store) == 0
        && commit(store, 0, b"t4 open a b") == Err(Fault::DeviceFailed)
}

// This disk behind the run, and whether it fails then.
fn broken_behind<D: Disk + Drop>(
    rt: &(impl Abort + AllocGlobal),
    plan: &Plan,
    disk: D,
) -> (bool, D) {
    let mut store = open_store(rt, disk, 0);
    let breaks = breaks_behind(plan, &mut store);
    (breaks, disk_of(store))
}

/// That the run makes just the calls of its schedule: on a disk that goes on, and on one that fails behind them.
pub(crate) fn check_whole(rt: &(impl Abort + AllocGlobal), plan: &Plan) {
    let calls = plan.schedule.calls.len();
    let wanted = counts_of(&plan.schedule.calls);
    let made = whole_counts(rt, plan);
    let through = OPENING.saturating_add(calls) as u64;
    let (breaks, disk) = broken_behind(rt, plan, failing_after(rt, &plan.file, through));
    let disk = beneath(disk);
    let told = first_wrong(&[
        unless(made == (true, wanted), Wrong::Calls),
        unless(breaks, Wrong::Answer),
        unless(counts(&disk) == wanted, Wrong::CallsBehind),
    ]);
    check(rt, calls, told);
    check_opened(rt, plan, disk, &stop_behind(&plan.schedule.events, calls));
}

// Where an opening is refused as its device fails, no byte is changed, and nothing is written.
fn is_left_alone(fault: Fault, disk: &MemoryDisk, bytes: &[u8]) -> bool {
    fault == Fault::DeviceFailed && counts(disk).0 == 0 && *content(disk) == *bytes
}

// Whether an opening of this file, left behind so many calls, goes through where its own device call of this number
// fails: where it makes no such call. Else it is refused, and changes nothing.
fn goes_through(rt: &(impl Abort + AllocGlobal), bytes: &[u8], call: u64, calls: usize) -> bool {
    match refusal(rt.alloc(), failing_once(rt, bytes, call, 0)) {
        None => true,
        Some((fault, disk)) => {
            let is_right = is_left_alone(fault, &beneath(disk), bytes);
            check(rt, calls, unless(is_right, Wrong::Opening(call)));
            false
        }
    }
}

/// That an opening of this file, one of whose calls fails, is refused, and changes nothing: of each third number alone,
/// since it takes time. Which of so many calls it is goes by that number.
pub(crate) fn fails_once(
    rt: &(impl Abort + AllocGlobal),
    bytes: &[u8],
    stop: &Stop,
    number: usize,
) {
    let mixed = number.saturating_mul(MIXING);
    if mixed % THIRD > 0 {
        return;
    }
    let call = (mixed / THIRD).checked_rem(stop.opening()).unwrap_or(0);
    goes_through(rt, bytes, call as u64, stop.calls);
}

const THIRD: usize = 3;

// A prime, so that numbers that follow each other are told other calls.
const MIXING: usize = 7919;

// No opening makes more calls.
const MOST: u64 = 1999;

// How many calls an opening of this file makes, each of which fails once.
fn calls_of_opening(rt: &(impl Abort + AllocGlobal), bytes: &[u8], calls: usize) -> u64 {
    for call in 0..=MOST {
        if goes_through(rt, bytes, call, calls) {
            return call;
        }
    }
    u64::MAX
}

// How many calls an opening makes of the file behind so many calls of the run.
fn calls_behind(rt: &(impl Abort + AllocGlobal), plan: &Plan, calls: usize) -> u64 {
    let stop = stop_behind(&plan.schedule.events, calls);
    let disk = disk_at(rt, plan, &stop);
    calls_of_opening(rt, content(&disk), calls)
}

// Behind so many calls of the run openings are tried: of the new file, of one with 60 records, and of files within and
// behind each checkpoint but the last, and within that; and how many calls an opening makes at least, and at most: a
// sync and 14 reads of a new file, and two reads of each record; of the others so many reads at least.
static TRIED: [(usize, u64, u64); 8] = [
    (0, 15, 15),
    (240, 135, 135),
    (520, 15, MOST),
    (540, 15, MOST),
    (1043, 15, MOST),
    (1300, 15, MOST),
    (1590, 15, MOST),
    (2120, 15, MOST),
];

/// Each call of the opening of each of these files fails once.
pub(crate) fn check_openings(rt: &(impl Abort + AllocGlobal), plan: &Plan) {
    for (calls, least, most) in &TRIED {
        let count = calls_behind(rt, plan, *calls);
        let is_right = count >= *least && count <= *most;
        check(rt, *calls, unless(is_right, Wrong::Opening(count)));
    }
}
