//! Files that a stop leaves, or a call that failed, and what an opening makes of them.
use crate::files::{
    beneath, commit, content, counts, disk_of, failing_after, failing_once, last_number,
    open_store, refuses,
};
use crate::stopping::lines::{back, first, record_of, world_of};
use crate::stopping::openings::fails_once;
use crate::stopping::runs::{Plan, commit_at, gives, holds, holds_table, run};
use crate::stopping::schedule::{Call, DUE, Event};
use crate::stopping::worlds::{Side, Step, World};
use crate::stopping::{Told, Wrong, check, first_wrong, unless};
use rr_disk::{Choice, Disk, Kept, MemoryDisk};
use rr_store::{Fault, Store};
use std::process::Abort;

/// The calls of the opening of a new file: a sync, and reads of both roots, of the front and the bytes of the
/// directory's page and of four texts, and of the gates of both slots 0.
pub(crate) const OPENING: usize = 15;

/// What is to be found where the run was stopped behind so many of its calls.
#[derive(Clone, Copy)]
pub(crate) struct Stop {
    pub(crate) calls: usize,
    /// How many events were done, and how many of these are commits.
    pub(crate) done: usize,
    pub(crate) count: usize,
    /// A commit is under way.
    pub(crate) pending: bool,
    /// A checkpoint is under way.
    pub(crate) within: bool,
}

impl Stop {
    /// How many calls an opening makes here at least, where it takes the root that was there as the checkpoint under way
    /// began: those of a new file, and two reads of each record since the last whole checkpoint began.
    pub(crate) fn opening(&self) -> usize {
        let since = self.count % DUE;
        let before = if self.within { DUE } else { 0 };
        since
            .saturating_add(before)
            .saturating_mul(2)
            .saturating_add(OPENING)
    }

    // Whether a store may hold so many commands: those that were acknowledged, or with the one under way.
    fn allows(&self, count: usize) -> bool {
        count == self.count || (self.pending && count == self.count.saturating_add(1))
    }

    // The first of the numbers of a few files that are left here.
    fn number(&self) -> usize {
        self.calls.saturating_mul(WAYS.len().saturating_add(1))
    }

    // As if no checkpoint were under way: a table is taken back to one turn at once.
    fn at_once(&self) -> Stop {
        Stop {
            within: false,
            ..*self
        }
    }
}

/// The stop behind so many calls. Behind all calls of the run no event is under way.
pub(crate) fn stop_behind(events: &[Event], calls: usize) -> Stop {
    let mut stop = Stop {
        calls,
        done: 0,
        count: 0,
        pending: false,
        within: false,
    };
    for event in events {
        let is_commit = event.place.is_some();
        if event.calls > calls {
            stop.pending = is_commit;
            stop.within = event.within;
            return stop;
        }
        stop.done = stop.done.saturating_add(1);
        stop.count = stop.count.saturating_add(usize::from(is_commit));
    }
    stop
}

fn unsynced(disk: &MemoryDisk) -> &[(u64, u64)] {
    disk.unsynced()
}

// That the run stops as the device fails, and each call is refused behind that.
fn judge_run<D: Disk + Drop>(plan: &Plan, store: &mut Store<D>, stop: &Stop) -> Told {
    let (done, told) = run(store, plan);
    first_wrong(&[
        unless(done == stop.done, Wrong::Calls),
        unless(has_failed(told), Wrong::Answer),
        unless(refuses(store), Wrong::AnswerBehind),
    ])
}

fn has_failed(told: Told) -> bool {
    matches!(
        told,
        Err(Wrong::Commit(Err(Fault::DeviceFailed)) | Wrong::Tick(Fault::DeviceFailed))
    )
}

// Runs on this disk until the device fails, as it is to do, and gives the disk.
fn run_to<D: Disk + Drop>(rt: &(impl Abort + AllocGlobal), plan: &Plan, disk: D, stop: &Stop) -> D {
    let mut store = open_store(rt, disk, 0);
    check(rt, stop.calls, judge_run(plan, &mut store, stop));
    disk_of(store)
}

/// The disk behind the calls of the run up to a stop.
pub(crate) fn disk_at(rt: &(impl Abort + AllocGlobal), plan: &Plan, stop: &Stop) -> MemoryDisk {
    let calls = OPENING.saturating_add(stop.calls) as u64;
    beneath(run_to(rt, plan, failing_after(rt, &plan.file, calls), stop))
}

// How many writes wait for a sync behind these calls, and the bytes of the last of them.
fn pending_of(calls: &[Call]) -> (usize, u64) {
    let (mut waiting, mut last) = (0usize, 0u64);
    for call in calls {
        match call {
            Call::Read => {}
            Call::Write(bytes) => {
                waiting = waiting.saturating_add(1);
                last = *bytes as u64;
            }
            Call::Sync => {
                waiting = 0;
                last = 0;
            }
        }
    }
    (waiting, last)
}

// The same of a disk.
fn waiting_in(disk: &MemoryDisk) -> (usize, u64) {
    let ranges = unsynced(disk);
    let bytes = match ranges.last() {
        Some(range) => range.1.saturating_sub(range.0),
        None => 0,
    };
    (ranges.len(), bytes)
}

// The disk as a stop leaves it with this choice, if that is one.
fn stopped(disk: &MemoryDisk, kept: &[Kept], len: u64) -> Result<MemoryDisk, rr_disk::Fault> {
    let choice = Choice { kept, len };
    if !disk.allows(choice) {
        return Err(rr_disk::Fault::DeviceFailed);
    }
    disk.stop(choice)
}

// What a stop keeps of a write.
#[derive(Clone, Copy)]
enum Way {
    Nothing,
    All,
    Zeros,
    // Each byte is that of an open gate.
    Open,
    Half,
    // The first byte alone.
    First,
}

// Of a gate, which is one byte, the last two are the first two.
static WAYS: [Way; 6] = [
    Way::Nothing,
    Way::All,
    Way::Zeros,
    Way::Open,
    Way::Half,
    Way::First,
];

// The ways that are tried of a disk: where a write waits for a sync it goes by its bytes, and whether it is the only
// one.
fn ways_in(disk: &MemoryDisk) -> &'static [Way] {
    match waiting_in(disk) {
        (0, _) => &WAYS[..1],
        (1, 1) => &WAYS[..4],
        _ => &WAYS,
    }
}

fn kept_of(way: Way, range: (u64, u64)) -> Kept {
    match way {
        Way::Nothing => Kept::Old,
        Way::All => Kept::New,
        Way::Zeros => Kept::Fill(0),
        Way::Open => Kept::Fill(0xa5),
        Way::Half => Kept::Front(range.1.saturating_sub(range.0) / 2),
        Way::First => Kept::Front(1),
    }
}

// At most so many writes wait for a sync.
const MOST: usize = 16;

// What is kept of these writes, of the last one in one way and of those before it in another.
fn kept_in(ranges: &[(u64, u64)], before: Way, last: Way) -> [Kept; MOST] {
    let mut kept = [Kept::Old; MOST];
    let mut place = 0usize;
    for range in ranges {
        let behind = place.saturating_add(1);
        let way = if behind == ranges.len() { last } else { before };
        if place < MOST {
            kept[place] = kept_of(way, *range);
        }
        place = behind;
    }
    kept
}

// The disk as a stop leaves it that keeps the last write in one way and those before it in another. The file is as
// short as may be, or as long.
fn left(rt: &impl Abort, disk: &MemoryDisk, before: Way, last: Way) -> MemoryDisk {
    let ranges = unsynced(disk);
    let kept = kept_in(ranges, before, last);
    let len = match last {
        Way::Nothing | Way::Zeros => disk.settled(),
        _ => disk.len(),
    };
    stopped(disk, first(&kept, ranges.len()), len).expect(rt, "a choice")
}

// An opening of the file fails, and the next one is right.
fn check_file(
    rt: &(impl Abort + AllocGlobal),
    plan: &Plan,
    disk: MemoryDisk,
    stop: &Stop,
    number: usize,
) {
    fails_once(rt, content(&disk), stop, number);
    check_opened(rt, plan, disk, stop);
}

// Within a checkpoint the same image is opened twice: to go back turn by turn, and to one turn at once.
fn check_image(
    rt: &(impl Abort + AllocGlobal),
    plan: &Plan,
    disk: &MemoryDisk,
    ways: (Way, Way),
    stop: &Stop,
    number: usize,
) {
    check_file(rt, plan, left(rt, disk, ways.0, ways.1), stop, number);
    if stop.within {
        check_opened(rt, plan, left(rt, disk, ways.0, ways.1), &stop.at_once());
    }
}

// The last write is kept in this way, and those before it in the same; or they are kept not at all, or whole.
fn check_way(
    rt: &(impl Abort + AllocGlobal),
    plan: &Plan,
    disk: &MemoryDisk,
    way: Way,
    stop: &Stop,
    number: usize,
) {
    check_image(rt, plan, disk, (way, way), stop, number);
    if unsynced(disk).len() > 1 {
        check_image(rt, plan, disk, (Way::Nothing, way), stop, number);
        check_image(rt, plan, disk, (Way::All, way), stop, number);
    }
}

// That as much waits for a sync as is to.
fn judge_waiting(plan: &Plan, disk: &MemoryDisk, stop: &Stop) -> Told {
    let made = first(&plan.schedule.calls, stop.calls);
    unless(waiting_in(disk) == pending_of(made), Wrong::LastCall)
}

// The disk behind the calls up to a stop is left in each way.
fn check_ways(rt: &(impl Abort + AllocGlobal), plan: &Plan, disk: &MemoryDisk, stop: &Stop) {
    check(rt, stop.calls, judge_waiting(plan, disk, stop));
    let mut number = stop.number();
    for way in ways_in(disk) {
        check_way(rt, plan, disk, *way, stop, number);
        number = number.saturating_add(1);
    }
}

/// Each file that a stop behind the calls up to this one, or within the last of them, may leave. A stop within a sync
/// leaves what one behind the write before it leaves.
pub(crate) fn check_stop(rt: &(impl Abort + AllocGlobal), plan: &Plan, stop: &Stop) {
    check_ways(rt, plan, &disk_at(rt, plan, stop), stop);
}

// The disk where the run's next call alone fails, a write behind so many of its bytes. No call is made behind it.
fn failed_disk(
    rt: &(impl Abort + AllocGlobal),
    plan: &Plan,
    bytes: usize,
    stop: &Stop,
) -> MemoryDisk {
    let calls = OPENING.saturating_add(stop.calls) as u64;
    let disk = run_to(rt, plan, failing_once(rt, &plan.file, calls, bytes), stop);
    let made = first(&plan.schedule.calls, stop.calls.saturating_add(1));
    let are_made = counts(&disk) == counts_of(made);
    check(rt, stop.calls, unless(are_made, Wrong::CallsBehind));
    beneath(disk)
}

// Behind how many of its bytes a write fails, in turn: behind none of them, one, half, all but one, and all. Each other
// call fails once.
fn bytes_of(call: Option<&Call>) -> ([usize; 5], usize) {
    match call {
        Some(Call::Write(1)) => ([0, 1, 0, 0, 0], 2),
        Some(Call::Write(bytes)) => ([0, 1, *bytes / 2, bytes.saturating_sub(1), *bytes], 5),
        _ => ([0; 5], 1),
    }
}

/// The run's next call alone fails, and the same disk is opened again, the first time in vain.
pub(crate) fn check_failures(rt: &(impl Abort + AllocGlobal), plan: &Plan, stop: &Stop) {
    let (bytes, ways) = bytes_of(plan.schedule.calls.get(stop.calls));
    let mut number = stop.number();
    for bytes in first(&bytes, ways) {
        check_file(rt, plan, failed_disk(rt, plan, *bytes, stop), stop, number);
        number = number.saturating_add(1);
    }
}

/// How many writes and syncs an opening and these calls of the run are.
pub(crate) fn counts_of(calls: &[Call]) -> (u64, u64) {
    let (mut writes, mut syncs) = (0u64, 1u64);
    for call in calls {
        match call {
            Call::Read => {}
            Call::Write(_) => writes = writes.saturating_add(1),
            Call::Sync => syncs = syncs.saturating_add(1),
        }
    }
    (writes, syncs)
}

// How many commands a store holds.
fn count_in(store: &Store<MemoryDisk>) -> usize {
    match last_number(store) {
        Ok(last) => last as usize,
        Err(_) => usize::MAX,
    }
}

/// That a store holds what it is to hold, takes one command more, and takes tables back.
pub(crate) fn try_opened(
    rt: &(impl Abort + AllocGlobal),
    plan: &Plan,
    store: &mut Store<MemoryDisk>,
    stop: &Stop,
) -> Told {
    let count = count_in(store);
    let now = world_of(&plan.lines, count);
    let next = world_of(&plan.lines, count.saturating_add(1));
    first_wrong(&[
        unless(stop.allows(count), Wrong::Last),
        holds(rt, plan, store, &now),
        commit_at(store, &plan.lines, count),
        holds(rt, plan, store, &next),
        go_back_from(rt, plan, store, &next, stop),
    ])
}

/// That the file opens, and so on.
pub(crate) fn check_opened(
    rt: &(impl Abort + AllocGlobal),
    plan: &Plan,
    disk: MemoryDisk,
    stop: &Stop,
) {
    let mut store = open_store(rt, disk, stop.calls);
    check(rt, stop.calls, try_opened(rt, plan, &mut store, stop));
}

// Commits that the table at a place is taken back.
fn commit_back(
    rt: &(impl Abort + AllocGlobal),
    store: &mut Store<MemoryDisk>,
    index: usize,
    stamp: u64,
    turn: u64,
) -> Result<u64, Fault> {
    commit(store, stamp, record_of(rt, index, back(turn)).as_bytes())
}

/// Takes the table at a place back to a turn.
pub(crate) fn go_back(
    rt: &(impl Abort + AllocGlobal),
    plan: &Plan,
    store: &mut Store<MemoryDisk>,
    index: usize,
    side: &mut Side,
    turn: u64,
) -> Told {
    let end = commit_back(rt, store, index, side.stamp, turn);
    side.take(0, Step::Back(turn));
    first_wrong(&[
        gives(end, side.stamp),
        holds_table(rt, plan, store, index, side),
    ])
}

// Takes a table, where it is open, back to each turn between its turns and its floor, the last one first.
fn try_turns(
    rt: &(impl Abort + AllocGlobal),
    plan: &Plan,
    store: &mut Store<MemoryDisk>,
    index: usize,
    side: &Side,
) -> Told {
    let mut side = *side;
    let mut told = Ok(());
    let turns = side.turns();
    for less in 0..side.ways_back() {
        let turn = turns.saturating_sub(less);
        told = first_wrong(&[told, go_back(rt, plan, store, index, &mut side, turn)]);
    }
    told
}

// Takes one table, where it is open, back to one turn, by this number.
fn try_one_turn(
    rt: &(impl Abort + AllocGlobal),
    plan: &Plan,
    store: &mut Store<MemoryDisk>,
    world: &World,
    number: u64,
) -> Told {
    let index = (number % 3) as usize;
    let mut side = world.sides[index];
    match (number / 3).checked_rem(side.ways_back()) {
        Some(behind) => {
            let turn = side.floor.saturating_add(behind);
            go_back(rt, plan, store, index, &mut side, turn)
        }
        None => Ok(()),
    }
}

// Within a checkpoint each table is taken back turn by turn, and else one to one turn at once.
fn go_back_from(
    rt: &(impl Abort + AllocGlobal),
    plan: &Plan,
    store: &mut Store<MemoryDisk>,
    world: &World,
    stop: &Stop,
) -> Told {
    if !stop.within {
        return try_one_turn(rt, plan, store, world, stop.calls as u64);
    }
    first_wrong(&[
        try_turns(rt, plan, store, 0, &world.sides[0]),
        try_turns(rt, plan, store, 1, &world.sides[1]),
        try_turns(rt, plan, store, 2, &world.sides[2]),
    ])
}
