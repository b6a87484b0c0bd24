//! The device calls that the run is to make, in order, by what docs/FORMATS.md says of commits and checkpoints.
use crate::stopping::lines::COUNT;
use std::process::Abort;

/// A checkpoint begins where so many slots of the half in use are used.
pub(crate) const DUE: usize = 128;

/// The steps of a checkpoint of four pages: one for each of three tables, and one for the directory. Of the second table
/// the second checkpoint lays the snapshot behind 64 commands, which stays where it stands at the third one, and the
/// third lays that behind 128: so these two have five pages. The fourth one drops the former, and lets the latter stay.
const STEPS: usize = 8;

const STEPS_WITH_SNAPSHOT: usize = 9;

/// The bytes of a slot or a page, and of a root behind its gate.
const PAGE: usize = 4096;

const ROOT: usize = 35;

/// A device call, a write with its bytes. A write of one byte is a gate.
#[derive(Clone, Copy)]
pub(crate) enum Call {
    Read,
    Write(usize),
    Sync,
}

// A record behind its shut gate, and its gate.
static RECORD: [Call; 4] = [Call::Write(PAGE), Call::Sync, Call::Write(1), Call::Sync];

// The gate of slot 0 of the other half, or that of the stale root, is shut. It is read first: where it is shut, as both
// are in a new file, it isn't written.
static SHUT: [Call; 3] = [Call::Read, Call::Write(1), Call::Sync];

static FIND_SHUT: [Call; 2] = [Call::Read, Call::Sync];

// A page is synced with what comes behind it.
static LAY: [Call; 1] = [Call::Write(PAGE)];

static PUT_ROOT: [Call; 2] = [Call::Write(ROOT), Call::Sync];

static PUT_GATE: [Call; 2] = [Call::Write(1), Call::Sync];

/// A commit of the command at a place, or a tick.
#[derive(Clone, Copy)]
pub(crate) struct Event {
    pub(crate) place: Option<usize>,
    /// How many calls were made when it is done.
    pub(crate) calls: usize,
    /// A checkpoint is under way before it or behind it.
    pub(crate) within: bool,
}

#[derive(Drop)]
pub(crate) struct Schedule {
    pub(crate) events: Vec<Event>,
    pub(crate) calls: Vec<Call>,
    /// How many checkpoints were begun.
    pub(crate) begun: usize,
}

// How many checkpoints were begun, how many steps the last of them has, how many of these are left, and how many slots
// of the half in use are used.
#[derive(Clone, Copy)]
struct Progress {
    begun: usize,
    steps: usize,
    left: usize,
    used: usize,
}

// The calls of an event, and whether a checkpoint is under way before it or behind it.
#[derive(Clone, Copy)]
struct Made {
    step: &'static [Call],
    record: &'static [Call],
    within: bool,
}

impl Progress {
    // The step that has so many behind it: the last ones shut the stale root, write it behind its gate, and open that.
    fn calls_of(&self, behind: usize) -> &'static [Call] {
        let shuts = behind == 2 || behind.saturating_add(1) == self.steps;
        match behind {
            0 => &PUT_GATE,
            1 => &PUT_ROOT,
            _ if !shuts => &LAY,
            _ if self.begun > 1 => &SHUT,
            _ => &FIND_SHUT,
        }
    }

    // A step of a checkpoint, where one is under way or due.
    fn step(&mut self) -> &'static [Call] {
        if self.left == 0 && self.used >= DUE {
            self.steps = steps_behind(self.begun);
            self.left = self.steps;
            self.begun = self.begun.saturating_add(1);
            self.used = 0;
        }
        match self.left.checked_sub(1) {
            None => &[],
            Some(behind) => {
                self.left = behind;
                self.calls_of(behind)
            }
        }
    }

    // A commit is a step, and a record.
    fn commit(&mut self) -> Made {
        let before = self.left;
        let step = self.step();
        self.used = self.used.saturating_add(1);
        Made {
            step,
            record: &RECORD,
            within: before > 0 || self.left > 0,
        }
    }

    // A tick is a step.
    fn tick(&mut self) -> Made {
        let before = self.left;
        let step = self.step();
        Made {
            step,
            record: &[],
            within: before > 0 || self.left > 0,
        }
    }
}

// How many steps a checkpoint has behind so many others: as they begin, the second table keeps 49, 98, 143 and 191
// commands.
fn steps_behind(begun: usize) -> usize {
    match begun {
        1 | 2 => STEPS_WITH_SNAPSHOT,
        _ => STEPS,
    }
}

// How many ticks are called for behind the command at this place: so the first checkpoint is made by ticks and commits
// in turn, the second one by ticks alone, and the others by commits.
fn ticks_behind(place: usize) -> usize {
    if place < 200 {
        return 1;
    }
    if place == 255 { STEPS_WITH_SNAPSHOT } else { 0 }
}

fn add_calls(rt: &impl Abort, calls: &mut Vec<Call>, more: &[Call]) {
    calls.extend_from_slice(more).expect(rt, "memory");
}

fn add_event(rt: &impl Abort, events: &mut Vec<Event>, event: Event) {
    events.push(event).expect(rt, "memory");
}

impl Schedule {
    // The event at a place makes these calls.
    fn add(&mut self, rt: &impl Abort, place: Option<usize>, made: Made) {
        add_calls(rt, &mut self.calls, made.step);
        add_calls(rt, &mut self.calls, made.record);
        let event = Event {
            place,
            calls: self.calls.len(),
            within: made.within,
        };
        add_event(rt, &mut self.events, event);
    }

    // The command at a place, and the ticks behind it.
    fn go_through(&mut self, rt: &impl Abort, progress: &mut Progress, place: usize) {
        self.add(rt, Some(place), progress.commit());
        for _ in 0..ticks_behind(place) {
            self.add(rt, None, progress.tick());
        }
    }
}

/// All events of the run, and its calls.
pub(crate) fn whole_schedule(rt: &(impl Abort + AllocGlobal)) -> Schedule {
    let mut schedule = Schedule {
        events: Vec::new(rt.alloc()),
        calls: Vec::new(rt.alloc()),
        begun: 0,
    };
    let mut progress = Progress {
        begun: 0,
        steps: 0,
        left: 0,
        used: 0,
    };
    for place in 0..COUNT {
        schedule.go_through(rt, &mut progress, place);
    }
    schedule.begun = progress.begun;
    schedule
}
