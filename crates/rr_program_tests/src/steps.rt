//! How many calls of its device each command makes with which a checkpoint is made. Which calls these are is tried on
//! the built program by `tools/try-the-file`.
use crate::calls::disk_of;
use crate::kits::{formatted, opened};
use rr_disk::Disk;
use rr_moderator::Moderator;
use std::alloc::{AllocError, Global};
use std::process::Abort;

/// So many commands of one slot each make a checkpoint due.
const DUE: usize = 128;

// The calls below have no contracts, so that what a test does costs its proof little.

/// The command of this stamp in a table without an end: an opening, a purchase, and passes in turn.
fn line(alloc: Global, stamp: usize) -> Result<String, AllocError> {
    let words = match stamp {
        0 => "open x y",
        1 => "buy x",
        _ if stamp % 2 == 0 => "pass y",
        _ => "pass x",
    };
    format!(in alloc; "{stamp} g {words}")
}

fn is_taken<D: Disk + Drop>(moderator: &mut Moderator<D>, line: &[u8]) -> bool {
    moderator.answer(line).starts_with(b"ok g ")
}

/// Stops where one of the first so many commands isn't taken.
fn take<D: Disk + Drop>(
    rt: &(impl Abort + AllocGlobal),
    moderator: &mut Moderator<D>,
    commands: usize,
) {
    for stamp in 0..commands {
        let line = line(rt.alloc(), stamp).expect(rt, "memory");
        assert!(rt; is_taken(moderator, line.as_bytes()));
    }
}

/// How many writes and how many syncs are made.
type Calls = (u64, u64);

fn counted<D: Disk>(disk: &D) -> Calls {
    (disk.writes(), disk.syncs())
}

/// The calls on a disk with a new file once the first so many commands are taken.
fn calls_on<D: Disk + Drop>(rt: &(impl Abort + AllocGlobal), new: D, commands: usize) -> Calls {
    let mut moderator = opened(rt, new);
    take(rt, &mut moderator, commands);
    counted(&disk_of(moderator))
}

fn calls_for(rt: &(impl Abort + AllocGlobal), commands: usize) -> Calls {
    calls_on(rt, formatted(rt), commands)
}

fn sum(before: Calls, more: Calls) -> Calls {
    (
        before.0.saturating_add(more.0),
        before.1.saturating_add(more.1),
    )
}

// The number of a command, and how many writes and syncs it makes. Its record is two writes and two syncs. Before those
// of the 129th to the 136th come the eight steps of a checkpoint of four fresh pages, for the table, its snapshots
// behind 64 and 128 commands, and the directory: a sync, since slot 0 of the other half is shut already; a write for
// each page; a sync, since the gate of the older root is shut already; the root and a sync; its gate and a sync. The
// 137th command has its record alone.
static CALLS_OF_COMMANDS: [(usize, Calls); 9] = [
    (129, (2, 3)),
    (130, (3, 2)),
    (131, (3, 2)),
    (132, (3, 2)),
    (133, (3, 2)),
    (134, (2, 3)),
    (135, (3, 3)),
    (136, (3, 3)),
    (137, (2, 2)),
];

#[test]
fn each_step_of_a_checkpoint_comes_with_a_command(rt: HostRuntime) {
    let rt = &rt;
    let mut calls = calls_for(rt, DUE);
    for &(commands, more) in &CALLS_OF_COMMANDS {
        calls = sum(calls, more);
        assert!(rt; calls_for(rt, commands) == calls);
    }
}

/// Stops where the eight commands behind so many don't make so many writes, and 20 syncs.
fn check_eight_steps(rt: &(impl Abort + AllocGlobal), commands: usize, writes: u64) {
    let before = calls_for(rt, commands);
    let behind = calls_for(rt, commands.saturating_add(8));
    assert!(rt; behind == sum(before, (writes, 20)));
}

// Sixteen writes and syncs are those of the records, and the rest those of the steps.
#[test]
fn a_checkpoint_of_four_pages_takes_eight_commands(rt: HostRuntime) {
    check_eight_steps(&rt, DUE, 22);
}

// The second one lays as many pages, since the first two snapshots stay where they stand: for the table, its snapshots
// behind 192 and 256 commands, and the directory. Both gates that it shuts are open, and so are written.
#[test]
fn a_second_checkpoint_lays_new_snapshots_alone(rt: HostRuntime) {
    check_eight_steps(&rt, 2 * DUE, 24);
}
