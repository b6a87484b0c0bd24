//! Commits and refusals, and what is opened again.
use crate::calls::{Call, check_calls};
use crate::files::{check_file, disk_of, failing_after, new_store, played_file, with_bytes};
use rr_disk::{FaultyDisk, MemoryDisk};
use rr_store::Fault;
use std::process::Abort;

static COMMITS: [Call; 10] = [
    Call::Commit(0, b"t1 open a b", Ok(1)),
    Call::Commit(1, b"t1 buy a", Ok(2)),
    Call::Commit(1, b"t1 pass b", Err(Fault::StaleStamp(2))),
    Call::Commit(0, b"t1 open a b", Err(Fault::StaleStamp(2))),
    Call::Commit(1, b"t2 open a b", Err(Fault::StaleStamp(0))),
    Call::Commit(1, b"t2 pass a", Err(Fault::NoSuchTable)),
    Call::Commit(
        2,
        b"t1 pass c",
        Err(Fault::Game(rr_books::Refusal::NoSuchName)),
    ),
    Call::Commit(2, b"t1 back 2", Err(Fault::TurnNotKept)),
    Call::Commit(0, b"t2 open c d e", Ok(1)),
    Call::Trade(800),
];

// What a store tells behind them, and once it is opened again.
static TWO_TABLES: [Call; 6] = [
    Call::State(Ok((2, 3, 0))),
    Call::Stands(b"t1", Ok((2, 0, 1, 2))),
    Call::Stands(b"t2", Ok((1, 0, 0, 1))),
    Call::NameAt(0, Some(b"t1")),
    Call::NameAt(1, Some(b"t2")),
    Call::NameAt(2, None),
];

#[test]
fn what_is_accepted_is_opened_again(rt: HostRuntime) {
    let rt = &rt;
    let mut store = new_store(rt);
    check_calls(rt, &mut store, &COMMITS);
    check_calls(rt, &mut store, &TWO_TABLES);
    check_file(rt, disk_of(store), &TWO_TABLES);
}

// What is told of the table that is taken back, and once the file is opened again behind a checkpoint.
const TAKEN_BACK: Call = Call::Stands(b"t1", Ok((6, 1, 2, 3)));

// Three turns have ended, and the table is taken back to the second, and the ends of those before the first forgotten.
static BACK: [Call; 8] = [
    Call::Commit(2, b"t1 pass b", Ok(3)),
    Call::Commit(3, b"t1 pass a", Ok(4)),
    Call::Commit(4, b"t1 back 2", Ok(5)),
    Call::Commit(5, b"t1 forget 1", Ok(6)),
    Call::Commit(6, b"t1 back 0", Err(Fault::TurnNotKept)),
    Call::Commit(6, b"t1 back 3", Err(Fault::TurnNotKept)),
    TAKEN_BACK,
    Call::Checkpoint,
];

#[test]
fn back_and_forget_outlast_a_checkpoint(rt: HostRuntime) {
    let rt = &rt;
    check_file(rt, played_file(rt, &BACK), &[TAKEN_BACK]);
}

// The calls of an opening of a file with two records: a sync, and reads of both roots, of the front and the bytes of
// the directory's page and of four texts, of the two records in two parts each, and of the gates behind them in either
// half.
const OPENING: u64 = 19;

// A disk whose device fails at the first call behind the opening.
fn failing_disk(rt: &(impl Abort + AllocGlobal)) -> FaultyDisk<MemoryDisk> {
    failing_after(with_bytes(rt, &played_file(rt, &[]), &[]), OPENING)
}

// The first commit meets the failure. A broken store still tells how many commands its opening played.
static FAILURE: [Call; 7] = [
    Call::IsBroken(false),
    Call::Commit(2, b"t1 pass b", Err(Fault::DeviceFailed)),
    Call::Commit(2, b"t1 pass b", Err(Fault::OpenAgain)),
    Call::Tick(Err(Fault::OpenAgain)),
    Call::State(Err(Fault::OpenAgain)),
    Call::IsBroken(true),
    Call::Replayed(1),
];

#[test]
fn a_store_whose_device_failed_is_to_be_opened_again(rt: HostRuntime) {
    let rt = &rt;
    check_file(rt, failing_disk(rt), &FAILURE);
}

static AROUND_A_COMMIT: [Call; 3] = [
    Call::Replayed(1),
    Call::Commit(2, b"t1 pass b", Ok(3)),
    Call::Replayed(1),
];

#[test]
fn a_commit_leaves_what_the_opening_played(rt: HostRuntime) {
    let rt = &rt;
    check_file(rt, played_file(rt, &[]), &AROUND_A_COMMIT);
}

// Once 128 slots are used, the next record begins a checkpoint: of a page of commands, of two snapshots with a page each,
// and of the directory. Three steps more are left then.
static DUE: [Call; 6] = [
    Call::Passes(2, 128),
    Call::State(Ok((1, 128, 0))),
    Call::PutOff(None),
    Call::Commit(128, b"t1 pass b", Ok(129)),
    Call::State(Ok((1, 129, 7))),
    Call::PutOff(None),
];

#[test]
fn a_commit_begins_a_checkpoint_that_is_due(rt: HostRuntime) {
    let rt = &rt;
    check_file(rt, played_file(rt, &[]), &DUE);
}
