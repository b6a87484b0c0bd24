//! A checkpoint that was begun before the file was opened.
use crate::calls::Call;
use crate::files::{FAR, check_file, file_behind, played_file, with_bytes};
use rr_disk::MemoryDisk;
use rr_store::Tick;
use std::process::Abort;

// The third record, in the other half, which tells that a checkpoint was begun before it.
const THIRD: &[u8] = b"\xa5\0\0\0\0\0\0\0\x03\0\0\0\x09t1 pass b";

pub(crate) fn begun_file(rt: &(impl Abort + AllocGlobal)) -> MemoryDisk {
    with_bytes(rt, &played_file(rt, &[]), &[(FAR, THIRD)])
}

// What is told of that file, and once it is opened again.
const COUNTS: Call = Call::State(Ok((1, 3, 0)));

const TABLE: Call = Call::Stands(b"t1", Ok((3, 0, 2, 3)));

// The five ticks are: a page for the table, one for the directory, the gate of the other root, that root, and its gate.
// Slot 0 of the other half has the record that told of the checkpoint.
static TICKS: [Call; 8] = [
    COUNTS,
    TABLE,
    Call::Tick(Ok((Tick::More, 4))),
    Call::Tick(Ok((Tick::More, 3))),
    Call::Tick(Ok((Tick::More, 2))),
    Call::Tick(Ok((Tick::More, 1))),
    Call::Tick(Ok((Tick::Done, 0))),
    Call::Tick(Ok((Tick::Idle, 0))),
];

#[test]
fn a_checkpoint_that_was_begun_is_made(rt: HostRuntime) {
    let rt = &rt;
    let made = file_behind(rt, begun_file(rt), &TICKS);
    check_file(rt, made, &[COUNTS, TABLE]);
}
