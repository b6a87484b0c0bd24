//! What the program does with a plan, over a disk in memory. Whole games stand in the folder `games` of the repository.
//! What is refused at the start and what becomes of the standard streams is tried on the built program by
//! `tools/try-the-program`, failures of the device by `tools/stop-anywhere`.
use crate::calls::{carry_out, content, empty_writer, has_written, reader_of, refuse_to};
use crate::kits::{ROSTER, empty, formatted, texts};
use crate::plans::{Asked, plan_of};
use rr_cli::{Ending, status};
use rr_disk::Disk;
use rr_moderator::Fault;
use rr_pages::Damage;
use std::alloc::Global;
use std::process::Abort;

/// What is asked for, the roster's text and what there is to read; with which status the program ends, and what it
/// writes.
struct Run {
    asked: Asked,
    roster: &'static [u8],
    input: &'static [u8],
    status: u8,
    told: &'static [u8],
}

// The calls below have no contracts, so that what a test does costs its proof little.

/// The disk after a run, which is to end and to write as it says.
fn after<D: Disk + Drop>(rt: &(impl Abort + AllocGlobal), run: &Run, disk: D) -> D {
    let alloc = rt.alloc();
    let plan = plan_of(alloc, &run.asked).expect(rt, "memory");
    let mut reader = reader_of(run.input);
    let mut writer = empty_writer(alloc);
    let texts = texts(run.roster);
    let (status, left) = carry_out(alloc, &plan, texts, disk, &mut reader, &mut writer);
    let is_right = [status == run.status, has_written(writer, run.told)];
    assert!(rt; is_right == [true; 2]);
    left
}

const FORMAT: Asked = Asked::Format {
    file: "f",
    chart: "c",
    roster: "r",
    tiles: "t",
    board: "b",
};

static WITH_A_BAD_ROSTER: Run = Run {
    asked: FORMAT,
    roster: b"private = []",
    input: b"",
    status: 3,
    told: b"no 4 bad roster\n",
};

static WITH_A_ROSTER: Run = Run {
    asked: FORMAT,
    roster: ROSTER,
    input: b"",
    status: 0,
    told: b"ok\n",
};

static ONCE_MORE: Run = Run {
    asked: FORMAT,
    roster: ROSTER,
    input: b"",
    status: 3,
    told: b"no 64 not empty\n",
};

// A disk isn't made a file with another roster, is made one with this roster, and not again.
#[test]
fn formats_once(rt: HostRuntime) {
    let rt = &rt;
    let untouched = after(rt, &WITH_A_BAD_ROSTER, empty(rt));
    assert!(rt; content(&untouched).is_empty());
    let new = after(rt, &WITH_A_ROSTER, untouched);
    drop(after(rt, &ONCE_MORE, new));
}

static SERVED: Run = Run {
    asked: Asked::Serve("f"),
    roster: b"",
    input: b"0 g1 open a b\n1 g1 buy a\n0 g2 open c d\n",
    status: 0,
    told: b"ok g1 1\nok g1 2\nok g2 1\n",
};

static CHECKED: Run = Run {
    asked: Asked::Check("f"),
    roster: b"",
    input: b"0 g3 open a b\n",
    status: 0,
    told: b"ok 2 3\n",
};

// A new file is served, and a check then tells what it holds and reads no line.
#[test]
fn serves_and_checks(rt: HostRuntime) {
    let rt = &rt;
    let served = after(rt, &SERVED, formatted(rt));
    drop(after(rt, &CHECKED, served));
}

/// Whether a refusal before a plan ends the program so, and is written so.
fn is_refused(alloc: Global, fault: Fault, told: &[u8]) -> bool {
    let mut writer = empty_writer(alloc);
    let ending = refuse_to(fault, &mut writer);
    let is_right = [ending == Ending::Faulted(fault), has_written(writer, told)];
    is_right == [true; 2]
}

/// How the program ends, and its status then.
static STATUSES: [(Ending, u8); 9] = [
    (Ending::Done, 0),
    (Ending::WordsRefused, 2),
    (Ending::Faulted(Fault::Kit(rr_kit::Fault::BadRoster)), 3),
    (Ending::Faulted(Fault::Damaged(Damage::UsedBytes)), 3),
    (Ending::Faulted(Fault::NotAStore), 3),
    (Ending::Faulted(Fault::NotEmpty), 3),
    (Ending::Faulted(Fault::DeviceFailed), 4),
    (Ending::Faulted(Fault::StreamFailed), 4),
    (Ending::Faulted(Fault::OutOfMemory), 4),
];

#[test]
fn refusals_and_statuses(rt: HostRuntime) {
    let rt = &rt;
    assert!(rt; is_refused(rt.alloc(), Fault::StreamFailed, b"no 69 stream failed\n"));
    for (ending, wanted) in STATUSES.iter() {
        assert!(rt; status(*ending) == *wanted);
    }
}
