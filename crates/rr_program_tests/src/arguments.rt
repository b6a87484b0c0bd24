//! What words ask for. The texts of refused words are compared by `tools/try-the-program`, on the built program.
use crate::plans::{Asked, plan_of};
use rr_cli::{Ending, Fault, Plan, plan};
use std::alloc::Global;
use std::process::Abort;

/// Words, and what they ask for.
static REQUESTS: [(&[&str], Asked); 4] = [
    (
        &[
            "format",
            "t.store",
            "--chart",
            "c.txt",
            "--roster",
            "r.toml",
            "--tiles",
            "m.txt",
            "--board=b.txt",
        ],
        Asked::Format {
            file: "t.store",
            chart: "c.txt",
            roster: "r.toml",
            tiles: "m.txt",
            board: "b.txt",
        },
    ),
    (&["serve", "t.store"], Asked::Serve("t.store")),
    (&["serve", "--", "--chart"], Asked::Serve("--chart")),
    (&["check", "t.store"], Asked::Check("t.store")),
];

// The calls below have no contracts, so that what a test does costs its proof little.

fn planned(alloc: Global, words: &[&str]) -> Result<Plan, Fault> {
    plan(alloc, words)
}

/// Stops where the words give another plan.
fn check_plan(rt: &(impl Abort + AllocGlobal), words: &[&str], asked: &Asked) {
    let wanted = plan_of(rt.alloc(), asked).expect(rt, "memory");
    let found = planned(rt.alloc(), words).expect(rt, "a plan");
    assert!(rt; found == wanted);
}

#[test]
fn words_that_are_planned(rt: HostRuntime) {
    let rt = &rt;
    for (words, asked) in REQUESTS.iter() {
        check_plan(rt, words, asked);
    }
}

/// The number of a fault, and how a run ends with it.
fn number_and_ending(fault: &Fault) -> (Option<u8>, Ending) {
    (fault.number(), fault.ending())
}

/// Whether the words are refused, by a fault without a number.
fn are_refused(alloc: Global, words: &[&str]) -> bool {
    match planned(alloc, words) {
        Err(fault) => number_and_ending(&fault) == (None, Ending::WordsRefused),
        Ok(_) => false,
    }
}

const OUT_OF_MEMORY: Ending = Ending::Faulted(rr_moderator::Fault::OutOfMemory);

/// Stops where want of memory has another text, number or ending.
fn check_want_of_memory(rt: &(impl Abort + AllocGlobal)) {
    let fault = Fault::OutOfMemory;
    let text = format!(in rt.alloc(); "{fault}").expect(rt, "memory");
    let is_right = [
        text.as_str() == "out of memory",
        number_and_ending(&fault) == (Some(70), OUT_OF_MEMORY),
    ];
    assert!(rt; is_right == [true; 2]);
}

#[test]
fn words_that_are_refused(rt: HostRuntime) {
    let rt = &rt;
    let are_refused = [
        are_refused(rt.alloc(), &["serve", "a", "b"]),
        are_refused(rt.alloc(), &["check"]),
    ];
    assert!(rt; are_refused == [true; 2]);
    check_want_of_memory(rt);
}
