//! Sheets on the small nets: what each earns, or which clause it breaks.
use crate::small::{EXPRESS, FILLED_ROW, Plan, ROW, THREE, TWO, net_of, net_of_row};
use rr_books::{Clause, Refusal};
use rr_referee::{CentreLimit, Sheet, check, laws, legal, limit_of_kind};
use rr_roster::Kind;
use rr_routes::sheets::read_certificate;
use std::alloc::Global;
use std::process::Abort;

// The calls below have no contracts, so that what a test does costs its proof little.

/// What a run earns, or the clause that its sheet breaks.
type Verdict = Result<usize, Clause>;

/// The verdict on the run of the sheet.
fn judged(
    rt: &impl Abort,
    alloc: Global,
    plan: &Plan,
    limits: &[CentreLimit],
    text: &str,
) -> Verdict {
    let net = net_of(rt, alloc, plan, limits);
    let sheet = Sheet::read(alloc, text.as_bytes()).expect(rt, "a sheet");
    match legal(alloc, &net, &sheet) {
        Ok(revenue) => Ok(revenue),
        Err(Refusal::IllegalSheet(clause)) => Err(clause),
        Err(_) => panic!(rt; "memory"),
    }
}

/// A net and how many centres each of its trains counts, a sheet, and the verdict on it.
type Case = (Plan, &'static [CentreLimit], &'static str, Verdict);

/// Stops where the verdict on a sheet is another one.
fn check_cases(rt: &impl Abort, alloc: Global, cases: &[Case]) {
    for (plan, limits, sheet, wanted) in cases {
        assert!(rt; judged(rt, alloc, plan, *limits, *sheet) == *wanted);
    }
}

static LIMITS: [(Kind, CentreLimit); 6] = [
    (Kind::Two, CentreLimit::AtMost(2)),
    (Kind::Three, CentreLimit::AtMost(3)),
    (Kind::Four, CentreLimit::AtMost(4)),
    (Kind::Five, CentreLimit::AtMost(5)),
    (Kind::Six, CentreLimit::AtMost(6)),
    (Kind::Diesel, CentreLimit::Unlimited),
];

#[test]
fn a_train_counts_the_number_of_its_kind(rt: HostRuntime) {
    for (kind, limit) in &LIMITS {
        assert!(rt; limit_of_kind(*kind) == *limit);
    }
}

static ONE_TRAIN: [Case; 9] = [
    (ROW, &[TWO], "2=1-2-3", Ok(30)),
    (ROW, &[TWO], "2=1-2-3-4-5", Err(Clause::TooManyCentres)),
    (ROW, &[THREE], "3=1-2-3-4-5", Ok(60)),
    (ROW, &[THREE], "2=1-2-3", Err(Clause::WrongWord)),
    (ROW, &[TWO], "2=5-8", Err(Clause::WrongWord)),
    (ROW, &[TWO], "2=4-5", Err(Clause::NoToken)),
    (ROW, &[TWO], "2=1-2", Err(Clause::NoWalk)),
    (ROW, &[TWO], "2=-", Ok(0)),
    (ROW, &[EXPRESS], "D=1-2-3-4-5-6-7", Ok(100)),
];

#[test]
fn judges_one_train(rt: HostRuntime) {
    check_cases(&rt, rt.alloc(), &ONE_TRAIN);
}

const TERMINAL_INSIDE: Verdict = Err(Clause::TerminalInside);

static FILLED_CITY: [Case; 3] = [
    (FILLED_ROW, &[THREE], "3=1-2-3-4-5", Ok(60)),
    (FILLED_ROW, &[EXPRESS], "D=1-2-3-4-5-6-7", TERMINAL_INSIDE),
    (FILLED_ROW, &[EXPRESS], "D=1-2-3-4-5", Ok(60)),
];

#[test]
fn judges_a_filled_city(rt: HostRuntime) {
    check_cases(&rt, rt.alloc(), &FILLED_CITY);
}

const SHARED_HEXSIDE: Verdict = Err(Clause::SharedHexside);

static TWO_TRAINS: [Case; 4] = [
    (ROW, &[TWO, TWO], "2=1-2-3 2=-", Ok(30)),
    (ROW, &[TWO, TWO], "2=1-2-3 2=1-2-3", SHARED_HEXSIDE),
    (ROW, &[TWO, TWO], "2=3-2-1 2=-", Err(Clause::NoWalk)),
    (ROW, &[TWO, TWO], "2=1-2-3", Err(Clause::WrongWord)),
];

#[test]
fn judges_two_trains(rt: HostRuntime) {
    check_cases(&rt, rt.alloc(), &TWO_TRAINS);
}

/// A row with two tracks on hex 1, from the one of which no walk goes to the other.
const FORKED: Plan = Plan {
    links: "00c0 10s1 10s4 21c1 22c1 32c2 33c2 43c3 54c4",
    token: 0,
    terminals: &[3],
};

/// Two centres: the way round comes back to the first one.
const RING: Plan = Plan {
    links: "00c0 10c1 11c1 01c0",
    token: 0,
    terminals: &[3],
};

static NO_PATHS: [Case; 2] = [
    (FORKED, &[THREE], "3=4-2-3-9", Err(Clause::NoWalk)),
    (RING, &[THREE], "3=1-2-3-4", Err(Clause::NodeTwice)),
];

#[test]
fn refuses_what_is_no_path(rt: HostRuntime) {
    check_cases(&rt, rt.alloc(), &NO_PATHS);
}

/// Whether it is shown that a 2 earns no more than the claim on the row.
fn is_shown(rt: &impl Abort, alloc: Global, claim: usize) -> bool {
    let net = net_of_row(rt, alloc, TWO);
    let tree = read_certificate(alloc, 1, b"s5 b s1 b s4 x1 x1").expect(rt, "a certificate");
    check(alloc, &net, claim, &tree).expect(rt, "memory")
}

#[test]
fn checks_a_certificate(rt: HostRuntime) {
    let rt = &rt;
    assert!(rt; is_shown(rt, rt.alloc(), 30) && !is_shown(rt, rt.alloc(), 20));
}

#[test]
fn laws_are_called() {
    laws::optimal();
    laws::sheets();
}
