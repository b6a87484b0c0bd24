//! Runs of PRR on the small board, with its token in A.
use crate::fixtures::{small_kit, with_train};
use rr_books::{Clause, Corp, Kind, Refusal};
use rr_desk::Position;
use rr_kit::Kit;
use rr_routes::sheets::{is_certificate, is_sheet};
use rr_running::laws::{best_earns_most, one_verdict_on_a_run};
use rr_running::{BestRun, judge_best_run, judge_run, kinds_held, net_now};
use std::alloc::Global;
use std::process::Abort;

// The calls below have no contracts, so that what a test does costs its proof little.

/// The revenue, or the fault's number.
type Verdict = Result<i64, u8>;

fn judged(alloc: Global, kit: &Kit, table: &Position, words: &[u8]) -> Verdict {
    match judge_run(alloc, kit, table, Corp::Prr, words) {
        Ok(revenue) => Ok(revenue.0),
        Err(fault) => Err(fault.number()),
    }
}

/// The verdict on a run with a certificate.
fn shown(alloc: Global, kit: &Kit, table: &Position, words: &[u8], certificate: &[u8]) -> Verdict {
    let run = BestRun { words, certificate };
    match judge_best_run(alloc, kit, table, Corp::Prr, &run) {
        Ok(revenue) => Ok(revenue.0),
        Err(fault) => Err(fault.number()),
    }
}

/// Whether the words are no sheet, and a run by them is refused, with a certificate too.
fn is_refused(alloc: Global, kit: &Kit, table: &Position, words: &[u8]) -> bool {
    let refused = judged(alloc, kit, table, words) == Err(39);
    refused && !is_sheet(words) && shown(alloc, kit, table, words, b"b") == Err(39)
}

/// Whether the run is refused for a wrong word, or memory is wanted.
fn has_wrong_word(alloc: Global, kit: &Kit, table: &Position, words: &[u8]) -> bool {
    let judged = judge_run(alloc, kit, table, Corp::Prr, words);
    let clause = Refusal::IllegalSheet(Clause::WrongWord);
    judged == Err(clause) || judged == Err(Refusal::OutOfMemory)
}

/// How many trains and links the net has.
fn sizes(alloc: Global, kit: &Kit, table: &Position) -> (usize, usize) {
    match net_now(alloc, kit, table, Corp::Prr) {
        Ok(net) => (net.trains().len(), net.links().len()),
        Err(_) => (0, 0),
    }
}

/// What is said of the runs of a train.
#[derive(Clone, Copy)]
enum Fact {
    /// A run by this sheet has this verdict.
    Gets(&'static [u8], Verdict),
    /// A run by this sheet, with this certificate, has this verdict.
    Shows(&'static [u8], &'static [u8], Verdict),
    /// The words are no sheet.
    IsNoSheet(&'static [u8]),
    /// The sheet has a wrong word.
    HasWrongWord(&'static [u8]),
    /// The net has so many trains and links.
    HasNet(usize, usize),
}

use Fact::{Gets, HasNet, HasWrongWord, IsNoSheet, Shows};

fn is_right(alloc: Global, kit: &Kit, table: &Position, fact: Fact) -> bool {
    match fact {
        Gets(words, verdict) => judged(alloc, kit, table, words) == verdict,
        Shows(words, certificate, verdict) => {
            shown(alloc, kit, table, words, certificate) == verdict
        }
        IsNoSheet(words) => is_refused(alloc, kit, table, words),
        HasWrongWord(words) => has_wrong_word(alloc, kit, table, words),
        HasNet(trains, links) => sizes(alloc, kit, table) == (trains, links),
    }
}

/// Whether all of this holds, where PRR has a train of this kind.
fn hold(rt: &impl Abort, alloc: Global, kind: Kind, facts: &[Fact]) -> bool {
    let kit = small_kit(rt, alloc);
    let table = with_train(rt, alloc, kind);
    let mut right = true;
    for fact in facts {
        right = right && is_right(alloc, &kit, &table, *fact);
    }
    right
}

static OF_A_TWO: [Fact; 4] = [
    Gets(b"2=1-2-3", Ok(30)),
    Gets(b"2=1-2-3-4-5", Err(39)),
    Gets(b"3=1-2-3", Err(39)),
    Gets(b"2=-", Ok(0)),
];

static OF_A_DIESEL: [Fact; 1] = [Gets(b"D=1-2-3-4-5-6-7", Ok(100))];

#[test]
fn a_sheet_earns_its_revenue(rt: HostRuntime) {
    assert!(rt; hold(&rt, rt.alloc(), Kind::Two, &OF_A_TWO));
    assert!(rt; hold(&rt, rt.alloc(), Kind::Diesel, &OF_A_DIESEL));
}

static NO_SHEETS: [Fact; 7] = [
    IsNoSheet(b"2"),
    IsNoSheet(b"2="),
    IsNoSheet(b"2=01-2"),
    IsNoSheet(b" "),
    IsNoSheet(b"2=1-2-3 "),
    IsNoSheet(b"T=1"),
    HasWrongWord(b"2-1"),
];

#[test]
fn words_that_spell_no_sheet_are_refused(rt: HostRuntime) {
    assert!(rt; hold(&rt, rt.alloc(), Kind::Two, &NO_SHEETS));
}

static SHEETS: [(&[u8], bool); 3] = [
    (b"", true),
    (b"2=1-2-3 D=- 6=9999999999", true),
    (b"6=10000000000", false),
];

static CERTIFICATES: [(&[u8], bool); 5] = [
    (b"", true),
    (b"f s5 x1 b", true),
    (b"s0", true),
    (b"s", false),
    (b"b  b", false),
];

fn are_sheets(sheets: &[(&[u8], bool)]) -> bool {
    for (words, wanted) in sheets {
        if is_sheet(*words) != *wanted {
            return false;
        }
    }
    true
}

fn are_certificates(certificates: &[(&[u8], bool)]) -> bool {
    for (words, wanted) in certificates {
        if is_certificate(*words) != *wanted {
            return false;
        }
    }
    true
}

#[test]
fn the_form_of_a_line_is_told_without_memory(rt: HostRuntime) {
    assert!(rt; are_sheets(&SHEETS) && are_certificates(&CERTIFICATES));
}

const TREE: &[u8] = b"s5 b s1 b s4 x1 x1";

static SHOWN: [Fact; 4] = [
    Shows(b"2=1-2-3", TREE, Ok(30)),
    Shows(b"2=-", TREE, Err(40)),
    Shows(b"2=1-2-3", b"s5 b", Err(40)),
    Shows(b"2=1-2-3-4-5", TREE, Err(39)),
];

#[test]
fn a_certificate_is_judged(rt: HostRuntime) {
    assert!(rt; hold(&rt, rt.alloc(), Kind::Two, &SHOWN));
}

/// Whether the corporation's one train is a 3.
fn holds_a_three(alloc: Global, table: &Position) -> bool {
    match kinds_held(alloc, table.books(), Corp::Prr) {
        Ok(kinds) => kinds.as_slice() == [Kind::Three].as_slice(),
        Err(_) => false,
    }
}

static OF_A_THREE: [Fact; 1] = [HasNet(1, 7)];

#[test]
fn a_net_has_the_trains_of_the_corporation(rt: HostRuntime) {
    let alloc = rt.alloc();
    assert!(rt; holds_a_three(alloc, &with_train(&rt, alloc, Kind::Three)));
    assert!(rt; hold(&rt, alloc, Kind::Three, &OF_A_THREE));
}

#[test]
fn laws_are_called(_rt: HostRuntime) {
    one_verdict_on_a_run();
    best_earns_most();
}
