//! The shipped roster, and texts that are no roster.
use crate::shown::is_shown;
use rr_roster::{Corp, Fault, Kind, Private, Roster, Rule, laws, names_bank, says_bank};
use std::alloc::Global;
use std::process::Abort;

const SHIPPED: &str = r#"private = [
 {name="SV", face=20, income=5}, {name="C&SL", face=40, income=10},
 {name="D&H", face=70, income=15}, {name="M&H", face=110, income=20},
 {name="C&A", face=160, income=25}, {name="B&O", face=220, income=30}]
corporation = [
 {name="PRR", tokens=4}, {name="NYC", tokens=4}, {name="CPR", tokens=4},
 {name="B&O", tokens=3}, {name="C&O", tokens=3}, {name="ERIE", tokens=3},
 {name="NYNH", tokens=2}, {name="B&M", tokens=2}]
train = [
 {name="2", price=80, count=6}, {name="3", price=180, count=5},
 {name="4", price=300, count=4}, {name="5", price=450, count=3},
 {name="6", price=630, count=2}, {name="D", price=1100, count=6, trade=800}]
"#;

// The calls below have no contracts and assert nothing, so that what a test does costs its proof little.

fn pays(roster: &Roster, private: Private, face: u16, income: u16) -> bool {
    roster.face(private) == face && roster.income(private) == income
}

fn has_tokens(roster: &Roster, corp: Corp, tokens: u8) -> bool {
    roster.tokens(corp) == tokens
}

fn sells(roster: &Roster, kind: Kind, price: u16, count: u8) -> bool {
    roster.price(kind) == price && roster.count(kind) == count
}

fn has_the_shipped_numbers(roster: &Roster) -> [bool; 9] {
    [
        pays(roster, Private::Sv, 20, 5),
        pays(roster, Private::Bo, 220, 30),
        has_tokens(roster, Corp::Prr, 4),
        has_tokens(roster, Corp::Co, 3),
        has_tokens(roster, Corp::Bm, 2),
        sells(roster, Kind::Two, 80, 6),
        sells(roster, Kind::Five, 450, 3),
        sells(roster, Kind::Diesel, 1100, 6),
        roster.trade() == 800,
    ]
}

/// Whether the first, the fourth and the last corporation are those of the text.
fn keeps_its_order(roster: &Roster) -> bool {
    let order = roster.corporations();
    order[0] == Corp::Prr && order[3] == Corp::Bo && order[7] == Corp::Bm
}

/// Whether the shipped roster has its numbers and its order.
fn is_read(alloc: Global) -> (bool, bool) {
    match Roster::read(alloc, SHIPPED) {
        Ok(roster) => (
            has_the_shipped_numbers(&roster) == [true; 9],
            keeps_its_order(&roster),
        ),
        Err(_) => (false, false),
    }
}

#[test]
fn reads_the_shipped_numbers_and_order(rt: HostRuntime) {
    assert!(rt; is_read(rt.alloc()) == (true, true));
}

#[test]
fn states_laws(rt: HostRuntime) {
    let roster = Roster::read(rt.alloc(), SHIPPED).expect(&rt, "a roster");
    roster.keeps_rules();
    laws::rosters_are_told_apart();
}

/// Why the shipped text with one part replaced is refused, and nothing where it is read, or memory is wanted.
fn fault_with(alloc: Global, old: &str, new: &str) -> Option<Fault> {
    match SHIPPED.replace(alloc, old, new) {
        Ok(text) => Roster::read(alloc, text.as_str()).err(),
        Err(_) => Some(Fault::OutOfMemory),
    }
}

/// Parts, what they are replaced by, and why the text is refused then.
static REPLACED: [(&str, &str, Option<Fault>); 20] = [
    ("C&SL", "D&H", Some(Fault::Broken(Rule::PrivateNames))),
    ("ERIE", "PRR", Some(Fault::Broken(Rule::CorporationNames))),
    ("\"3\"", "\"2\"", Some(Fault::Broken(Rule::TrainNames))),
    (
        "face=40",
        "face=20",
        Some(Fault::Broken(Rule::PrivateNumbers)),
    ),
    (
        "tokens=3",
        "tokens=7",
        Some(Fault::Broken(Rule::TokenNumbers)),
    ),
    (
        "trade=800",
        "trade=1101",
        Some(Fault::Broken(Rule::TrainNumbers)),
    ),
    ("trade=800", "trade=1100", None),
    ("face=20", "face=20, colour=1", Some(Fault::Shape)),
    (", income=5", "", Some(Fault::Shape)),
    ("face=20", "face=20.0", Some(Fault::Shape)),
    ("face=20", "face=9223372036854775808", Some(Fault::Shape)),
    ("count=2", "count=2, trade=500", Some(Fault::Shape)),
    (", trade=800", "", Some(Fault::Shape)),
    ("ERIE", "ÉRIE", Some(Fault::Shape)),
    (
        "private =",
        "bank = 2399\nprivate =",
        Some(Fault::Broken(Rule::BankNumber)),
    ),
    ("private =", "bank = 2400\nprivate =", None),
    ("private =", "bank = 100000\nprivate =", None),
    (
        "private =",
        "bank = 100001\nprivate =",
        Some(Fault::Broken(Rule::BankNumber)),
    ),
    (
        "private =",
        "bank = \"2400\"\nprivate =",
        Some(Fault::Shape),
    ),
    ("private =", "bank = 2400.0\nprivate =", Some(Fault::Shape)),
];

/// Whether each of the parts makes the text one that is refused as is said.
fn are_refused(alloc: Global, parts: &[(&str, &str, Option<Fault>)]) -> bool {
    for (old, new, fault) in parts {
        if fault_with(alloc, *old, *new) != *fault {
            return false;
        }
    }
    true
}

#[test]
fn names_the_first_broken_rule_and_refuses_other_forms(rt: HostRuntime) {
    assert!(rt; are_refused(rt.alloc(), &REPLACED));
}

/// What a roster's bank begins with, and the bank that it names; nothing where the text is refused.
fn bank_of(alloc: Global, line: &str) -> Option<(u32, Option<u32>)> {
    let text = SHIPPED.replace(alloc, "private =", line).ok()?;
    let roster = Roster::read(alloc, text.as_str()).ok()?;
    Some((roster.bank(), roster.named_bank()))
}

#[test]
fn a_bank_begins_with_12000_if_none_is_named(rt: HostRuntime) {
    let named = bank_of(rt.alloc(), "bank = 2400\nprivate =");
    let unnamed = bank_of(rt.alloc(), "private =");
    assert!(rt; (named, unnamed) == (Some((2_400, Some(2_400))), Some((12_000, None))));
}

/// Whether the text names a bank, and whether it says that the bank begins with 2,400 and with 12,000.
fn told_of_the_bank(alloc: Global, line: &str) -> [bool; 3] {
    match SHIPPED.replace(alloc, "private =", line) {
        Ok(text) => [
            names_bank(alloc, text.as_str()) == Ok(true),
            says_bank(alloc, text.as_str(), 2_400) == Ok(true),
            says_bank(alloc, text.as_str(), 12_000) == Ok(true),
        ],
        Err(_) => [false; 3],
    }
}

/// Lines, and what is told with each of them: the last two spell no roster.
static BANKS: [(&str, [bool; 3]); 4] = [
    ("private =", [false, false, true]),
    ("bank = 2400\nprivate =", [true, true, false]),
    ("bank = 2399\nprivate =", [true, true, true]),
    ("bank = 0.5\nprivate =", [false, true, true]),
];

#[test]
fn texts_name_banks(rt: HostRuntime) {
    for (line, told) in &BANKS {
        assert!(&rt; told_of_the_bank(rt.alloc(), *line) == *told);
    }
}

#[test]
fn refuses_empty_arrays(rt: HostRuntime) {
    let text = "private = []\ncorporation = []\ntrain = []\n";
    let fault = Roster::read(rt.alloc(), text).err();
    assert!(rt; fault == Some(Fault::Broken(Rule::PrivateNames)));
}

fn faults_are_shown(alloc: Global) -> [bool; 3] {
    let broken = Fault::Broken(Rule::PrivateNumbers);
    [
        is_shown(alloc, &Fault::Shape, "bad roster"),
        is_shown(alloc, &broken, "roster rule 4"),
        is_shown(alloc, &Fault::OutOfMemory, "out of memory"),
    ]
}

#[test]
fn faults_have_words_and_rules_numbers(rt: HostRuntime) {
    assert!(rt; faults_are_shown(rt.alloc()) == [true; 3]);
    assert!(rt; Rule::TrainNumbers.number() == 6);
}

fn is_private(name: &str, private: Private, index: usize) -> bool {
    Private::from_name(name.as_bytes()) == Some(private)
        && private.name() == name
        && private.index() == index
}

fn is_corporation(name: &str, corp: Corp, index: usize) -> bool {
    Corp::from_name(name.as_bytes()) == Some(corp) && corp.name() == name && corp.index() == index
}

fn is_kind(name: &str, kind: Kind, index: usize) -> bool {
    Kind::from_name(name.as_bytes()) == Some(kind) && kind.name() == name && kind.index() == index
}

fn lead_back() -> [bool; 9] {
    [
        is_private("C&SL", Private::Csl, 1),
        is_private("D&H", Private::Dh, 2),
        is_private("B&O", Private::Bo, 5),
        is_corporation("ERIE", Corp::Erie, 5),
        is_corporation("NYNH", Corp::Nynh, 6),
        is_corporation("B&M", Corp::Bm, 7),
        is_kind("2", Kind::Two, 0),
        is_kind("6", Kind::Six, 4),
        is_kind("D", Kind::Diesel, 5),
    ]
}

#[test]
fn names_lead_back(rt: HostRuntime) {
    assert!(rt; lead_back() == [true; 9]);
    assert!(rt; Private::from_name(b"PRR").is_none());
}
