//! Tables that have just opened.
use rr_books::{Books, Entry};
use rr_desk::{Desk, Position};
use rr_roster::Roster;
use std::fmt::Debug;
use std::process::Abort;

const ROSTER: &str = r#"private = [
 {name="SV", face=20, income=5}, {name="C&SL", face=40, income=10},
 {name="D&H", face=70, income=15}, {name="M&H", face=110, income=20},
 {name="C&A", face=160, income=25}, {name="B&O", face=220, income=30}]
corporation = [
 {name="PRR", tokens=4}, {name="NYC", tokens=4}, {name="CPR", tokens=4},
 {name="B&O", tokens=3}, {name="C&O", tokens=3}, {name="ERIE", tokens=3},
 {name="NYNH", tokens=2}, {name="B&M", tokens=2}]
train = [
 {name="2", price=80, count=6}, {name="3", price=180, count=5},
 {name="4", price=300, count=4}, {name="5", price=450, count=3},
 {name="6", price=630, count=2}, {name="D", price=1100, count=6, trade=800}]
"#;

pub(crate) fn roster(rt: &(impl Abort + AllocGlobal)) -> Roster {
    Roster::read(rt.alloc(), ROSTER).expect(rt, "a right roster")
}

/// The books of a table of so many players, from 2 to 6.
pub(crate) fn books(rt: &(impl Abort + AllocGlobal), players: u8) -> Books {
    assert!(rt; 2 <= players && players <= 6);
    Books::open(players, &roster(rt))
}

/// The position of a table of so many players, from 2 to 6.
pub(crate) fn position(rt: &(impl Abort + AllocGlobal), players: u8) -> Position {
    assert!(rt; 2 <= players && players <= 6);
    Position::open(players, &roster(rt))
}

/// A desk at a table of two players.
pub(crate) fn desk(rt: &(impl Abort + AllocGlobal)) -> Desk {
    Desk::new(rt.alloc(), &position(rt, 2)).expect(rt, "memory")
}

/// Stops where a value is not the one that is wanted. A function, so that this is proved once for all tests.
pub(crate) fn check<T: Copy + Debug + PartialEq>(rt: &impl Abort, what: &str, found: T, wanted: T) {
    assert_eq!(rt; found, wanted, "{what}");
}

/// Stops where the entries beyond the first ones are not written so by `Debug`.
pub(crate) fn check_entries(
    rt: &(impl Abort + AllocGlobal),
    entries: &[Entry],
    first: usize,
    wanted: &str,
) {
    let later = entries.get(first..).expect(rt, "so many entries");
    let written = format!(in rt.alloc(); "{later:?}").expect(rt, "memory");
    check(rt, "entries", written.as_str(), wanted);
}

/// The position that a desk leaves, whose entries beyond the first ones are to be written so by `Debug`. The desk is let
/// go here and in no test, so that this is proved once.
pub(crate) fn leave(
    rt: &(impl Abort + AllocGlobal),
    desk: Desk,
    first: usize,
    wanted: &str,
) -> Position {
    let (position, entries) = desk.into_parts();
    check_entries(rt, entries.as_slice(), first, wanted);
    *position
}
