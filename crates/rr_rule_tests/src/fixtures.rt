//! What several of the tests share. The helpers have almost no contract, so that their callers' proofs stay small.
ghost use Rattle.rr_desk.specs.Position.Position.{Fits};

use rr_books::{Cert, Entry, Marker, Place, Seat};
use rr_desk::Position;
use rr_roster::Roster;
use rr_roster::chart::Chart;
use std::alloc::Global;
use std::process::Abort;

/// The usual numbers of the game.
pub(crate) const ROSTER: &str = r#"private = [
 {name="SV", face=20, income=5}, {name="C&SL", face=40, income=10},
 {name="D&H", face=70, income=15}, {name="M&H", face=110, income=20},
 {name="C&A", face=160, income=25}, {name="B&O", face=220, income=30}]
corporation = [
 {name="PRR", tokens=4}, {name="NYC", tokens=4}, {name="CPR", tokens=4},
 {name="B&O", tokens=3}, {name="C&O", tokens=3}, {name="ERIE", tokens=3},
 {name="NYNH", tokens=2}, {name="B&M", tokens=2}]
train = [
 {name="2", price=80, count=6}, {name="3", price=180, count=5},
 {name="4", price=300, count=4}, {name="5", price=450, count=3},
 {name="6", price=630, count=2}, {name="D", price=1100, count=6, trade=800}]
"#;

pub(crate) const A: Seat = Seat(0);

pub(crate) const B: Seat = Seat(1);

/// The roster of the usual numbers.
pub(crate) fn roster(rt: &impl Abort, alloc: Global) -> Roster {
    Roster::read(alloc, ROSTER).expect(rt, "a roster")
}

pub(crate) fn chart(rt: &impl Abort, alloc: Global, text: &str) -> Chart {
    Chart::read(alloc, text).expect(rt, "a chart")
}

/// The position of a table of two to six players that opens with the usual numbers.
pub(crate) fn position(rt: &impl Abort, alloc: Global, players: u8) -> Position {
    assert!(rt; players >= 2);
    assert!(rt; players <= 6);
    Position::open(players, &roster(rt, alloc))
}

/// The table follows an entry. The callers give theirs away, so that it is dropped here alone.
pub(crate) fn follow(rt: &impl Abort, table: &mut Position, entry: Entry)
    requires { Fits table.old entry }
{
    table.follow(&entry).expect(rt, "room");
}

pub(crate) fn give(rt: &impl Abort, table: &mut Position, cert: Cert, to: Place) {
    follow(rt, table, Entry::Move { cert, to });
}

pub(crate) fn begin_stock_round(rt: &impl Abort, table: &mut Position) {
    follow(rt, table, Entry::Step(Marker::Stock));
}
