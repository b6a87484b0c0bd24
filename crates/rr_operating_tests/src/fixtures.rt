//! What several of the tests share. The helpers have almost no contract, so that their callers' proofs stay small.
ghost use Rattle.std.specs.Prelude.{◌<◌, ◌≡◌, true};
ghost use Rattle.rr_books.specs.State.{party_index};
ghost use Rattle.rr_desk.specs.Position.Position.{Fits};
ghost use Rattle.rr_trains.specs.Depot.Small.{IsSmall};

use rr_books::{
    Act, Cell, Cert, Corp, Entry, Kind, Marker, Money, Party, Place, Refusal, Seat, Train,
};
use rr_desk::{Desk, Position};
use rr_kit::Kit;
use rr_roster::Roster;
use rr_roster::chart::Chart;
use rr_words::HexName;
use std::alloc::Global;
use std::process::Abort;

/// The usual numbers of the game.
pub(crate) const ROSTER: &str = r#"private = [
 {name="SV", face=20, income=5}, {name="C&SL", face=40, income=10},
 {name="D&H", face=70, income=15}, {name="M&H", face=110, income=20},
 {name="C&A", face=160, income=25}, {name="B&O", face=220, income=30}]
corporation = [
 {name="PRR", tokens=4}, {name="NYC", tokens=4}, {name="CPR", tokens=4},
 {name="B&O", tokens=3}, {name="C&O", tokens=3}, {name="ERIE", tokens=3},
 {name="NYNH", tokens=2}, {name="B&M", tokens=2}]
train = [
 {name="2", price=80, count=6}, {name="3", price=180, count=5},
 {name="4", price=300, count=4}, {name="5", price=450, count=3},
 {name="6", price=630, count=2}, {name="D", price=1100, count=6, trade=800}]
"#;

const SMALL: &str = "hex A 0,0 grey c20/1:5
hex B 1,0 yellow 2-5
hex C 2,0 grey t10:2,5
hex D 3,0 grey c30/1:2,5
hex E 4,0 red o40/40:2
home PRR A 1
home NYC D 1
";

pub(crate) const A: Seat = Seat(0);

pub(crate) const B: Seat = Seat(1);

pub(crate) fn roster(rt: &impl Abort, alloc: Global, text: &str) -> Roster {
    Roster::read(alloc, text).expect(rt, "a roster")
}

pub(crate) fn chart(rt: &impl Abort, alloc: Global, text: &str) -> Chart {
    Chart::read(alloc, text).expect(rt, "a chart")
}

/// The kit of these texts, with the usual numbers.
pub(crate) fn kit(rt: &impl Abort, alloc: Global, chart: &[u8], tiles: &[u8], board: &str) -> Kit {
    Kit::read(alloc, chart, ROSTER.as_bytes(), tiles, board.as_bytes()).expect(rt, "a kit")
}

/// The kit of the small board.
pub(crate) fn small_kit(rt: &impl Abort, alloc: Global) -> Kit {
    kit(rt, alloc, b"100p\n", b"yellow 7 x4 0-1\n", SMALL)
}

pub(crate) fn name(rt: &impl Abort, word: &[u8]) -> HexName {
    HexName::read(word).expect(rt, "a hex's name")
}

/// The position of a table of two to six players that opens with the usual numbers.
pub(crate) fn position(rt: &impl Abort, alloc: Global, players: u8) -> Position {
    assert!(rt; players >= 2);
    assert!(rt; players <= 6);
    Position::open(players, &roster(rt, alloc, ROSTER))
}

/// The number of the refusal, or 0.
pub(crate) fn number_of(verdict: Result<(), Refusal>) -> u8 {
    match verdict {
        Ok(()) => 0,
        Err(fault) => fault.number(),
    }
}

/// Whether the price is small, as that of each command of the tests is.
pub(crate) fn has_small_price(act: &Act) -> bool
    ensures { result ≡ true → IsSmall act.now }
{
    match act {
        Act::BuyTrainFrom { price, .. } => *price <= 10_000_000_000,
        Act::TakePrivate { price, .. } => *price <= 10_000_000_000,
        _ => true,
    }
}

/// What is done has succeeded.
pub(crate) fn succeed(rt: &impl Abort, done: Result<(), Refusal>) {
    done.expect(rt, "memory and room");
}

pub(crate) fn desk(rt: &impl Abort, alloc: Global, table: &Position) -> Desk {
    Desk::new(alloc, table).expect(rt, "memory")
}

/// How many entries the desk has added. The table is as it is behind them.
pub(crate) fn settle(desk: Desk, table: &mut Position) -> usize {
    let (position, entries) = desk.into_parts();
    *table = *position;
    entries.as_slice().len()
}

/// The table follows an entry. The helpers below give theirs away, so that it is dropped here alone.
pub(crate) fn follow(rt: &impl Abort, table: &mut Position, entry: Entry)
    requires { Fits table.old entry }
{
    succeed(rt, table.follow(&entry));
}

/// The bank pays so much.
pub(crate) fn fund(rt: &impl Abort, table: &mut Position, to: Party, amount: u16)
    requires { party_index to < 15 }
{
    let pay = Entry::Pay {
        from: Party::Bank,
        to,
        amount: Money(i64::from(amount)),
    };
    follow(rt, table, pay);
}

pub(crate) fn give(rt: &impl Abort, table: &mut Position, cert: Cert, to: Place) {
    follow(rt, table, Entry::Move { cert, to });
}

pub(crate) fn give_train(rt: &impl Abort, table: &mut Position, kind: Kind, number: u8, to: Place) {
    let train = Train { kind, number };
    assert!(rt; table.books().has_train(train));
    follow(rt, table, Entry::Train { train, to });
}

/// The first trains of the kind, as many as this, go to the place.
pub(crate) fn give_trains(rt: &impl Abort, table: &mut Position, kind: Kind, count: u8, to: Place) {
    for number in 1..=count {
        give_train(rt, table, kind, number, to);
    }
}

/// A token of the corporation stands in the first centre of a hex.
pub(crate) fn station(rt: &impl Abort, table: &mut Position, corp: Corp, hex: &[u8]) {
    let hex = name(rt, hex);
    let centre = 1;
    follow(rt, table, Entry::Station { corp, hex, centre });
}

/// The corporation's token is put on a cell of the chart.
pub(crate) fn mark(rt: &impl Abort, table: &mut Position, corp: Corp, row: u8, column: u8) {
    let cell = Cell { row, column };
    follow(rt, table, Entry::Mark { corp, cell });
}

/// The corporation floats, with its token on the first cell.
pub(crate) fn float(rt: &impl Abort, table: &mut Position, corp: Corp) {
    mark(rt, table, corp, 0, 0);
    follow(rt, table, Entry::Step(Marker::Float(corp)));
}

/// An operating round begins.
pub(crate) fn operate(rt: &impl Abort, table: &mut Position) {
    follow(rt, table, Entry::Step(Marker::Operating));
}

/// PRR at home on the small board.
pub(crate) fn at_home(rt: &impl Abort, alloc: Global) -> Position {
    let mut table = position(rt, alloc, 2);
    station(rt, &mut table, Corp::Prr, b"A");
    table
}

/// PRR at home on the small board, with a train of this kind.
pub(crate) fn with_train(rt: &impl Abort, alloc: Global, kind: Kind) -> Position {
    let mut table = at_home(rt, alloc);
    give_train(rt, &mut table, kind, 1, Place::Corp(Corp::Prr));
    table
}
