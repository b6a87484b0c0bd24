//! The views of a position, which follow its entries together.
ghost use Rattle.std.specs.Prelude.{◌≤◌};
ghost use Rattle.rr_books.specs.State.{Fits};
ghost use Rattle.rr_rounds.specs.Bids.Progress.{amount_bid};

use crate::layout::hex;
use crate::opening::{check, position};
use rr_books::{Act, Cell, Corp, Entry, Kind, Marker, Place, Refusal, Seat, Train};
use rr_desk::Position;
use rr_desk::layout::MOST_LAYS;
use rr_desk::position::laws::most_entries;
use rr_market::operations::Stage;
use std::process::Abort;

/// Follows one entry more. It is let go here and in no test: that is proved once.
fn followed(table: &mut Position, entry: Entry) -> Result<(), Refusal>
    requires fits { Fits table.now.books entry }
    requires bid { amount_bid entry ≤ 10000000000 }
{
    let result = table.follow(&entry);
    drop(entry);
    result
}

pub(crate) fn follow(rt: &impl Abort, table: &mut Position, entry: Entry)
    requires fits { Fits table.now.books entry }
    requires bid { amount_bid entry ≤ 10000000000 }
{
    followed(table, entry).expect(rt, "room");
}

fn turn(table: &Position) -> Seat {
    table.bidding().turn()
}

/// Which set it is, which of its rounds, and how many it has.
fn round(table: &Position) -> (u64, u64, u8) {
    let operations = table.operations();
    (
        operations.set(),
        operations.round(),
        operations.set_length(),
    )
}

/// Gives the PRR a train.
fn give_train(rt: &impl Abort, table: &mut Position, train: Train) {
    assert!(rt; table.books().has_train(train));
    let to = Place::Corp(Corp::Prr);
    follow(rt, table, Entry::Train { train, to });
}

fn lay_tile(rt: &impl Abort, table: &mut Position) -> Result<(), Refusal> {
    let hex = hex(rt);
    let (tile, turn) = (57, 0);
    followed(table, Entry::Lay { hex, tile, turn })
}

/// Lays so many tiles.
fn lay_tiles(rt: &impl Abort, table: &mut Position, tiles: usize) {
    for _tile in 0..tiles {
        lay_tile(rt, table).expect(rt, "room");
    }
}

#[test]
fn each_view_follows_the_entries(rt: HostRuntime) {
    let rt = &rt;
    let mut table = position(rt, 3);
    check(rt, "turn", turn(&table), Seat(0));
    let seat = Seat(0);
    follow(rt, &mut table, Entry::Step(Marker::Act(Act::Pass { seat })));
    check(rt, "next turn", turn(&table), Seat(1));
    check(rt, "commands", table.bidding().commands(), 1);
    let cell = Cell { row: 2, column: 6 };
    let corp = Corp::Prr;
    follow(rt, &mut table, Entry::Mark { corp, cell });
    check(rt, "cell", table.market().cell(corp), Some(cell));
    follow(rt, &mut table, Entry::Step(Marker::Stock));
    check(rt, "round", table.rounds().is_under_way(), true);
    check(rt, "stage", table.operations().stage(), Stage::Stock);
    check(rt, "players", table.books().players(), 3);
}

#[test]
fn the_operating_rounds_follow_with_the_books(rt: HostRuntime) {
    let rt = &rt;
    let mut table = position(rt, 3);
    let train = Train {
        kind: Kind::Three,
        number: 1,
    };
    give_train(rt, &mut table, train);
    follow(rt, &mut table, Entry::Step(Marker::Operating));
    check(rt, "first round", round(&table), (1, 1, 2));
    follow(rt, &mut table, Entry::Step(Marker::Operating));
    check(rt, "second round", round(&table), (1, 2, 2));
}

#[test]
fn a_full_board_takes_no_tile(rt: HostRuntime) {
    let rt = &rt;
    let mut table = position(rt, 2);
    lay_tiles(rt, &mut table, MOST_LAYS);
    let more = lay_tile(rt, &mut table);
    check(rt, "one tile more", more, Err(Refusal::OutOfMemory));
    check(rt, "tiles", table.layout().lays().len(), 600);
}

#[test]
fn laws_are_called(_rt: HostRuntime) {
    most_entries();
}
