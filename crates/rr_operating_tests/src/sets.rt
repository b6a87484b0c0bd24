//! What follows by itself on a round, on a board where PRR alone has a home.
use crate::fixtures::{
    A, desk, float, follow, give, give_train, kit, operate, position, settle, succeed,
};
use rr_books::{Act, Cert, Corp, Entry, Kind, Marker, Place, Private};
use rr_desk::{Desk, Position};
use rr_kit::Kit;
use rr_operate::sets::laws::{rounds_pass, worked_sets, worked_tokens};
use rr_operate::sets::{go_on_in_operating_round, go_on_in_stock_round};
use std::alloc::Global;
use std::process::Abort;

const BOARD: &str = "hex A 0,0 grey c20/1:5
home PRR A 1
";

// The calls below have no contracts, so that what a test does costs its proof little.

fn home_kit(rt: &impl Abort, alloc: Global) -> Kit {
    kit(rt, alloc, b"100p\n", b"yellow 7 x4 0-1\n", BOARD)
}

fn end_in_a_stock_round(entries: &[Entry]) -> bool {
    matches!(entries, [.., Entry::Step(Marker::Stock)])
}

fn end_with_a_token(entries: &[Entry]) -> bool {
    matches!(entries, [.., Entry::Station { .. }])
}

/// How many entries there are, and whether the last one begins a stock round or places a token.
type Added = (usize, bool, bool);

/// What a desk has added. The table is as it is behind that.
fn done(desk: Desk, table: &mut Position) -> Added {
    let entries = desk.entries().as_slice();
    let stock = end_in_a_stock_round(entries);
    let token = end_with_a_token(entries);
    (settle(desk, table), stock, token)
}

fn behind_stock_round(rt: &impl Abort, alloc: Global, table: &mut Position) -> Added {
    let mut desk = desk(rt, alloc, table);
    let went = go_on_in_stock_round(&mut desk, &home_kit(rt, alloc));
    succeed(rt, went);
    done(desk, table)
}

fn end_turn(rt: &impl Abort, table: &mut Position) {
    let end = Entry::Step(Marker::Act(Act::End { corp: Corp::Prr }));
    follow(rt, table, end);
}

fn behind_turn(rt: &impl Abort, alloc: Global, table: &mut Position) -> Added {
    end_turn(rt, table);
    let mut desk = desk(rt, alloc, table);
    let went = go_on_in_operating_round(&mut desk, &home_kit(rt, alloc));
    succeed(rt, went);
    done(desk, table)
}

/// Two players, of whom a has the SV; the first 3 is sold, so that a set has two rounds; a stock round is under way.
fn stock_round(rt: &impl Abort, alloc: Global) -> Position {
    let mut table = position(rt, alloc, 2);
    give_train(rt, &mut table, Kind::Three, 1, Place::Gone);
    give(rt, &mut table, Cert::Private(Private::Sv), Place::Seat(A));
    follow(rt, &mut table, Entry::Step(Marker::Stock));
    table
}

#[test]
fn nothing_follows_within_a_stock_round(rt: HostRuntime) {
    let mut table = stock_round(&rt, rt.alloc());
    let added = behind_stock_round(&rt, rt.alloc(), &mut table);
    assert!(rt; added == (0, false, false));
}

#[test]
fn rounds_without_a_corporation_pass(rt: HostRuntime) {
    let mut table = stock_round(&rt, rt.alloc());
    operate(&rt, &mut table);
    let added = behind_stock_round(&rt, rt.alloc(), &mut table);
    // An income, the second round with its income, the next stock round.
    assert!(rt; added == (4, true, false));
}

/// What is added behind the stock round and each of two turns, and how many tokens are on the board behind the first of
/// these.
fn set_of_two(rt: &impl Abort, alloc: Global, table: &mut Position) -> ([Added; 3], usize) {
    let begun = behind_stock_round(rt, alloc, table);
    let tokens = table.layout().stations().len();
    let second = behind_turn(rt, alloc, table);
    let last = behind_turn(rt, alloc, table);
    ([begun, second, last], tokens)
}

#[test]
fn a_set_of_two_rounds(rt: HostRuntime) {
    let mut table = stock_round(&rt, rt.alloc());
    float(&rt, &mut table, Corp::Prr);
    operate(&rt, &mut table);
    let (added, tokens) = set_of_two(&rt, rt.alloc(), &mut table);
    // The income, and PRR's token at home; the second round and its income, as PRR has its token; the stock round.
    assert!(rt; added == [(2, false, true), (2, false, false), (1, true, false)]);
    assert!(rt; tokens == 1);
}

#[test]
fn laws_are_called(_rt: HostRuntime) {
    worked_sets();
    worked_tokens();
    rounds_pass();
}
