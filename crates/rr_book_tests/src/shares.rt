use crate::opening::{self, check, leave};
use rr_books::{Cert, Corp, Entry, Party, Place, Seat};
use rr_desk::{Desk, Position};
use rr_shares::laws::{
    heir_has_the_most, presidency_stays_with_a_seat, president_has_the_most, sales_move_shares,
    worked_heirs,
};
use rr_shares::{
    Handover, float, float_if_due, floats_now, give_lowest_shares, hand_over, handover_after_sale,
    handover_due, heir, percents, sell_shares, settle_presidency,
};
use std::process::Abort;

const A: Seat = Seat(0);

const B: Seat = Seat(1);

const PRR: Corp = Corp::Prr;

/// Gives so many 10% shares of the offer.
fn give_shares(rt: &impl Abort, desk: &mut Desk, count: u8, to: Seat) {
    give_lowest_shares(desk, PRR, count, Place::Offer, Place::Seat(to)).expect(rt, "memory");
}

fn give_presidency(rt: &impl Abort, desk: &mut Desk, to: Seat) {
    desk.push(Entry::Move {
        cert: Cert::President(PRR),
        to: Place::Seat(to),
    })
    .expect(rt, "memory");
}

/// A desk at a table of two players, at which `A` is the president of the PRR with 40% of it, and `B` has so many 10%
/// shares.
fn dealt(rt: &(impl Abort + AllocGlobal), count: u8) -> Desk {
    let mut desk = opening::desk(rt);
    give_presidency(rt, &mut desk, A);
    give_shares(rt, &mut desk, 2, A);
    give_shares(rt, &mut desk, count, B);
    desk
}

fn settle(rt: &impl Abort, desk: &mut Desk) {
    settle_presidency(desk, PRR).expect(rt, "memory");
}

fn sell(rt: &impl Abort, desk: &mut Desk, seller: Seat, count: u8) {
    sell_shares(desk, PRR, seller, count).expect(rt, "memory");
}

fn hand(rt: &impl Abort, desk: &mut Desk, handover: &Handover) {
    hand_over(desk, PRR, handover).expect(rt, "memory");
}

fn float_with(rt: &impl Abort, desk: &mut Desk, par: u16) {
    float(desk, PRR, par).expect(rt, "memory");
}

fn float_where_due(rt: &impl Abort, desk: &mut Desk, par: Option<u16>) {
    float_if_due(desk, PRR, par, false).expect(rt, "memory");
}

/// What the seats hold.
fn held(position: &Position) -> [u16; 6] {
    percents(position.books(), PRR)
}

/// What the corporation has.
fn cash(position: &Position) -> i64 {
    position.books().balance(Party::Corp(PRR)).0
}

/// How many certificates the two seats have.
fn counted(position: &Position) -> [u8; 2] {
    let books = position.books();
    [books.counted(A, PRR), books.counted(B, PRR)]
}

fn floats(desk: &Desk, floated: bool) -> bool {
    floats_now(desk.books(), PRR, Some(100), floated)
}

#[test]
fn an_equal_holder_does_not_take_over(rt: HostRuntime) {
    let rt = &rt;
    let mut desk = dealt(rt, 4);
    settle(rt, &mut desk);
    // no eighth entry
    let position = leave(rt, desk, 7, "[]");
    let found = (handover_due(position.books(), PRR), held(&position));
    check(rt, "handover", found, (None, [40, 40, 0, 0, 0, 0]));
}

#[test]
fn a_greater_holder_takes_over(rt: HostRuntime) {
    let rt = &rt;
    let mut desk = dealt(rt, 5);
    settle(rt, &mut desk);
    let position = leave(
        rt,
        desk,
        8,
        "[Move { cert: Share(Prr, Three), to: Seat(Seat(0)) }, Move { cert: Share(Prr, Four), to: Seat(Seat(0)) }, Move { cert: President(Prr), to: Seat(Seat(1)) }]",
    );
    let wanted = ([40, 50, 0, 0, 0, 0], [4, 4]);
    check(rt, "shares", (held(&position), counted(&position)), wanted);
}

#[test]
fn hands_the_presidency_over(rt: HostRuntime) {
    let rt = &rt;
    let mut desk = dealt(rt, 3);
    hand(rt, &mut desk, &Handover { from: A, to: B });
    let position = *desk.position();
    drop(desk);
    let found = (position.books().president(PRR), held(&position));
    check(rt, "president", found, (Some(B), [40, 30, 0, 0, 0, 0]));
}

#[test]
fn the_heir_is_the_nearest_on_the_left(rt: HostRuntime) {
    let rt = &rt;
    check(
        rt,
        "heir of B",
        heir(&[30, 20, 0, 30, 0, 0], 4, B),
        Some(Seat(3)),
    );
    check(
        rt,
        "heir of D",
        heir(&[30, 20, 40, 30, 0, 0], 4, Seat(3)),
        Some(Seat(2)),
    );
    check(rt, "no heir", heir(&[20, 20, 0, 10, 0, 0], 4, B), None);
}

#[test]
fn sells_shares_and_the_presidency_goes(rt: HostRuntime) {
    let rt = &rt;
    let mut desk = dealt(rt, 3);
    check(
        rt,
        "handover",
        handover_after_sale(desk.books(), PRR, A, 1),
        None,
    );
    sell(rt, &mut desk, A, 2);
    let position = leave(
        rt,
        desk,
        6,
        "[Move { cert: Share(Prr, Three), to: Seat(Seat(0)) }, Move { cert: Share(Prr, Four), to: Seat(Seat(0)) }, Move { cert: President(Prr), to: Seat(Seat(1)) }, Move { cert: Share(Prr, One), to: Pool }, Move { cert: Share(Prr, Two), to: Pool }]",
    );
    check(rt, "percents", held(&position), [20, 30, 0, 0, 0, 0]);
}

#[test]
fn floats_with_ten_times_its_par(rt: HostRuntime) {
    let rt = &rt;
    let mut desk = dealt(rt, 2);
    check(
        rt,
        "floats",
        [floats(&desk, false), floats(&desk, true)],
        [true, false],
    );
    float_where_due(rt, &mut desk, Some(100));
    let position = leave(
        rt,
        desk,
        5,
        "[Pay { from: Bank, to: Corp(Prr), amount: Money(1000) }, Step(Float(Prr))]",
    );
    check(rt, "cash", cash(&position), 1000);
}

#[test]
fn does_not_float_with_half_in_the_offer(rt: HostRuntime) {
    let rt = &rt;
    let mut desk = dealt(rt, 1);
    check(rt, "floats", floats(&desk, false), false);
    float_where_due(rt, &mut desk, None);
    float_with(rt, &mut desk, 67);
    // the fifth entry is of this float
    let position = leave(
        rt,
        desk,
        4,
        "[Pay { from: Bank, to: Corp(Prr), amount: Money(670) }, Step(Float(Prr))]",
    );
    check(rt, "cash", cash(&position), 670);
}

#[test]
fn laws_are_called() {
    presidency_stays_with_a_seat();
    heir_has_the_most();
    president_has_the_most();
    sales_move_shares();
    worked_heirs();
}
