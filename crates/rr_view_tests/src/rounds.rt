//! Rounds of three seats, by entries made by hand.
use crate::opening::check;
use rr_books::{Act, Cert, Corp, Entry, Marker, Money, Party, Place, Private, Seat, ShareSource};
use rr_rounds::laws::{
    passes_are_in_a_row, priority_is_left_of_the_last, rounds_end_by_passes,
    sales_are_of_their_round, trades_break_the_row,
};
use rr_rounds::{Purchases, Rounds};
use std::process::Abort;

const A: Seat = Seat(0);

const B: Seat = Seat(1);

const C: Seat = Seat(2);

const PRR: Corp = Corp::Prr;

const NYC: Corp = Corp::Nyc;

/// What an entry says.
#[derive(Clone, Copy)]
enum Event {
    Stock,
    Operating,
    Float,
    Private(Seat),
    Par(Seat),
    Buy(Seat, ShareSource),
    Sell(Seat),
    Swap(Seat),
    Done(Seat),
}

use Event::{Buy, Done, Float, Operating, Par, Sell, Stock, Swap};

fn entry(event: Event) -> Entry {
    match event {
        Event::Stock => Entry::Step(Marker::Stock),
        Event::Operating => Entry::Step(Marker::Operating),
        Event::Float => Entry::Step(Marker::Float(NYC)),
        Event::Private(seat) => Entry::Move {
            cert: Cert::Private(Private::Sv),
            to: Place::Seat(seat),
        },
        other => Entry::Step(Marker::Act(command(other))),
    }
}

/// The command of an event; another event is none, and taken for a pass in the auction.
fn command(event: Event) -> Act {
    match event {
        Event::Par(seat) => Act::Par {
            seat,
            corp: PRR,
            price: 100,
        },
        Event::Buy(seat, source) => Act::BuyShare {
            seat,
            corp: PRR,
            source,
        },
        Event::Sell(seat) => Act::Sell {
            seat,
            corp: PRR,
            count: 1,
        },
        Event::Swap(seat) => Act::Swap {
            seat,
            source: ShareSource::Offer,
        },
        Event::Done(seat) => Act::Done { seat },
        _ => Act::Pass { seat: A },
    }
}

/// A table of three seats after these events.
fn after(rt: &impl Abort, events: &[Event]) -> Rounds {
    let mut rounds = Rounds::open(3);
    for event in events {
        follow(rt, &mut rounds, entry(*event));
    }
    rounds
}

/// Follows one entry more, at a table of few turns and rounds.
fn follow(rt: &impl Abort, rounds: &mut Rounds, entry: Entry) {
    let parts = rounds.parts();
    assert!(rt; parts.turns < 1000);
    assert!(rt; parts.begun < 1000);
    rounds.follow(&entry);
    drop(entry);
}

/// Whether a round is under way, and whether it is the first.
fn round(rounds: &Rounds) -> (bool, bool) {
    (rounds.is_under_way(), rounds.is_first())
}

/// The seat in turn, and the one with priority.
fn seats(rounds: &Rounds) -> (Seat, Seat) {
    (rounds.turn(), rounds.priority())
}

/// How many seats have passed in a row, and how many turns have ended.
fn counts(rounds: &Rounds) -> (u64, u64) {
    (rounds.passes(), rounds.turns())
}

/// Whether the seat in turn has traded, and whether its `done` ends the round.
fn trading(rounds: &Rounds) -> (bool, bool) {
    (rounds.parts().traded, rounds.ends_with_done())
}

fn allows(rounds: &Rounds, corp: Corp, source: ShareSource, in_brown: bool) -> bool {
    rounds.may_buy_again(corp, source, in_brown)
}

fn sold(rounds: &Rounds, seat: Seat, corp: Corp) -> bool {
    rounds.has_sold(seat, corp)
}

#[test]
fn a_par_is_a_purchase(rt: HostRuntime) {
    let rt = &rt;
    let rounds = after(rt, &[Stock, Par(A)]);
    check(rt, "round", round(&rounds), (true, true));
    check(rt, "trading", trading(&rounds), (true, false));
    check(rt, "purchases", rounds.purchases(), Purchases::Other);
    check(rt, "seats", seats(&rounds), (A, B));
}

#[test]
fn the_first_round_ends_when_all_pass_after_a_par(rt: HostRuntime) {
    let rt = &rt;
    let rounds = after(rt, &[Stock, Par(A), Done(A), Done(B), Done(C)]);
    check(rt, "trading", trading(&rounds), (false, true));
    check(rt, "purchases", rounds.purchases(), Purchases::Nothing);
    check(rt, "seats", seats(&rounds), (A, B));
    check(rt, "counts", counts(&rounds), (2, 3));
}

#[test]
fn the_second_round_begins_with_priority(rt: HostRuntime) {
    let rt = &rt;
    let rounds = after(rt, &[Stock, Par(A), Done(A), Operating, Stock]);
    check(rt, "round", round(&rounds), (true, false));
    check(rt, "seats", seats(&rounds), (B, B));
    check(rt, "counts", counts(&rounds), (0, 1));
}

#[test]
fn a_sale_is_remembered_in_its_round(rt: HostRuntime) {
    let rt = &rt;
    let rounds = after(rt, &[Stock, Sell(B), Done(B), Swap(C), Done(C)]);
    let have_sold = [
        sold(&rounds, B, PRR),
        sold(&rounds, C, PRR),
        sold(&rounds, B, NYC),
        sold(&rounds, Seat(6), PRR),
    ];
    check(rt, "sold", have_sold, [true, false, false, false]);
    check(rt, "seats", seats(&rounds), (A, C));
    check(rt, "counts", counts(&rounds), (1, 2));
}

#[test]
fn a_sale_is_forgotten_in_the_next_round(rt: HostRuntime) {
    let rt = &rt;
    let rounds = after(rt, &[Stock, Sell(B), Operating, Stock]);
    check(rt, "sold", sold(&rounds, B, PRR), false);
    check(rt, "turn", rounds.turn(), C);
}

#[test]
fn a_swap_alone_is_a_pass(rt: HostRuntime) {
    let rt = &rt;
    let rounds = after(rt, &[Stock, Done(A), Done(B), Swap(C)]);
    check(rt, "trading", trading(&rounds), (false, true));
    check(rt, "purchases", rounds.purchases(), Purchases::Nothing);
    check(rt, "seats", seats(&rounds), (C, A));
}

#[test]
fn the_last_that_got_a_private_gives_priority_to_its_left(rt: HostRuntime) {
    let rt = &rt;
    let auction = [
        Event::Private(A),
        Event::Private(C),
        Event::Private(B),
        Par(A),
        Done(A),
    ];
    let rounds = after(rt, &auction);
    check(rt, "round", round(&rounds), (false, false));
    check(
        rt,
        "priority and turns",
        (rounds.priority(), rounds.turns()),
        (C, 0),
    );
    let begun = after(rt, &[Event::Private(B), Event::Private(C), Stock]);
    check(rt, "seats", seats(&begun), (A, A));
}

#[test]
fn a_turn_may_hold_several_buys_from_the_pool(rt: HostRuntime) {
    let rt = &rt;
    let pool = Buy(A, ShareSource::Pool);
    let rounds = after(rt, &[Stock, pool, pool]);
    check(rt, "purchases", rounds.purchases(), Purchases::PoolOf(PRR));
    let allowed = [
        allows(&rounds, PRR, ShareSource::Pool, true),
        allows(&rounds, PRR, ShareSource::Pool, false),
        allows(&rounds, PRR, ShareSource::Offer, true),
        allows(&rounds, NYC, ShareSource::Pool, true),
    ];
    check(rt, "allowed", allowed, [true, false, false, false]);
    let ended = after(rt, &[Stock, pool, Done(A)]);
    let allowed = allows(&ended, NYC, ShareSource::Offer, false);
    check(rt, "allowed then", allowed, true);
}

#[test]
fn a_turn_holds_one_buy_from_the_offer(rt: HostRuntime) {
    let rt = &rt;
    let rounds = after(rt, &[Stock, Buy(A, ShareSource::Offer)]);
    check(rt, "purchases", rounds.purchases(), Purchases::Other);
    let allowed = allows(&rounds, PRR, ShareSource::Pool, true);
    check(rt, "allowed", allowed, false);
}

#[test]
fn a_float_is_remembered(rt: HostRuntime) {
    let rounds = after(&rt, &[Stock, Float, Operating, Stock]);
    let floated = [rounds.has_floated(NYC), rounds.has_floated(PRR)];
    check(&rt, "floated", floated, [true, false]);
}

/// A table before its first entry, after a payment to `B` that opens it and a private for `B`.
fn opened_by_payment(rt: &impl Abort) -> Rounds {
    let payment = Entry::Pay {
        from: Party::Bank,
        to: Party::Seat(B),
        amount: Money(1200),
    };
    let mut rounds = Rounds::new();
    follow(rt, &mut rounds, payment);
    follow(rt, &mut rounds, entry(Event::Private(B)));
    rounds
}

#[test]
fn a_table_has_the_seats_that_are_paid(rt: HostRuntime) {
    let rt = &rt;
    check(rt, "priority", opened_by_payment(rt).priority(), A);
}

#[test]
fn laws_are_called() {
    passes_are_in_a_row();
    trades_break_the_row();
    rounds_end_by_passes();
    sales_are_of_their_round();
    priority_is_left_of_the_last();
}
