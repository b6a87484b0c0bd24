//! The bids of an auction, entry by entry.
ghost use Rattle.std.specs.Prelude.{◌≡◌, ◌≤◌, true};
ghost use Rattle.rr_rounds.specs.Bids.Progress.{amount_bid};

use crate::opening::{books, check};
use rr_books::{Act, Books, Cert, Entry, Marker, Place, Private, Seat};
use rr_rounds::bids::{Bidding, cheapest, is_cheapest, is_unsold, same_private};
use std::process::Abort;

const A: Seat = Seat(0);

const B: Seat = Seat(1);

const C: Seat = Seat(2);

/// The bids after one entry more, which is let go here and in no test: that is proved once.
fn after(rt: &impl Abort, bidding: Bidding, entry: Entry, books: &Books) -> Bidding {
    let mut next = bidding;
    assert!(rt; next.commands() < 1000);
    assert!(rt; is_small(&entry));
    next.follow(&entry, books);
    drop(entry);
    next
}

fn is_small(entry: &Entry) -> bool
    ensures { result ≡ true → amount_bid entry.now ≤ 10000000000 }
{
    match entry {
        Entry::Step(Marker::Act(Act::Bid { amount, .. })) => *amount <= 10_000_000_000,
        Entry::Step(Marker::Act(_)) => true,
        Entry::Step(_) => true,
        _ => true,
    }
}

fn bid(seat: Seat, private: Private, amount: u64) -> Entry {
    Entry::Step(Marker::Act(Act::Bid {
        seat,
        private,
        amount,
    }))
}

fn pass(seat: Seat) -> Entry {
    Entry::Step(Marker::Act(Act::Pass { seat }))
}

/// A seat gets the B&O's private.
fn got(seat: Seat) -> Entry {
    Entry::Move {
        cert: Cert::Private(Private::Bo),
        to: Place::Seat(seat),
    }
}

/// Stops where the privates of a new table aren't all for sale.
fn check_privates(rt: &impl Abort, books: &Books) {
    check(rt, "cheapest", cheapest(books), Some(Private::Sv));
    check(rt, "SV", is_cheapest(Private::Sv, books), true);
    check(rt, "B&O", is_unsold(Private::Bo, books), true);
    check(rt, "same", same_private(Private::Bo, Private::Sv), false);
}

/// Stops where the B&O's private hasn't the bids 225 of `A` and 230 of `B`.
fn check_bids(rt: &impl Abort, bidding: &Bidding, books: &Books) {
    check(rt, "turn", bidding.turn(), C);
    check(rt, "bid of A", bidding.bid(Private::Bo, A), 225);
    check(rt, "highest", bidding.highest_bid(Private::Bo), 230);
    check(rt, "raiser", bidding.raiser(Private::Bo), Some(A));
    check(rt, "sole", bidding.sole_bidder(Private::Bo), None);
    check(rt, "raise due", bidding.raise_due(books), None);
}

#[test]
fn three_seats_bid_and_one_gets_a_private(rt: HostRuntime) {
    let rt = &rt;
    let books = books(rt, 3);
    check_privates(rt, &books);
    let bidding = Bidding::open();
    check(rt, "turn", bidding.turn(), A);
    let bidding = after(rt, bidding, bid(A, Private::Bo, 225), &books);
    let bidding = after(rt, bidding, bid(B, Private::Bo, 230), &books);
    check_bids(rt, &bidding, &books);
    let bidding = after(rt, bidding, got(C), &books);
    check(rt, "par due", bidding.par_due(), Some(C));
    check(rt, "priority", bidding.priority(), A);
    check(rt, "commands", bidding.commands(), 2);
}

#[test]
fn three_passes_lower_the_price(rt: HostRuntime) {
    let rt = &rt;
    let books = books(rt, 3);
    let mut bidding = Bidding::open();
    for seat in 0..3 {
        check(rt, "falls", bidding.falls(), 0);
        bidding = after(rt, bidding, pass(Seat(seat)), &books);
    }
    check(rt, "falls", bidding.falls(), 1);
    check(rt, "all pass", bidding.all_pass(3), false);
}
