//! Two auctions, act by act.
ghost use Rattle.std.specs.Prelude.{◌≡◌, true};
ghost use Rattle.rr_auction.specs.Small.{IsSmall};

use crate::fixtures::{A, B, chart, roster};
use rr_auction::laws::{
    bids_are_the_last, first_price_falls_by_passes, free_private_is_bought, incomes_come_by_passes,
    money_stays, par_is_owed_by_the_buyer, priority_is_left_of_the_buyer,
    raisers_sit_left_of_the_highest, raising_goes_left, seat_in_turn_buys,
    turn_is_left_of_the_last, turns_are_counted, worked_auction, worked_tellings,
};
use rr_auction::{Due, asked, is_over, judge, open_table, play, turns};
use rr_books::{Act, Corp, Entry, Money, Party, Private, Refusal, Seat};
use rr_desk::Desk;
use rr_market::Market;
use rr_roster::Roster;
use rr_roster::chart::Chart;
use std::alloc::Global;
use std::process::Abort;

const CHART: &str = "76 82 100p
70 76 90p
";

// The calls below have almost no contracts, so that what a test does costs its proof little.

/// A desk of an auction, and what it goes by.
#[derive(Drop)]
struct Auction {
    roster: Roster,
    chart: Chart,
    desk: Desk,
}

impl Auction {
    /// An auction among so many players.
    fn open(rt: &impl Abort, alloc: Global, players: u8) -> Auction {
        assert!(rt; players >= 2);
        assert!(rt; players <= 6);
        let roster = roster(rt, alloc);
        let desk = Desk::new(alloc, &open_table(players, &roster)).expect(rt, "memory");
        let chart = chart(rt, alloc, CHART);
        Auction {
            roster,
            chart,
            desk,
        }
    }

    /// Takes an act, or says why it is refused.
    fn take(&mut self, rt: &impl Abort, act: &Act) -> Option<Refusal> {
        if let Err(fault) = judge(&self.roster, &self.chart, self.desk.position(), act) {
            return Some(fault);
        }
        assert!(rt; is_small(act));
        play(&self.roster, &self.chart, &mut self.desk, act).expect(rt, "memory");
        None
    }

    /// What is due, which private is asked at which price, and how many turns have ended.
    fn standing(&self) -> Standing {
        let position = self.desk.position();
        let asked = asked(position, &self.roster);
        (Due::of(position), asked, turns(position))
    }

    fn cash(&self, party: Party) -> i64 {
        self.desk.books().money(party, &self.roster).0
    }

    fn entries(&self) -> &[Entry] {
        self.desk.entries().as_slice()
    }

    /// The price of the B&O by the marks among its entries, once it is over.
    fn price_at_end(&self) -> Option<u16> {
        if !is_over(self.desk.position()) {
            return None;
        }
        price_after(self.entries(), &self.chart, Corp::Bo)
    }
}

/// What is due, which private is asked at which price, and how many turns have ended.
type Standing = (Due, Option<(Private, Money)>, u32);

fn is_small(act: &Act) -> bool
    ensures { result ≡ true → IsSmall act.now }
{
    match act {
        Act::BuyPrivate { seat } => seat.0 < 6,
        Act::Bid { amount, .. } => *amount <= 10_000_000_000,
        _ => true,
    }
}

/// The price of the corporation by the marks among these entries.
fn price_after(entries: &[Entry], chart: &Chart, corp: Corp) -> Option<u16> {
    let mut market = Market::new();
    for entry in entries {
        market.follow(entry);
    }
    market.price(chart, corp)
}

/// The last three entries, or all where there are fewer.
fn last_three(entries: &[Entry]) -> &[Entry] {
    match entries.get(entries.len().saturating_sub(3)..) {
        Some(last) => last,
        None => entries,
    }
}

/// Whether the entries are written so by `Debug`.
fn are_written(rt: &impl Abort, alloc: Global, entries: &[Entry], wanted: &str) -> bool {
    let written = format!(in alloc; "{entries:?}").expect(rt, "memory");
    written.as_str() == wanted
}

/// What a seat does.
#[derive(Clone, Copy)]
enum Order {
    /// It buys the cheapest private.
    Buy(Seat),
    /// B bids so much on the D&H.
    Bid(u64),
    /// B sets the B&O's par.
    Par(u64),
}

use Order::{Bid, Buy, Par};

fn act(order: Order) -> Act {
    match order {
        Buy(seat) => Act::BuyPrivate { seat },
        Bid(amount) => Act::Bid {
            seat: B,
            private: Private::Dh,
            amount,
        },
        Par(price) => Act::Par {
            seat: B,
            corp: Corp::Bo,
            price,
        },
    }
}

/// What is done in an auction, and what holds of it.
#[derive(Clone, Copy)]
enum Step {
    Stands(Standing),
    /// The order is taken.
    Takes(Order),
    /// It is refused for this.
    Refuses(Order, Refusal),
    /// The party has so much.
    Has(Party, i64),
    /// Its entries are written so by `Debug`.
    Wrote(&'static str),
    /// Its last three entries are.
    WroteLast(&'static str),
    /// It is over, and the B&O has this price.
    EndsAt(u16),
}

use Step::{EndsAt, Has, Refuses, Stands, Takes, Wrote, WroteLast};

fn is_right(rt: &impl Abort, alloc: Global, auction: &mut Auction, step: Step) -> bool {
    match step {
        Stands(standing) => auction.standing() == standing,
        Takes(order) => auction.take(rt, &act(order)).is_none(),
        Refuses(order, fault) => auction.take(rt, &act(order)) == Some(fault),
        Has(party, amount) => auction.cash(party) == amount,
        Wrote(wanted) => are_written(rt, alloc, auction.entries(), wanted),
        WroteLast(wanted) => are_written(rt, alloc, last_three(auction.entries()), wanted),
        EndsAt(price) => auction.price_at_end() == Some(price),
    }
}

/// Whether the steps go as they say in an auction among so many players.
fn goes_so(rt: &impl Abort, alloc: Global, players: u8, steps: &[Step]) -> bool {
    let mut auction = Auction::open(rt, alloc, players);
    let mut right = true;
    for step in steps {
        right = right && is_right(rt, alloc, &mut auction, *step);
    }
    right
}

static A_PURCHASE: [Step; 7] = [
    Stands((Due::Turn(A), Some((Private::Sv, Money(20))), 0)),
    Takes(Buy(A)),
    Stands((Due::Turn(B), Some((Private::Csl, Money(40))), 1)),
    Wrote(
        "[Step(Act(BuyPrivate { seat: Seat(0) })), Move { cert: Private(Sv), to: Seat(Seat(0)) }, \
         Pay { from: Seat(Seat(0)), to: Bank, amount: Money(20) }]",
    ),
    Has(Party::Seat(A), 580),
    Has(Party::Bank, 9620),
    Refuses(Bid(74), Refusal::BidTooLow(75)),
];

#[test]
fn a_purchase_and_a_bid_that_is_too_low(rt: HostRuntime) {
    assert!(rt; goes_so(&rt, rt.alloc(), 4, &A_PURCHASE));
}

/// Two players buy the six privates in turn, and the second of them gets the B&O's.
static A_PAR: [Step; 10] = [
    Takes(Buy(A)),
    Takes(Buy(B)),
    Takes(Buy(A)),
    Takes(Buy(B)),
    Takes(Buy(A)),
    Takes(Buy(B)),
    Refuses(Par(67), Refusal::NotAPar),
    Takes(Par(90)),
    WroteLast(
        "[Step(Act(Par { seat: Seat(1), corp: Bo, price: 90 })), \
         Mark { corp: Bo, cell: Cell { row: 1, column: 2 } }, Step(Stock)]",
    ),
    EndsAt(90),
];

#[test]
fn a_par_puts_the_token_on_the_chart(rt: HostRuntime) {
    assert!(rt; goes_so(&rt, rt.alloc(), 2, &A_PAR));
}

#[test]
fn laws_are_called() {
    money_stays();
    worked_auction();
    bids_are_the_last();
    priority_is_left_of_the_buyer();
    turn_is_left_of_the_last();
    first_price_falls_by_passes();
    worked_tellings();
    incomes_come_by_passes();
    raisers_sit_left_of_the_highest();
    raising_goes_left();
    par_is_owed_by_the_buyer();
    turns_are_counted();
    free_private_is_bought();
    seat_in_turn_buys();
}
