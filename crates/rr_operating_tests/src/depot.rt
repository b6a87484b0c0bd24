//! What corporations buy besides tiles and tokens, and what they give up over their limit.
use crate::fixtures::{
    A, B, ROSTER, desk, fund, give, give_train, give_trains, has_small_price, number_of, position,
    roster, settle, succeed,
};
use rr_books::{
    Act, Cert, Corp, Entry, Kind, Marker, Party, Place, Private, Seat, Train, TrainSource,
};
use rr_desk::{Desk, Position};
use rr_roster::Roster;
use rr_trains::depot::laws::{
    bank_sells_in_order, nobody_overspends, over_is_of_some_corporation,
    privates_go_at_fair_prices, purchases_keep_the_limit, worked_discard, worked_first_four,
    worked_private, worked_sale, worked_trade,
};
use rr_trains::depot::{is_over_limit_somewhere, judge, play};
use std::alloc::Global;
use std::process::Abort;

const BO: Corp = Corp::Bo;

const ERIE: Corp = Corp::Erie;

const NYC: Corp = Corp::Nyc;

const PRR: Corp = Corp::Prr;

const AT_NYC: Place = Place::Corp(NYC);

/// A command.
#[derive(Clone, Copy)]
enum Order {
    Buy(Corp, Kind, TrainSource),
    /// The B&O buys a 3 of the ERIE at a price, by its own president and the ERIE's.
    BuyOfErie(u64, Seat, Seat),
    Take(Corp, Private, u64),
    Trade(Kind),
    /// The ERIE gives up a 3.
    Discard,
}

use Order::{Buy, BuyOfErie, Discard, Take, Trade};

// The calls below have no contracts, so that what a test does costs its proof little.

fn command(order: Order) -> Act {
    match order {
        Buy(corp, kind, source) => Act::BuyTrain { corp, kind, source },
        BuyOfErie(price, president, seller_president) => {
            purchase(price, president, seller_president)
        }
        Take(corp, private, price) => Act::TakePrivate {
            corp,
            private,
            price,
        },
        Trade(kind) => Act::Trade { corp: NYC, kind },
        Discard => Act::Discard {
            corp: ERIE,
            kind: Kind::Three,
        },
    }
}

fn purchase(price: u64, president: Seat, seller_president: Seat) -> Act {
    Act::BuyTrainFrom {
        corp: BO,
        kind: Kind::Three,
        seller: ERIE,
        price,
        president,
        seller_president,
    }
}

/// The NYC has all 2s but three, which the PRR has, the ERIE four 3s, the pool the last one.
fn before_first_four(rt: &impl Abort, alloc: Global) -> Position {
    let mut table = position(rt, alloc, 2);
    give_trains(rt, &mut table, Kind::Two, 6, AT_NYC);
    give_trains(rt, &mut table, Kind::Two, 3, Place::Corp(PRR));
    give_trains(rt, &mut table, Kind::Three, 5, Place::Pool);
    give_trains(rt, &mut table, Kind::Three, 4, Place::Corp(ERIE));
    table
}

/// The number of the refusal of a command, or 0.
fn fault(roster: &Roster, table: &Position, order: Order) -> u8 {
    number_of(judge(roster, table, &command(order)))
}

fn begins_with_words(entries: &[Entry]) -> bool {
    matches!(entries, [Entry::Step(Marker::Act(_)), ..])
}

fn add(rt: &impl Abort, roster: &Roster, desk: &mut Desk, act: &Act) {
    assert!(rt; has_small_price(act));
    succeed(rt, play(roster, desk, act));
}

/// How many entries a command adds, and whether its words come first. The table is as it is behind it.
fn added(
    rt: &impl Abort,
    alloc: Global,
    roster: &Roster,
    table: &mut Position,
    order: Order,
) -> (usize, bool) {
    let mut desk = desk(rt, alloc, table);
    add(rt, roster, &mut desk, &command(order));
    let words = begins_with_words(desk.entries().as_slice());
    (settle(desk, table), words)
}

/// What comes of a command, and what holds of a table.
#[derive(Clone, Copy)]
enum Step {
    /// The command is refused by the fault of this number, or allowed where it is 0.
    Gets(Order, u8),
    /// The command adds its words and so many entries in all, and the next step is behind it.
    Adds(Order, usize),
    /// The corporation or player has so much.
    Has(Party, i64),
    /// The train of this kind and number is there.
    Holds(Kind, u8, Place),
    /// The private is there.
    Owns(Private, Place),
    /// Whether a corporation is over its limit.
    IsOver(bool),
}

use Step::{Adds, Gets, Has, Holds, IsOver, Owns};

fn is_right(
    rt: &impl Abort,
    alloc: Global,
    roster: &Roster,
    table: &mut Position,
    step: Step,
) -> bool {
    match step {
        Gets(order, number) => fault(roster, table, order) == number,
        Adds(order, count) => added(rt, alloc, roster, table, order) == (count, true),
        Has(party, amount) => table.books().balance(party).0 == amount,
        Holds(kind, number, place) => {
            table.books().train_holder(Train { kind, number }) == Some(place)
        }
        Owns(private, place) => table.books().holder(Cert::Private(private)) == place,
        IsOver(wanted) => is_over_limit_somewhere(table) == wanted,
    }
}

/// Whether the steps go as they say, one behind the other.
fn goes_so(rt: &impl Abort, alloc: Global, table: &mut Position, steps: &[Step]) -> bool {
    let roster = roster(rt, alloc, ROSTER);
    for step in steps {
        if !is_right(rt, alloc, &roster, table, *step) {
            return false;
        }
    }
    true
}

static FIRST_FOUR: [Step; 7] = [
    IsOver(false),
    Gets(Buy(NYC, Kind::Four, TrainSource::Bank), 0),
    Adds(Buy(NYC, Kind::Four, TrainSource::Bank), 9),
    Has(Party::Corp(NYC), 0),
    Holds(Kind::Four, 1, AT_NYC),
    Holds(Kind::Two, 6, Place::Gone),
    IsOver(true),
];

#[test]
fn the_first_four_ends_the_twos(rt: HostRuntime) {
    let mut table = before_first_four(&rt, rt.alloc());
    fund(&rt, &mut table, Party::Corp(NYC), 300);
    assert!(rt; goes_so(&rt, rt.alloc(), &mut table, &FIRST_FOUR));
}

static WITHIN_THE_LIMIT: [Step; 1] = [Gets(Discard, 42)];

static OVER_THE_LIMIT: [Step; 5] = [
    Gets(Discard, 0),
    Adds(Discard, 2),
    Holds(Kind::Three, 1, Place::Pool),
    IsOver(false),
    Gets(Discard, 42),
];

#[test]
fn a_train_too_many_goes_to_the_pool(rt: HostRuntime) {
    let mut table = before_first_four(&rt, rt.alloc());
    assert!(rt; goes_so(&rt, rt.alloc(), &mut table, &WITHIN_THE_LIMIT));
    give_train(&rt, &mut table, Kind::Four, 1, Place::Corp(Corp::Co));
    assert!(rt; goes_so(&rt, rt.alloc(), &mut table, &OVER_THE_LIMIT));
}

static PURCHASES: [Step; 5] = [
    Gets(Buy(PRR, Kind::Four, TrainSource::Bank), 2),
    Gets(Buy(PRR, Kind::Three, TrainSource::Pool), 0),
    Gets(Buy(PRR, Kind::Three, TrainSource::Bank), 44),
    Gets(Buy(PRR, Kind::Five, TrainSource::Bank), 44),
    Gets(Buy(ERIE, Kind::Three, TrainSource::Pool), 43),
];

#[test]
fn what_bank_and_pool_refuse(rt: HostRuntime) {
    let mut table = before_first_four(&rt, rt.alloc());
    fund(&rt, &mut table, Party::Corp(PRR), 299);
    assert!(rt; goes_so(&rt, rt.alloc(), &mut table, &PURCHASES));
}

/// The NYC has all 4s, the C&O the first 6.
fn with_six(rt: &impl Abort, alloc: Global) -> Position {
    let mut table = position(rt, alloc, 2);
    give_trains(rt, &mut table, Kind::Four, 4, AT_NYC);
    give_train(rt, &mut table, Kind::Six, 1, Place::Corp(Corp::Co));
    fund(rt, &mut table, Party::Corp(NYC), 800);
    table
}

/// Behind the trade the 4s are gone, and the NYC has the first diesel.
static TRADES: [Step; 9] = [
    Gets(Trade(Kind::Four), 0),
    Gets(Trade(Kind::Three), 44),
    Gets(Trade(Kind::Five), 44),
    Adds(Trade(Kind::Four), 7),
    Holds(Kind::Four, 1, Place::Gone),
    Holds(Kind::Four, 4, Place::Gone),
    Holds(Kind::Diesel, 1, AT_NYC),
    Has(Party::Corp(NYC), 0),
    Gets(Trade(Kind::Four), 44),
];

#[test]
fn a_four_is_handed_in_for_a_diesel(rt: HostRuntime) {
    let mut table = with_six(&rt, rt.alloc());
    assert!(rt; goes_so(&rt, rt.alloc(), &mut table, &TRADES));
}

/// Who leads, and who has which private.
static LEADS: [(Cert, Place); 4] = [
    (Cert::President(ERIE), Place::Seat(A)),
    (Cert::President(BO), Place::Seat(B)),
    (Cert::Private(Private::Sv), Place::Seat(A)),
    (Cert::Private(Private::Bo), Place::Seat(B)),
];

/// A leads the ERIE, which has four 3s, B the B&O; A has the SV, B the B&O's private. The B&O has 100 dollars.
fn with_presidents(rt: &impl Abort, alloc: Global) -> Position {
    let mut table = before_first_four(rt, alloc);
    for (cert, to) in &LEADS {
        give(rt, &mut table, *cert, *to);
    }
    fund(rt, &mut table, Party::Corp(BO), 100);
    table
}

static AGREED: [Step; 9] = [
    Gets(BuyOfErie(100, B, A), 0),
    Gets(BuyOfErie(101, B, A), 2),
    Gets(BuyOfErie(100, A, A), 20),
    Gets(BuyOfErie(100, B, B), 20),
    Gets(BuyOfErie(0, B, A), 45),
    Adds(BuyOfErie(100, B, A), 4),
    Holds(Kind::Three, 1, Place::Corp(BO)),
    Has(Party::Corp(ERIE), 100),
    Owns(Private::Bo, Place::Gone),
];

#[test]
fn presidents_agree_on_a_train(rt: HostRuntime) {
    let mut table = with_presidents(&rt, rt.alloc());
    assert!(rt; goes_so(&rt, rt.alloc(), &mut table, &AGREED));
}

static TAKEN: [Step; 10] = [
    Gets(Take(BO, Private::Sv, 10), 0),
    Gets(Take(BO, Private::Sv, 9), 45),
    Gets(Take(BO, Private::Sv, 41), 45),
    Gets(Take(ERIE, Private::Sv, 40), 2),
    Gets(Take(BO, Private::Bo, 220), 22),
    Gets(Take(BO, Private::Csl, 40), 22),
    Adds(Take(BO, Private::Sv, 40), 3),
    Has(Party::Seat(A), 1240),
    Has(Party::Corp(BO), 60),
    Owns(Private::Sv, Place::Corp(BO)),
];

#[test]
fn a_private_goes_for_half_to_twice_its_face(rt: HostRuntime) {
    let mut table = with_presidents(&rt, rt.alloc());
    assert!(rt; goes_so(&rt, rt.alloc(), &mut table, &TAKEN));
}

#[test]
fn laws_are_called(_rt: HostRuntime) {
    purchases_keep_the_limit();
    bank_sells_in_order();
    privates_go_at_fair_prices();
    nobody_overspends();
    over_is_of_some_corporation();
    worked_first_four();
    worked_discard();
    worked_trade();
    worked_sale();
    worked_private();
}
