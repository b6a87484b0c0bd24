//! A corporation that must own a train and can't pay it.
ghost use Rattle.std.specs.Prelude.{◌≡◌, true};
ghost use Rattle.rr_rules.specs.Forced.Small.{IsSmall};

use crate::fixtures::{
    A, B, desk, float, follow, fund, give, give_trains, kit, mark, number_of, operate, position,
    settle, station, succeed,
};
use rr_books::{
    Act, Cert, Corp, Entry, Kind, Marker, Money, Party, Place, Seat, ShareNumber, TrainSource,
};
use rr_desk::{Desk, Position};
use rr_kit::Kit;
use rr_operate::owes_train;
use rr_rules::forced::laws::{
    one_share_suffices, worked_bankruptcy, worked_force, worked_presidency, worked_raise,
};
use rr_rules::forced::{Need, TrainOnSale, judge, needed_train, play};
use std::alloc::Global;
use std::process::Abort;

const BOARD: &str = "hex A 0,0 grey c20/1:5
hex B 1,0 yellow 2-5
hex C 2,0 grey t10:2
home PRR A 1
";

const TILES: &[u8] = b"yellow 7 x4 0-1
";

const PRR: Corp = Corp::Prr;

const NYC: Corp = Corp::Nyc;

/// A command.
#[derive(Clone, Copy)]
enum Order {
    Force(Corp),
    Raise(Seat, Corp, u64),
    Bankrupt(Seat),
}

use Order::{Bankrupt, Force, Raise};

// The calls below have no contracts, so that what a test does costs its proof little.

fn command(order: Order) -> Act {
    match order {
        Force(corp) => Act::Force { corp },
        Raise(seat, corp, count) => Act::Raise { seat, corp, count },
        Bankrupt(seat) => Act::Bankrupt { seat },
    }
}

/// Whether the seat and the number are small, as those of each of these commands are.
fn is_small(act: &Act) -> bool
    ensures { result ≡ true → IsSmall act.now }
{
    match act {
        Act::Raise { seat, count, .. } => seat.0 < 6 && *count <= 10,
        _ => true,
    }
}

fn need_kit(rt: &impl Abort, alloc: Global) -> Kit {
    kit(rt, alloc, b"100p\n90\n", TILES, BOARD)
}

/// A 10% certificate of the corporation goes to a place.
fn share(rt: &impl Abort, table: &mut Position, corp: Corp, number: ShareNumber, to: Place) {
    give(rt, table, Cert::Share(corp, number), to);
}

/// A seat that opens with 1,200 dollars at a table of two has so much.
fn leave(rt: &impl Abort, table: &mut Position, amount: u16) {
    let spent = Entry::Pay {
        from: Party::Seat(A),
        to: Party::Bank,
        amount: Money(1200),
    };
    follow(rt, table, spent);
    fund(rt, table, Party::Seat(A), amount);
}

fn hold(rt: &impl Abort, table: &mut Position, corp: Corp) {
    follow(rt, table, Entry::Step(Marker::Act(Act::Hold { corp })));
}

/// PRR has 50 dollars, its token in A, no train and may buy one; the first seat is its president.
fn in_need(rt: &impl Abort, alloc: Global, amount: u16) -> Position {
    let mut table = position(rt, alloc, 2);
    fund(rt, &mut table, Party::Corp(PRR), 50);
    leave(rt, &mut table, amount);
    give(rt, &mut table, Cert::President(PRR), Place::Seat(A));
    station(rt, &mut table, PRR, b"A");
    float(rt, &mut table, PRR);
    operate(rt, &mut table);
    hold(rt, &mut table, PRR);
    table
}

/// The number of the fault of the command, or 0.
fn fault(alloc: Global, kit: &Kit, table: &Position, order: Order) -> u8 {
    number_of(judge(alloc, kit, table, &command(order)))
}

fn add(rt: &impl Abort, kit: &Kit, desk: &mut Desk, act: &Act) {
    assert!(rt; is_small(act));
    succeed(rt, play(kit.roster(), kit.chart(), desk, act));
}

/// How many entries a command adds. The table is as it is behind it.
fn added(rt: &impl Abort, alloc: Global, kit: &Kit, table: &mut Position, order: Order) -> usize {
    let mut desk = desk(rt, alloc, table);
    add(rt, kit, &mut desk, &command(order));
    settle(desk, table)
}

/// The train that the corporation due must buy, if one must.
fn need(rt: &impl Abort, alloc: Global, kit: &Kit, table: &Position) -> Option<Need> {
    needed_train(alloc, kit, table).expect(rt, "memory")
}

fn owes(rt: &impl Abort, alloc: Global, kit: &Kit, table: &Position, corp: Corp) -> bool {
    owes_train(alloc, kit, table, corp).expect(rt, "memory")
}

const TWO: TrainOnSale = TrainOnSale {
    kind: Kind::Two,
    source: TrainSource::Bank,
};

/// The price of the 2-train that the corporation due must buy, what it lacks, and what it and its president lack.
fn amounts(rt: &impl Abort, alloc: Global, kit: &Kit, table: &Position) -> Option<[u64; 3]> {
    let need = need(rt, alloc, kit, table)?;
    assert!(rt; need.train == TWO && owes(rt, alloc, kit, table, need.corp));
    Some([need.price, need.lack, need.shortfall])
}

/// How much of the NYC is in the pool, and its price.
fn told_of_nyc(kit: &Kit, table: &Position) -> (u8, Option<u16>) {
    let share = table.books().share(Place::Pool, NYC);
    (share, table.market().price(kit.chart(), NYC))
}

/// What holds of a table, and what comes of a command.
#[derive(Clone, Copy)]
enum Step {
    /// A 2-train must be bought: its price, what the corporation due lacks, and what it and its president lack; or none.
    Needs(Option<[u64; 3]>),
    /// The command has the fault of this number, or none where it is 0.
    Gets(Order, u8),
    /// The command adds so many entries, and the next step is behind it.
    Adds(Order, usize),
    /// The party has so much.
    Has(Party, i64),
    /// So much of the NYC is in the pool, and this is its price.
    Shows(u8, Option<u16>),
    /// A 10% certificate of the corporation goes to a place.
    Gives(Corp, ShareNumber, Place),
    /// Whether a president is bankrupt.
    IsBankrupt(bool),
}

use Step::{Adds, Gets, Gives, Has, IsBankrupt, Needs, Shows};

fn is_right(rt: &impl Abort, alloc: Global, kit: &Kit, table: &mut Position, step: Step) -> bool {
    match step {
        Needs(wanted) => amounts(rt, alloc, kit, table) == wanted,
        Gets(order, number) => fault(alloc, kit, table, order) == number,
        Adds(order, count) => added(rt, alloc, kit, table, order) == count,
        Has(party, amount) => table.books().balance(party).0 == amount,
        Shows(share, price) => told_of_nyc(kit, table) == (share, price),
        Gives(corp, number, to) => {
            share(rt, table, corp, number, to);
            true
        }
        IsBankrupt(wanted) => table.operations().is_bankrupt() == wanted,
    }
}

/// Whether the steps go as they say, one behind the other.
fn goes_so(rt: &impl Abort, alloc: Global, table: &mut Position, steps: &[Step]) -> bool {
    let kit = need_kit(rt, alloc);
    let mut right = true;
    for step in steps {
        right = right && is_right(rt, alloc, &kit, table, *step);
    }
    right
}

static FORCED: [Step; 8] = [
    Needs(Some([80, 30, 0])),
    Gets(Force(PRR), 0),
    Gets(Force(NYC), 42),
    // Words, the president's payment, the train, and its price.
    Adds(Force(PRR), 4),
    Has(Party::Corp(PRR), 0),
    Has(Party::Seat(A), 10),
    Gets(Force(PRR), 42),
    Needs(None),
];

#[test]
fn the_president_adds_what_is_lacking(rt: HostRuntime) {
    let alloc = rt.alloc();
    let mut table = in_need(&rt, alloc, 40);
    assert!(rt; goes_so(&rt, alloc, &mut table, &FORCED));
}

static LACKING_FIVE: [Step; 2] = [Needs(Some([80, 30, 5])), Gets(Force(PRR), 2)];

static LACKING_NOTHING: [Step; 1] = [Gets(Force(PRR), 42)];

#[test]
fn a_president_with_too_little_is_refused(rt: HostRuntime) {
    let alloc = rt.alloc();
    let mut table = in_need(&rt, alloc, 25);
    assert!(rt; goes_so(&rt, alloc, &mut table, &LACKING_FIVE));
    fund(&rt, &mut table, Party::Corp(PRR), 30);
    assert!(rt; goes_so(&rt, alloc, &mut table, &LACKING_NOTHING));
}

/// PRR's president has 25 dollars and a share of the NYC, which stands at 100.
fn with_a_share(rt: &impl Abort, alloc: Global) -> Position {
    let mut table = in_need(rt, alloc, 25);
    mark(rt, &mut table, NYC, 0, 0);
    share(rt, &mut table, NYC, ShareNumber::One, Place::Seat(A));
    table
}

/// Before the sale, B isn't the president; A has one share of the NYC, and nobody else has 20% of the PRR; and A isn't
/// bankrupt.
static A_SALE: [Step; 13] = [
    Gets(Raise(B, NYC, 1), 20),
    Gets(Raise(A, NYC, 2), 22),
    Gets(Raise(A, NYC, 0), 22),
    Gets(Raise(A, PRR, 1), 22),
    Gets(Bankrupt(A), 50),
    Gets(Bankrupt(B), 20),
    Gets(Raise(A, NYC, 1), 0),
    // Words, the share, the payment, and the mark.
    Adds(Raise(A, NYC, 1), 4),
    Has(Party::Seat(A), 125),
    Shows(10, Some(90)),
    // 125 and 50 suffice for 80.
    Gets(Raise(A, PRR, 1), 48),
    Gets(Bankrupt(A), 50),
    Gets(Force(PRR), 0),
];

#[test]
fn a_president_sells_shares_for_a_train(rt: HostRuntime) {
    let alloc = rt.alloc();
    let mut table = with_a_share(&rt, alloc);
    assert!(rt; goes_so(&rt, alloc, &mut table, &A_SALE));
}

static FULL_POOL: [Step; 8] = [
    Gives(NYC, ShareNumber::Two, Place::Pool),
    Gives(NYC, ShareNumber::Three, Place::Pool),
    Gives(NYC, ShareNumber::Four, Place::Pool),
    Gives(NYC, ShareNumber::Five, Place::Pool),
    Gets(Raise(A, NYC, 1), 0),
    Gives(NYC, ShareNumber::Six, Place::Pool),
    Gets(Raise(A, NYC, 1), 28),
    Gets(Bankrupt(A), 0),
];

#[test]
fn a_full_pool_takes_no_forced_sale(rt: HostRuntime) {
    let alloc = rt.alloc();
    let mut table = with_a_share(&rt, alloc);
    assert!(rt; goes_so(&rt, alloc, &mut table, &FULL_POOL));
}

static RIVAL: [Step; 7] = [
    Gives(PRR, ShareNumber::One, Place::Seat(A)),
    Gives(PRR, ShareNumber::Two, Place::Seat(B)),
    Gives(PRR, ShareNumber::Three, Place::Seat(B)),
    Gets(Raise(A, PRR, 1), 0),
    Gives(PRR, ShareNumber::Four, Place::Seat(B)),
    // A would have 20%, and B has 30%.
    Gets(Raise(A, PRR, 1), 49),
    Gets(Bankrupt(A), 0),
];

#[test]
fn the_corporation_due_keeps_its_president(rt: HostRuntime) {
    let alloc = rt.alloc();
    let mut table = in_need(&rt, alloc, 25);
    assert!(rt; goes_so(&rt, alloc, &mut table, &RIVAL));
}

static BANKRUPTCY: [Step; 5] = [
    IsBankrupt(false),
    Gets(Bankrupt(A), 0),
    Adds(Bankrupt(A), 1),
    IsBankrupt(true),
    Has(Party::Seat(A), 25),
];

#[test]
fn a_president_is_bankrupt(rt: HostRuntime) {
    let alloc = rt.alloc();
    let mut table = in_need(&rt, alloc, 25);
    assert!(rt; goes_so(&rt, alloc, &mut table, &BANKRUPTCY));
}

static AT_THE_TILE: [Step; 2] = [Gets(Raise(A, NYC, 1), 42), Gets(Bankrupt(A), 42)];

static OVER_THE_LIMIT: [Step; 2] = [Gets(Raise(A, NYC, 1), 46), Gets(Bankrupt(A), 46)];

#[test]
fn steps_and_limits_come_before_a_forced_sale(rt: HostRuntime) {
    let alloc = rt.alloc();
    let mut table = with_a_share(&rt, alloc);
    operate(&rt, &mut table);
    assert!(rt; goes_so(&rt, alloc, &mut table, &AT_THE_TILE));
    give_trains(&rt, &mut table, Kind::Two, 5, Place::Corp(NYC));
    // Five trains are over the limit of four.
    assert!(rt; goes_so(&rt, alloc, &mut table, &OVER_THE_LIMIT));
}

#[test]
fn laws_are_called(_rt: HostRuntime) {
    worked_force();
    worked_raise();
    worked_presidency();
    worked_bankruptcy();
    one_share_suffices();
}
