//! A table of two from its opening to the first dividend, by the rules in force.
ghost use Rattle.std.specs.Prelude.{◌≡◌, true};
ghost use Rattle.rr_auction.specs.Small as auction;
ghost use Rattle.rr_stock.specs.Small.{HasSeat};
ghost use Rattle.rr_trains.specs.Depot.Small as depot;

use crate::fixtures::{A, B, kit, name};
use rr_books::{
    Act, Corp, Entry, Kind, Marker, Money, Party, Seat, ShareSource, TrainSource, Words,
};
use rr_kit::Kit;
use rr_rules::Standing;
use rr_rules::laws::{acts_have_one_verdict, bankruptcy_ends_the_game};
use std::alloc::Global;
use std::process::Abort;

const BOARD: &str = "hex A 0,0 grey c20/1:5
hex B 1,0 yellow 2-5
hex C 2,0 grey t10:2,5
hex D 3,0 grey c30/2:2,5
hex E 4,0 red o40/40:2
hex F 1,1 white
home B&O A 1
home PRR D 1
";

const TILES: &[u8] = b"yellow 7 x4 0-1
green 23 x3 0-3 0-4
";

const BO: Corp = Corp::Bo;

const PRR: Corp = Corp::Prr;

/// A command.
#[derive(Clone, Copy)]
enum Order {
    /// The seat buys the cheapest private.
    Private(Seat),
    Pass(Seat),
    /// A par of 100.
    Par(Seat, Corp),
    /// The seat buys a share of the offering.
    Share(Seat, Corp),
    Done(Seat),
    /// A tile, not turned, on the hex of this name.
    Lay(&'static str, u16),
    /// The corporation's trains run from A to the town in C.
    Run(Corp),
    PayOut(Corp),
    Hold(Corp),
    /// The corporation buys a 2-train of the bank.
    Train(Corp),
    Force(Corp),
    End(Corp),
}

use Order::{Done, End, Force, Hold, Lay, Par, Pass, PayOut, Private, Run, Share, Train};

fn command(rt: &impl Abort, alloc: Global, order: Order) -> Act {
    match order {
        Private(seat) => Act::BuyPrivate { seat },
        Pass(seat) => Act::Pass { seat },
        Par(seat, corp) => par(seat, corp),
        Share(seat, corp) => share(seat, corp),
        Done(seat) => Act::Done { seat },
        Lay(hex, tile) => lay(rt, hex, tile),
        Run(corp) => run(rt, alloc, corp),
        PayOut(corp) => Act::PayOut { corp },
        Hold(corp) => Act::Hold { corp },
        Train(corp) => train(corp),
        Force(corp) => Act::Force { corp },
        End(corp) => Act::End { corp },
    }
}

fn par(seat: Seat, corp: Corp) -> Act {
    let price = 100;
    Act::Par { seat, corp, price }
}

fn share(seat: Seat, corp: Corp) -> Act {
    let source = ShareSource::Offer;
    Act::BuyShare { seat, corp, source }
}

fn train(corp: Corp) -> Act {
    Act::BuyTrain {
        corp,
        kind: Kind::Two,
        source: TrainSource::Bank,
    }
}

fn lay(rt: &impl Abort, hex: &str, tile: u16) -> Act {
    Act::Lay {
        corp: BO,
        hex: name(rt, hex.as_bytes()),
        tile,
        turn: 0,
    }
}

fn run(rt: &impl Abort, alloc: Global, corp: Corp) -> Act {
    let sheet = Words::of(alloc, b"2=1-2-3").expect(rt, "memory");
    Act::Run { corp, sheet }
}

/// Whether the command's seat and amounts are small, as those of each of these commands are.
fn is_small(act: &Act) -> bool
    ensures seated { result ≡ true → HasSeat act.now }
    ensures small_bid { result ≡ true → auction.IsSmall act.now }
    ensures small_price { result ≡ true → depot.IsSmall act.now }
{
    match act {
        Act::Par { seat, .. } => seat.0 < 6,
        Act::BuyShare { seat, .. } => seat.0 < 6,
        Act::Sell { seat, .. } => seat.0 < 6,
        Act::Swap { seat, .. } => seat.0 < 6,
        Act::Done { seat } => seat.0 < 6,
        Act::BuyPrivate { seat } => seat.0 < 6,
        Act::Bid { amount, .. } => *amount <= 10_000_000_000,
        Act::BuyTrainFrom { price, .. } => *price <= 10_000_000_000,
        Act::TakePrivate { price, .. } => *price <= 10_000_000_000,
        _ => true,
    }
}

fn table_kit(rt: &impl Abort, alloc: Global) -> Kit {
    kit(rt, alloc, b"100p\n", TILES, BOARD)
}

fn opened(rt: &impl Abort, alloc: Global, kit: &Kit) -> Standing {
    Standing::open(alloc, 2, kit.roster()).expect(rt, "memory")
}

/// The number of the command's fault, or 0. The table is as it is behind a lawful one.
fn fault(rt: &impl Abort, alloc: Global, kit: &Kit, table: &mut Standing, act: &Act) -> u8 {
    assert!(rt; is_small(act));
    match table.take(alloc, kit, act) {
        Ok(taken) => {
            *table = taken.standing;
            0
        }
        Err(fault) => fault.number(),
    }
}

fn number(rt: &impl Abort, alloc: Global, kit: &Kit, table: &mut Standing, order: Order) -> u8 {
    fault(rt, alloc, kit, table, &command(rt, alloc, order))
}

/// Whether these commands are lawful, one behind the other.
fn are_lawful(
    rt: &impl Abort,
    alloc: Global,
    kit: &Kit,
    table: &mut Standing,
    orders: &[Order],
) -> bool {
    for order in orders {
        if number(rt, alloc, kit, table, *order) != 0 {
            return false;
        }
    }
    true
}

/// What the rules make of a table.
#[derive(Clone, Copy)]
enum Step {
    /// The commands are lawful, and the next step is behind them.
    Plays(&'static [Order]),
    /// The command is refused, by the fault of this number.
    Refuses(Order, u8),
    /// The party has so much.
    Has(Party, i64),
    /// The trains have earned so much.
    Earned(i64),
    /// The game isn't over.
    GoesOn,
    /// A's purchase of the first private adds its words, the private and the payment, and leaves A so much.
    Buys(i64),
}

use Step::{Buys, Earned, GoesOn, Has, Plays, Refuses};

fn is_right(rt: &impl Abort, alloc: Global, kit: &Kit, table: &mut Standing, step: Step) -> bool {
    match step {
        Plays(orders) => are_lawful(rt, alloc, kit, table, orders),
        Refuses(order, wanted) => number(rt, alloc, kit, table, order) == wanted,
        Has(party, amount) => cash(table, party) == amount,
        Earned(amount) => table.revenue().0 == amount,
        GoesOn => !table.is_over(kit),
        Buys(amount) => first_purchase(alloc, kit, table) == (true, amount),
    }
}

/// Whether a game goes as these steps say, from its opening.
fn goes_so(rt: &impl Abort, alloc: Global, steps: &[Step]) -> bool {
    let kit = table_kit(rt, alloc);
    let mut table = opened(rt, alloc, &kit);
    let mut right = true;
    for step in steps {
        right = right && is_right(rt, alloc, &kit, &mut table, *step);
    }
    right
}

/// All privates are sold at their faces, and the B&O's par is 100: A has 950 dollars, B 830.
const AUCTION: &[Order] = &[
    Private(A),
    Private(B),
    Private(A),
    Private(B),
    Private(A),
    Private(B),
    Par(B, BO),
];

/// Then A gets 60% of the PRR, B of the B&O, which is due; each corporation has 1,000 dollars.
const STOCK_ROUND: &[Order] = &[
    Par(A, PRR),
    Done(A),
    Share(B, BO),
    Done(B),
    Share(A, PRR),
    Done(A),
    Share(B, BO),
    Done(B),
    Share(A, PRR),
    Done(A),
    Share(B, BO),
    Done(B),
    Share(A, PRR),
    Done(A),
    Share(B, BO),
    Done(B),
    Done(A),
    Done(B),
];

fn cash(table: &Standing, party: Party) -> i64 {
    table.position().books().balance(party).0
}

fn is_of_a_purchase(entries: &[Entry]) -> bool {
    matches!(
        entries,
        [
            Entry::Step(Marker::Act(Act::BuyPrivate { .. })),
            Entry::Move { .. },
            Entry::Pay {
                amount: Money(20),
                ..
            },
        ]
    )
}

/// Whether the first purchase adds its words, its private and its payment, and what A has behind it.
fn first_purchase(alloc: Global, kit: &Kit, table: &Standing) -> (bool, i64) {
    let taken = table.take(alloc, kit, &Act::BuyPrivate { seat: A });
    match taken {
        Ok(taken) => (
            is_of_a_purchase(taken.entries.as_slice()),
            cash(&taken.standing, Party::Seat(A)),
        ),
        Err(_) => (false, 0),
    }
}

static A_PURCHASE: [Step; 1] = [Buys(1180)];

#[test]
fn a_command_hands_up_what_it_adds(rt: HostRuntime) {
    assert!(rt; goes_so(&rt, rt.alloc(), &A_PURCHASE));
}

static AN_AUCTION: [Step; 12] = [
    // A name that the kit lacks comes before the wrong step.
    Refuses(Lay("Z", 7), 1),
    Refuses(Lay("F", 8), 1),
    Refuses(Hold(BO), 42),
    Refuses(Done(A), 42),
    Refuses(Pass(B), 20),
    Plays(AUCTION),
    Has(Party::Seat(A), 950),
    Has(Party::Seat(B), 830),
    Has(Party::Corp(BO), 0),
    Earned(0),
    Refuses(Pass(A), 42),
    Refuses(Hold(BO), 42),
];

#[test]
fn an_auction_by_its_rules(rt: HostRuntime) {
    assert!(rt; goes_so(&rt, rt.alloc(), &AN_AUCTION));
}

/// The first turn of the first operating round.
static A_TURN: [Step; 18] = [
    Plays(AUCTION),
    Plays(STOCK_ROUND),
    // 450 dollars and three incomes of 45 together, 430 and 60.
    Has(Party::Seat(A), 495),
    Has(Party::Seat(B), 490),
    Has(Party::Corp(BO), 1000),
    Earned(0),
    Refuses(Done(A), 42),
    Refuses(Hold(PRR), 20),
    Refuses(Force(BO), 42),
    // The corporation runs nothing, buys a 2-train, which it must, and ends its turn.
    Plays(&[Hold(BO)]),
    Refuses(End(BO), 47),
    Plays(&[Train(BO), End(BO)]),
    Has(Party::Seat(A), 495),
    Has(Party::Seat(B), 490),
    Has(Party::Corp(BO), 920),
    Earned(0),
    GoesOn,
    Refuses(Hold(BO), 20),
];

#[test]
fn an_operating_round_by_its_rules(rt: HostRuntime) {
    assert!(rt; goes_so(&rt, rt.alloc(), &A_TURN));
}

/// Both corporations are equipped, both players pass the second stock round, the incomes are paid again, and the B&O
/// runs.
const TO_A_RUN: &[Order] = &[
    Hold(BO),
    Train(BO),
    End(BO),
    Hold(PRR),
    Train(PRR),
    End(PRR),
    Done(A),
    Done(B),
    Run(BO),
];

static A_RUN: [Step; 9] = [
    Plays(AUCTION),
    Plays(STOCK_ROUND),
    Plays(TO_A_RUN),
    Earned(30),
    Plays(&[PayOut(BO)]),
    // 490 dollars, 30 of two privates, as the B&O's went with the corporation's first train, and 18 for 60%.
    Has(Party::Seat(B), 538),
    Earned(30),
    Plays(&[End(BO)]),
    Earned(0),
];

#[test]
fn what_a_run_earns_is_paid_out(rt: HostRuntime) {
    assert!(rt; goes_so(&rt, rt.alloc(), &A_RUN));
}

#[test]
fn laws_are_called(_rt: HostRuntime) {
    acts_have_one_verdict();
    bankruptcy_ends_the_game();
}
