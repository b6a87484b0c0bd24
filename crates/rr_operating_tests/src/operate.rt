//! A turn of PRR on a small board, with its token in A.
use crate::fixtures::{
    desk, float, fund, give_train, give_trains, has_small_price, kit, name, number_of, operate,
    position, settle, station, succeed,
};
use rr_books::{Act, Corp, Kind, Money, Party, Place, TrainSource, Words};
use rr_desk::{Desk, Position};
use rr_kit::Kit;
use rr_operate::laws::{
    discards_come_first, one_verdict, only_the_corporation_due, steps_are_kept, worked_order,
    worked_run, worked_turn_end,
};
use rr_operate::{judge, judge_order, play};
use std::alloc::Global;
use std::process::Abort;

const BOARD: &str = "hex A 0,0 grey c20/1:5
hex B 1,0 yellow 2-5
hex C 2,0 grey t10:2,5
hex D 3,0 grey c30/2:2,5
hex E 4,0 red o40/40:2
hex F 1,1 white
home PRR A 1
home NYC D 1
";

const TILES: &[u8] = b"yellow 7 x4 0-1
green 23 x3 0-3 0-4
";

const PRR: Corp = Corp::Prr;

const NYC: Corp = Corp::Nyc;

/// A command.
#[derive(Clone, Copy)]
enum Order {
    /// PRR lays tile 23 on B.
    Lay,
    /// PRR places a token in D.
    Station,
    /// PRR's train runs from A to the town in C.
    Run,
    /// The same, with its certificate.
    RunBest,
    PayOut,
    Hold(Corp),
    /// PRR buys a 2-train of the bank.
    Train,
    /// The NYC gives up a 2-train.
    Discard,
    End(Corp),
}

use Order::{Discard, End, Hold, Lay, PayOut, Run, RunBest, Station, Train};

// The calls below have no contracts, so that what a test does costs its proof little.

fn command(rt: &impl Abort, alloc: Global, order: Order) -> Act {
    match order {
        Lay => lay(rt),
        Station => token(rt),
        Run => run(rt, alloc),
        RunBest => best_run(rt, alloc),
        PayOut => Act::PayOut { corp: PRR },
        Hold(corp) => Act::Hold { corp },
        Train => train(),
        Discard => discard(),
        End(corp) => Act::End { corp },
    }
}

fn lay(rt: &impl Abort) -> Act {
    Act::Lay {
        corp: PRR,
        hex: name(rt, b"B"),
        tile: 23,
        turn: 2,
    }
}

fn token(rt: &impl Abort) -> Act {
    Act::Station {
        corp: PRR,
        hex: name(rt, b"D"),
        centre: 1,
    }
}

fn words(rt: &impl Abort, alloc: Global, text: &[u8]) -> Words {
    Words::of(alloc, text).expect(rt, "memory")
}

fn run(rt: &impl Abort, alloc: Global) -> Act {
    let sheet = words(rt, alloc, b"2=1-2-3");
    Act::Run { corp: PRR, sheet }
}

fn best_run(rt: &impl Abort, alloc: Global) -> Act {
    let sheet = words(rt, alloc, b"2=1-2-3");
    let certificate = words(rt, alloc, b"s5 b s1 b s4 x1 x1");
    Act::RunBest {
        corp: PRR,
        sheet,
        certificate,
    }
}

fn train() -> Act {
    Act::BuyTrain {
        corp: PRR,
        kind: Kind::Two,
        source: TrainSource::Bank,
    }
}

fn discard() -> Act {
    Act::Discard {
        corp: NYC,
        kind: Kind::Two,
    }
}

fn turn_kit(rt: &impl Abort, alloc: Global) -> Kit {
    kit(rt, alloc, b"100p\n", TILES, BOARD)
}

/// PRR has 500 dollars and its token in A, and is due; the NYC waits. The first 3 is sold.
fn operating(rt: &impl Abort, alloc: Global) -> Position {
    let mut table = position(rt, alloc, 2);
    fund(rt, &mut table, Party::Corp(PRR), 500);
    station(rt, &mut table, PRR, b"A");
    give_train(rt, &mut table, Kind::Three, 1, Place::Gone);
    float(rt, &mut table, PRR);
    float(rt, &mut table, NYC);
    operate(rt, &mut table);
    table
}

/// What the trains have earned behind the command, or the fault's number.
type Verdict = Result<i64, u8>;

fn verdict(alloc: Global, kit: &Kit, table: &Position, revenue: u8, act: &Act) -> Verdict {
    match judge(alloc, kit, table, Money(i64::from(revenue)), act) {
        Ok(next) => Ok(next.0),
        Err(fault) => Err(fault.number()),
    }
}

/// The verdict on a command, where the trains have earned so much.
fn judged(
    rt: &impl Abort,
    alloc: Global,
    kit: &Kit,
    table: &Position,
    order: Order,
    revenue: u8,
) -> Verdict {
    verdict(alloc, kit, table, revenue, &command(rt, alloc, order))
}

/// The number of the fault of the command's order, or 0.
fn order_fault(rt: &impl Abort, alloc: Global, kit: &Kit, table: &Position, order: Order) -> u8 {
    number_of(judge_order(kit, table, Money(0), &command(rt, alloc, order)))
}

fn add(rt: &impl Abort, kit: &Kit, desk: &mut Desk, revenue: u8, act: &Act) {
    assert!(rt; has_small_price(act));
    succeed(rt, play(kit, desk, Money(i64::from(revenue)), act));
}

/// How many entries a command adds. The table is as it is behind it.
fn added(
    rt: &impl Abort,
    alloc: Global,
    kit: &Kit,
    table: &mut Position,
    order: Order,
    revenue: u8,
) -> usize {
    let mut desk = desk(rt, alloc, table);
    add(rt, kit, &mut desk, revenue, &command(rt, alloc, order));
    settle(desk, table)
}

/// What comes of a command, where the trains have earned so much.
#[derive(Clone, Copy)]
enum Step {
    /// It has this verdict.
    Gets(Order, u8, Verdict),
    /// Its order has the fault of this number.
    Misses(Order, u8),
    /// It adds so many entries, and the next step is behind it.
    Adds(Order, u8, usize),
}

use Step::{Adds, Gets, Misses};

fn is_right(rt: &impl Abort, alloc: Global, kit: &Kit, table: &mut Position, step: Step) -> bool {
    match step {
        Gets(order, revenue, wanted) => judged(rt, alloc, kit, table, order, revenue) == wanted,
        Misses(order, number) => order_fault(rt, alloc, kit, table, order) == number,
        Adds(order, revenue, count) => added(rt, alloc, kit, table, order, revenue) == count,
    }
}

/// Whether the steps go as they say, one behind the other.
fn goes_so(rt: &impl Abort, alloc: Global, table: &mut Position, steps: &[Step]) -> bool {
    let kit = turn_kit(rt, alloc);
    let mut right = true;
    for step in steps {
        right = right && is_right(rt, alloc, &kit, table, *step);
    }
    right
}

static A_TURN: [Step; 11] = [
    Gets(Lay, 0, Ok(0)),
    // Words and tile.
    Adds(Lay, 0, 3),
    Gets(Lay, 0, Err(42)),
    Gets(Station, 0, Ok(0)),
    // Words, payment and token.
    Adds(Station, 0, 3),
    // Words and payment.
    Adds(Hold(PRR), 0, 2),
    Gets(End(PRR), 0, Err(47)),
    Gets(Train, 0, Ok(0)),
    // Words, train and payment.
    Adds(Train, 0, 3),
    Gets(End(PRR), 0, Ok(0)),
    // Words and NYC's token.
    Adds(End(PRR), 0, 2),
];

#[test]
fn a_turn_with_a_tile_a_token_and_a_train(rt: HostRuntime) {
    let alloc = rt.alloc();
    let mut table = operating(&rt, alloc);
    assert!(rt; goes_so(&rt, alloc, &mut table, &A_TURN));
}

static A_RUN: [Step; 7] = [
    Gets(Run, 0, Ok(30)),
    Gets(RunBest, 0, Ok(30)),
    // The certificate and the words.
    Adds(RunBest, 0, 2),
    Gets(PayOut, 0, Err(42)),
    Gets(PayOut, 30, Ok(30)),
    // The words, two seats and the pool.
    Adds(PayOut, 30, 4),
    Gets(End(PRR), 30, Ok(0)),
];

#[test]
fn a_run_is_paid_out(rt: HostRuntime) {
    let alloc = rt.alloc();
    let mut table = operating(&rt, alloc);
    give_train(&rt, &mut table, Kind::Two, 1, Place::Corp(PRR));
    assert!(rt; goes_so(&rt, alloc, &mut table, &A_RUN));
}

static WITHIN_THE_LIMIT: [Step; 3] = [
    Misses(End(NYC), 42),
    Misses(Hold(NYC), 20),
    Gets(Discard, 0, Err(42)),
];

static OVER_THE_LIMIT: [Step; 2] = [Misses(End(NYC), 46), Gets(Discard, 0, Ok(0))];

#[test]
fn commands_come_in_their_order(rt: HostRuntime) {
    let alloc = rt.alloc();
    let mut table = operating(&rt, alloc);
    assert!(rt; goes_so(&rt, alloc, &mut table, &WITHIN_THE_LIMIT));
    give_trains(&rt, &mut table, Kind::Two, 5, Place::Corp(NYC));
    assert!(rt; goes_so(&rt, alloc, &mut table, &OVER_THE_LIMIT));
}

#[test]
fn laws_are_called(_rt: HostRuntime) {
    one_verdict();
    only_the_corporation_due();
    discards_come_first();
    steps_are_kept();
    worked_order();
    worked_turn_end();
    worked_run();
}
