//! A par in the first stock round, the end of a round, and laws.
ghost use Rattle.rr_stock.specs.Small.{HasSeat, HasSmallNumbers};

use crate::fixtures::{A, B, begin_stock_round, chart, give, position};
use rr_books::{Act, Cert, Corp, Party, Place, Private, Refusal, Seat};
use rr_desk::Desk;
use rr_roster::chart::Chart;
use rr_stock::laws::{
    lawful_sales_move_shares, one_turn_at_most, pool_stays_within_half, worked_end, worked_float,
    worked_must_sell, worked_par, worked_presidency, worked_sale, worked_second_purchase,
    worked_sixty, worked_succession,
};
use rr_stock::{due, judge, play};
use std::alloc::Global;
use std::process::Abort;

const CHART: &str = "60y 67 71 76 82 90 100p\n53y 60y 66 70 76 82 90p\n46y 55y 60y 65 70 76 82p\n";

const PRR: Corp = Corp::Prr;

// The calls below have almost no contracts, so that what a test does costs its proof little.

/// A desk in the first stock round of a table of two, at which A holds the cheapest private.
fn first_round(rt: &impl Abort, alloc: Global) -> Desk {
    let mut start = position(rt, alloc, 2);
    give(rt, &mut start, Cert::Private(Private::Sv), Place::Seat(A));
    begin_stock_round(rt, &mut start);
    Desk::new(alloc, &start).expect(rt, "memory")
}

/// B's par of the PRR.
fn par() -> Act
    ensures seated { HasSeat result }
    ensures small { HasSmallNumbers result }
{
    Act::Par {
        seat: B,
        corp: PRR,
        price: 100,
    }
}

fn set_par(rt: &impl Abort, desk: &mut Desk, chart: &Chart) {
    play(chart, desk, &par()).expect(rt, "memory");
}

fn pass(rt: &impl Abort, desk: &mut Desk, chart: &Chart, seat: Seat) {
    assert!(rt; seat.0 < 6);
    play(chart, desk, &Act::Done { seat }).expect(rt, "memory");
}

fn fault(desk: &Desk, chart: &Chart, act: &Act) -> Option<Refusal> {
    judge(chart, desk.position(), act).err()
}

fn price(desk: &Desk, chart: &Chart) -> Option<u16> {
    desk.position().market().price(chart, PRR)
}

/// What is done in a stock round, and what holds of it.
#[derive(Clone, Copy)]
enum Step {
    /// The seat is due, or none.
    Waits(Option<Seat>),
    /// B may set the PRR's par.
    AllowsPar,
    /// B sets it.
    SetsPar,
    /// It isn't the seat's turn to pass.
    RefusesPass(Seat),
    /// The seat passes.
    Passes(Seat),
    /// The seat has so much.
    Has(Seat, i64),
    /// The PRR has this price.
    IsPriced(u16),
}

use Step::{AllowsPar, Has, IsPriced, Passes, RefusesPass, SetsPar, Waits};

fn is_right(rt: &impl Abort, chart: &Chart, desk: &mut Desk, step: Step) -> bool {
    match step {
        Waits(seat) => due(desk.position()) == seat,
        AllowsPar => fault(desk, chart, &par()).is_none(),
        SetsPar => {
            set_par(rt, desk, chart);
            true
        }
        RefusesPass(seat) => {
            fault(desk, chart, &Act::Done { seat }) == Some(Refusal::NotYourTurn)
        }
        Passes(seat) => {
            pass(rt, desk, chart, seat);
            true
        }
        Has(seat, amount) => desk.books().balance(Party::Seat(seat)).0 == amount,
        IsPriced(wanted) => price(desk, chart) == Some(wanted),
    }
}

/// Whether the steps go as they say from the first stock round on.
fn goes_so(rt: &impl Abort, alloc: Global, steps: &[Step]) -> bool {
    let chart = chart(rt, alloc, CHART);
    let mut desk = first_round(rt, alloc);
    let mut right = true;
    for step in steps {
        right = right && is_right(rt, &chart, &mut desk, *step);
    }
    right
}

static A_PAR: [Step; 6] = [
    Waits(Some(B)),
    AllowsPar,
    SetsPar,
    Has(B, 1000),
    IsPriced(100),
    RefusesPass(A),
];

#[test]
fn a_par_of_100_costs_200(rt: HostRuntime) {
    assert!(rt; goes_so(&rt, rt.alloc(), &A_PAR));
}

static AN_END: [Step; 4] = [Passes(B), Waits(Some(A)), Passes(A), Waits(None)];

#[test]
fn a_round_ends_as_both_pass(rt: HostRuntime) {
    assert!(rt; goes_so(&rt, rt.alloc(), &AN_END));
}

#[test]
fn laws_are_called() {
    lawful_sales_move_shares();
    one_turn_at_most();
    pool_stays_within_half();
    worked_sale();
    worked_presidency();
    worked_par();
    worked_float();
    worked_end();
    worked_sixty();
    worked_must_sell();
    worked_second_purchase();
    worked_succession();
}
