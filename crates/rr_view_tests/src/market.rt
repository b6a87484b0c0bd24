//! Rows on the shipped chart, and on one where two cells of one column have the same price.
use crate::opening::check;
use rr_books::{Cell, Corp, Entry, Marker, Refusal};
use rr_market::laws::{arrivals_differ, operating_order_is_in_order, sales_fall};
use rr_market::{Market, par_cell};
use rr_roster::chart::{Chart, Zone};
use std::process::Abort;

const SHIPPED: &str = "60y 67 71 76 82 90 100p 112 126 142 160 180 200 225 250 275 300 325 350
53y 60y 66 70 76 82 90p 100 112 126 142 160 180 200 220 240 260 280 300
46y 55y 60y 65 70 76 82p 90 100 111 125 140 155 170 185 200
39o 48y 54y 60y 66 71 76p 82 90 100 110 120 130
32o 41o 48y 55y 62 67 71p 76 82 90 100
25b 34o 42o 50y 58y 65 67p 71 75 80
18b 27b 36o 45o 54y 63 67 69 70
10b 20b 30b 40o 50y 60y 67 68
. 10b 20b 30b 40o 50y 60y
. . 10b 20b 30b 40o 50y
. . . 10b 20b 30b 40o
";

const PRR: Corp = Corp::Prr;

const NYC: Corp = Corp::Nyc;

const CPR: Corp = Corp::Cpr;

/// The row and the column of a cell, as tests write it.
fn spot(cell: Option<Cell>) -> Option<(u8, u8)> {
    let cell = cell?;
    Some((cell.row, cell.column))
}

fn chart(rt: &(impl Abort + AllocGlobal), text: &str) -> Chart {
    Chart::read(rt.alloc(), text).expect(rt, "a right chart")
}

fn shipped(rt: &(impl Abort + AllocGlobal)) -> Chart {
    chart(rt, SHIPPED)
}

/// How a token moves.
#[derive(Clone, Copy)]
enum Move {
    Paid,
    Withheld,
    Sold(u8),
    SoldOut,
}

/// Puts the token on the par cell of a price.
fn put(market: &mut Market, chart: &Chart, corp: Corp, par: u16) -> Result<(u8, u8), Refusal> {
    let cell = market.set(chart, corp, par)?;
    Ok((cell.row, cell.column))
}

/// Moves the token, and says where its mark is.
fn take(market: &mut Market, chart: &Chart, corp: Corp, step: Move) -> Option<(u8, u8)> {
    let marked = match step {
        Move::Paid => market.paid(chart, corp),
        Move::Withheld => market.withheld(chart, corp),
        Move::Sold(shares) => market.sold(chart, corp, shares),
        Move::SoldOut => market.soldout(chart, corp),
    };
    spot(marked)
}

fn cell(market: &Market, corp: Corp) -> Option<(u8, u8)> {
    spot(market.cell(corp))
}

/// Where the token of PRR would go by a payment, a withholding, a sale of two shares and a rise.
fn next_cells(market: &Market, chart: &Chart) -> [Option<(u8, u8)>; 4] {
    [
        spot(market.cell_after_paying(chart, PRR)),
        spot(market.cell_after_withholding(chart, PRR)),
        spot(market.cell_after_sale(chart, PRR, 2)),
        spot(market.cell_after_rise(chart, PRR)),
    ]
}

/// Sells so many shares of PRR, and says where its mark is and its price.
fn sell(market: &mut Market, chart: &Chart, shares: u8) -> (Option<(u8, u8)>, Option<u16>) {
    let marked = take(market, chart, PRR, Move::Sold(shares));
    (marked, market.price(chart, PRR))
}

/// Follows one entry more, which is let go here and in no test: that is proved once.
pub(crate) fn follow(market: &mut Market, entry: Entry) {
    market.follow(&entry);
    drop(entry);
}

/// A market where PRR set a par, and its token moved so many times.
fn moved(rt: &impl Abort, chart: &Chart, par: u16, step: Move, times: u8) -> Market {
    let mut market = Market::new();
    put(&mut market, chart, PRR, par).expect(rt, "a par");
    for _time in 0..times {
        let _cell = take(&mut market, chart, PRR, step);
    }
    market
}

/// The price and the par of PRR, and the zone of its shares.
fn standing(market: &Market, chart: &Chart) -> (Option<u16>, Option<u16>, Option<Zone>) {
    (
        market.price(chart, PRR),
        market.par(chart, PRR),
        market.zone(chart, PRR),
    )
}

fn check_order(rt: &impl Abort, market: &Market, chart: &Chart, corps: &[Corp]) {
    check(rt, "order", market.order(chart).as_slice(), corps);
}

#[test]
fn a_par_puts_the_token_on_the_chart(rt: HostRuntime) {
    let rt = &rt;
    let chart = shipped(rt);
    let mut market = Market::new();
    check(
        rt,
        "move of none",
        take(&mut market, &chart, PRR, Move::Paid),
        None,
    );
    check(rt, "par", put(&mut market, &chart, PRR, 82), Ok((2, 6)));
    check(
        rt,
        "no par",
        put(&mut market, &chart, NYC, 80),
        Err(Refusal::NotAPar),
    );
    check(rt, "cell of none", market.cell(NYC), None);
    drop(chart);
}

/// Moves from a par of 67 and how many; the cell behind them, its price and its zone.
static STANDINGS: [(Move, u8, (u8, u8), u16, Zone); 5] = [
    (Move::Paid, 0, (5, 6), 67, Zone::White),
    (Move::Paid, 1, (5, 7), 71, Zone::White),
    (Move::Withheld, 3, (5, 3), 50, Zone::Yellow),
    (Move::Withheld, 5, (5, 1), 34, Zone::Orange),
    (Move::Withheld, 7, (6, 0), 18, Zone::Brown),
];

#[test]
fn par_price_and_zone_are_those_of_cells(rt: HostRuntime) {
    let rt = &rt;
    let chart = shipped(rt);
    for (case, &(step, times, spot, price, zone)) in STANDINGS.iter().enumerate() {
        let market = moved(rt, &chart, 67, step, times);
        check(rt, "cell", (case, cell(&market, PRR)), (case, Some(spot)));
        let wanted = (Some(price), Some(67), Some(zone));
        check(rt, "standing", standing(&market, &chart), wanted);
    }
    drop(chart);
}

#[test]
fn there_is_no_price_before_a_par(rt: HostRuntime) {
    let rt = &rt;
    let chart = shipped(rt);
    check(
        rt,
        "standing",
        standing(&Market::new(), &chart),
        (None, None, None),
    );
    drop(chart);
}

/// A par, moves from it and how many; another move, and where its mark is.
static MOVES: [(u16, Move, u8, Move, Option<(u8, u8)>); 9] = [
    (100, Move::Withheld, 6, Move::Withheld, Some((1, 0))),
    (100, Move::Withheld, 13, Move::Withheld, None),
    (82, Move::Paid, 9, Move::Paid, Some((1, 15))),
    (100, Move::Paid, 12, Move::Paid, None),
    (67, Move::Withheld, 5, Move::Sold(0), None),
    (67, Move::Withheld, 5, Move::Sold(2), Some((7, 1))),
    (67, Move::Withheld, 5, Move::Sold(9), Some((8, 1))),
    (90, Move::SoldOut, 0, Move::SoldOut, Some((0, 6))),
    (90, Move::SoldOut, 1, Move::SoldOut, None),
];

#[test]
fn tokens_move_to_the_edges_and_stay(rt: HostRuntime) {
    let rt = &rt;
    let chart = shipped(rt);
    for (case, &(par, first, times, step, cell)) in MOVES.iter().enumerate() {
        let mut market = moved(rt, &chart, par, first, times);
        let marked = take(&mut market, &chart, PRR, step);
        check(rt, "cell", (case, marked), (case, cell));
    }
    drop(chart);
}

#[test]
fn a_sale_stops_above_a_missing_cell(rt: HostRuntime) {
    let rt = &rt;
    let chart = shipped(rt);
    let mut market = moved(rt, &chart, 67, Move::Withheld, 5);
    let first = sell(&mut market, &chart, 2);
    check(rt, "first", first, (Some((7, 1)), Some(20)));
    let second = sell(&mut market, &chart, 2);
    check(rt, "second", second, (Some((8, 1)), Some(10)));
    check(rt, "third", sell(&mut market, &chart, 1), (None, Some(10)));
    drop(chart);
}

#[test]
fn equal_prices_are_in_order_by_their_cells(rt: HostRuntime) {
    let rt = &rt;
    let chart = shipped(rt);
    let mut market = moved(rt, &chart, 100, Move::Paid, 0);
    let pars = [
        put(&mut market, &chart, NYC, 90),
        put(&mut market, &chart, CPR, 82),
    ];
    check(rt, "pars", pars, [Ok((1, 6)), Ok((2, 6))]);
    check_order(rt, &market, &chart, &[PRR, NYC, CPR]);
    let cells = [
        take(&mut market, &chart, NYC, Move::Paid),
        take(&mut market, &chart, CPR, Move::Paid),
        take(&mut market, &chart, CPR, Move::Paid),
    ];
    check(
        rt,
        "cells",
        cells,
        [Some((1, 7)), Some((2, 7)), Some((2, 8))],
    );
    check_order(rt, &market, &chart, &[CPR, NYC, PRR]);
    drop(chart);
}

#[test]
fn in_one_cell_the_earlier_arrival_is_first(rt: HostRuntime) {
    let rt = &rt;
    let chart = shipped(rt);
    let mut market = Market::new();
    check_order(rt, &market, &chart, &[]);
    let pars = [
        put(&mut market, &chart, NYC, 100),
        put(&mut market, &chart, PRR, 100),
    ];
    check(rt, "pars", pars, [Ok((0, 6)), Ok((0, 6))]);
    let before = market;
    let _cell = take(&mut market, &chart, NYC, Move::Paid);
    let back = take(&mut market, &chart, NYC, Move::Withheld);
    check(rt, "cell", back, Some((0, 6)));
    check_order(rt, &market, &chart, &[PRR, NYC]);
    check_order(rt, &before, &chart, &[NYC, PRR]);
    drop(chart);
}

#[test]
fn in_one_column_the_upper_is_first(rt: HostRuntime) {
    let rt = &rt;
    let chart = chart(rt, "100p 110\n100 120\n90p\n");
    let mut market = moved(rt, &chart, 90, Move::SoldOut, 1);
    check(rt, "cell", cell(&market, PRR), Some((1, 0)));
    check(rt, "par", put(&mut market, &chart, NYC, 100), Ok((0, 0)));
    check_order(rt, &market, &chart, &[NYC, PRR]);
    drop(chart);
}

#[test]
fn par_cells_are_those_of_the_chart(rt: HostRuntime) {
    let rt = &rt;
    let chart = shipped(rt);
    check(rt, "par cell", spot(par_cell(&chart, 82)), Some((2, 6)));
    check(rt, "no par cell", par_cell(&chart, 80), None);
    drop(chart);
}

fn mark(row: u8, column: u8) -> Entry {
    Entry::Mark {
        corp: PRR,
        cell: Cell { row, column },
    }
}

#[test]
fn follows_the_marks_of_a_book(rt: HostRuntime) {
    let rt = &rt;
    let chart = shipped(rt);
    let mut market = Market::new();
    follow(&mut market, mark(2, 6));
    follow(&mut market, Entry::Step(Marker::Stock));
    follow(&mut market, mark(2, 7));
    check(
        rt,
        "standing",
        standing(&market, &chart),
        (Some(90), Some(82), Some(Zone::White)),
    );
    drop(chart);
}

#[test]
fn the_next_cell_is_told_before_a_move(rt: HostRuntime) {
    let rt = &rt;
    let chart = shipped(rt);
    let market = moved(rt, &chart, 82, Move::Paid, 0);
    check(rt, "cell", cell(&market, PRR), Some((2, 6)));
    let wanted = [Some((2, 7)), Some((2, 5)), Some((4, 6)), Some((1, 6))];
    check(rt, "next cells", next_cells(&market, &chart), wanted);
    drop(chart);
}

#[test]
fn a_token_that_stays_has_no_next_cell(rt: HostRuntime) {
    let rt = &rt;
    let chart = shipped(rt);
    let right = moved(rt, &chart, 100, Move::Paid, 12);
    check(rt, "paying", right.cell_after_paying(&chart, PRR), None);
    check(rt, "rise", right.cell_after_rise(&chart, PRR), None);
    check(rt, "other", right.cell_after_paying(&chart, NYC), None);
    check(rt, "other rise", right.cell_after_rise(&chart, NYC), None);
    drop(chart);
}

#[test]
fn one_entry_is_read_at_a_time(rt: HostRuntime) {
    let rt = &rt;
    let chart = shipped(rt);
    let mut market = Market::new();
    follow(&mut market, Entry::Step(Marker::Stock));
    check(rt, "cell", market.cell(PRR), None);
    follow(&mut market, mark(2, 6));
    check(
        rt,
        "standing",
        standing(&market, &chart),
        (Some(82), Some(82), Some(Zone::White)),
    );
    drop(chart);
}

#[test]
fn laws_are_called() {
    operating_order_is_in_order();
    sales_fall();
    arrivals_differ();
}
