//! Rows on a small chart that has each zone.
use crate::fixtures::{A, B, begin_stock_round, chart, follow, give, position};
use rr_books::{Cert, Corp, Entry, Place, Private, Refusal, Seat, ShareNumber};
use rr_desk::Position;
use rr_market::par_cell;
use rr_roster::chart::Chart;
use rr_shares::limits::laws::one_share_suffices;
use rr_shares::limits::{
    certificates_counted, has_lawful_sale, is_over_certificates, is_over_limit, is_over_sixty,
    judge_sale, judge_sale_in_round, must_sell_first, would_be_over_certificates,
    would_be_over_sixty,
};
use std::alloc::Global;
use std::process::Abort;

const CHART: &str = "60y 67p 71p\n50o 55 60\n40b 45 50\n";

const PRR: Corp = Corp::Prr;

const NYC: Corp = Corp::Nyc;

const AT_A: Place = Place::Seat(A);

const AT_B: Place = Place::Seat(B);

/// The zone of a token, or none before it is on the chart.
#[derive(Clone, Copy)]
enum At {
    Nowhere,
    White,
    Yellow,
    Orange,
    Brown,
}

// The calls below have no contracts, so that what a test does costs its proof little.

/// So many shares of the corporation, behind its first ones, go to a place.
fn give_shares(
    rt: &impl Abort,
    table: &mut Position,
    corp: Corp,
    first: usize,
    count: usize,
    to: Place,
) {
    for number in ShareNumber::ALL.iter().skip(first).take(count) {
        give(rt, table, Cert::Share(corp, *number), to);
    }
}

/// Puts the corporation's token into the white zone.
fn begin(rt: &impl Abort, table: &mut Position, chart: &Chart, corp: Corp) {
    let cell = par_cell(chart, 67).expect(rt, "a par");
    follow(rt, table, Entry::Mark { corp, cell });
}

/// Puts it into the yellow zone, on the left of the white one.
fn step_left(rt: &impl Abort, table: &mut Position, chart: &Chart, corp: Corp) {
    begin(rt, table, chart, corp);
    let left = table.market().cell_after_withholding(chart, corp);
    let cell = left.expect(rt, "a cell on the left");
    follow(rt, table, Entry::Mark { corp, cell });
}

/// Puts it so many rows below the yellow zone.
fn step_down(rt: &impl Abort, table: &mut Position, chart: &Chart, corp: Corp, rows: u8) {
    step_left(rt, table, chart, corp);
    let below = table.market().cell_after_sale(chart, corp, rows);
    let cell = below.expect(rt, "a cell below");
    follow(rt, table, Entry::Mark { corp, cell });
}

fn put(rt: &impl Abort, table: &mut Position, chart: &Chart, corp: Corp, at: At) {
    match at {
        At::Nowhere => (),
        At::White => begin(rt, table, chart, corp),
        At::Yellow => step_left(rt, table, chart, corp),
        At::Orange => step_down(rt, table, chart, corp, 1),
        At::Brown => step_down(rt, table, chart, corp, 2),
    }
}

type Verdict = Result<(), Refusal>;

/// What holds of a table.
#[derive(Clone, Copy)]
enum Fact {
    /// So many certificates of the seat are counted.
    Counts(Seat, u8),
    /// Whether A has too many certificates.
    HasTooMany(bool),
    /// Whether it would have with one of the corporation more.
    WouldHaveTooMany(Corp, bool),
    /// Whether A has more than 60% of the PRR where it may not.
    IsOverSixty(bool),
    /// Whether it would have with so many percent more.
    WouldBeOverSixty(u8, bool),
    /// Whether A is over a limit.
    IsOverLimit(bool),
    /// A sale of so many of A's shares of the PRR has this verdict.
    Sells(u64, Verdict),
    /// A sale of one of them in the round under way has this verdict.
    SellsInRound(Verdict),
    /// Whether the seat can sell a share, and whether it must sell first.
    CanAndMustSell(Seat, bool, bool),
}

use Fact::{
    CanAndMustSell, Counts, HasTooMany, IsOverLimit, IsOverSixty, Sells, SellsInRound,
    WouldBeOverSixty, WouldHaveTooMany,
};

/// Whether the seat has a lawful sale, and whether it must sell first.
fn selling(table: &Position, chart: &Chart, seat: Seat) -> [bool; 2] {
    let can_sell = has_lawful_sale(table, chart, seat);
    [can_sell, must_sell_first(table, chart, seat)]
}

fn holds(table: &Position, chart: &Chart, fact: Fact) -> bool {
    match fact {
        Counts(seat, count) => certificates_counted(table, chart, seat) == count,
        HasTooMany(wanted) => is_over_certificates(table, chart, A) == wanted,
        WouldHaveTooMany(corp, wanted) => {
            would_be_over_certificates(table, chart, A, corp) == wanted
        }
        IsOverSixty(wanted) => is_over_sixty(table, chart, A, PRR) == wanted,
        WouldBeOverSixty(added, wanted) => {
            would_be_over_sixty(table, chart, A, PRR, added) == wanted
        }
        IsOverLimit(wanted) => is_over_limit(table, chart, A) == wanted,
        Sells(count, verdict) => judge_sale(table, chart, A, PRR, count) == verdict,
        SellsInRound(verdict) => judge_sale_in_round(table, chart, A, PRR, 1) == verdict,
        CanAndMustSell(seat, can, must) => selling(table, chart, seat) == [can, must],
    }
}

/// What a table is dealt, and what is so then.
#[derive(Clone, Copy)]
enum Step {
    /// The certificate goes to a place.
    Gives(Cert, Place),
    /// So many shares of the corporation, behind its first ones, go to a place.
    Shares(Corp, usize, usize, Place),
    /// The corporation's token is put into a zone.
    Puts(Corp, At),
    /// A stock round begins.
    Begins,
    /// This holds of it.
    Then(Fact),
}

use Step::{Begins, Gives, Puts, Shares, Then};

fn is_right(rt: &impl Abort, table: &mut Position, chart: &Chart, step: Step) -> bool {
    match step {
        Gives(cert, to) => {
            give(rt, table, cert, to);
            true
        }
        Shares(corp, first, count, to) => {
            give_shares(rt, table, corp, first, count, to);
            true
        }
        Puts(corp, at) => {
            put(rt, table, chart, corp, at);
            true
        }
        Begins => {
            begin_stock_round(rt, table);
            true
        }
        Then(fact) => holds(table, chart, fact),
    }
}

/// Whether the steps go as they say, one behind the other.
fn goes_so(rt: &impl Abort, alloc: Global, table: &mut Position, steps: &[Step]) -> bool {
    let chart = chart(rt, alloc, CHART);
    let mut right = true;
    for step in steps {
        right = right && is_right(rt, table, &chart, *step);
    }
    right
}

static COLOURED: [Step; 13] = [
    Gives(Cert::Private(Private::Sv), AT_A),
    Gives(Cert::Private(Private::Bo), AT_A),
    Gives(Cert::Private(Private::Csl), AT_B),
    Gives(Cert::President(PRR), AT_A),
    Shares(PRR, 0, 3, AT_A),
    Gives(Cert::President(NYC), AT_A),
    Shares(NYC, 0, 4, AT_A),
    Shares(Corp::Bm, 0, 2, AT_A),
    Puts(PRR, At::White),
    Then(Counts(A, 13)),
    Puts(NYC, At::Yellow),
    Then(Counts(A, 8)),
    Then(Counts(B, 1)),
];

#[test]
fn certificates_in_a_coloured_zone_are_not_counted(rt: HostRuntime) {
    let rt = &rt;
    let mut table = position(rt, rt.alloc(), 6);
    assert!(rt; goes_so(rt, rt.alloc(), &mut table, &COLOURED));
}

/// A has eleven certificates, and the NYC's token is in a coloured zone.
static ELEVEN: [Step; 5] = [
    Gives(Cert::Private(Private::Sv), AT_A),
    Gives(Cert::Private(Private::Csl), AT_A),
    Gives(Cert::President(PRR), AT_A),
    Shares(PRR, 0, 8, AT_A),
    Puts(NYC, At::Yellow),
];

static OF_SIX: [Step; 5] = [
    Then(HasTooMany(false)),
    Then(WouldHaveTooMany(Corp::Bm, true)),
    Then(WouldHaveTooMany(NYC, false)),
    Gives(Cert::Private(Private::Dh), AT_A),
    Then(HasTooMany(true)),
];

static OF_FIVE: [Step; 5] = [
    Then(HasTooMany(false)),
    Then(WouldHaveTooMany(Corp::Bm, false)),
    Then(WouldHaveTooMany(NYC, false)),
    Gives(Cert::Private(Private::Dh), AT_A),
    Then(HasTooMany(false)),
];

/// A table of so many players, where A has eleven certificates.
fn with_eleven(rt: &impl Abort, alloc: Global, players: u8) -> Position {
    let mut table = position(rt, alloc, players);
    assert!(rt; goes_so(rt, alloc, &mut table, &ELEVEN));
    table
}

#[test]
fn six_players_hold_eleven_certificates(rt: HostRuntime) {
    let rt = &rt;
    let mut six = with_eleven(rt, rt.alloc(), 6);
    assert!(rt; goes_so(rt, rt.alloc(), &mut six, &OF_SIX));
    let mut five = with_eleven(rt, rt.alloc(), 5);
    assert!(rt; goes_so(rt, rt.alloc(), &mut five, &OF_FIVE));
}

/// Zones, and whether more than 60% is too much there.
static ZONES: [(At, bool); 5] = [
    (At::Nowhere, true),
    (At::White, true),
    (At::Yellow, true),
    (At::Orange, false),
    (At::Brown, false),
];

/// A has 60% of the PRR, whose token is in this zone, and then 70%.
fn sixty_and_seventy(at: At, is_over: bool) -> [Step; 9] {
    [
        Gives(Cert::President(PRR), AT_A),
        Shares(PRR, 0, 4, AT_A),
        Puts(PRR, at),
        Then(IsOverSixty(false)),
        Then(WouldBeOverSixty(0, false)),
        Then(WouldBeOverSixty(10, is_over)),
        Shares(PRR, 4, 1, AT_A),
        Then(IsOverSixty(is_over)),
        Then(IsOverLimit(is_over)),
    ]
}

#[test]
fn more_than_sixty_percent_is_held_in_orange_and_brown(rt: HostRuntime) {
    let rt = &rt;
    for (at, is_over) in &ZONES {
        let mut table = position(rt, rt.alloc(), 3);
        let steps = sixty_and_seventy(*at, *is_over);
        assert!(rt; goes_so(rt, rt.alloc(), &mut table, &steps));
    }
}

static TO_THE_POOL: [Step; 9] = [
    Shares(PRR, 0, 3, Place::Pool),
    Shares(PRR, 3, 3, AT_A),
    Then(Sells(1, Err(Refusal::NotForSale))),
    Puts(PRR, At::White),
    Then(Sells(3, Err(Refusal::PoolOverHalf))),
    Then(Sells(2, Ok(()))),
    Then(Sells(0, Err(Refusal::NotForSale))),
    Then(Sells(4, Err(Refusal::NotForSale))),
    Then(Sells(1844674407370955162, Err(Refusal::NotForSale))),
];

#[test]
fn the_pool_holds_half(rt: HostRuntime) {
    let rt = &rt;
    let mut table = position(rt, rt.alloc(), 3);
    assert!(rt; goes_so(rt, rt.alloc(), &mut table, &TO_THE_POOL));
}

static SUCCESSION: [Step; 8] = [
    Gives(Cert::President(PRR), AT_A),
    Shares(PRR, 0, 1, AT_A),
    Shares(PRR, 1, 1, AT_B),
    Puts(PRR, At::White),
    Then(Sells(1, Ok(()))),
    Then(Sells(2, Err(Refusal::NotForSale))),
    Shares(PRR, 2, 1, AT_B),
    Then(Sells(2, Ok(()))),
];

#[test]
fn a_president_leaves_a_successor(rt: HostRuntime) {
    let rt = &rt;
    let mut table = position(rt, rt.alloc(), 3);
    assert!(rt; goes_so(rt, rt.alloc(), &mut table, &SUCCESSION));
}

static FIRST_ROUNDS: [Step; 12] = [
    Gives(Cert::President(NYC), AT_A),
    Shares(NYC, 0, 5, AT_A),
    Puts(NYC, At::White),
    Begins,
    Then(SellsInRound(Err(Refusal::FirstStockRound))),
    Then(CanAndMustSell(A, false, false)),
    Begins,
    Then(SellsInRound(Err(Refusal::NotForSale))),
    Then(CanAndMustSell(A, true, true)),
    Then(CanAndMustSell(B, false, false)),
    Shares(NYC, 0, 1, Place::Pool),
    Then(CanAndMustSell(A, true, false)),
];

#[test]
fn nothing_is_sold_in_the_first_stock_round(rt: HostRuntime) {
    let rt = &rt;
    let mut table = position(rt, rt.alloc(), 3);
    assert!(rt; goes_so(rt, rt.alloc(), &mut table, &FIRST_ROUNDS));
}

#[test]
fn the_law_is_called() {
    one_share_suffices();
}
