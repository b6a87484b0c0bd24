//! Dividends of PRR, of which the first seat holds 60%, the pool 20% and the offering 20%.
use crate::fixtures::{
    A, B, ROSTER, chart, desk, fund, give, mark, number_of, position, roster, succeed,
};
use rr_books::{Act, Cell, Cert, Corp, Entry, Marker, Money, Party, Place, ShareNumber};
use rr_desk::{Desk, Position};
use rr_operate::dividends::laws::{
    dividends_move_tokens, entries_are_these, nobody_is_paid_for_the_offering, pays_each_holder,
    withholding_pays_the_corporation, worked_dividends, worked_moves,
};
use rr_operate::dividends::{judge_pay, pay_out, withhold};
use rr_roster::Roster;
use std::alloc::Global;
use std::process::Abort;

const CHART: &str = "60 67\n53 60p\n";

const PRR: Corp = Corp::Prr;

const AT_A: Place = Place::Seat(A);

/// Where PRR's certificates are that were given.
static GIVEN: [(Cert, Place); 7] = [
    (Cert::President(PRR), AT_A),
    (Cert::Share(PRR, ShareNumber::One), AT_A),
    (Cert::Share(PRR, ShareNumber::Two), AT_A),
    (Cert::Share(PRR, ShareNumber::Three), AT_A),
    (Cert::Share(PRR, ShareNumber::Four), AT_A),
    (Cert::Share(PRR, ShareNumber::Five), Place::Pool),
    (Cert::Share(PRR, ShareNumber::Six), Place::Pool),
];

// The calls below have no contracts, so that what a test does costs its proof little.

fn give_all(rt: &impl Abort, table: &mut Position, certificates: &[(Cert, Place)]) {
    for (cert, to) in certificates {
        give(rt, table, *cert, *to);
    }
}

/// Two players with 1,200 each, PRR's shares as said, its token on a cell, and a bank that spent so much.
fn table(rt: &impl Abort, alloc: Global, spent: u16, at: Cell) -> Position {
    let mut table = position(rt, alloc, 2);
    give_all(rt, &mut table, &GIVEN);
    mark(rt, &mut table, PRR, at.row, at.column);
    fund(rt, &mut table, Party::Corp(Corp::Nyc), spent);
    table
}

fn cash(position: &Position, party: Party, roster: &Roster) -> i64 {
    position.books().money(party, roster).0
}

/// What the bank, the two seats and PRR have.
fn money(position: &Position, roster: &Roster) -> [i64; 4] {
    [
        cash(position, Party::Bank, roster),
        cash(position, Party::Seat(A), roster),
        cash(position, Party::Seat(B), roster),
        cash(position, Party::Corp(PRR), roster),
    ]
}

/// What they have, where PRR's token is, and how many entries there are.
type Outcome = ([i64; 4], Option<Cell>, usize);

fn outcome(desk: &Desk, roster: &Roster) -> Outcome {
    let position = desk.position();
    let cell = position.market().cell(PRR);
    let entries = desk.entries().as_slice().len();
    (money(position, roster), cell, entries)
}

/// A desk at which the bank spent so much, and PRR's token is on this cell.
fn opened(rt: &impl Abort, alloc: Global, spent: u16, at: Cell) -> Desk {
    desk(rt, alloc, &table(rt, alloc, spent, at))
}

fn pay(rt: &impl Abort, alloc: Global, desk: &mut Desk) {
    let paid = pay_out(desk, &chart(rt, alloc, CHART), PRR, Money(100));
    succeed(rt, paid);
}

fn keep(rt: &impl Abort, alloc: Global, desk: &mut Desk, revenue: u8) {
    let amount = Money(i64::from(revenue));
    let held = withhold(desk, &chart(rt, alloc, CHART), PRR, amount);
    succeed(rt, held);
}

/// What comes of 100 dollars paid out, where the bank spent so much and the token is on this cell.
fn paid(rt: &impl Abort, alloc: Global, spent: u16, at: Cell) -> Outcome {
    let mut desk = opened(rt, alloc, spent, at);
    pay(rt, alloc, &mut desk);
    outcome(&desk, &roster(rt, alloc, ROSTER))
}

#[test]
fn a_dividend_is_paid(rt: HostRuntime) {
    let paid = paid(&rt, rt.alloc(), 0, Cell { row: 1, column: 0 });
    let cell = Cell { row: 1, column: 1 };
    assert!(rt; paid == ([9520, 1260, 1200, 20], Some(cell), 5));
}

#[test]
fn a_bank_with_50_owes_30(rt: HostRuntime) {
    let paid = paid(&rt, rt.alloc(), 9550, Cell { row: 1, column: 1 });
    let cell = Cell { row: 0, column: 1 };
    assert!(rt; paid == ([-30, 1260, 1200, 20], Some(cell), 5));
}

#[test]
fn a_token_stays_at_the_corner(rt: HostRuntime) {
    let cell = Cell { row: 0, column: 1 };
    let paid = paid(&rt, rt.alloc(), 0, cell);
    assert!(rt; paid == ([9520, 1260, 1200, 20], Some(cell), 4));
}

/// The token's cell, what is withheld, the cell behind it, and how many entries there are.
type Row = (Cell, u8, Cell, usize);

static WITHHELD: [Row; 3] = [
    (
        Cell { row: 0, column: 1 },
        100,
        Cell { row: 0, column: 0 },
        3,
    ),
    (Cell { row: 0, column: 0 }, 0, Cell { row: 1, column: 0 }, 3),
    (
        Cell { row: 1, column: 0 },
        50,
        Cell { row: 1, column: 0 },
        2,
    ),
];

/// What comes of so much that is withheld, where the token is on this cell.
fn withheld(rt: &impl Abort, alloc: Global, at: Cell, revenue: u8) -> Outcome {
    let mut desk = opened(rt, alloc, 0, at);
    keep(rt, alloc, &mut desk, revenue);
    outcome(&desk, &roster(rt, alloc, ROSTER))
}

/// Whether PRR has what is withheld, its token is on that cell, and so many entries are added.
fn is_withheld(rt: &impl Abort, alloc: Global, row: &Row) -> bool {
    let (at, revenue, cell, entries) = row;
    let (money, token, added) = withheld(rt, alloc, *at, *revenue);
    let right = money[1] == 1200 && money[3] == i64::from(*revenue);
    right && token == Some(*cell) && added == *entries
}

fn are_withheld(rt: &impl Abort, alloc: Global, rows: &[Row]) -> bool {
    for row in rows {
        if !is_withheld(rt, alloc, row) {
            return false;
        }
    }
    true
}

#[test]
fn what_is_withheld_goes_to_the_corporation(rt: HostRuntime) {
    assert!(rt; are_withheld(&rt, rt.alloc(), &WITHHELD));
}

/// Whether the first entry is a pay-out's words, and the sixth those of a withholding.
fn are_words_first(entries: &[Entry]) -> bool {
    matches!(
        entries,
        [
            Entry::Step(Marker::Act(Act::PayOut { .. })),
            _,
            _,
            _,
            _,
            Entry::Step(Marker::Act(Act::Hold { .. })),
            ..,
        ]
    )
}

#[test]
fn words_come_first(rt: HostRuntime) {
    let alloc = rt.alloc();
    let mut desk = opened(&rt, alloc, 0, Cell { row: 1, column: 0 });
    pay(&rt, alloc, &mut desk);
    keep(&rt, alloc, &mut desk, 0);
    assert!(rt; are_words_first(desk.entries().as_slice()));
}

/// The number of the refusal of a pay-out, or 0.
fn pay_fault(revenue: i64) -> u8 {
    number_of(judge_pay(Money(revenue)))
}

#[test]
fn nothing_is_not_paid_out(rt: HostRuntime) {
    assert!(rt; pay_fault(10) == 0 && pay_fault(0) == 42);
}

#[test]
fn laws_are_called(_rt: HostRuntime) {
    worked_dividends();
    worked_moves();
    entries_are_these();
    pays_each_holder();
    nobody_is_paid_for_the_offering();
    withholding_pays_the_corporation();
    dividends_move_tokens();
}
