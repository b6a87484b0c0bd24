//! Operating rounds of two corporations, by entries made by hand.
ghost use Rattle.rr_books.specs.State.{Fits};

use crate::opening::{self, check};
use rr_books::{Act, Books, Cell, Corp, Entry, Kind, Marker, Money, Party, Place, Train, Words};
use rr_market::Market;
use rr_market::operations::laws::{
    bankruptcies_are_remembered, debts_are_remembered, due_stays, sets_keep_their_length,
    steps_never_go_back, turns_are_of_their_round, turns_come_once, worked_round,
};
use rr_market::operations::{Operations, Stage, TurnStep, is_sold, phase, rounds_in_set};
use rr_roster::chart::Chart;
use rr_rounds::Rounds;
use rr_words::HexName;
use std::process::Abort;

const PRR: Corp = Corp::Prr;

const NYC: Corp = Corp::Nyc;

/// What an entry says.
#[derive(Clone, Copy)]
enum Event {
    Stock,
    Operating,
    /// The bank pays the PRR so much.
    Pay(u16),
    /// The corporation's token goes to a column.
    Mark(Corp, u8),
    Lay,
    Station,
    Run,
    RunBest,
    PayOut,
    Hold,
    End(Corp),
}

use Event::{End, Hold, Lay, Mark, Operating, Pay, PayOut, Run, RunBest, Station, Stock};

fn words(rt: &(impl Abort + AllocGlobal)) -> Words {
    Words::of(rt.alloc(), b"2=1-2").expect(rt, "memory")
}

fn hex(rt: &impl Abort) -> HexName {
    HexName::read(b"A").expect(rt, "a hex")
}

/// The event's entry, which the books can take.
fn entry(rt: &(impl Abort + AllocGlobal), _books: &Books, event: Event) -> Entry
    ensures { Fits _books.now result }
{
    match event {
        Stock => Entry::Step(Marker::Stock),
        Operating => Entry::Step(Marker::Operating),
        Pay(amount) => Entry::Pay {
            from: Party::Bank,
            to: Party::Corp(PRR),
            amount: Money(i64::from(amount)),
        },
        Mark(corp, column) => Entry::Mark {
            corp,
            cell: Cell { row: 0, column },
        },
        other => Entry::Step(Marker::Act(command(rt, other))),
    }
}

/// The command of an event; another event is none, and taken for the end of the NYC's turn.
fn command(rt: &(impl Abort + AllocGlobal), event: Event) -> Act {
    match event {
        Lay => Act::Lay {
            corp: PRR,
            hex: hex(rt),
            tile: 7,
            turn: 0,
        },
        Station => Act::Station {
            corp: PRR,
            hex: hex(rt),
            centre: 1,
        },
        Run => Act::Run {
            corp: PRR,
            sheet: words(rt),
        },
        RunBest => Act::RunBest {
            corp: PRR,
            sheet: words(rt),
            certificate: words(rt),
        },
        PayOut => Act::PayOut { corp: PRR },
        Hold => Act::Hold { corp: PRR },
        End(corp) => Act::End { corp },
        _ => Act::End { corp: NYC },
    }
}

/// A table of two, whose PRR and NYC have floated.
#[derive(Clone, Copy)]
struct Table {
    books: Books,
    market: Market,
    rounds: Rounds,
    operations: Operations,
}

fn opened(rt: &(impl Abort + AllocGlobal)) -> Table {
    Table {
        books: opening::books(rt, 2),
        market: Market::new(),
        rounds: floated(),
        operations: Operations::open(2),
    }
}

fn floated() -> Rounds {
    let mut rounds = Rounds::open(2);
    rounds.follow(&Entry::Step(Marker::Float(PRR)));
    rounds.follow(&Entry::Step(Marker::Float(NYC)));
    rounds
}

/// The table after these events. The books stay as they are.
fn after(rt: &(impl Abort + AllocGlobal), table: Table, events: &[Event]) -> Table {
    let mut next = table;
    for event in events {
        next = after_one(rt, next, *event);
    }
    next
}

fn after_one(rt: &(impl Abort + AllocGlobal), table: Table, event: Event) -> Table {
    let entry = entry(rt, &table.books, event);
    let next = Table {
        books: table.books,
        market: market_after(table.market, &entry),
        rounds: table.rounds,
        operations: follow(rt, &table, &entry),
    };
    drop(entry);
    next
}

fn market_after(market: Market, entry: &Entry) -> Market {
    let mut next = market;
    next.follow(entry);
    next
}

fn follow(rt: &impl Abort, table: &Table, entry: &Entry) -> Operations
    requires { Fits table.now.books entry.now }
{
    let mut next = table.operations;
    assert!(rt; next.set() < 1000);
    assert!(rt; next.round() < 1000);
    next.follow(entry, &table.books, &table.market, &table.rounds);
    next
}

/// The table whose train of the kind is the PRR's.
fn with_train(rt: &impl Abort, table: Table, kind: Kind) -> Table {
    let mut books = table.books;
    books
        .give_train(Train { kind, number: 1 }, Place::Corp(PRR))
        .expect(rt, "a train of the roster");
    Table {
        books,
        market: table.market,
        rounds: table.rounds,
        operations: table.operations,
    }
}

/// Which set it is, which of its rounds, and how many it has.
fn round(table: &Table) -> (u64, u64, u8) {
    let operations = &table.operations;
    (
        operations.set(),
        operations.round(),
        operations.set_length(),
    )
}

fn has_more(table: &Table) -> bool {
    table.operations.has_more_rounds()
}

fn stage(table: &Table) -> Stage {
    table.operations.stage()
}

/// The step of the turn, and whether the trains ran in it.
fn turn(table: &Table) -> (TurnStep, bool) {
    (table.operations.step(), table.operations.has_run())
}

/// Stops where another corporation is due.
fn check_due(rt: &(impl Abort + AllocGlobal), table: &Table, wanted: Option<Corp>) {
    let chart = Chart::read(rt.alloc(), "60 70p 80 90\n").expect(rt, "a right chart");
    check(rt, "due", table.operations.due(&chart), wanted);
}

/// Which of the PRR and the NYC had its turn.
fn turns(table: &Table) -> (bool, bool) {
    (
        table.operations.had_turn(PRR),
        table.operations.had_turn(NYC),
    )
}

/// An operating round has begun, the PRR at 80 and the NYC at 70.
fn begun(rt: &(impl Abort + AllocGlobal)) -> Table {
    after(
        rt,
        opened(rt),
        &[Stock, Mark(PRR, 2), Mark(NYC, 1), Operating],
    )
}

#[test]
fn a_table_opens_with_its_auction(rt: HostRuntime) {
    let rt = &rt;
    let table = opened(rt);
    check(rt, "stage", stage(&table), Stage::Auction);
    check(rt, "round", round(&table), (0, 0, 0));
    check_due(rt, &table, None);
}

#[test]
fn corporations_are_due_in_operating_order(rt: HostRuntime) {
    let rt = &rt;
    let table = begun(rt);
    check(rt, "stage", stage(&table), Stage::Operating);
    check(rt, "round", round(&table), (1, 1, 1));
    check_due(rt, &table, Some(PRR));
    let table = after(rt, table, &[End(PRR)]);
    check_due(rt, &table, Some(NYC));
    check(rt, "turns", turns(&table), (true, false));
    let table = after(rt, table, &[End(NYC)]);
    check_due(rt, &table, None);
}

#[test]
fn a_mark_within_a_turn_counts_from_the_next_turn(rt: HostRuntime) {
    let rt = &rt;
    let table = after(rt, begun(rt), &[Hold, Mark(PRR, 0)]);
    check_due(rt, &table, Some(PRR));
    let table = after(rt, table, &[End(PRR), End(NYC), Operating]);
    check_due(rt, &table, Some(NYC));
    check(rt, "turns", turns(&table), (false, false));
}

#[test]
fn nobody_is_due_in_a_stock_round(rt: HostRuntime) {
    let rt = &rt;
    let table = after(rt, begun(rt), &[Stock]);
    check(rt, "stage", stage(&table), Stage::Stock);
    check_due(rt, &table, None);
}

/// The table after an event, at the step that is wanted of the turn, whose trains ran in it or did not.
fn at_step(
    rt: &(impl Abort + AllocGlobal),
    table: Table,
    event: Event,
    wanted: (TurnStep, bool),
) -> Table {
    let next = after_one(rt, table, event);
    check(rt, "step", turn(&next), wanted);
    next
}

#[test]
fn the_steps_of_a_turn_come_in_order(rt: HostRuntime) {
    let rt = &rt;
    let table = begun(rt);
    check(rt, "begun", turn(&table), (TurnStep::Lay, false));
    let table = at_step(rt, table, Lay, (TurnStep::Station, false));
    let table = at_step(rt, table, Station, (TurnStep::Run, false));
    let table = at_step(rt, table, Run, (TurnStep::Pay, true));
    let table = at_step(rt, table, PayOut, (TurnStep::Train, true));
    let _ended = at_step(rt, table, End(PRR), (TurnStep::Lay, false));
}

#[test]
fn a_run_and_a_withholding_may_come_first(rt: HostRuntime) {
    let rt = &rt;
    let _ran = at_step(rt, begun(rt), RunBest, (TurnStep::Pay, true));
    let _held = at_step(rt, begun(rt), Hold, (TurnStep::Train, false));
}

#[test]
fn a_set_has_the_rounds_of_the_phase_in_which_it_begins(rt: HostRuntime) {
    let rt = &rt;
    let table = with_train(rt, opened(rt), Kind::Three);
    let table = after(rt, table, &[Stock, Operating]);
    check(rt, "first", round(&table), (1, 1, 2));
    check(rt, "more", has_more(&table), true);
    let table = after(rt, with_train(rt, table, Kind::Five), &[Operating]);
    check(rt, "second", round(&table), (1, 2, 2));
    check(rt, "no more", has_more(&table), false);
    let table = after(rt, table, &[Stock, Operating]);
    check(rt, "next set", round(&table), (2, 1, 3));
}

#[test]
fn the_bank_has_owed_once_its_balance_was_negative(rt: HostRuntime) {
    let rt = &rt;
    // The bank of a table of two has 9,600.
    let roster = opening::roster(rt);
    let table = after(rt, opened(rt), &[Pay(9600)]);
    check(rt, "spent", table.operations.bank_owed(&roster), false);
    let table = after(rt, table, &[Pay(9601), Pay(0), Stock]);
    check(rt, "owed", table.operations.bank_owed(&roster), true);
}

fn takes(rt: &(impl Abort + AllocGlobal), step: TurnStep, event: Event) -> bool {
    let command = command(rt, event);
    let takes = step.takes(&command);
    drop(command);
    takes
}

/// Steps of a turn and events, and whether the step takes the event's command.
static TAKEN: [(TurnStep, Event, bool); 9] = [
    (TurnStep::Lay, Lay, true),
    (TurnStep::Station, Lay, false),
    (TurnStep::Lay, Station, true),
    (TurnStep::Run, Run, true),
    (TurnStep::Pay, Run, false),
    (TurnStep::Run, PayOut, false),
    (TurnStep::Run, Hold, true),
    (TurnStep::Pay, End(PRR), false),
    (TurnStep::Train, End(PRR), true),
];

#[test]
fn steps_take_their_commands(rt: HostRuntime) {
    let rt = &rt;
    for (case, &(step, event, wanted)) in TAKEN.iter().enumerate() {
        check(rt, "takes", (case, takes(rt, step, event)), (case, wanted));
    }
}

#[test]
fn the_phase_is_that_of_the_greatest_train_sold(rt: HostRuntime) {
    let rt = &rt;
    let books = with_train(rt, opened(rt), Kind::Four).books;
    check(rt, "phase", phase(&books), Kind::Four);
    check(rt, "sold", is_sold(&books, Kind::Five), false);
    check(rt, "rounds", rounds_in_set(Kind::Four), 2);
}

#[test]
fn laws() {
    steps_never_go_back();
    due_stays();
    turns_are_of_their_round();
    turns_come_once();
    sets_keep_their_length();
    debts_are_remembered();
    bankruptcies_are_remembered();
    worked_round();
}
