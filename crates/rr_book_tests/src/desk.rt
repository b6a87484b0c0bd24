use crate::opening::{self, check, leave};
use rr_books::{
    Cell, Cert, Corp, Entry, Kind, Marker, Money, Party, Place, Private, Seat, ShareNumber, Train,
};
use rr_desk::{
    Desk, Entries, Position, dollars, give_lowest_share, left_of, lowest_share, pay_incomes,
};
use std::process::Abort;

const A: Seat = Seat(0);

const FIRST: Train = Train {
    kind: Kind::Two,
    number: 1,
};

/// What the seat `A` has.
fn cash(position: &Position) -> i64 {
    position.books().balance(Party::Seat(A)).0
}

/// The seat `A` pays the bank.
fn pay(rt: &impl Abort, desk: &mut Desk, amount: u16) {
    desk.push(Entry::Pay {
        from: Party::Seat(A),
        to: Party::Bank,
        amount: Money(i64::from(amount)),
    })
    .expect(rt, "a payment");
}

fn give(rt: &impl Abort, desk: &mut Desk, cert: Cert, to: Place) {
    desk.push(Entry::Move { cert, to }).expect(rt, "a gift");
}

fn give_train(rt: &impl Abort, desk: &mut Desk, train: Train, to: Place) {
    assert!(rt; desk.books().has_train(train));
    desk.push(Entry::Train { train, to }).expect(rt, "a train");
}

fn begin_stock_round(rt: &impl Abort, desk: &mut Desk) {
    desk.push(Entry::Step(Marker::Stock)).expect(rt, "a step");
}

fn mark(rt: &impl Abort, desk: &mut Desk, cell: Cell) {
    let corp = Corp::Prr;
    desk.push(Entry::Mark { corp, cell }).expect(rt, "a mark");
}

fn pay_all_incomes(rt: &(impl Abort + AllocGlobal), desk: &mut Desk) {
    pay_incomes(desk, &opening::roster(rt)).expect(rt, "incomes");
}

#[test]
fn pays_and_steps(rt: HostRuntime) {
    let rt = &rt;
    let mut desk = opening::desk(rt);
    pay(rt, &mut desk, 200);
    begin_stock_round(rt, &mut desk);
    let position = leave(
        rt,
        desk,
        0,
        "[Pay { from: Seat(Seat(0)), to: Bank, amount: Money(200) }, Step(Stock)]",
    );
    check(rt, "cash", cash(&position), 1000);
}

#[test]
fn marks(rt: HostRuntime) {
    let rt = &rt;
    let mut desk = opening::desk(rt);
    mark(rt, &mut desk, Cell { row: 2, column: 6 });
    let _position = leave(
        rt,
        desk,
        0,
        "[Mark { corp: Prr, cell: Cell { row: 2, column: 6 } }]",
    );
}

#[test]
fn gives_the_lowest_share(rt: HostRuntime) {
    let rt = &rt;
    let mut desk = opening::desk(rt);
    let given = give_lowest_share(&mut desk, Corp::Erie, Place::Offer, Place::Seat(A));
    check(rt, "share", given, Ok(()));
    let position = leave(
        rt,
        desk,
        0,
        "[Move { cert: Share(Erie, One), to: Seat(Seat(0)) }]",
    );
    let books = position.books();
    let next_and_percent = (
        lowest_share(books, Corp::Erie, Place::Offer),
        books.share(Place::Seat(A), Corp::Erie),
    );
    let next = Cert::Share(Corp::Erie, ShareNumber::Two);
    check(rt, "next share", next_and_percent, (Some(next), 10));
}

#[test]
fn gives_a_certificate_and_a_train(rt: HostRuntime) {
    let rt = &rt;
    let mut desk = opening::desk(rt);
    let president = Cert::President(Corp::Erie);
    give(rt, &mut desk, president, Place::Pool);
    give_train(rt, &mut desk, FIRST, Place::Corp(Corp::Nyc));
    let position = leave(
        rt,
        desk,
        0,
        "[Move { cert: President(Erie), to: Pool }, Train { train: Train { kind: Two, number: 1 }, to: Corp(Nyc) }]",
    );
    let books = position.books();
    let holders = (books.holder(president), books.train_holder(FIRST));
    let nyc = Place::Corp(Corp::Nyc);
    check(rt, "holders", holders, (Place::Pool, Some(nyc)));
}

#[test]
fn an_amount_of_dollars_is_money(rt: HostRuntime) {
    let rt = &rt;
    check(rt, "nothing", dollars(0), Money(0));
    check(rt, "dollars", dollars(600), Money(600));
    check(
        rt,
        "the most",
        dollars(10_000_000_000),
        Money(10_000_000_000),
    );
}

#[test]
fn pays_the_incomes(rt: HostRuntime) {
    let rt = &rt;
    let mut desk = opening::desk(rt);
    give(rt, &mut desk, Cert::Private(Private::Dh), Place::Seat(A));
    let prr = Place::Corp(Corp::Prr);
    give(rt, &mut desk, Cert::Private(Private::Sv), prr);
    pay_all_incomes(rt, &mut desk);
    let position = leave(
        rt,
        desk,
        0,
        "[Move { cert: Private(Dh), to: Seat(Seat(0)) }, Move { cert: Private(Sv), to: Corp(Prr) }, Pay { from: Bank, to: Corp(Prr), amount: Money(5) }, Pay { from: Bank, to: Seat(Seat(0)), amount: Money(15) }]",
    );
    check(rt, "cash", cash(&position), 1215);
}

#[test]
fn the_first_seat_is_on_the_left_of_the_last(rt: HostRuntime) {
    let rt = &rt;
    check(rt, "left", left_of(A, 3), Seat(1));
    check(rt, "left of the last", left_of(Seat(2), 3), A);
}

#[test]
fn a_payment_of_more_than_a_seat_has_leaves_it_with_less_than_nothing(rt: HostRuntime) {
    let rt = &rt;
    let mut desk = opening::desk(rt);
    pay(rt, &mut desk, 1201);
    let position = leave(
        rt,
        desk,
        0,
        "[Pay { from: Seat(Seat(0)), to: Bank, amount: Money(1201) }]",
    );
    check(rt, "cash", cash(&position), -1);
}

#[test]
fn the_market_and_the_rounds_follow(rt: HostRuntime) {
    let rt = &rt;
    let mut desk = opening::desk(rt);
    let cell = Cell { row: 2, column: 6 };
    mark(rt, &mut desk, cell);
    begin_stock_round(rt, &mut desk);
    let position = *desk.position();
    drop(desk);
    let found = (
        position.market().cell(Corp::Prr),
        position.rounds().is_under_way(),
    );
    check(rt, "cell and stock round", found, (Some(cell), true));
}

#[test]
fn entries_begin_empty(rt: HostRuntime) {
    let rt = &rt;
    let mut entries = Entries::new(rt.alloc());
    check(rt, "entries", entries.as_slice().len(), 0);
    let stock = Entry::Step(Marker::Stock);
    check(rt, "push", entries.push(stock), Ok(()));
    check(rt, "entries", entries.as_slice().len(), 1);
    drop(entries);
}
