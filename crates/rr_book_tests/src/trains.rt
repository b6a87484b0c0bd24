use crate::opening::{self, check, check_entries, leave};
use rr_books::{Books, Cert, Corp, Entry, Kind, Money, Place, Private, Seat, Train, TrainSource};
use rr_desk::Desk;
use rr_trains::laws::{
    cheapest_leads, phase_is_the_greatest_sold, worked_diesel, worked_first_five,
    worked_first_four, worked_tie,
};
use rr_trains::{
    TrainOnSale, cheapest, first_train, give_lowest_train, has_train_at, is_on_sale,
    is_over_train_limit, is_traded_in, lowest_train, price, sells_privates, trade_price,
    train_limit, trains_at, trains_held,
};
use std::process::Abort;

const ERIE: Place = Place::Corp(Corp::Erie);

fn give(rt: &impl Abort, books: &mut Books, kind: Kind, number: u8, to: Place) {
    books
        .give_train(Train { kind, number }, to)
        .expect(rt, "a train of the roster");
}

/// Moves the 2 of this number.
fn move_two(rt: &impl Abort, desk: &mut Desk, number: u8, to: Place) {
    let kind = Kind::Two;
    let train = Train { kind, number };
    assert!(rt; desk.books().has_train(train));
    desk.push(Entry::Train { train, to }).expect(rt, "memory");
}

fn move_private(rt: &impl Abort, desk: &mut Desk, private: Private, to: Place) {
    desk.push(Entry::Move {
        cert: Cert::Private(private),
        to,
    })
    .expect(rt, "memory");
}

/// The books of a table of two whose trains of these kinds have all been sold to the PRR.
fn table(rt: &(impl Abort + AllocGlobal), sold: &[Kind]) -> Books {
    let mut books = opening::books(rt, 2);
    for kind in sold {
        for number in 1..=books.train_count(*kind) {
            give(rt, &mut books, *kind, number, Place::Corp(Corp::Prr));
        }
    }
    books
}

/// Checks the entries of a corporation's first train of a kind, behind the earlier ones.
fn check_first(rt: &(impl Abort + AllocGlobal), desk: Desk, kind: Kind, corp: Corp, wanted: &str) {
    let mut desk = desk;
    let earlier = desk.entries().as_slice().len();
    bring_about(rt, &mut desk, kind, corp);
    let _position = leave(rt, desk, earlier, wanted);
}

fn bring_about(rt: &impl Abort, desk: &mut Desk, kind: Kind, corp: Corp) {
    first_train(desk, true, kind, corp).expect(rt, "memory");
}

fn buy(rt: &impl Abort, desk: &mut Desk, kind: Kind, corp: Corp) {
    give_lowest_train(desk, kind, Place::Offer, Place::Corp(corp)).expect(rt, "memory");
}

#[test]
fn six_trains_are_too_many(rt: HostRuntime) {
    let rt = &rt;
    let books = table(rt, &[Kind::Two]);
    let too_many = [
        is_over_train_limit(&books, Corp::Prr),
        is_over_train_limit(&books, Corp::Nyc),
    ];
    check(rt, "too many", too_many, [true, false]);
}

#[test]
fn what_the_phase_says(rt: HostRuntime) {
    let rt = &rt;
    check(rt, "limit", train_limit(Kind::Four), 3);
    check(rt, "privates", sells_privates(Kind::Four), true);
}

#[test]
fn trains_at_a_place(rt: HostRuntime) {
    let rt = &rt;
    let mut books = table(rt, &[]);
    give(rt, &mut books, Kind::Two, 3, ERIE);
    give(rt, &mut books, Kind::Two, 2, ERIE);
    give(rt, &mut books, Kind::Five, 1, ERIE);
    let found = (
        has_train_at(&books, ERIE, Kind::Five),
        trains_at(&books, ERIE, Kind::Two),
        trains_held(&books, ERIE),
    );
    check(rt, "a 5, 2s and trains", found, (true, 2, 3));
    let lowest = [
        lowest_train(&books, ERIE, Kind::Two),
        lowest_train(&books, ERIE, Kind::Three),
    ];
    let kind = Kind::Two;
    let two = Train { kind, number: 2 };
    check(rt, "lowest", lowest, [Some(two), None]);
}

#[test]
fn the_cheapest_train_is_on_sale(rt: HostRuntime) {
    let rt = &rt;
    let roster = opening::roster(rt);
    let mut books = table(rt, &[Kind::Two, Kind::Three]);
    let on_sale = [
        is_on_sale(&books, Kind::Four, TrainSource::Bank),
        is_on_sale(&books, Kind::Five, TrainSource::Bank),
    ];
    check(rt, "on sale", on_sale, [true, false]);
    give(rt, &mut books, Kind::Four, 1, Place::Pool);
    let kind = Kind::Four;
    let source = TrainSource::Bank;
    let wanted = Some(TrainOnSale { kind, source });
    check(rt, "cheapest", cheapest(&books, &roster), wanted);
    give(rt, &mut books, Kind::Three, 5, Place::Pool);
    let kind = Kind::Three;
    let source = TrainSource::Pool;
    let wanted = Some(TrainOnSale { kind, source });
    check(rt, "cheaper", cheapest(&books, &roster), wanted);
}

#[test]
fn what_trains_cost(rt: HostRuntime) {
    let rt = &rt;
    let roster = opening::roster(rt);
    check(rt, "price", price(&roster, Kind::Three), Money(180));
    check(rt, "trade price", trade_price(&roster), Money(800));
    let traded_in = [is_traded_in(Kind::Six), is_traded_in(Kind::Three)];
    check(rt, "traded in", traded_in, [true, false]);
}

#[test]
fn the_first_four(rt: HostRuntime) {
    let rt = &rt;
    let mut desk = opening::desk(rt);
    move_two(rt, &mut desk, 1, Place::Gone);
    move_two(rt, &mut desk, 2, Place::Pool);
    move_two(rt, &mut desk, 3, Place::Corp(Corp::Prr));
    buy(rt, &mut desk, Kind::Four, Corp::Erie);
    check_entries(
        rt,
        desk.entries().as_slice(),
        3,
        "[Train { train: Train { kind: Four, number: 1 }, to: Corp(Erie) }]",
    );
    check_first(
        rt,
        desk,
        Kind::Four,
        Corp::Erie,
        "[Train { train: Train { kind: Two, number: 2 }, to: Gone }, Train { train: Train { kind: Two, number: 3 }, to: Gone }, Train { train: Train { kind: Two, number: 4 }, to: Gone }, Train { train: Train { kind: Two, number: 5 }, to: Gone }, Train { train: Train { kind: Two, number: 6 }, to: Gone }]",
    );
}

#[test]
fn the_first_five_is_the_first_train_of_the_bo(rt: HostRuntime) {
    let rt = &rt;
    let mut desk = opening::desk(rt);
    move_private(rt, &mut desk, Private::Mh, Place::Gone);
    move_private(rt, &mut desk, Private::Bo, Place::Seat(Seat(1)));
    check_first(
        rt,
        desk,
        Kind::Five,
        Corp::Bo,
        "[Move { cert: Private(Sv), to: Gone }, Move { cert: Private(Csl), to: Gone }, Move { cert: Private(Dh), to: Gone }, Move { cert: Private(Ca), to: Gone }, Move { cert: Private(Bo), to: Gone }]",
    );
}

#[test]
fn laws_are_called() {
    phase_is_the_greatest_sold();
    cheapest_leads();
    worked_first_four();
    worked_first_five();
    worked_diesel();
    worked_tie();
}
