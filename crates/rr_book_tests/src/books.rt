use crate::opening::{self, check};
use rr_books::laws::money_is_kept;
use rr_books::{
    Books, Cert, Corp, Kind, Money, Names, Party, Place, Private, Refusal, Seat, ShareNumber,
    Train, Words, certificate_limit, starting_money,
};
use rr_words::Name;
use std::process::Abort;

const A: Party = Party::Seat(Seat(0));

const B: Party = Party::Seat(Seat(1));

const PRR: Party = Party::Corp(Corp::Prr);

const LAST_FOUR: Train = Train {
    kind: Kind::Four,
    number: 4,
};

const NO_FOUR: Train = Train {
    kind: Kind::Four,
    number: 5,
};

fn balance(books: &Books, party: Party) -> i64 {
    books.balance(party).0
}

/// What the party has, at a table of the usual numbers.
fn cash(rt: &(impl Abort + AllocGlobal), books: &Books, party: Party) -> i64 {
    books.money(party, &opening::roster(rt)).0
}

fn cash_and_balance(rt: &(impl Abort + AllocGlobal), books: &Books, party: Party) -> (i64, i64) {
    (cash(rt, books, party), balance(books, party))
}

/// How many players there are, and how many payments there were.
fn counts(books: &Books) -> (u8, u32) {
    (books.players(), books.payments())
}

fn pay(
    rt: &impl Abort,
    books: &mut Books,
    from: Party,
    to: Party,
    amount: u16,
) -> Result<(), Refusal> {
    assert!(rt; books.payments() < 100);
    books.pay(from, to, Money(i64::from(amount)))
}

fn give(books: &mut Books, cert: Cert, to: Place) -> Result<(), Refusal> {
    books.give(cert, to)
}

fn give_train(books: &mut Books, train: Train, to: Place) -> Result<(), Refusal> {
    books.give_train(train, to)
}

fn holder(books: &Books, cert: Cert) -> Place {
    books.holder(cert)
}

fn train_holder(books: &Books, train: Train) -> Option<Place> {
    books.train_holder(train)
}

/// For each number of players: the most certificates of a player, and the money for the start.
static LIMITS: [(u8, u8, i64); 5] = [
    (2, 28, 1200),
    (3, 20, 800),
    (4, 16, 600),
    (5, 13, 480),
    (6, 11, 400),
];

#[test]
fn each_player_has_the_money_for_the_start(rt: HostRuntime) {
    let rt = &rt;
    for &(players, _, money) in &LIMITS {
        let books = opening::books(rt, players);
        let found = (
            cash_and_balance(rt, &books, A),
            cash_and_balance(rt, &books, Party::Bank),
            counts(&books),
        );
        let paid = (players, u32::from(players));
        check(rt, "table", found, ((money, money), (9600, -2400), paid));
    }
}

#[test]
fn a_seat_beyond_the_last_has_no_money(rt: HostRuntime) {
    let rt = &rt;
    let books = opening::books(rt, 4);
    check(rt, "cash", cash(rt, &books, Party::Seat(Seat(4))), 0);
}

#[test]
fn limits_follow_the_number_of_players(rt: HostRuntime) {
    let rt = &rt;
    for &(players, limit, money) in &LIMITS {
        let found = (certificate_limit(players), starting_money(players));
        check(rt, "limit and money", found, (limit, Money(money)));
    }
}

/// A payer, a payee and an amount; what comes of it, what the two have then, and how many payments there were.
static PAYMENTS: [(Party, Party, u16, Result<(), Refusal>, i64, i64, u32); 4] = [
    (A, PRR, 600, Ok(()), 0, 600, 5),
    (B, B, 600, Ok(()), 600, 600, 6),
    (Party::Bank, A, 9601, Ok(()), -1, 9601, 7),
    (PRR, A, 601, Err(Refusal::TooLittleCash), 600, 9601, 7),
];

#[test]
fn a_payer_has_what_it_pays(rt: HostRuntime) {
    let rt = &rt;
    let mut books = opening::books(rt, 4);
    for &(from, to, amount, result, left, got, payments) in &PAYMENTS {
        let paid = pay(rt, &mut books, from, to, amount);
        let found = (
            paid,
            cash(rt, &books, from),
            cash(rt, &books, to),
            counts(&books),
        );
        check(rt, "payment", found, (result, left, got, (4, payments)));
    }
    check(
        rt,
        "bank",
        [Party::Bank.is_bank(), PRR.is_bank()],
        [true, false],
    );
}

#[test]
fn nobody_else_pays(rt: HostRuntime) {
    let rt = &rt;
    let mut books = opening::books(rt, 3);
    let nobody = Party::Seat(Seat(3));
    let parties = [books.has_party(A), books.has_party(nobody)];
    check(rt, "parties", parties, [true, false]);
    check(
        rt,
        "payment",
        pay(rt, &mut books, A, nobody, 9999),
        Err(Refusal::NoSuchName),
    );
}

fn gift(rt: &impl Abort, books: &mut Books, cert: Cert, to: Place) {
    give(books, cert, to).expect(rt, "a gift");
}

#[test]
fn a_president_and_two_shares_are_40_percent(rt: HostRuntime) {
    let rt = &rt;
    let mut books = opening::books(rt, 3);
    let seat = Place::Seat(Seat(2));
    gift(rt, &mut books, Cert::President(Corp::Prr), seat);
    let first = Cert::Share(Corp::Prr, ShareNumber::One);
    gift(rt, &mut books, first, seat);
    let last = Cert::Share(Corp::Prr, ShareNumber::Eight);
    gift(rt, &mut books, last, seat);
    let shares = (
        books.share(seat, Corp::Prr),
        books.counted(Seat(2), Corp::Prr),
        books.president(Corp::Prr),
    );
    check(rt, "shares", shares, (40, 3, Some(Seat(2))));
    check(
        rt,
        "another share",
        holder(&books, Cert::Share(Corp::Nyc, ShareNumber::One)),
        Place::Offer,
    );
}

#[test]
fn all_is_offered_at_first(rt: HostRuntime) {
    let rt = &rt;
    let books = opening::books(rt, 3);
    check(rt, "share", books.share(Place::Offer, Corp::Prr), 100);
    check(rt, "president", books.president(Corp::Prr), None);
}

#[test]
fn nobody_else_gets_a_certificate(rt: HostRuntime) {
    let rt = &rt;
    let mut books = opening::books(rt, 3);
    let nobody = Place::Seat(Seat(3));
    let last = Place::Seat(Seat(2));
    let places = [books.has_place(last), books.has_place(nobody)];
    check(rt, "places", places, [true, false]);
    check(
        rt,
        "gift",
        give(&mut books, Cert::Private(Private::Sv), nobody),
        Err(Refusal::NoSuchName),
    );
}

#[test]
fn trains_are_those_of_the_roster(rt: HostRuntime) {
    let rt = &rt;
    let books = opening::books(rt, 3);
    check(rt, "4s", books.train_count(Kind::Four), 4);
    check(rt, "Ds", books.train_count(Kind::Diesel), 6);
    let trains = [books.has_train(LAST_FOUR), books.has_train(NO_FOUR)];
    check(rt, "trains", trains, [true, false]);
}

#[test]
fn no_other_train_goes_to_a_place(rt: HostRuntime) {
    let rt = &rt;
    let mut books = opening::books(rt, 3);
    check(
        rt,
        "holder",
        train_holder(&books, LAST_FOUR),
        Some(Place::Offer),
    );
    check(rt, "holder of none", train_holder(&books, NO_FOUR), None);
    let bm = Place::Corp(Corp::Bm);
    check(rt, "gift", give_train(&mut books, LAST_FOUR, bm), Ok(()));
    check(rt, "holder", train_holder(&books, LAST_FOUR), Some(bm));
    check(
        rt,
        "gift of none",
        give_train(&mut books, NO_FOUR, Place::Gone),
        Err(Refusal::NoSuchName),
    );
}

/// The names of ann and bob.
fn names(rt: &(impl Abort + AllocGlobal)) -> Names {
    let mut names = Names::new(rt.alloc());
    for letters in [b"ann", b"bob"] {
        let name = Name::player(letters).expect(rt, "a player's name");
        names.push(name).expect(rt, "memory");
    }
    names
}

#[test]
fn words_are_copied(rt: HostRuntime) {
    let rt = &rt;
    let sheet = Words::of(rt.alloc(), b"2 1>2").expect(rt, "memory");
    let copy = sheet.copy().expect(rt, "memory");
    check(rt, "bytes of the copy", copy.as_bytes(), sheet.as_bytes());
    drop(copy);
    drop(sheet);
}

#[test]
fn names_are_seated_in_turn(rt: HostRuntime) {
    let rt = &rt;
    let names = names(rt);
    check(rt, "names", names.as_slice().len(), 2);
    drop(names);
}

#[test]
fn shares_are_numbered_from_1_to_8(rt: HostRuntime) {
    let rt = &rt;
    check(rt, "number", ShareNumber::One.number(), 1);
    check(rt, "count", ShareNumber::ALL.len(), 8);
}

#[test]
fn laws_are_called() {
    money_is_kept();
}
