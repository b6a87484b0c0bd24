//! Books as plain values and as bytes, each worked by hand.
use crate::opening::{self, check};
use rr_books::{Books, BooksParts, Cert, Corp, Money, Party, Place, Private, Seat};
use rr_words::spelling::{Cursor, Spell};
use std::alloc::{AllocError, Global};
use std::process::Abort;

/// The plain values of a table of two players, of which the second has the B&O's private.
fn parts(rt: &(impl Abort + AllocGlobal)) -> BooksParts {
    let mut books = opening::books(rt, 2);
    let given = books.give(Cert::Private(Private::Bo), Place::Seat(Seat(1)));
    assert!(rt; given == Ok(()));
    books.parts()
}

fn can_be(parts: BooksParts) -> bool {
    Books::from_parts(parts).is_some()
}

fn spelled(rt: &(impl Abort + AllocGlobal), parts: &BooksParts) -> Vec<u8> {
    let mut bytes = Vec::new(rt.alloc());
    parts.write(&mut bytes).expect(rt, "memory");
    bytes
}

#[test]
fn books_are_told_by_their_parts(rt: HostRuntime) {
    let rt = &rt;
    let parts = parts(rt);
    let [bank, _, _, _, _, _, _, _, _, _, second, beyond, _, _, _] = parts.cash;
    check(rt, "cash", [bank, second, beyond], [-2400, 1200, 0]);
    check(rt, "counts", parts.counts, [6, 5, 4, 3, 2, 6]);
    let payments_and_players = (parts.payments, parts.players);
    check(rt, "payments and players", payments_and_players, (2, 2));
    let places = [parts.places[5], parts.trains[0]];
    check(rt, "places", places, [Place::Seat(Seat(1)), Place::Offer]);
}

/// Of the books of these values: payments, players, the balance of the first seat, and who has the B&O's private.
fn told(parts: BooksParts) -> Option<(u32, u8, Money, Place)> {
    let books = Books::from_parts(parts)?;
    Some((
        books.payments(),
        books.players(),
        books.balance(Party::Seat(Seat(0))),
        books.holder(Cert::Private(Private::Bo)),
    ))
}

#[test]
fn books_come_back_from_their_parts(rt: HostRuntime) {
    let rt = &rt;
    let found = told(parts(rt));
    let holder = Place::Seat(Seat(1));
    check(rt, "books", found, Some((2, 2, Money(1200), holder)));
}

/// Players, payments, a balance, trains of a kind, and whether books can have them.
static VALUES: [(u8, u32, i64, u8, bool); 9] = [
    (2, 2, 20_000_000_000, 20, true),
    (6, 2, -20_000_000_000, 0, true),
    (1, 2, 0, 6, false),
    (7, 2, 0, 6, false),
    (2, 400_000_000, 0, 6, true),
    (2, 400_000_001, 0, 6, false),
    (2, 2, 20_000_000_001, 6, false),
    (2, 2, -20_000_000_001, 6, false),
    (2, 2, 0, 21, false),
];

#[test]
fn no_books_have_values_out_of_bounds(rt: HostRuntime) {
    let rt = &rt;
    let parts = parts(rt);
    for (case, &(players, payments, balance, trains, can)) in VALUES.iter().enumerate() {
        let mut other = parts;
        other.players = players;
        other.payments = payments;
        other.cash[14] = balance;
        other.counts[5] = trains;
        check(rt, "can be", (case, can_be(other)), (case, can));
    }
}

fn read_back(bytes: &[u8]) -> Option<BooksParts> {
    let mut cursor = Cursor::of(bytes);
    BooksParts::read(&mut cursor)
}

/// Stops where other bytes stand behind so many.
fn check_part(rt: &impl Abort, bytes: &[u8], before: usize, part: &[u8]) {
    check(
        rt,
        "part",
        (before, has_part(bytes, before, part)),
        (before, true),
    );
}

fn has_part(bytes: &[u8], before: usize, part: &[u8]) -> bool {
    match bytes.get(before..) {
        Some(rest) => rest.starts_with(part),
        None => false,
    }
}

/// Whether these values are read from the bytes.
fn is_read_from(bytes: &[u8], parts: &BooksParts) -> bool {
    match read_back(bytes) {
        Some(again) => is_same(&again, parts),
        None => false,
    }
}

fn is_same(one: &BooksParts, other: &BooksParts) -> bool {
    one.cash == other.cash
        && one.payments == other.payments
        && one.places == other.places
        && one.trains == other.trains
        && one.players == other.players
        && one.counts == other.counts
}

/// Whether values are read from all bytes but the first one, where there are so many.
fn is_read_without_first(bytes: &[u8]) -> Option<bool> {
    let rest = bytes.get(1..)?;
    Some(read_back(rest).is_some())
}

#[test]
fn books_have_their_bytes(rt: HostRuntime) {
    let rt = &rt;
    let parts = parts(rt);
    let bytes = spelled(rt, &parts);
    // 15 balances of 8 bytes, payments and players, 78 certificates of which one is a seat's, 120 trains, 6 counts.
    check(rt, "length", bytes.len(), 15 * 8 + 4 + 1 + 79 + 120 + 6);
    check_part(rt, &bytes, 0, &[255, 255, 255, 255, 255, 255, 246, 160]);
    check_part(rt, &bytes, 120, &[0, 0, 0, 2, 2]);
    check_part(rt, &bytes, 130, &[3, 1, 0]);
    check(rt, "the same", is_read_from(&bytes, &parts), true);
    check(
        rt,
        "one byte short",
        is_read_without_first(&bytes),
        Some(false),
    );
}

static PLACES: [Place; 5] = [
    Place::Offer,
    Place::Pool,
    Place::Gone,
    Place::Seat(Seat(3)),
    Place::Corp(Corp::Bo),
];

/// The bytes of the places, and behind them those of the fifth seat.
fn spelled_places(alloc: Global) -> Result<Vec<u8>, AllocError> {
    let mut out = Vec::new(alloc);
    for place in &PLACES {
        place.write(&mut out)?;
    }
    Seat(4).write(&mut out)?;
    Ok(out)
}

/// Stops where these aren't the bytes of the places and of the fifth seat.
fn check_places(rt: &impl Abort, bytes: &[u8]) {
    let mut cursor = Cursor::of(bytes);
    for &place in &PLACES {
        check(rt, "place", Place::read(&mut cursor), Some(place));
    }
    check(rt, "seat", Seat::read(&mut cursor), Some(Seat(4)));
}

fn read_place(bytes: &[u8]) -> Option<Place> {
    Place::read(&mut Cursor::of(bytes))
}

#[test]
fn places_and_seats_have_their_bytes(rt: HostRuntime) {
    let rt = &rt;
    let bytes = [0, 1, 2, 3, 3, 4, 3, 4].as_slice();
    let out = spelled_places(rt.alloc()).expect(rt, "memory");
    check(rt, "bytes", out.as_slice(), bytes);
    check_places(rt, bytes);
    check(rt, "no place", read_place(&[5]), None);
}
